//! What a CALL, CREATE or reference reads of the names in bounds of adjustable dummy arrays (X3.9-1978, 5.5.1).
ghost use Rattle.std.specs.Prelude.{◌≡◌, ◌++◌, ℕ, IfOk, List, OnOk, Some, map, option_map, slice_get};
ghost use Rattle.std.specs.Option.{option_to_list};
ghost use Rattle.hep_machine.specs.Words.{Level, Process as SourceProcess, unit_at};
ghost use Rattle.hep_step.specs.NextCalls.{last_operands};
ghost use Rattle.hep_trace.specs.References.{IsAhead, top_after};
ghost use Rattle.hep_views.specs.ListedProcesses.{place_of};
ghost use Rattle.hep_races.specs.NamesInBounds.{AreBoundsOf, bounds_of_unit};
ghost use Rattle.hep_races.specs.BoundReads as words;
ghost use Rattle.hep_races.specs.BoundReads.{IsBoundOf, IsGivenAhead, IsReading, read_bound, top_reading};
ghost use Rattle.hep_races.specs.StepEvents.{AreBoundsRead, access_seen};

use crate::bound_names::{BoundName, BoundNames, BoundSource};
use crate::step_access::{AccessSite, SitedAccess};
use hep_code::{Instruction, Operation};
use hep_source::Value;
use hep_state::laws::{calls_can_be_made, tops_are_running};
use hep_state::{
    activations_are_bound_in_runs, all_actuals_are_passed, calls_are_ahead, place,
    programs_are_closed, units_are_there, variables_of_the_code_are_placed,
};
use hep_step::{ArgumentList, DummyStorage, give_actuals, in_front};
use hep_trace::LiveProcess;
use hep_trace::turn_laws::operations_come_next;
use hep_views::lookup::{place_at, top_level, whereabouts};
use hep_views::{Place, Whereabouts};
use std::alloc::{AllocError, Global};

// The unit that an operation calls, creates or refers to, and the number of its actual arguments.
fn called_by(operation: Operation) -> Option<(u32, u32)>
    ensures { result ≡ words.called_by operation }
{
    match operation {
        Operation::Call { unit, count, .. }
        | Operation::Create { unit, count, .. }
        | Operation::Refer { unit, count } => Some((unit, count)),
        _ => None,
    }
}

// The operands that the first `count` entries pass.
fn passed_operands<'a>(operands: &'a [Value], entries: &[Instruction], count: usize) -> &'a [Value]
    ensures { result.now ≡ last_operands count entries.now operands.now }
{
    let kept = in_front(entries, count, operands.len());
    &operands[kept..]
}

// What the actual arguments of a CALL, CREATE or reference that comes next give; nothing where one of them is no element.
fn given_ahead(
    alloc: Global,
    ahead: &LiveProcess<'_>,
    unit: u32,
    count: u32,
) -> Result<Option<Vec<DummyStorage>>, AllocError>
    requires called { words.called_by ahead.now.coming.now.operation ≡ Some (unit, count) }
    requires ahead { (cells : ℕ) × (choices : List ℕ) × (top : Level × SourceProcess) × IsAhead cells choices ahead.now top }
    ensures { IfOk result (λ given. (cells : ℕ) (choices : List ℕ) (top : Level × SourceProcess) (h : IsAhead cells choices ahead.now top)
        → IsGivenAhead cells choices ahead.now top h unit (option_map (λ gs. gs.items) given)) }
{
    ahead.image.is_runnable();
    tops_are_running();
    programs_are_closed();
    units_are_there();
    activations_are_bound_in_runs();
    variables_of_the_code_are_placed();
    calls_are_ahead();
    calls_can_be_made();
    all_actuals_are_passed();
    let machine = ahead.machine;
    let process = &machine.processes[machine.place(ahead.process)];
    let (code, frame, _) = place(process, &machine.frames, ahead.image);
    let entries = ahead.coming.behind;
    let operands = passed_operands(&ahead.coming.operands, entries, count as usize);
    let all = ArgumentList {
        entries,
        count: count as usize,
        operands,
        arrays: code.arrays.as_slice(),
        arena: &machine.frames.arena,
        frame,
    };
    let mut given = Vec::with_capacity(alloc, count as usize)?;
    match give_actuals(&all, &mut given) {
        Ok(()) => Ok(Some(given)),
        Err(_) => Ok(None),
    }
}

// The first cell that a dummy argument is given; none where it is given the value of an expression.
fn first_cell(given: &[DummyStorage], index: usize) -> Option<u32>
    ensures { result ≡ words.first_cell (slice_get given.now index) }
{
    let stored = given.get(index)?;
    match stored {
        DummyStorage::Units { first, .. } => Some(*first),
        DummyStorage::Value(_) => None,
    }
}

// The storage unit of a name in a bound; none where it is the value of an expression.
fn bound_place(
    ahead: &LiveProcess<'_>,
    unit: u32,
    here: Whereabouts,
    given: &[DummyStorage],
    bound: &BoundName,
) -> Option<Place>
    requires reading { IsReading ahead.now here unit given.now }
    requires bound { IsBoundOf ahead.now.image.now (unit_at ahead.now.image.now unit) bound.now }
    ensures { (r : IsReading ahead.now here unit given.now) → option_to_list result
        ≡ map (λ a. place_of ahead.now.image.now (top_reading r).state a.at) (read_bound r bound.now.name) }
{
    match bound.source {
        BoundSource::Common(place) => Some(place),
        BoundSource::Dummy(index) => match first_cell(given, index) {
            Some(first) => {
                let key = top_level(ahead.machine, ahead.process).key;
                Some(place_at(ahead.machine, ahead.image, key, first))
            }
            None => None,
        },
    }
}

// Appends what is read of a name in a bound, if something is.
fn append_read(
    reads: &mut Vec<SitedAccess>,
    ahead: &LiveProcess<'_>,
    unit: u32,
    here: Whereabouts,
    given: &[DummyStorage],
    bound: &BoundName,
) -> Result<(), AllocError>
    requires reading { IsReading ahead.now here unit given.now }
    requires bound { IsBoundOf ahead.now.image.now (unit_at ahead.now.image.now unit) bound.now }
    ensures { OnOk result ((r : IsReading ahead.now here unit given.now) → reads.new.items
        ≡ reads.old.items ++ map (access_seen ahead.now.image.now (top_reading r).state) (read_bound r bound.now.name)) }
{
    if let Some(at) = bound_place(ahead, unit, here, given, bound) {
        let site = AccessSite {
            unit: here.unit,
            line: here.line,
            name: bound.name,
        };
        reads.push(SitedAccess {
            at,
            stores: false,
            site,
        })?;
    }
    Ok(())
}

// What is read of the names in the bounds of a unit.
fn reads_of(
    alloc: Global,
    ahead: &LiveProcess<'_>,
    unit: u32,
    given: &[DummyStorage],
    bounds: &[BoundName],
) -> Result<Vec<SitedAccess>, AllocError>
    requires given { (cells : ℕ) × (choices : List ℕ) × (top : Level × SourceProcess) × (h : IsAhead cells choices ahead.now top)
        × IsGivenAhead cells choices ahead.now top h unit (Some given.now) }
    requires bounds { bounds.now ≡ bounds_of_unit ahead.now.image.now (unit_at ahead.now.image.now unit) }
    ensures { IfOk result (λ reads. (cells : ℕ) (choices : List ℕ) (top : Level × SourceProcess) (h : IsAhead cells choices ahead.now top)
        → IsGivenAhead cells choices ahead.now top h unit (Some given.now)
        → AreBoundsRead ahead.now.image.now (top_after ahead.now.image.now choices ahead.now.process top) reads.items) }
{
    ahead.image.is_runnable();
    let here = whereabouts(ahead.machine, ahead.image, ahead.process);
    let mut reads = Vec::new(alloc);
    for bound in bounds {
        append_read(&mut reads, ahead, unit, here, given, bound)?;
    }
    Ok(reads)
}

/// What the next step of a process reads of the names in bounds of adjustable dummy arrays.
///
/// # Errors
///
/// Only where memory was refused.
pub(crate) fn bounds_ahead(
    alloc: Global,
    ahead: &LiveProcess<'_>,
    bounds: &BoundNames,
) -> Result<Vec<SitedAccess>, AllocError>
    requires bounds { AreBoundsOf ahead.now.image.now bounds.now }
    requires ahead { (cells : ℕ) × (choices : List ℕ) × (top : Level × SourceProcess) × IsAhead cells choices ahead.now top }
    ensures { IfOk result (λ reads. (cells : ℕ) (choices : List ℕ) (top : Level × SourceProcess) → IsAhead cells choices ahead.now top
        → AreBoundsRead ahead.now.image.now (top_after ahead.now.image.now choices ahead.now.process top) reads.items) }
{
    ahead.image.is_runnable();
    operations_come_next();
    let Some((unit, count)) = called_by(ahead.coming.operation) else {
        return Ok(Vec::new(alloc));
    };
    let Some(given) = given_ahead(alloc, ahead, unit, count)? else {
        return Ok(Vec::new(alloc));
    };
    reads_of(alloc, ahead, unit, &given, bounds.of_unit(unit as usize))
}
