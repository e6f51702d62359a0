//! The storage units that a PURGE makes empty, read from a machine before it (`docs/LANGUAGE.md`, 9).
ghost use Rattle.std.specs.Prelude.{◌≡◌, ◌++◌, ◌∷◌, [], ℕ, IfOk, List, OnOk, drop, length, take};
ghost use Rattle.std.specs.List.{flat_map};
ghost use Rattle.std.specs.Option.{option_to_list};
ghost use Rattle.hep_accesses.specs.Exchanges.{next_on_top};
ghost use Rattle.hep_event.specs.Sites.{IsVariableOf};
ghost use Rattle.hep_machine.specs.Words.{Level, Location, Process as SourceProcess, Reference as SourceReference};
ghost use Rattle.hep_machine.specs.Words.{does, next_of, purging, run, unit_on_top};
ghost use Rattle.hep_trace.specs.References.{IsAhead, IsEntryOf, top_after};
ghost use Rattle.hep_views.specs.CellOwners.{CanBeSought, IsSought};
ghost use Rattle.hep_races.specs.FullUnits.{AreUnitsAt, full_places};
ghost use Rattle.hep_races.specs.StepChanges.{units_of_target};
ghost use Rattle.hep_races.specs.StepEvents.{AreUnitsThere};

use hep_code::{Argument, Instruction, Variable};
use hep_image::Image;
use hep_source::Value;
use hep_state::laws::tops_are_running;
use hep_state::{
    CoreState, activations_are_bound_in_runs, place, programs_are_closed, units_are_there,
    variables_of_the_code_are_placed,
};
use hep_step::{ClosedRange, FromArgument, PassedArgument};
use hep_trace::LiveProcess;
use hep_views::Place;
use hep_views::lookup::place_at;
use std::alloc::AllocError;

// The place of the storage unit in a cell, if it is full.
fn full_place(machine: &CoreState, image: &Image, key: usize, cell: u32) -> Option<Place>
    requires { CanBeSought image.now machine.now key cell }
    ensures { (cells : ℕ) (choices : List ℕ) (at : Location) → IsSought image.now cells choices machine.now key cell at
        → option_to_list result ≡ full_places image.now (run image.now choices) (at ∷ []) }
{
    if machine.frames.get(cell).full {
        Some(place_at(machine, image, key, cell))
    } else {
        None
    }
}

// Appends a place, if there is one.
fn append_place(places: &mut Vec<Place>, place: Option<Place>) -> Result<(), AllocError>
    ensures { OnOk result (places.new.items ≡ places.old.items ++ option_to_list place) }
{
    if let Some(place) = place {
        places.push(place)?;
    }
    Ok(())
}

// Appends the places of the full storage units in the cells of a range.
fn append_full(
    places: &mut Vec<Place>,
    machine: &CoreState,
    image: &Image,
    key: usize,
    range: ClosedRange,
) -> Result<(), AllocError>
    requires { (cells : ℕ) × (choices : List ℕ) × (units : List Location) × AreUnitsAt image.now cells choices machine.now key range units }
    ensures { OnOk result ((cells : ℕ) (choices : List ℕ) (units : List Location)
        → AreUnitsAt image.now cells choices machine.now key range units
        → places.new.items ≡ places.old.items ++ full_places image.now (run image.now choices) units) }
{
    for index in 0..range.cells {
        append_place(places, full_place(machine, image, key, range.first + index))?;
    }
    Ok(())
}

// Appends the places of the full storage units of a target: of a variable of the process's unit, of a whole array or of the
// element with these subscripts. It has none where there is no such element.
fn append_target(
    places: &mut Vec<Place>,
    ahead: &LiveProcess<'_>,
    variable: Variable,
    subscripts: &[Value],
) -> Result<(), AllocError>
    requires { (cells : ℕ) × (choices : List ℕ) × (top : Level × SourceProcess) × (x : SourceReference)
        × IsAhead cells choices ahead.now top
        × IsVariableOf ahead.now.image.now (unit_on_top ahead.now.image.now (top_after ahead.now.image.now choices ahead.now.process top))
        x.0 variable
        × (x.1 ≡ subscripts.now) }
    ensures { OnOk result ((cells : ℕ) (choices : List ℕ) (top : Level × SourceProcess) (x : SourceReference)
        → IsAhead cells choices ahead.now top
        → IsVariableOf ahead.now.image.now (unit_on_top ahead.now.image.now (top_after ahead.now.image.now choices ahead.now.process top))
        x.0 variable
        → x.1 ≡ subscripts.now → places.new.items ≡ places.old.items ++ full_places ahead.now.image.now (run ahead.now.image.now choices)
        (units_of_target ahead.now.image.now (top_after ahead.now.image.now choices ahead.now.process top) x)) }
{
    ahead.image.is_runnable();
    tops_are_running();
    programs_are_closed();
    units_are_there();
    activations_are_bound_in_runs();
    let machine = ahead.machine;
    let process = &machine.processes[machine.place(ahead.process)];
    let (unit, frame, _) = place(process, &machine.frames, ahead.image);
    let key = process.top().key;
    let target = PassedArgument::ByReference {
        variable,
        subscripts,
    };
    match ClosedRange::from_passed(target, unit.arrays.as_slice(), &machine.frames.arena, frame) {
        Ok(range) => append_full(places, machine, ahead.image, key, range),
        Err(_) => Ok(()),
    }
}

// The first `count` values, and those after them.
fn parted(values: &[Value], count: u32) -> (&[Value], &[Value])
    ensures own { result.0.now ≡ take count values.now }
    ensures behind { result.1.now ≡ drop count values.now }
{
    values.split_at(values.len().min(count as usize))
}

// Appends the places of the full storage units of the target that an entry of a PURGE passes. Its subscripts are the first of
// these values. Returns the values after them.
fn append_entry<'a>(
    places: &mut Vec<Place>,
    ahead: &LiveProcess<'_>,
    entry: &Instruction,
    rest: &'a [Value],
) -> Result<&'a [Value], AllocError>
    requires { (cells : ℕ) × (choices : List ℕ) × (top : Level × SourceProcess) × (x : SourceReference)
        × IsAhead cells choices ahead.now top
        × IsEntryOf ahead.now choices top entry.now x × (take (length x.1) rest.now ≡ x.1) }
    ensures places { OnOk result ((cells : ℕ) (choices : List ℕ) (top : Level × SourceProcess) (x : SourceReference)
        → IsAhead cells choices ahead.now top
        → IsEntryOf ahead.now choices top entry.now x → take (length x.1) rest.now ≡ x.1
        → places.new.items ≡ places.old.items ++ full_places ahead.now.image.now (run ahead.now.image.now choices)
        (units_of_target ahead.now.image.now (top_after ahead.now.image.now choices ahead.now.process top) x)) }
    ensures rest { IfOk result (λ behind. (choices : List ℕ) (top : Level × SourceProcess) (x : SourceReference)
        → IsEntryOf ahead.now choices top entry.now x → behind.now ≡ drop (length x.1) rest.now) }
{
    let Instruction::Pass(argument) = entry else {
        return Ok(rest);
    };
    let Argument::Referred {
        variable,
        subscripts,
    } = argument
    else {
        return Ok(rest);
    };
    let (own, behind) = parted(rest, *subscripts);
    append_target(places, ahead, *variable, own)?;
    Ok(behind)
}

/// Appends the places of the storage units that the `count` targets of a PURGE name, which comes next of a process: of those
/// that are full.
///
/// # Errors
///
/// Only where memory was refused.
pub(crate) fn append_purged(
    places: &mut Vec<Place>,
    ahead: &LiveProcess<'_>,
    count: u32,
) -> Result<(), AllocError>
    requires { (cells : ℕ) × (choices : List ℕ) × (top : Level × SourceProcess) × (targets : List SourceReference)
        × IsAhead cells choices ahead.now top
        × (next_of (unit_on_top ahead.now.image.now (top_after ahead.now.image.now choices ahead.now.process top)) top.0.work
        ≡ does (purging targets))
        × (count ≡ length targets) }
    ensures { OnOk result ((cells : ℕ) (choices : List ℕ) (top : Level × SourceProcess) (targets : List SourceReference)
        → IsAhead cells choices ahead.now top
        → next_of (unit_on_top ahead.now.image.now (top_after ahead.now.image.now choices ahead.now.process top)) top.0.work
        ≡ does (purging targets)
        → count ≡ length targets
        → places.new.items ≡ places.old.items ++ full_places ahead.now.image.now (run ahead.now.image.now choices)
        (flat_map (units_of_target ahead.now.image.now (top_after ahead.now.image.now choices ahead.now.process top)) targets)) }
{
    ahead.image.is_runnable();
    tops_are_running();
    variables_of_the_code_are_placed();
    let entries = ahead.coming.behind;
    let mut rest: &[Value] = &ahead.coming.operands;
    for entry in &entries[..entries.len().min(count as usize)] {
        rest = append_entry(places, ahead, entry, rest)?;
    }
    Ok(())
}

/// States that the storage units which the targets of a PURGE name are there, where it comes next of a process.
pub(crate) fn purged_units_are_there(ahead: &LiveProcess<'_>)
    ensures { (cells : ℕ) (choices : List ℕ) (top : Level × SourceProcess) → IsAhead cells choices ahead.now top
        → (targets : List SourceReference)
        → next_on_top ahead.now.image.now (top_after ahead.now.image.now choices ahead.now.process top) ≡ does (purging targets)
        → AreUnitsThere ahead.now.image.now (run ahead.now.image.now choices)
        (flat_map (units_of_target ahead.now.image.now (top_after ahead.now.image.now choices ahead.now.process top)) targets) }
{
    ahead.image.is_runnable();
    tops_are_running();
    programs_are_closed();
    units_are_there();
    activations_are_bound_in_runs();
    variables_of_the_code_are_placed();
}
