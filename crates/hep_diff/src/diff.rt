//! What differs between two runs, as a text.
ghost use Rattle.std.specs.Prelude.{◌≡◌, ◌+◌, ◌++◌, ◌≤◌, ℕ, false, List, IfOk, OnOk, Some, length, slice_get};
ghost use Rattle.hep_why.specs.Watches.{IsReplayed};
ghost use Rattle.hep_diff.specs.Sides.{IsSide};
ghost use Rattle.hep_core.specs.CoreValues.{listed_after};
ghost use Rattle.hep_diff.specs.Differences as words;
ghost use Rattle.hep_diff.specs.FirstDifferences.{first_from, same_front as front_of};
ghost use Rattle.hep_diff.specs.DifferenceLines.{or_nothing};
ghost use Rattle.hep_machine.specs.declared.event.Entry.{Entry};
ghost use Rattle.hep_outcome.specs.Replay.{outcome_of_core};

use crate::difference_text::{
    append_deed, append_ends, append_front, append_process, append_records, append_rest,
};
use crate::first_differences::{first_difference, same_front};
use crate::logged_replay::deeds_behind;
use crate::process_step::ProcessStep;
use crate::step_logs::deeds_of;
use hep_outcome::transcript::core_transcript;
use hep_why::{Core, History, Listed, listed};
use std::alloc::{AllocError, Global};

// A run that was made again, and the steps of its processes.
#[derive(Drop)]
struct Side {
    core: Core,
    logs: Vec<Vec<ProcessStep>>,
}

// The run of a core that has made these entries, with the steps after the first `front` of them.
fn side_of(alloc: Global, core: Core, entries: &History, front: u64) -> Result<Side, AllocError>
    requires replayed { IsReplayed core.core entries.now.items }
    requires few { front ≤ length entries.now.items }
    ensures core { IfOk result (λ side. side.core ≡ core) }
    ensures steps { IfOk result (IsSide front entries.now.items) }
{
    let logs = deeds_behind(alloc, &core, entries, front)?;
    Ok(Side { core, logs })
}

// Process p, if it was found waiting and still waits.
fn waits(core: &Core, p: u64) -> Option<Listed>
    ensures { result ≡ listed_after core.now.core.program core.now.core.history p }
{
    match core.want(p) {
        Some(want) => Some(listed(core.machine(), core.image(), p, want)),
        None => None,
    }
}

// A step of process p, or what has become of p where it has no such step.
fn append_side(
    alloc: Global,
    text: &mut Vec<u8>,
    core: &Core,
    p: u64,
    deed: Option<ProcessStep>,
) -> Result<(), AllocError>
    ensures { OnOk result (text.new.items ≡ text.old.items ++ words.deed_or_rest core.now.core.program core.now.core.history p deed) }
{
    match deed {
        Some(deed) => append_deed(alloc, text, core.image(), &deed),
        None => append_rest(
            text,
            core.image(),
            waits(core, p),
            core.whereabouts(p),
            p <= core.made(),
        ),
    }
}

// The step at an index, if there is one.
fn deed_at(deeds: &[ProcessStep], at: usize) -> Option<ProcessStep>
    ensures { result ≡ slice_get deeds.now at }
{
    match deeds.get(at) {
        Some(deed) => Some(*deed),
        None => None,
    }
}

// The number of the first step that differs between two rows, of which this is the index.
#[tactic(auto, using(crate::proofs::Sides::first_inside))]
fn number_of(deeds: &[ProcessStep], others: &[ProcessStep], at: usize) -> u64
    requires { Some at ≡ first_from 0 deeds.now others.now }
    ensures { result ≡ at + 1 }
{
    if at < deeds.len() {
        return at as u64 + 1;
    }
    if at < others.len() {
        return at as u64 + 1;
    }
    unreachable!()
}

// The difference of process p, if there is one.
fn append_one(
    alloc: Global,
    text: &mut Vec<u8>,
    first: &Side,
    second: &Side,
    p: u64,
) -> Result<(), AllocError>
    requires same { first.now.core.core.program ≡ second.now.core.core.program }
    ensures { OnOk result ((front : ℕ) (entries others : List Entry) → IsSide front entries first.now → IsSide front others second.now
        → text.new.items ≡ text.old.items ++ words.process_text first.now.core.core.program entries others front p) }
{
    let deeds = deeds_of(&first.logs, p);
    let others = deeds_of(&second.logs, p);
    let Some(at) = first_difference(deeds, others) else {
        return Ok(());
    };
    append_process(text, p, number_of(deeds, others, at))?;
    text.extend_from_slice(b"< ")?;
    append_side(alloc, text, &first.core, p, deed_at(deeds, at))?;
    text.extend_from_slice(b"> ")?;
    append_side(alloc, text, &second.core, p, deed_at(others, at))?;
    Ok(())
}

// The differences of all processes that were made in one of the runs.
fn append_all(
    alloc: Global,
    text: &mut Vec<u8>,
    first: &Side,
    second: &Side,
) -> Result<(), AllocError>
    requires same { first.now.core.core.program ≡ second.now.core.core.program }
    ensures { OnOk result ((front : ℕ) (entries others : List Entry) → IsSide front entries first.now → IsSide front others second.now
        → text.new.items ≡ text.old.items ++ words.processes_text first.now.core.core.program entries others front) }
{
    for before in 0..first.core.made().max(second.core.made()) {
        append_one(alloc, text, first, second, before + 1)?;
    }
    Ok(())
}

// The differences of what the replays of two runs write.
fn append_written(
    alloc: Global,
    text: &mut Vec<u8>,
    first: Core,
    second: Core,
) -> Result<(), AllocError>
    ensures { OnOk result (text.new.items ≡ text.old.items ++ words.written_text (outcome_of_core false first.core) (outcome_of_core false second.core)) }
{
    let left = core_transcript(alloc, first, false)?;
    let right = core_transcript(alloc, second, false)?;
    append_records(text, &left.output, &right.output)?;
    append_ends(text, left.messages.as_slice(), right.messages.as_slice())?;
    Ok(())
}

fn append_or_nothing(text: &mut Vec<u8>, differences: &[u8]) -> Result<(), AllocError>
    ensures { OnOk result (text.new.items ≡ text.old.items ++ or_nothing differences.now) }
{
    match differences {
        [] => text.extend_from_slice(b"NOTHING DIFFERS\n"),
        [_, ..] => text.extend_from_slice(differences),
    }
}

// The differences of two runs of a program in arenas of one size.
fn differences(alloc: Global, first: Side, second: Side) -> Result<Vec<u8>, AllocError>
    requires program { first.core.core.program ≡ second.core.core.program }
    requires cells { second.core.core.cells ≡ first.core.core.cells }
    ensures { IfOk result (λ text. (entries others : List Entry) → IsSide (front_of entries others) entries first → IsSide (front_of entries others) others second
        → text.items ≡ words.differences first.core.core.program entries others first.core.core.cells) }
{
    let mut text = Vec::new(alloc);
    append_all(alloc, &mut text, &first, &second)?;
    append_written(alloc, &mut text, first.core, second.core)?;
    Ok(text)
}

/// The differences of the runs of two cores of one program that have made these entries, as a text. The entries of
/// both are made again for it.
///
/// # Errors
///
/// Only where memory was refused.
pub fn diff_text(
    alloc: Global,
    first: Core,
    second: Core,
    entries: &History,
    others: &History,
) -> Result<Vec<u8>, AllocError>
    requires first { IsReplayed first.core entries.now.items }
    requires second { IsReplayed second.core others.now.items }
    requires program { first.core.program ≡ second.core.program }
    requires cells { second.core.cells ≡ first.core.cells }
    ensures { IfOk result (λ text. text.items ≡ words.diff_text first.core.program entries.now.items others.now.items first.core.cells) }
{
    let front = same_front(entries, others);
    let left = side_of(alloc, first, entries, front)?;
    let right = side_of(alloc, second, others, front)?;
    let differences = differences(alloc, left, right)?;
    let mut text = Vec::new(alloc);
    append_front(&mut text, front, entries.len(), others.len())?;
    append_or_nothing(&mut text, &differences)?;
    Ok(text)
}
