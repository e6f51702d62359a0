//! Histories that are made again, choice by choice.
ghost use Rattle.std.specs.Prelude.{◌≡◌, ◌≤◌, length, IfOk, IfErr, OnOk, IsSome};
ghost use Rattle.hep_machine.specs.Words.{opening_layout, schedule_of};
ghost use Rattle.hep_replay.specs.HistoryPrefix.{first_of};
ghost use Rattle.hep_replay.specs.Replays.{most_entries, replayed, ArePossible, IsUnmade};
ghost use Rattle.hep_replay.specs.Progress.{EntryMade, IsStanding, RunMade, SomeMade, SomeStepsMade, StepsMade, TurnMade};

use crate::history_prefix::HistoryPrefix;
use crate::replay_fault::ReplayFault;
use hep_core::{ChooseFault, Core};
use hep_history::History;
use hep_image::Image;
use hep_machine::Entry;
use std::alloc::Global;

/// The greatest number of entries of the history of a core that makes a history again.
pub const MOST_ENTRIES: u64 = 1_099_511_627_776;

// The greatest number of entries that are made at once.
const MOST_AT_ONCE: u32 = 4_096;

// Makes one choice of a process, and returns whether it did as expected: made a step or, with `waits`, found the
// process waiting. A step that makes a frame without a gap isn't made.
fn make_turn(core: &mut Core, process: u64, waits: bool) -> Result<bool, ReplayFault>
    requires { IsStanding core.old.core }
    ensures { TurnMade core.old.core process waits result core.new.core }
{
    match core.choose(process) {
        Ok(turn) => Ok(turn.blocked == waits),
        Err(ChooseFault::NoMemory) => Err(ReplayFault::NoMemory),
        Err(ChooseFault::Stopped(_)) => Ok(false),
        Err(ChooseFault::NoSuchProcess) => Ok(false),
        Err(ChooseFault::IsOut | ChooseFault::NoTicket) => unreachable!(),
    }
}

// Makes `steps` steps of a process, and returns whether each of them was made and each frame had its gap.
fn make_steps(core: &mut Core, process: u64, steps: u32) -> Result<bool, ReplayFault>
    requires standing { IsStanding core.old.core }
    requires within { length core.old.core.history ≤ most_entries }
    ensures { StepsMade core.old.core process steps result core.new.core }
{
    for _ in 0..steps {
        if !make_turn(core, process, false)? {
            return Ok(false);
        }
    }
    Ok(true)
}

// Makes an entry, and returns whether it was possible.
fn make_entry(core: &mut Core, entry: Entry) -> Result<bool, ReplayFault>
    requires standing { IsStanding core.old.core }
    requires within { length core.old.core.history ≤ most_entries }
    ensures { EntryMade core.old.core entry result core.new.core }
{
    if entry.steps == 0 {
        make_turn(core, entry.process, true)
    } else {
        make_steps(core, entry.process, entry.steps)
    }
}

// Makes up to `most` entries of one step of a process, and returns their number: 0 where the first step can't be made
// or its frame has no gap.
fn make_some_steps(core: &mut Core, process: u64, most: u64) -> Result<u64, ReplayFault>
    requires standing { IsStanding core.old.core }
    requires some { 1 ≤ most }
    ensures made { SomeStepsMade core.old.core process result core.new.core }
    ensures few { IfOk result (λ made. made ≤ most) }
{
    match core.go_on(process, most) {
        Ok(turns) => {
            if turns.blocked {
                return Ok(0);
            }
            Ok(turns.made)
        }
        Err(ChooseFault::NoMemory) => Err(ReplayFault::NoMemory),
        Err(ChooseFault::Stopped(_)) => Ok(0),
        Err(ChooseFault::NoSuchProcess) => Ok(0),
        Err(ChooseFault::IsOut | ChooseFault::NoTicket) => unreachable!(),
    }
}

// Makes an entry up to `most` times, and returns how often: 0 where it isn't possible.
fn make_some(core: &mut Core, entry: Entry, most: u32) -> Result<u32, ReplayFault>
    requires standing { IsStanding core.old.core }
    requires within { length core.old.core.history ≤ most_entries }
    requires some { 1 ≤ most }
    ensures made { SomeMade core.old.core entry result core.new.core }
    ensures few { IfOk result (λ made. made ≤ most) }
{
    if entry.steps == 1 {
        let most = MOST_AT_ONCE.min(most);
        let made = make_some_steps(core, entry.process, u64::from(most))?;
        return Ok(made as u32);
    }
    if make_entry(core, entry)? {
        Ok(1)
    } else {
        Ok(0)
    }
}

/// Makes an entry `count` times, on a core as `replay` makes it, and returns how often: fewer times where it isn't
/// possible after those.
///
/// # Errors
///
/// Only where memory was refused.
pub fn make_run(core: &mut Core, entry: Entry, count: u32) -> Result<u32, ReplayFault>
    requires standing { IsStanding core.old.core }
    requires within { length core.old.core.history ≤ most_entries }
    ensures made { RunMade core.old.core entry count result core.new.core }
    ensures few { IfOk result (λ made. made ≤ count) }
{
    let mut made = 0;
    while made < count {
        // A core's history is legal, so each frame had its gap.
        core.headline();
        let more = make_some(core, entry, count - made)?;
        if more == 0 {
            return Ok(made);
        }
        made += more;
    }
    Ok(made)
}

/// The core of an image and an arena of `cells` cells, 1 to 16,777,216, that has made the first entries of a history,
/// one step at a time: its history has an entry of one step for each step, and the entries without steps. The other
/// entries aren't read.
///
/// # Errors
///
/// `ArenaFull` where the main program's frame has no gap in the arena; `Refused` with 603 and the
/// first of these entries that isn't possible, also where a frame that it makes has no gap; `NoMemory`.
pub fn replay_first(
    alloc: Global,
    image: Image,
    cells: u32,
    entries: &HistoryPrefix<'_>,
) -> Result<Core, ReplayFault>
    requires some { 1 ≤ cells }
    requires few { cells ≤ 16777216 }
    ensures made { IfOk result (λ made. made.core ≡ replayed image cells (first_of entries.now)) }
    ensures expanded { IfOk result (λ made. schedule_of made.core.history ≡ schedule_of (first_of entries.now)) }
    ensures fits { OnOk result (IsSome (opening_layout image cells)) }
    ensures possible { OnOk result (ArePossible image cells (first_of entries.now) (length (first_of entries.now))) }
    ensures unmade { IfErr result (IsUnmade image cells (first_of entries.now)) }
{
    let mut core = Core::new(alloc, image, cells, MOST_ENTRIES)?;
    let count = entries.len();
    let mut runs = entries.history.runs();
    let mut at = 0;
    while at < count {
        let Some(run) = runs.next() else {
            unreachable!()
        };
        let some = u64::from(run.count).min(count - at) as u32;
        let made = make_run(&mut core, run.entry(), some)?;
        if made < some {
            return Err(ReplayFault::Refused {
                number: 603,
                entry: at + u64::from(made) + 1,
            });
        }
        // A core's history is legal, so each frame had its gap.
        core.headline();
        at += u64::from(made);
    }
    Ok(core)
}

/// The core of an image and an arena of `cells` cells, 1 to 16,777,216, that has made these entries, one step at a
/// time: its history has an entry of one step for each step, and the entries without steps.
///
/// # Errors
///
/// `ArenaFull` where the main program's frame has no gap in the arena; `Refused` with 603 and the
/// first entry that isn't possible, also where a frame that it makes has no gap; `NoMemory`.
pub fn replay(
    alloc: Global,
    image: Image,
    cells: u32,
    entries: &History,
) -> Result<Core, ReplayFault>
    requires some { 1 ≤ cells }
    requires few { cells ≤ 16777216 }
    ensures made { IfOk result (λ made. made.core ≡ replayed image cells entries.now.items) }
    ensures expanded { IfOk result (λ made. schedule_of made.core.history ≡ schedule_of entries.now.items) }
    ensures fits { OnOk result (IsSome (opening_layout image cells)) }
    ensures possible { OnOk result (ArePossible image cells entries.now.items (length entries.now.items)) }
    ensures unmade { IfErr result (IsUnmade image cells entries.now.items) }
{
    let all = HistoryPrefix {
        history: entries,
        count: entries.len(),
    };
    replay_first(alloc, image, cells, &all)
}
