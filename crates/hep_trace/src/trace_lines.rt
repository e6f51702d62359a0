//! Turns and entries that are made again, with their lines.
ghost use Rattle.std.specs.Prelude.{◌≡◌, ◌+◌, ◌^◌, ◌++◌, ◌<◌, ◌≤◌, ℕ, [], IfOk, Ok, drop, false, length, replicate, take, true};
ghost use Rattle.hep_core.specs.CoreValues.{state_of};
ghost use Rattle.hep_history.specs.Runs.{entry_of};
ghost use Rattle.hep_trace.specs.Observations.{IsTurnMade};
ghost use Rattle.hep_replay.specs.HistoryPrefix.{first_of};
ghost use Rattle.hep_why.specs.Progress.{AreMade, EntryMade, IsStanding, RunMade, StepsMade, TurnMade};
ghost use Rattle.hep_why.specs.Replays.{ArePossible, IsFirstImpossible};
ghost use Rattle.hep_machine.specs.Words.{Progress as AProgress, progress_after};
ghost use Rattle.hep_event.specs.Traces as words;
ghost use Rattle.hep_trace.specs.TraceProgress.{HasMade, IsReplaying, progress_of, shown_lines, shown_text};
ghost use Rattle.hep_trace.specs.LineFilters.{shown_on};
ghost use Rattle.hep_trace.specs.LineMakers.{CanTell};

use crate::line_filter::LineFilter;
use crate::observing::look;
use crate::turn_line::append_line;
use hep_event::breakpoint_laws::unwatched_turns_access_nothing;
use hep_history::Run;
use hep_machine::Entry;
use hep_why::{Breakpoints, ChooseFault, Core, HistoryPrefix, Variables, make_run, stands_watched};
use std::alloc::{AllocError, Global};

/// What lines are made from: the allocator, the variables of the units' names, the lines that are shown, and the
/// indexes of the code at which a step may have one.
#[derive(Clone, Copy)]
pub(crate) struct LineMaker<'a> {
    pub(crate) alloc: Global,
    pub(crate) variables: &'a Variables,
    pub(crate) page: &'a LineFilter<'a>,
    pub(crate) watches: &'a [Breakpoints],
}

// The line of a turn: the number of its entry, its process, and whether it is shown.
#[derive(Clone, Copy)]
struct TurnLine {
    number: u64,
    process: u64,
    shown: bool,
}

// Makes a turn of process p, and returns whether it made a step or, with `waits`, found the process waiting.
fn make_turn(core: &mut Core, p: u64, waits: bool) -> Result<bool, AllocError>
    requires { IsStanding core.old.core }
    ensures made { IfOk result (λ made. TurnMade core.old.core p waits (Ok made) core.new.core) }
    ensures turned { IfOk result (λ made. made ≡ true → IsTurnMade core.old.core p core.new.core) }
{
    match core.choose(p) {
        Ok(turn) => Ok(turn.blocked == waits),
        Err(ChooseFault::NoMemory) => Err(AllocError),
        Err(ChooseFault::Stopped(_)) => Ok(false),
        Err(ChooseFault::NoSuchProcess) => Ok(false),
        Err(ChooseFault::IsOut | ChooseFault::NoTicket) => unreachable!(),
    }
}

// Whether the next turn of process p has no line: the process lives, and is at an index of the code from which no
// variable of the sought name is accessed.
fn is_silent(core: &Core, teller: &LineMaker<'_>, p: u64) -> bool
    requires teller { CanTell core.now.core.program teller.now }
    requires running { (state_of core.now.core).halted ≡ false }
    ensures { result ≡ true → (number : ℕ) (after : AProgress)
        → words.line_text core.now.core.program (shown_on teller.now.page.now).cell number p (progress_of core.now.core) after ≡ [] }
{
    core.image().is_runnable();
    unwatched_turns_access_nothing();
    let machine = core.machine();
    if !machine.lives(p) {
        return false;
    }
    !stands_watched(machine, teller.watches, p)
}

// Makes a turn, with its line, and returns whether it did as expected. At a stop no turn is made. Nothing is observed
// there, nor where the turn's index shows that it has no line.
fn tell_turn(
    core: &mut Core,
    text: &mut Vec<u8>,
    teller: &LineMaker<'_>,
    line: TurnLine,
    waits: bool,
) -> Result<bool, AllocError>
    requires teller { CanTell core.old.core.program teller.now }
    requires replaying { IsReplaying core.old.core }
    ensures made { IfOk result (λ made. TurnMade core.old.core line.process waits (Ok made) core.new.core) }
    ensures told { IfOk result (λ made. made ≡ true → text.new.items ≡ text.old.items
        ++ words.line_text core.old.core.program (shown_on teller.now.page.now).cell line.number line.process (progress_of core.old.core) (progress_of core.new.core)) }
{
    if core.stop().is_some() {
        return Ok(false);
    }
    if is_silent(core, teller, line.process) {
        return make_turn(core, line.process, waits);
    }
    let sight = look(
        teller.alloc,
        core,
        teller.variables,
        line.process,
        teller.page.cell,
    )?;
    if !make_turn(core, line.process, waits)? {
        return Ok(false);
    }
    append_line(teller.alloc, text, core, &sight, line.number)?;
    Ok(true)
}

// Makes a turn, with its line where that is shown, and returns whether it did as expected.
fn tell_shown(
    core: &mut Core,
    text: &mut Vec<u8>,
    teller: &LineMaker<'_>,
    line: TurnLine,
    waits: bool,
) -> Result<bool, AllocError>
    requires teller { CanTell core.old.core.program teller.now }
    requires replaying { IsReplaying core.old.core }
    ensures made { IfOk result (λ made. TurnMade core.old.core line.process waits (Ok made) core.new.core) }
    ensures told { IfOk result (λ made. made ≡ true → text.new.items ≡ text.old.items ++ shown_lines line.shown
        (words.line_text core.old.core.program (shown_on teller.now.page.now).cell line.number line.process (progress_of core.old.core) (progress_of core.new.core))) }
{
    if line.shown {
        tell_turn(core, text, teller, line, waits)
    } else {
        make_turn(core, line.process, waits)
    }
}

// Makes a number of steps, with their lines where they are shown, and returns whether each of them was made and each
// frame had its gap.
fn tell_steps(
    core: &mut Core,
    text: &mut Vec<u8>,
    teller: &LineMaker<'_>,
    line: TurnLine,
    steps: u32,
) -> Result<bool, AllocError>
    requires teller { CanTell core.old.core.program teller.now }
    requires replaying { IsReplaying core.old.core }
    ensures made { IfOk result (λ made. StepsMade core.old.core line.process steps (Ok made) core.new.core) }
    ensures told { IfOk result (λ made. made ≡ true → text.new.items ≡ text.old.items ++ shown_lines line.shown
        (words.steps_text core.old.core.program (shown_on teller.now.page.now).cell line.number line.process (progress_of core.old.core) steps)) }
{
    for _ in 0..steps {
        if !tell_shown(core, text, teller, line, false)? {
            return Ok(false);
        }
    }
    Ok(true)
}

// Makes the entry with this number, with its lines where they are shown, and returns whether it was possible.
fn tell_entry(
    core: &mut Core,
    text: &mut Vec<u8>,
    teller: &LineMaker<'_>,
    entry: Entry,
    number: u64,
) -> Result<bool, AllocError>
    requires teller { CanTell core.old.core.program teller.now }
    requires replaying { IsReplaying core.old.core }
    ensures made { IfOk result (λ made. EntryMade core.old.core entry (Ok made) core.new.core) }
    ensures told { IfOk result (λ made. made ≡ true → text.new.items ≡ text.old.items
        ++ shown_text core.old.core.program (shown_on teller.now.page.now) number (progress_of core.old.core) entry) }
{
    let line = TurnLine {
        number,
        process: entry.process,
        shown: teller.page.shows(number, entry.process),
    };
    if entry.steps == 0 {
        tell_shown(core, text, teller, line, true)
    } else {
        tell_steps(core, text, teller, line, entry.steps)
    }
}

// Makes up to `most` equal entries of one step each, as long as each only moves its process and its index shows that
// it has no line. Returns the number of entries made.
fn make_silent(core: &mut Core, teller: &LineMaker<'_>, run: Run, most: u32) -> u32
    requires teller { CanTell core.old.core.program teller.now }
    requires standing { IsStanding core.old.core }
    ensures made { AreMade (entry_of run) core.old.core result core.new.core }
    ensures silent { (number : ℕ) → words.trace_from core.old.core.program (shown_on teller.now.page.now) number (progress_of core.old.core)
        (replicate result (entry_of run)) ≡ [] }
    ensures few { result ≤ most }
{
    if run.steps != 1 {
        return 0;
    }
    core.image().is_runnable();
    unwatched_turns_access_nothing();
    core.pass_on(run.process, teller.watches, u64::from(most)) as u32
}

// Makes equal entries, after a number of others, with their lines where they are shown. Returns the number of entries
// made, which is less than all where the next one isn't possible. Entries that aren't shown are made as a replay
// makes them, and so are those whose index shows that they have no line, as far as they follow one another.
fn tell_run(
    core: &mut Core,
    text: &mut Vec<u8>,
    teller: &LineMaker<'_>,
    before: u64,
    run: Run,
) -> Result<u32, AllocError>
    requires teller { CanTell core.old.core.program teller.now }
    requires replaying { IsReplaying core.old.core }
    requires few { before + run.count < 2 ^ 64 }
    ensures made { IfOk result (λ made. RunMade core.old.core (entry_of run) run.count (Ok made) core.new.core) }
    ensures few { IfOk result (λ made. made ≤ run.count) }
    ensures told { IfOk result (λ made. made ≡ run.count → text.new.items ≡ text.old.items
        ++ words.trace_from core.old.core.program (shown_on teller.now.page.now) (before + 1) (progress_of core.old.core) (replicate run.count (entry_of run))) }
{
    let mut made = 0;
    while made < run.count {
        // A core's history is legal, so each frame had its gap.
        core.headline();
        let number = before + 1 + made as u64;
        let hidden = teller.page.hidden(number, run.process, run.count - made);
        if hidden == 0 {
            let silent = make_silent(core, teller, run, run.count - made);
            made += silent;
            if silent == 0 {
                if !tell_entry(core, text, teller, run.entry(), number)? {
                    return Ok(made);
                }
                made += 1;
            }
        } else {
            let Ok(more) = make_run(core, run.entry(), hidden) else {
                return Err(AllocError);
            };
            made += more;
            if more < hidden {
                return Ok(made);
            }
        }
    }
    Ok(made)
}

/// Makes the entries that are left on a core that has made the first ones, with their lines. Returns the number of
/// all entries that are possible.
///
/// # Errors
///
/// Only where memory was refused.
pub(crate) fn tell_entries(
    core: &mut Core,
    text: &mut Vec<u8>,
    teller: &LineMaker<'_>,
    entries: &HistoryPrefix<'_>,
    made: u64,
) -> Result<u64, AllocError>
    requires teller { CanTell core.old.core.program teller.now }
    requires made { HasMade core.old.core (first_of entries.now) made }
    ensures few { IfOk result (λ all. all ≤ length (first_of entries.now)) }
    ensures possible { IfOk result (λ all. ArePossible core.old.core.program core.old.core.cells (first_of entries.now) all) }
    ensures refused { IfOk result (λ all. all < length (first_of entries.now)
        → IsFirstImpossible core.old.core.program core.old.core.cells (first_of entries.now) (all + 1)) }
    ensures told { IfOk result (λ all. all ≡ length (first_of entries.now) → text.new.items ≡ text.old.items
        ++ words.trace_from core.old.core.program (shown_on teller.now.page.now)
        (made + 1) (progress_after core.old.core.program (take made (first_of entries.now))) (drop made (first_of entries.now))) }
{
    let count = entries.len();
    let mut runs = entries.history.runs();
    let mut at = 0;
    while at < count {
        let Some(run) = runs.next() else {
            unreachable!()
        };
        let end = count.min(at + run.count as u64);
        let from = made.max(at);
        if from < end {
            let left = Run {
                process: run.process,
                steps: run.steps,
                count: (end - from) as u32,
            };
            let more = tell_run(core, text, teller, from, left)?;
            if more < left.count {
                return Ok(from + more as u64);
            }
            // A core's history is legal, so each frame had its gap.
            core.headline();
        }
        at = end;
    }
    Ok(count)
}
