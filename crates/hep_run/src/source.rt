//! The program's work on one source, from its reader to its two writers: a check, its lines, a run, or a replay. Those
//! in `src/command.rt` do the same with notes.
ghost use Rattle.std.specs.Prelude.{◌≤◌, false};
ghost use Rattle.hep_run.specs.Delivery.{LeavesOfSource, status_alone};
ghost use Rattle.hep_run.specs.Checks.{IsCheckOutcome, IsListOutcome, IsWarnOutcome};
ghost use Rattle.hep_run.specs.Memory.{RefusesLargeSource};
ghost use Rattle.hep_run.specs.Outcome.{IsLotOutcome, IsOutcome, IsReplayOutcome};

use crate::checks::{Check, List, Warn};
use crate::command::{CommandRequest, deliver_source};
use crate::options::Run;
use hep_outcome::{LotOptions, Options, ReplayOptions};
use std::alloc::Global;
use std::io::{Read, Write};

/// The greatest number of bytes of a source. Reading stops as soon as there are more.
///
/// It is `MOST_BYTES` of `hep_text`, which refuses a longer source with 107. If it were less, the first part of a
/// source could be run as if it were the source; the proof of `run_source` needs just this number in both.
pub const MOST_BYTES: usize = 4_194_304;

/// The line where memory was refused.
pub const NO_MEMORY: &[u8] = b"NO MEMORY\n";

/// Checks a source: reads it, and writes to `messages` why it is refused, if it is. If it isn't refused, nothing is
/// written, and `run_source` would run it.
///
/// Returns the code of a `Status`.
pub fn check_source<R: Read, W: Write, E: Write>(
    alloc: Global,
    source: &mut R,
    output: &mut W,
    messages: &mut E,
) -> u8
    ensures left { LeavesOfSource (IsCheckOutcome false) (R.remaining source.old) (R.remaining source.new)
        (status_alone result) (W.contents output.old) (W.contents output.new)
        (E.contents messages.old) (E.contents messages.new) }
    ensures large { RefusesLargeSource false (R.remaining source.old) (R.remaining source.new) (status_alone result)
        (W.contents output.old) (W.contents output.new) (E.contents messages.old) (E.contents messages.new) }
{
    let asked = CommandRequest {
        options: &Check,
        long: false,
    };
    deliver_source(alloc, source, &asked, output, messages).status
}

/// Checks a source, as `check_source` does, and if it isn't refused writes to `messages` a line for each of its
/// warnings.
///
/// Returns the code of a `Status`.
pub fn warn_source<R: Read, W: Write, E: Write>(
    alloc: Global,
    source: &mut R,
    output: &mut W,
    messages: &mut E,
) -> u8
    ensures left { LeavesOfSource (IsWarnOutcome false) (R.remaining source.old) (R.remaining source.new)
        (status_alone result) (W.contents output.old) (W.contents output.new)
        (E.contents messages.old) (E.contents messages.new) }
    ensures large { RefusesLargeSource false (R.remaining source.old) (R.remaining source.new) (status_alone result)
        (W.contents output.old) (W.contents output.new) (E.contents messages.old) (E.contents messages.new) }
{
    let asked = CommandRequest {
        options: &Warn,
        long: false,
    };
    deliver_source(alloc, source, &asked, output, messages).status
}

/// Lists a source: reads it, and writes to `output` the lines of its units and common blocks, also where it passes a
/// limit; or to `messages` why it is refused.
///
/// Returns the code of a `Status`.
pub fn list_source<R: Read, W: Write, E: Write>(
    alloc: Global,
    source: &mut R,
    output: &mut W,
    messages: &mut E,
) -> u8
    ensures left { LeavesOfSource (IsListOutcome false) (R.remaining source.old) (R.remaining source.new)
        (status_alone result) (W.contents output.old) (W.contents output.new)
        (E.contents messages.old) (E.contents messages.new) }
    ensures large { RefusesLargeSource false (R.remaining source.old) (R.remaining source.new) (status_alone result)
        (W.contents output.old) (W.contents output.new) (E.contents messages.old) (E.contents messages.new) }
{
    let asked = CommandRequest {
        options: &List,
        long: false,
    };
    deliver_source(alloc, source, &asked, output, messages).status
}

/// Runs a source: reads it, checks it, runs it by the options, and then writes the records to
/// `output` and the faults, the stop or the refusal to `messages`.
///
/// The run's status is the code of a `Status`.
pub fn run_source<R: Read, W: Write, E: Write>(
    alloc: Global,
    source: &mut R,
    options: &Options,
    output: &mut W,
    messages: &mut E,
) -> Run
    ensures left { LeavesOfSource (IsOutcome false options.now) (R.remaining source.old) (R.remaining source.new)
        result (W.contents output.old) (W.contents output.new)
        (E.contents messages.old) (E.contents messages.new) }
    ensures large { RefusesLargeSource false (R.remaining source.old) (R.remaining source.new) result
        (W.contents output.old) (W.contents output.new) (E.contents messages.old) (E.contents messages.new) }
{
    let asked = CommandRequest {
        options,
        long: false,
    };
    deliver_source(alloc, source, &asked, output, messages)
}

/// Runs a source by lots: reads it, checks it, chooses the process that the seed draws at each step, and then writes as
/// `run_source` does, with notes where they are asked for.
///
/// The run's status is the code of a `Status`.
pub fn lots_noted<R: Read, W: Write, E: Write>(
    alloc: Global,
    source: &mut R,
    asked: &CommandRequest<'_, LotOptions>,
    output: &mut W,
    messages: &mut E,
) -> Run
    ensures left { LeavesOfSource (IsLotOutcome asked.now.long asked.now.options.now) (R.remaining source.old) (R.remaining source.new)
        result (W.contents output.old) (W.contents output.new)
        (E.contents messages.old) (E.contents messages.new) }
    ensures large { RefusesLargeSource asked.now.long (R.remaining source.old) (R.remaining source.new) result
        (W.contents output.old) (W.contents output.new) (E.contents messages.old) (E.contents messages.new) }
{
    deliver_source::<LotOptions, R, W, E>(alloc, source, asked, output, messages)
}

/// Reads a source and makes the steps of a history of it again. Then it writes as `run_source` does, and `STILL RUNNING`
/// to `messages` where the run could go on.
///
/// The bytes of the history have been read before, so that faults are reported in the order of the command line:
/// first a fault of reading the history, then those of the source, then those of the history's text.
///
/// The run's status is the code of a `Status`, and its history has an entry for each step.
pub fn replay_source<R: Read, W: Write, E: Write>(
    alloc: Global,
    source: &mut R,
    history: &[u8],
    cells: u32,
    output: &mut W,
    messages: &mut E,
) -> Run
    requires some { 1 ≤ cells }
    requires few { cells ≤ 16777216 }
    ensures left { LeavesOfSource (IsReplayOutcome false history.now cells) (R.remaining source.old) (R.remaining source.new)
        result (W.contents output.old) (W.contents output.new)
        (E.contents messages.old) (E.contents messages.new) }
    ensures large { RefusesLargeSource false (R.remaining source.old) (R.remaining source.new) result
        (W.contents output.old) (W.contents output.new) (E.contents messages.old) (E.contents messages.new) }
{
    let options = ReplayOptions {
        history,
        arena: cells,
    };
    let asked = CommandRequest {
        options: &options,
        long: false,
    };
    deliver_source(alloc, source, &asked, output, messages)
}
