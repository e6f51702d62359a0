//! A source's run by workers.
ghost use Rattle.std.specs.Prelude.{◌≡◌, IfOk, OnErr, false};
ghost use Rattle.hep_run.specs.Delivery.{LeavesOfSource};
ghost use Rattle.hep_outcome.specs.Memory.{MayOpen};
ghost use Rattle.hep_run.specs.Memory.{MayReadOn, RefusesLargeSource};
ghost use Rattle.hep_outcome.specs.Transcripts.{outcome_of};
ghost use Rattle.hep_run.specs.Workers.{IsImageWorked, IsWorkOutcome, outcome_of_refused_workers};

use crate::command::CommandRequest;
use crate::companion_files::say_unread;
use crate::delivery::deliver_made;
use crate::front_end::image_of_source;
use crate::input::read_input;
use crate::options::{Run, WorkRequest};
use crate::source::MOST_BYTES;
use crate::transcript::fault_transcript;
use hep_history::History;
use hep_image::Image;
use hep_outcome::{
    Lines, Status, Transcript, ended_transcript, full_transcript, opening_notes_when,
};
use hep_output::append_number;
use hep_workers::{Gate, WorkFault, WorkOptions, run_unlogged};
use std::alloc::{AllocError, Global};
use std::io::{Read, Write};
use std::sync::Wait;
use std::thread::Threads;

// The transcript of workers that gave up, or left no report, for the reason with this number.
fn workers_transcript(alloc: Global, number: u16) -> Result<Transcript, AllocError>
    ensures { IfOk result (λ r. outcome_of r ≡ outcome_of_refused_workers number) }
{
    let mut messages = Vec::new(alloc);
    messages.extend_from_slice(b"WORKERS REFUSED ")?;
    append_number(&mut messages, number)?;
    messages.extend_from_slice(b"\n")?;
    let history = History::new(alloc);
    Ok(Transcript::silent(alloc, Lines::Made(messages), Status::NoMemory, history))
}

// All that the run of an accepted program by workers writes.
fn image_transcript<H: Threads + Wait + Sync, G: Gate + Sync>(
    alloc: Global,
    image: Image,
    asked: &WorkRequest<'_, H, G>,
    long: bool,
) -> Result<Transcript, AllocError>
    ensures made { IfOk result (λ r. IsImageWorked long image asked.now.options.now (outcome_of r)) }
    ensures unmade { OnErr result (MayOpen long image asked.now.options.now.arena) }
{
    let notes = opening_notes_when(alloc, &image, asked.options.arena, long)?;
    match run_unlogged(asked.threads, alloc, image, asked.options, asked.gate) {
        Ok(core) => {
            core.headline();
            ended_transcript(alloc, core, long)
        }
        Err(fault) => match fault {
            WorkFault::ArenaFull => full_transcript(alloc, &notes),
            _ => match fault.number() {
                Some(number) => workers_transcript(alloc, number),
                None => Err(AllocError),
            },
        },
    }
}

// All that a run of a source by workers writes, before a byte of it is written. No `Command` starts threads, since it can't
// say that what it is handed may go to them.
fn work_transcript<H: Threads + Wait + Sync, G: Gate + Sync>(
    alloc: Global,
    source: &[u8],
    asked: &CommandRequest<'_, WorkRequest<'_, H, G>>,
) -> Result<Transcript, AllocError>
    ensures made { IfOk result (λ r. IsWorkOutcome asked.now.long asked.now.options.now.options.now source.now (outcome_of r)) }
    ensures unmade { OnErr result (MayReadOn asked.now.long source.now) }
{
    match image_of_source(alloc, source, asked.long) {
        Ok(image) => image_transcript(alloc, image, asked.options, asked.long),
        Err(fault) => fault_transcript(alloc, fault),
    }
}

/// Runs a source by workers: reads it, checks it, lets threads make its steps, and then writes as `run_source` does,
/// or `WORKERS REFUSED` with a number to `messages` where the workers gave up; with notes where they are asked for.
///
/// The run's status is the code of a `Status`. The call may wait. Its contract holds if it returns.
pub fn work_noted<H: Threads + Wait + Sync, G: Gate + Sync, R: Read, W: Write, E: Write>(
    alloc: Global,
    source: &mut R,
    asked: &CommandRequest<'_, WorkRequest<'_, H, G>>,
    output: &mut W,
    messages: &mut E,
) -> Run
    ensures left { LeavesOfSource (IsWorkOutcome asked.now.long asked.now.options.now.options.now) (R.remaining source.old) (R.remaining source.new)
        result (W.contents output.old) (W.contents output.new)
        (E.contents messages.old) (E.contents messages.new) }
    ensures large { RefusesLargeSource asked.now.long (R.remaining source.old) (R.remaining source.new) result
        (W.contents output.old) (W.contents output.new) (E.contents messages.old) (E.contents messages.new) }
{
    match read_input(alloc, source, MOST_BYTES) {
        Ok(bytes) => {
            let made = work_transcript(alloc, &bytes, asked);
            deliver_made(alloc, made, output, messages)
        }
        Err(fault) => Run {
            status: say_unread(messages, fault),
            history: History::new(alloc),
        },
    }
}

/// Runs a source by workers, as `work_noted` does without notes.
pub fn work_source<H: Threads + Wait + Sync, G: Gate + Sync, R: Read, W: Write, E: Write>(
    rt: &H,
    alloc: Global,
    source: &mut R,
    options: &WorkOptions,
    gate: &G,
    output: &mut W,
    messages: &mut E,
) -> Run
    ensures left { LeavesOfSource (IsWorkOutcome false options.now) (R.remaining source.old) (R.remaining source.new)
        result (W.contents output.old) (W.contents output.new)
        (E.contents messages.old) (E.contents messages.new) }
    ensures large { RefusesLargeSource false (R.remaining source.old) (R.remaining source.new) result
        (W.contents output.old) (W.contents output.new) (E.contents messages.old) (E.contents messages.new) }
{
    let options = WorkRequest {
        threads: rt,
        options,
        gate,
    };
    let asked = CommandRequest {
        options: &options,
        long: false,
    };
    work_noted(alloc, source, &asked, output, messages)
}
