//! All outcomes of a source, as far as a search of its states shows them.
ghost use Rattle.std.specs.Io.KnownBytes.{Keeps};
ghost use Rattle.std.specs.Prelude.{◌≡◌, ◌++◌, [], codes, IfErr, IfOk, OnOk};
ghost use Rattle.hep_outcome.specs.Transcripts.{outcome_of};
ghost use Rattle.hep_outcome.specs.declared.status.Status.TheVariants.{NoMemory};
ghost use Rattle.hep_run.specs.Delivery.{LeavesOneOf, SaysLines, status_alone};
ghost use Rattle.hep_inspection.specs.Explorations.{HasChosenHistory, IsExploredOutcome, outcome_of_exploration};
ghost use Rattle.hep_inspection.specs.Explorations as spec;

use crate::explore_options::{ExploreOptions, ExploreRequest};
use hep_base::append_number;
use hep_explore::{Exploration, Found, SearchObserver, explore, text_of};
use hep_history::History;
use hep_outcome::{Lines, Options, Status, write_text};
use hep_run::CommandRequest;
use hep_run::command::transcript_of;
use hep_run::delivery::{deliver, say};
use hep_run::front_end::image_of_source;
use hep_run::source::NO_MEMORY;
use hep_run::transcript::{Transcript, fault_transcript};
use std::alloc::{AllocError, Global};
use std::io::Write;

/// The result of a search.
#[derive(Drop)]
pub struct Explored {
    /// The exit status of the program: the code of a `Status`.
    pub status: u8,
    /// The outcomes; none where the source isn't run, or memory was refused.
    pub found: Vec<Found>,
}

// Whether it isn't so that there is one outcome.
fn contradicts_one(found: &[Found], complete: bool) -> bool
    ensures { result ≡ spec.contradicts_one found.now complete }
{
    match found {
        [] => complete,
        [_] => false,
        [_, _, ..] => true,
    }
}

// Whether one of these has another status.
fn has_other_status(found: &[Found], status: u8) -> bool
    ensures { result ≡ spec.has_other_status status found.now }
{
    found.iter().any(|one| one.status() != status)
}

// Whether it isn't so that each outcome has this status.
fn contradicts_status(found: &[Found], complete: bool, status: u8) -> bool
    ensures { result ≡ spec.contradicts_status status found.now complete }
{
    match found {
        [] => complete,
        [_, ..] => has_other_status(found, status),
    }
}

// Appends a line where a status is expected, and that isn't so.
fn append_expected_status(
    text: &mut Vec<u8>,
    expected: Option<u8>,
    found: &[Found],
    complete: bool,
) -> Result<(), AllocError>
    ensures { OnOk result (text.new.items ≡ text.old.items ++ spec.expected_status_text expected found.now complete) }
{
    let Some(status) = expected else {
        return Ok(());
    };
    if !contradicts_status(found, complete, status) {
        return Ok(());
    }
    text.extend_from_slice(b"EXPECTED STATUS ")?;
    append_number(text, status)?;
    text.extend_from_slice(b"\n")
}

// What is written of outcomes that aren't as expected.
fn unexpected_text(
    alloc: Global,
    options: &ExploreOptions,
    found: &[Found],
    complete: bool,
) -> Result<Vec<u8>, AllocError>
    ensures { IfOk result (λ text. text.items ≡ spec.unexpected_text options.now found.now complete) }
{
    let mut text = Vec::new(alloc);
    if options.expect_one && contradicts_one(found, complete) {
        text.extend_from_slice(b"EXPECTED ONE OUTCOME\n")?;
    }
    append_expected_status(&mut text, options.expect_status, found, complete)?;
    Ok(text)
}

// The status of a search of which this is written, where the outcomes aren't as expected.
fn explored_status(unexpected: &[u8], complete: bool) -> Status
    ensures { result ≡ spec.explored_status unexpected.now complete }
{
    match (unexpected, complete) {
        ([_, ..], _) => Status::Unexpected,
        ([], true) => Status::Done,
        ([], false) => Status::StepLimit,
    }
}

// What is written of an exploration.
fn transcript_of_exploration(
    alloc: Global,
    options: &ExploreOptions,
    explored: &Exploration,
) -> Result<Transcript, AllocError>
    ensures { IfOk result (λ r. outcome_of r ≡ outcome_of_exploration options.now explored.now) }
{
    let complete = explored.complete;
    let unexpected = unexpected_text(alloc, options, &explored.found, complete)?;
    let mut output = text_of(alloc, &explored.found, explored.states, complete)?;
    output.extend_from_slice(&unexpected)?;
    Ok(Transcript {
        output,
        messages: Lines::Made(Vec::new(alloc)),
        status: explored_status(&unexpected, complete),
        history: History::new(alloc),
    })
}

// All that a search of a source writes, before a byte of it is written, and the outcomes that it found.
fn explore_transcript<O: SearchObserver>(
    alloc: Global,
    source: &[u8],
    asked: &ExploreRequest<'_, O>,
) -> Result<(Transcript, Vec<Found>), AllocError>
    ensures { IfOk result (λ made. IsExploredOutcome asked.now.long asked.now.options.now made.1.items source.now (outcome_of made.0)) }
{
    match image_of_source(alloc, source, asked.long) {
        Ok(image) => {
            let explored = explore(
                alloc,
                &image,
                asked.options.arena,
                asked.options.states as usize,
                asked.observer,
            )?;
            let transcript = transcript_of_exploration(alloc, asked.options, &explored)?;
            Ok((transcript, explored.found))
        }
        Err(fault) => Ok((fault_transcript(alloc, fault)?, Vec::new(alloc))),
    }
}

/// Searches the states of a source, which has been read, and writes its outcomes, with choices that lead to each, whether others may be
/// possible, and what isn't as the options expect; or to `messages` why it isn't run, with notes where they are asked for.
///
/// Whenever the steps of one more state have been made the observer is told how many states have been found.
pub fn explore_bytes<W: Write, E: Write, O: SearchObserver>(
    alloc: Global,
    source: &[u8],
    asked: &ExploreRequest<'_, O>,
    output: &mut W,
    messages: &mut E,
) -> Explored
    ensures left { LeavesOneOf (IsExploredOutcome asked.now.long asked.now.options.now result.found.items source.now) (status_alone result.status)
        (W.contents output.old) (W.contents output.new)
        (E.contents messages.old) (E.contents messages.new) }
{
    match explore_transcript(alloc, source, asked) {
        Ok((transcript, found)) => Explored {
            status: deliver(transcript, output, messages).status,
            found,
        },
        Err(_) => Explored {
            status: say(messages, NO_MEMORY, Status::NoMemory),
            found: Vec::new(alloc),
        },
    }
}

/// The text of the history of a source's run by choices. Where there is one, nothing is written to `messages`.
///
/// # Errors
///
/// The exit status, where memory was refused.
pub fn choices_history<E: Write>(
    alloc: Global,
    source: &[u8],
    options: &Options,
    messages: &mut E,
) -> Result<Vec<u8>, u8>
    ensures made { IfOk result (λ text. HasChosenHistory options.now source.now text.items) }
    ensures silent { IfOk result (λ _. Keeps (E.contents messages.old) (E.contents messages.new)) }
    ensures unmade { IfErr result (λ code. SaysLines (codes "NO MEMORY\n") NoMemory code (E.contents messages.old) (E.contents messages.new)) }
{
    let asked = CommandRequest {
        options,
        long: false,
    };
    let Ok(transcript) = transcript_of(alloc, source, &asked) else {
        return Err(say(messages, NO_MEMORY, Status::NoMemory));
    };
    let Ok(text) = write_text(alloc, &transcript.history) else {
        return Err(say(messages, NO_MEMORY, Status::NoMemory));
    };
    Ok(text)
}
