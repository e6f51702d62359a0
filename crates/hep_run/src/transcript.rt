//! The output where a source isn't run, or where the result is a text.
ghost use Rattle.std.specs.Prelude.{◌≡◌, [], false, IfOk, OnErr};
ghost use Rattle.hep_outcome.specs.Transcripts.{outcome_of};
ghost use Rattle.hep_run.specs.Checks.{outcome_of_text};
ghost use Rattle.hep_run.specs.Memory.{tells_large};
ghost use Rattle.hep_run.specs.Outcome as outcome;
ghost use Rattle.hep_run.specs.Transcripts.{IsOutcomeOfFault};
ghost use Rattle.hep_run.specs.declared.refusal.SourceFault.TheVariants.{Refused};

use crate::refusal::SourceFault;
use hep_base::Text;
use hep_history::History;
use hep_outcome::{Lines, Status, put_refusal};
pub use hep_outcome::{Transcript, full_transcript, history_transcript, opening_notes_when};
use std::alloc::{AllocError, Global};

// Whether a refusal with nothing after it is that of a source that is too large.
fn is_too_large(number: u16, line: u32, name: &Text, notes: &Text) -> bool
    ensures { result ≡ tells_large (Refused number line name.now notes.now) }
{
    number == 107 && line == 0 && name.as_slice().is_empty() && notes.as_slice().is_empty()
}

// The transcript of a source that is too large.
fn large_transcript(alloc: Global) -> Transcript
    ensures { outcome_of result ≡ outcome.refused 107 0 [] [] }
{
    let history = History::new(alloc);
    Transcript::silent(
        alloc,
        Lines::Fixed(b"REFUSED 107 LINE 0\n"),
        Status::Refused,
        history,
    )
}

// The transcript of a source that is refused so, whose line is made.
fn told_transcript(
    alloc: Global,
    number: u16,
    line: u32,
    name: &Text,
    notes: &Text,
) -> Result<Transcript, AllocError>
    ensures { IfOk result (λ r. outcome_of r ≡ outcome.refused number line name.now notes.now) }
{
    let mut messages = Vec::new(alloc);
    put_refusal(&mut messages, number, u64::from(line), name.as_slice())?;
    messages.extend_from_slice(notes.as_slice())?;
    let history = History::new(alloc);
    Ok(Transcript::silent(alloc, Lines::Made(messages), Status::Refused, history))
}

// The transcript of a refused source.
fn refused_transcript(
    alloc: Global,
    number: u16,
    line: u32,
    name: &Text,
    notes: &Text,
) -> Result<Transcript, AllocError>
    ensures made { IfOk result (λ r. outcome_of r ≡ outcome.refused number line name.now notes.now) }
    ensures unmade { OnErr result (tells_large (Refused number line name.now notes.now) ≡ false) }
{
    if is_too_large(number, line, name, notes) {
        return Ok(large_transcript(alloc));
    }
    told_transcript(alloc, number, line, name, notes)
}

/// The transcript of a source that isn't run for this reason.
///
/// # Errors
///
/// Only where memory was refused, which isn't asked for where the source is too large and there are no notes.
pub fn fault_transcript(alloc: Global, fault: SourceFault) -> Result<Transcript, AllocError>
    ensures made { IfOk result (λ r. IsOutcomeOfFault fault (outcome_of r)) }
    ensures unmade { OnErr result (tells_large fault ≡ false) }
{
    match fault {
        SourceFault::NoMemory => Err(AllocError),
        SourceFault::Refused {
            number,
            line,
            name,
            notes,
        } => refused_transcript(alloc, number, line, &name, &notes),
    }
}

/// The transcript of a text.
pub fn text_transcript(alloc: Global, text: Vec<u8>) -> Transcript
    ensures { outcome_of result ≡ outcome_of_text text.items }
{
    Transcript {
        output: text,
        messages: Lines::Made(Vec::new(alloc)),
        status: Status::Done,
        history: History::new(alloc),
    }
}
