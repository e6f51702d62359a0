//! What all commands do with a source: they read it, make a transcript of it, and write that.
ghost use Rattle.std.specs.Prelude.{IfOk, OnErr};
ghost use Rattle.hep_outcome.specs.Transcripts.{outcome_of};
ghost use Rattle.hep_run.specs.Delivery.{LeavesOfSource, LeavesOneOf};
ghost use Rattle.hep_run.specs.Memory.{MayReadOn, RefusesLarge, RefusesLargeSource};
ghost use Rattle.hep_run.specs.Outcome.{IsCommandOutcome};

use crate::companion_files::say_unread;
use crate::delivery::deliver_made;
use crate::front_end::{checked_source, image_of_source};
use crate::input::read_input;
use crate::options::Run;
use crate::refusal::SourceFault;
use crate::source::MOST_BYTES;
use crate::transcript::{Transcript, fault_transcript};
use hep_check::Checked;
use hep_history::History;
use hep_image::Image;
use std::alloc::{AllocError, Global};
use std::io::{Read, Write};

/// The program of a source, as far as a command needs it.
pub trait Front: Drop {
    ghost use Rattle.std.specs.Prelude.{ℕ, List, IfOk, IfErr};
    ghost use Rattle.hep_machine.specs.Words.{Units};
    ghost use Rattle.hep_run.specs.Memory.{IsWant};
    ghost use Rattle.hep_run.specs.Refusals.{IsRefusal};
    ghost use Rattle.hep_run.specs.Sources.{IsSourceOf};

    ghost is_refused: { Units → ℕ → ℕ → List ℕ → Type 0 };

    ghost holds: { Units → Type 0 };

    ghost program: { Self → Units };

    /// The program of a source.
    ///
    /// # Errors
    ///
    /// The first refusal of the source, with its notes where `long` is true; or `NoMemory`.
    fn of_source(alloc: Global, source: &[u8], long: bool) -> Result<Self, SourceFault>
        ensures made { IfOk result (λ front. IsSourceOf holds source.now (program front)) }
        ensures refused { IfErr result (IsRefusal is_refused long source.now) }
        ensures wanted { IfErr result (IsWant long source.now) };
}

impl Front for Checked {
    ghost use Rattle.hep_conditions.specs.Words.{IsAccepted};
    ghost use Rattle.hep_run.specs.Sources.{IsViolatingProgram};

    ghost is_refused = { IsViolatingProgram };

    ghost holds = { IsAccepted };

    ghost program = { λ checked. checked };

    fn of_source(alloc: Global, source: &[u8], long: bool) -> Result<Checked, SourceFault> {
        checked_source(alloc, source, long)
    }
}

impl Front for Image {
    ghost use Rattle.hep_run.specs.Sources.{IsRefusedProgram, IsRunnable};

    ghost is_refused = { IsRefusedProgram };

    ghost holds = { IsRunnable };

    ghost program = { λ image. image };

    fn of_source(alloc: Global, source: &[u8], long: bool) -> Result<Image, SourceFault> {
        image_of_source(alloc, source, long)
    }
}

/// A command, by its options.
pub trait Command {
    ghost use Rattle.std.specs.Prelude.{ℕ, Bool, List, IfOk};
    ghost use Rattle.hep_machine.specs.Words.{Units};
    ghost use Rattle.hep_outcome.specs.Outcome.{Outcome};
    ghost use Rattle.hep_outcome.specs.Transcripts.{outcome_of};

    type Front: Front;

    /// The outcomes of a source and its program, with notes or without.
    ghost gives: { Self → Bool → List ℕ → Units → Outcome → Type 0 };

    /// All that the command writes of a source whose program isn't refused.
    ///
    /// # Errors
    ///
    /// Only where memory was refused.
    fn transcript(
        alloc: Global,
        source: &[u8],
        front: Self::Front,
        asked: &CommandRequest<'_, Self>,
    ) -> Result<Transcript, AllocError>
        ensures { IfOk result (λ r.
            gives asked.now.options.now asked.now.long source.now (Self.Front.program front) (outcome_of r)) };
}

/// The options of a command, and whether notes are written besides the lines of the standard form.
#[derive(Drop)]
pub struct CommandRequest<'a, C> {
    pub options: &'a C,
    pub long: bool,
}

/// All that a command writes of a source, before a byte of it is written.
///
/// # Errors
///
/// Only where memory was refused, which without notes is asked for only where the source isn't too large.
pub fn transcript_of<C: Command>(
    alloc: Global,
    source: &[u8],
    asked: &CommandRequest<'_, C>,
) -> Result<Transcript, AllocError>
    ensures made { IfOk result (λ r. IsCommandOutcome C.Front.is_refused C.Front.holds
        (C.gives asked.now.options.now) asked.now.long source.now (outcome_of r)) }
    ensures unmade { OnErr result (MayReadOn asked.now.long source.now) }
{
    match C::Front::of_source(alloc, source, asked.long) {
        Ok(front) => C::transcript(alloc, source, front, asked),
        Err(fault) => fault_transcript(alloc, fault),
    }
}

/// Writes what a command gives of a source, which has been read.
///
/// The run's status is the code of a `Status`.
pub fn deliver_bytes<C: Command, W: Write, E: Write>(
    alloc: Global,
    source: &[u8],
    asked: &CommandRequest<'_, C>,
    output: &mut W,
    messages: &mut E,
) -> Run
    ensures left { LeavesOneOf (IsCommandOutcome C.Front.is_refused C.Front.holds
        (C.gives asked.now.options.now) asked.now.long source.now) result
        (W.contents output.old) (W.contents output.new) (E.contents messages.old) (E.contents messages.new) }
    ensures large { RefusesLarge asked.now.long source.now result
        (W.contents output.old) (W.contents output.new) (E.contents messages.old) (E.contents messages.new) }
{
    let made = transcript_of(alloc, source, asked);
    deliver_made(alloc, made, output, messages)
}

/// Reads a source, and writes what a command gives of it. Without notes these are the lines of the standard form.
///
/// The run's status is the code of a `Status`.
pub fn deliver_source<C: Command, R: Read, W: Write, E: Write>(
    alloc: Global,
    source: &mut R,
    asked: &CommandRequest<'_, C>,
    output: &mut W,
    messages: &mut E,
) -> Run
    ensures left { LeavesOfSource (IsCommandOutcome C.Front.is_refused C.Front.holds
        (C.gives asked.now.options.now) asked.now.long) (R.remaining source.old) (R.remaining source.new) result
        (W.contents output.old) (W.contents output.new) (E.contents messages.old) (E.contents messages.new) }
    ensures large { RefusesLargeSource asked.now.long (R.remaining source.old) (R.remaining source.new) result
        (W.contents output.old) (W.contents output.new) (E.contents messages.old) (E.contents messages.new) }
{
    match read_input(alloc, source, MOST_BYTES) {
        Ok(bytes) => deliver_bytes(alloc, &bytes, asked, output, messages),
        Err(fault) => Run {
            status: say_unread(messages, fault),
            history: History::new(alloc),
        },
    }
}
