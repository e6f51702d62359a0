//! The replay of a program, from the bytes of a history.
ghost use Rattle.std.specs.Prelude.{IfOk};
ghost use Rattle.hep_outcome.specs.Replay.{IsTextOutcome};
ghost use Rattle.hep_outcome.specs.Transcripts.{outcome_of};

use crate::options::ReplayOptions;
use crate::transcript::{
    Transcript, core_transcript, full_transcript, history_transcript, opening_notes_when,
};
use hep_base::Refusal;
use hep_image::Image;
use hep_replay::{ReplayFault, read_text, replay};
use std::alloc::{AllocError, Global};

/// The transcript of a replay of an accepted program, with notes where `long` is true.
///
/// # Errors
///
/// Only where memory was refused.
pub fn image_transcript(
    alloc: Global,
    image: Image,
    options: &ReplayOptions<'_>,
    long: bool,
) -> Result<Transcript, AllocError>
    ensures { IfOk result (λ r. IsTextOutcome long options.now.history.now options.now.arena image (outcome_of r)) }
{
    let entries = match read_text(alloc, options.history) {
        Ok(entries) => entries,
        Err(Refusal::NoMemory) => return Err(AllocError),
        Err(Refusal::Refused { number, line, .. }) => {
            return history_transcript(alloc, number, u64::from(line));
        }
    };
    let notes = opening_notes_when(alloc, &image, options.arena, long)?;
    match replay(alloc, image, options.arena, &entries) {
        Ok(core) => core_transcript(alloc, core, long),
        Err(ReplayFault::NoMemory) => Err(AllocError),
        Err(ReplayFault::ArenaFull) => full_transcript(alloc, &notes),
        Err(ReplayFault::Refused { number, entry }) => history_transcript(alloc, number, entry),
    }
}
