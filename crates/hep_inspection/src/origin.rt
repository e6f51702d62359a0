//! Where the history that is looked at comes from: a text, or a run that is made for it.
ghost use Rattle.std.specs.Prelude.{◌≡◌, IfOk};
ghost use Rattle.hep_outcome.specs.Transcripts.{outcome_of};
ghost use Rattle.hep_inspection.specs.Recorded.{IsRecorded, IsRecordedRun};

use hep_base::Refusal;
use hep_cover::{History, read_text};
use hep_image::Image;
use hep_outcome::run_by_choices::image_transcript;
use hep_outcome::{LotOptions, Options, Status, lots_transcript};
use hep_run::transcript::{Transcript, history_transcript};
use std::alloc::{AllocError, Global};

/// Where a history comes from.
#[derive(Clone, Copy)]
pub enum Origin<'a> {
    /// This text of a history.
    Text(&'a [u8]),
    /// The run by choices, as `deliver_source` of `hep_run` makes it by these options.
    Choices(&'a Options),
    /// The run by lots, as `lots_noted` makes it.
    Lots(LotOptions),
}

/// What comes of the origin of a history.
#[derive(Drop)]
pub(crate) enum Recorded {
    /// The entries of the history.
    Made(History),
    /// What is written where there is none.
    Refused(Transcript),
}

// The entries that a run by choices has made, unless a choice is refused.
fn entries_of_run(alloc: Global, run: Transcript) -> Recorded
    ensures { IsRecordedRun (outcome_of run) result }
{
    let Transcript {
        output,
        messages,
        status,
        history,
    } = run;
    if status == Status::Usage {
        return Recorded::Refused(Transcript {
            output,
            messages,
            status,
            history: History::new(alloc),
        });
    }
    Recorded::Made(history)
}

/// The entries of the history of an accepted program that has this origin, or what is written where there is none.
///
/// # Errors
///
/// Only where memory was refused.
pub(crate) fn entries_of(
    alloc: Global,
    image: &Image,
    origin: &Origin<'_>,
) -> Result<Recorded, AllocError>
    ensures { IfOk result (IsRecorded image.now origin.now) }
{
    match *origin {
        Origin::Text(text) => match read_text(alloc, text) {
            Ok(entries) => Ok(Recorded::Made(entries)),
            Err(Refusal::NoMemory) => Err(AllocError),
            Err(Refusal::Refused { number, line, .. }) => {
                let refused = history_transcript(alloc, number, u64::from(line))?;
                Ok(Recorded::Refused(refused))
            }
        },
        Origin::Choices(options) => {
            let chosen = image_transcript(alloc, image.copy(alloc)?, options, false)?;
            Ok(entries_of_run(alloc, chosen))
        }
        Origin::Lots(options) => {
            let drawn = lots_transcript(alloc, image.copy(alloc)?, &options, false)?;
            Ok(Recorded::Made(drawn.history))
        }
    }
}
