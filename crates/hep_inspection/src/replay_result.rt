//! Histories of an accepted program that are made again.
ghost use Rattle.std.specs.Prelude.{◌≤◌, IfOk, OnErr};
ghost use Rattle.hep_inspection.specs.ReplayResults.{AreMadeOrRefused, IsMadeOrRefused};
ghost use Rattle.hep_outcome.specs.Memory.{MayOpen};

use crate::origin::{Origin, Recorded, entries_of};
use hep_core::Core;
use hep_cover::{History, ReplayFault, replay};
use hep_image::Image;
use hep_run::transcript::{Transcript, full_transcript, history_transcript, opening_notes_when};
use std::alloc::{AllocError, Global};

/// The result of a history that is made again.
#[derive(Drop)]
pub(crate) enum ReplayResult {
    /// A core that has made its entries.
    Made { core: Core, entries: History },
    /// What is written where the history is refused.
    Refused(Transcript),
}

// Makes entries again, with notes where `long` is true.
fn make_entries(
    alloc: Global,
    image: Image,
    arena: u32,
    long: bool,
    entries: History,
) -> Result<ReplayResult, AllocError>
    requires some { 1 ≤ arena }
    requires few { arena ≤ 16777216 }
    ensures made { IfOk result (AreMadeOrRefused long arena image entries.items) }
    ensures unmade { OnErr result (MayOpen long image arena) }
{
    let notes = opening_notes_when(alloc, &image, arena, long)?;
    match replay(alloc, image, arena, &entries) {
        Ok(core) => Ok(ReplayResult::Made { core, entries }),
        Err(ReplayFault::NoMemory) => Err(AllocError),
        Err(ReplayFault::ArenaFull) => Ok(ReplayResult::Refused(full_transcript(alloc, &notes)?)),
        Err(ReplayFault::Refused { number, entry }) => {
            Ok(ReplayResult::Refused(history_transcript(alloc, number, entry)?))
        }
    }
}

/// Makes the entries of the history of an origin again, with notes where `long` is true.
pub(crate) fn make_again(
    alloc: Global,
    image: &Image,
    arena: u32,
    long: bool,
    origin: &Origin<'_>,
) -> Result<ReplayResult, AllocError>
    requires some { 1 ≤ arena }
    requires few { arena ≤ 16777216 }
    ensures { IfOk result (IsMadeOrRefused long arena image.now origin.now) }
{
    match entries_of(alloc, image, origin)? {
        Recorded::Made(entries) => {
            let copy = image.copy(alloc)?;
            make_entries(alloc, copy, arena, long, entries)
        }
        Recorded::Refused(refused) => Ok(ReplayResult::Refused(refused)),
    }
}
