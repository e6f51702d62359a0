//! From the entries of a history to the picture of its run.
ghost use Rattle.std.specs.Prelude.{◌≡◌, ◌≤◌, IfErr, IfOk, IsSome, OnOk, length};
ghost use Rattle.hep_machine.specs.Words.{opening_layout};
ghost use Rattle.hep_page.specs.Pages as words;
ghost use Rattle.hep_replay.specs.HistoryPrefix.{first_of};
ghost use Rattle.hep_replay.specs.Replays.{ArePossible, IsUnmade};

use crate::picture::picture_of;
use hep_image::Image;
use hep_replay::{HistoryPrefix, ReplayFault};
use hep_trace::{LineFilter, trace_history};
use std::alloc::Global;

/// The picture of the run that the first entries of a history make of an image, in an arena of `cells` cells, 1 to 16,777,216. It is drawn
/// by the lines of their trace, for which the entries are made once.
///
/// # Errors
///
/// As a replay of these entries: `ArenaFull`, `Refused`, and `NoMemory`, which is reported only where the main program's frame has a gap.
pub fn picture_text(
    alloc: Global,
    image: Image,
    cells: u32,
    entries: &HistoryPrefix<'_>,
) -> Result<Vec<u8>, ReplayFault>
    requires some { 1 ≤ cells }
    requires few { cells ≤ 16777216 }
    ensures told { IfOk result (λ picture. picture.items ≡ words.picture_text image (first_of entries.now)) }
    ensures fits { OnOk result (IsSome (opening_layout image cells)) }
    ensures possible { OnOk result (ArePossible image cells (first_of entries.now) (length (first_of entries.now))) }
    ensures unmade { IfErr result (IsUnmade image cells (first_of entries.now)) }
{
    let all = LineFilter {
        first: 1,
        last: entries.len(),
        process: None,
        cell: None,
    };
    let trace = trace_history(alloc, image, cells, entries, &all)?;
    match picture_of(alloc, &trace) {
        Ok(picture) => Ok(picture),
        Err(_) => Err(ReplayFault::NoMemory),
    }
}
