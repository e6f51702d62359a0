//! The races of a history.
ghost use Rattle.std.specs.Prelude.{◌≡◌, ◌≤◌, IfOk, not, length, nat_eq, option_map};
ghost use Rattle.hep_accesses.specs.RunEvents.{races_of};
ghost use Rattle.hep_machine.specs.Words.{schedule_of};
ghost use Rattle.hep_races.specs.Races.{CanBeListed, races_text};
ghost use Rattle.hep_races.specs.SeenRaces.{source_seen};
ghost use Rattle.hep_replay.specs.HistoryPrefix.{first_of};

use crate::race_lines::{RaceSources, append_rows};
use crate::race_observer::RaceObserver;
use hep_fold::{HistoryRange, fold_history};
use hep_image::Image;
use hep_machine::laws::numbers_rise;
use hep_replay::HistoryPrefix;
use hep_state_text::Listing;
use std::alloc::{AllocError, Global};

/// The text about the races of a history, and whether there is one.
#[derive(Drop)]
pub struct RaceReport {
    pub text: Vec<u8>,
    pub found: bool,
}

/// The races of a history's first entries, which are made again in an arena of `cells` cells, 1 to 16,777,216. Below each line are lines
/// of the source, where some are given.
///
/// # Errors
///
/// Only where memory was refused.
pub fn history_races(
    alloc: Global,
    image: &Image,
    cells: u32,
    entries: HistoryPrefix<'_>,
    lines: Option<&Listing<'_>>,
) -> Result<RaceReport, AllocError>
    requires size { (1 ≤ cells) × (cells ≤ 16777216) }
    requires possible { CanBeListed image.now cells entries }
    ensures text { IfOk result (λ report. report.text.items
        ≡ races_text (source_seen (option_map (λ l. l.now) lines.entry)) image.now (first_of entries.entry)) }
    ensures found { IfOk result (λ report. report.found
        ≡ not (nat_eq (length (races_of image.now (schedule_of (first_of entries.entry)))) 0)) }
{
    image.is_runnable();
    numbers_rise();
    let mut observer = RaceObserver::new(alloc, image)?;
    let end = entries.len();
    let range = HistoryRange {
        history: entries.history,
        start: 0,
        end,
    };
    fold_history(alloc, image, cells, &range, &mut observer)?;
    let rows = observer.detector.rows();
    let sites = observer.sites.as_slice();
    let sources = RaceSources {
        image,
        sites,
        entries,
        lines,
    };
    let mut text = Vec::new(alloc);
    append_rows(alloc, &mut text, &sources, rows)?;
    let found = !rows.is_empty();
    Ok(RaceReport { text, found })
}
