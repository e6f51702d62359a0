//! The lines of a history's steps.
ghost use Rattle.std.specs.Prelude.{◌≡◌, ◌≤◌, IfErr, IfOk, IsSome, OnOk, length};
ghost use Rattle.hep_replay.specs.HistoryPrefix.{first_of};
ghost use Rattle.hep_why.specs.Replays.{ArePossible, IsUnmade};
ghost use Rattle.hep_machine.specs.Words.{opening_layout};
ghost use Rattle.hep_event.specs.Traces as words;
ghost use Rattle.hep_trace.specs.TraceProgress.{HasMade};
ghost use Rattle.hep_trace.specs.LineFilters.{shown_on};

use crate::line_filter::LineFilter;
use crate::trace_breakpoints::watches_for;
use crate::trace_lines::{LineMaker, tell_entries};
use hep_image::Image;
use hep_why::{Core, HistoryPrefix, ReplayFault, Variables, replay_first};
use std::alloc::Global;

// A core that has made a number of the entries, as many as there are at most.
fn begin_after(
    alloc: Global,
    image: Image,
    cells: u32,
    entries: &HistoryPrefix<'_>,
    made: u64,
) -> Result<Core, ReplayFault>
    requires some { 1 ≤ cells }
    requires few { cells ≤ 16777216 }
    requires within { made ≤ length (first_of entries.now) }
    ensures made { IfOk result (λ core. HasMade core.core (first_of entries.now) made) }
    ensures same { IfOk result (λ core. (core.core.program ≡ image) × (core.core.cells ≡ cells)) }
    ensures fits { OnOk result (IsSome (opening_layout image cells)) }
    ensures unmade { IfErr result (IsUnmade image cells (first_of entries.now)) }
{
    let front = HistoryPrefix {
        history: entries.history,
        count: made,
    };
    let core = replay_first(alloc, image, cells, &front)?;
    // A core's history is legal, so it has no more entries than it may have.
    core.headline();
    Ok(core)
}

/// The lines of the steps of a history's first entries, which an image makes in an arena of `cells` cells, 1 to
/// 16,777,216, as far as they are shown. The entries are made once: step by step where they are shown, and otherwise
/// in runs, as a replay makes them.
///
/// # Errors
///
/// As a replay of these entries: `ArenaFull`, `Refused`, and `NoMemory`, which is reported only where the main
/// program's frame has a gap.
pub fn trace_history(
    alloc: Global,
    image: Image,
    cells: u32,
    entries: &HistoryPrefix<'_>,
    page: &LineFilter<'_>,
) -> Result<Vec<u8>, ReplayFault>
    requires some { 1 ≤ cells }
    requires few { cells ≤ 16777216 }
    ensures told { IfOk result (λ text. text.items ≡ words.trace_text image (shown_on page.now) (first_of entries.now)) }
    ensures fits { OnOk result (IsSome (opening_layout image cells)) }
    ensures possible { OnOk result (ArePossible image cells (first_of entries.now) (length (first_of entries.now))) }
    ensures unmade { IfErr result (IsUnmade image cells (first_of entries.now)) }
{
    let made = page.first.saturating_sub(1).min(entries.len());
    let mut core = begin_after(alloc, image, cells, entries, made)?;
    let Ok(variables) = Variables::of_image(alloc, core.image()) else {
        return Err(ReplayFault::NoMemory);
    };
    let Ok(watches) = watches_for(alloc, core.image(), &variables, page) else {
        return Err(ReplayFault::NoMemory);
    };
    let teller = LineMaker {
        alloc,
        variables: &variables,
        page,
        watches: &watches,
    };
    let mut text = Vec::new(alloc);
    let Ok(all) = tell_entries(&mut core, &mut text, &teller, entries, made) else {
        return Err(ReplayFault::NoMemory);
    };
    if all < entries.len() {
        return Err(ReplayFault::Refused {
            number: 603,
            entry: all + 1,
        });
    }
    Ok(text)
}
