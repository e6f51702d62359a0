//! From the entries of a history to the page of its run.
ghost use Rattle.std.specs.Prelude.{◌≡◌, ◌≤◌, IfErr, IfOk, IsSome, OnOk, drop, length};
ghost use Rattle.hep_event.specs.Traces as traces;
ghost use Rattle.hep_machine.specs.Words.{opening_layout};
ghost use Rattle.hep_page.specs.ChangeLogs.{AreNext, turns_text};
ghost use Rattle.hep_page.specs.Pages as words;
ghost use Rattle.hep_replay.specs.HistoryPrefix.{first_of};
ghost use Rattle.hep_replay.specs.Replays.{ArePossible, IsUnmade, replayed, standing};
ghost use Rattle.hep_state_text.specs.LineDisplay.{line_shown};
ghost use Rattle.hep_state_text.specs.States.{state_text};
ghost use Rattle.hep_why.specs.Watches.{IsReplayed};

use crate::change_log::{ChangeLog, note_turns};
use crate::page::{Texts, page_of, page_template};
use crate::source_lines::source_text;
use crate::state_view::{SourceNames, append_state, survey};
use hep_core::Core;
use hep_image::Image;
use hep_names::ProgramSymbols;
use hep_replay::{HistoryPrefix, ReplayFault, replay_first};
use hep_text::Listing;
use hep_trace::{LineFilter, trace_history};
use std::alloc::{AllocError, Global};

/// The first entries of a history, of which those from the one with the number `first` on are shown, counted from 1.
#[derive(Clone, Copy)]
pub struct ShownEntries<'a> {
    pub entries: HistoryPrefix<'a>,
    pub first: u64,
}

// What everything holds before the first turn that is shown, and what each turn from it on changes.
struct TurnTexts {
    opening: Vec<u8>,
    changes: Vec<u8>,
}

// Written out, so that a caller's proof has one call of it at each exit.
impl Drop for TurnTexts {
    fn drop(self) {
        let TurnTexts { opening, changes } = self;
    }
}

// What each turn of a core did that is shown. The core has made these entries.
fn trace_again(alloc: Global, core: &Core, shown: &ShownEntries<'_>) -> Result<Vec<u8>, AllocError>
    requires replayed { IsReplayed core.now.core (first_of shown.now.entries) }
    requires possible { ArePossible core.now.core.program core.now.core.cells (first_of shown.now.entries) (length (first_of shown.now.entries)) }
    ensures { IfOk result (λ text. text.items
        ≡ traces.trace_text core.now.core.program (words.shown_from shown.now.first (length (first_of shown.now.entries))) (first_of shown.now.entries)) }
{
    let image = core.image().copy(alloc)?;
    let lines = LineFilter {
        first: shown.first,
        last: shown.entries.len(),
        process: None,
        cell: None,
    };
    match trace_history(alloc, image, core.cells(), &shown.entries, &lines) {
        Ok(text) => Ok(text),
        Err(ReplayFault::NoMemory) => Err(AllocError),
        Err(ReplayFault::ArenaFull) => unreachable!(),
        Err(ReplayFault::Refused { .. }) => unreachable!(),
    }
}

// The entries before the first one that is shown.
fn entries_before<'a>(shown: &ShownEntries<'a>) -> HistoryPrefix<'a>
    ensures { first_of result ≡ words.entries_before shown.now.first (first_of shown.now.entries) }
{
    HistoryPrefix {
        history: shown.entries.history,
        count: shown.first.saturating_sub(1).min(shown.entries.len()),
    }
}

// A core of the same image and arena that has made the entries before the first one that is shown.
fn begin_again(alloc: Global, core: &Core, shown: &ShownEntries<'_>) -> Result<Core, AllocError>
    requires replayed { IsReplayed core.now.core (first_of shown.now.entries) }
    requires possible { ArePossible core.now.core.program core.now.core.cells (first_of shown.now.entries) (length (first_of shown.now.entries)) }
    ensures { IfOk result (λ again. again.core
        ≡ replayed core.now.core.program core.now.core.cells (words.entries_before shown.now.first (first_of shown.now.entries))) }
{
    let before = entries_before(shown);
    let image = core.image().copy(alloc)?;
    match replay_first(alloc, image, core.cells(), &before) {
        Ok(again) => Ok(again),
        Err(ReplayFault::NoMemory) => Err(AllocError),
        Err(ReplayFault::ArenaFull) => unreachable!(),
        Err(ReplayFault::Refused { .. }) => unreachable!(),
    }
}

// What everything holds after these entries, which a core has made, and what each further turn of another core changes, while the first one
// makes them.
fn turn_texts(
    alloc: Global,
    core: &Core,
    again: Core,
    lines: &Listing<'_>,
    entries: u64,
) -> Result<TurnTexts, AllocError>
    requires next { AreNext core.now.core.program core.now.core.cells again.core.history (drop (length again.core.history) core.now.core.history) }
    requires standing { again.core ≡ standing core.now.core.program core.now.core.cells again.core.history }
    ensures opening { IfOk result (λ texts. texts.opening.items
        ≡ state_text (line_shown lines.now) core.now.core.program entries again.core.history) }
    ensures changes { IfOk result (λ texts. texts.changes.items
        ≡ turns_text core.now.core.program (line_shown lines.now) again.core.history (drop (length again.core.history) core.now.core.history)) }
{
    let symbols = ProgramSymbols::new(alloc, core.image().program().as_slice())?;
    let known = SourceNames {
        symbols: &symbols,
        lines,
    };
    let parts = survey(alloc, &again, &known)?;
    let mut opening = Vec::new(alloc);
    append_state(&mut opening, entries, &parts)?;
    let mut log = ChangeLog {
        core: again,
        parts,
        text: Vec::new(alloc),
    };
    note_turns(alloc, &mut log, &known, core.history())?;
    Ok(TurnTexts {
        opening,
        changes: log.text,
    })
}

// The page of a core that has made these entries, which are made twice more for it.
fn page_again(
    alloc: Global,
    core: &Core,
    shown: &ShownEntries<'_>,
    source: &[u8],
) -> Result<Vec<u8>, AllocError>
    requires replayed { IsReplayed core.now.core (first_of shown.now.entries) }
    requires possible { ArePossible core.now.core.program core.now.core.cells (first_of shown.now.entries) (length (first_of shown.now.entries)) }
    ensures { IfOk result (λ page. page.items ≡ words.page_text source.now core.now.core.program shown.now.first (first_of shown.now.entries)) }
{
    let trace = trace_again(alloc, core, shown)?;
    let again = begin_again(alloc, core, shown)?;
    let unshown = Listing::new(alloc, b"")?;
    let before = entries_before(shown).len();
    let turns = turn_texts(alloc, core, again, &unshown, before)?;
    let source = source_text(alloc, source)?;
    page_of(
        alloc,
        &page_template(),
        &Texts {
            source: &source,
            opening: &turns.opening,
            trace: &trace,
            changes: &turns.changes,
        },
    )
}

/// The page of the run that the first entries of a history make of an image with this source, in an arena of `cells` cells, 1 to 16,777,216.
/// It begins before the entry with the number `first`. The entries are made three times for it. After each turn that the page has all that
/// is held is read.
///
/// # Errors
///
/// As a replay of these entries: `ArenaFull`, `Refused`, and `NoMemory`, which is reported only where the main program's frame has a gap.
pub fn page_text(
    alloc: Global,
    image: Image,
    cells: u32,
    shown: &ShownEntries<'_>,
    source: &[u8],
) -> Result<Vec<u8>, ReplayFault>
    requires some { 1 ≤ cells }
    requires few { cells ≤ 16777216 }
    ensures told { IfOk result (λ page. page.items ≡ words.page_text source.now image shown.now.first (first_of shown.now.entries)) }
    ensures fits { OnOk result (IsSome (opening_layout image cells)) }
    ensures possible { OnOk result (ArePossible image cells (first_of shown.now.entries) (length (first_of shown.now.entries))) }
    ensures unmade { IfErr result (IsUnmade image cells (first_of shown.now.entries)) }
{
    let core = replay_first(alloc, image, cells, &shown.entries)?;
    match page_again(alloc, &core, shown, source) {
        Ok(page) => Ok(page),
        Err(_) => Err(ReplayFault::NoMemory),
    }
}
