//! Why processes wait after a history.
ghost use Rattle.std.specs.Prelude.{◌≡◌, ◌&&◌, IfOk, IsSome, is_some, not};
ghost use Rattle.hep_replay.specs.CoreValues.{state_of};
ghost use Rattle.hep_replay.specs.HistoryPrefix.{first_of};
ghost use Rattle.hep_machine.specs.Words.{is_number_among, living, progress_after, schedule_of, wanted_by};
ghost use Rattle.hep_why.specs.Reasons as words;
ghost use Rattle.hep_event.specs.Variables.{AreVariablesOf};
ghost use Rattle.hep_why.specs.Watches.{AreFound, AreNewWatches, AreWaiting, IsReplayed, WaitTheSame, reasons_for as all_reasons};

use crate::reason::{Change, Reason};
use crate::reason_text::{append_able, append_reasons};
use crate::wait_names::called;
use crate::watch::Watch;
use crate::watch_list::WatchList;
use crate::watch_updates::{all_watches, look_at_all};
use hep_event::Variables;
use hep_fold::{DecodedImage, HistoryRange, ReplayMachine, fold_range, tables_of};
use hep_replay::{Core, HistoryPrefix};
use hep_state_text::append_head;
use std::alloc::{AllocError, Global};

// The latest changes of what the processes of these watches wait for.
fn find_changes(
    alloc: Global,
    core: &Core,
    entries: &HistoryPrefix<'_>,
    watches: Vec<Watch>,
) -> Result<Vec<Watch>, AllocError>
    requires replayed { IsReplayed core.now.core (first_of entries.now) }
    requires watches { AreNewWatches core.now.core.program core.now.core.cells (schedule_of core.now.core.history) watches.items }
    ensures found { IfOk result (λ found. AreFound core.now.core (first_of entries.now) found.items) }
    ensures same { IfOk result (λ found. WaitTheSame watches.items found.items) }
{
    if watches.is_empty() {
        return Ok(watches);
    }
    core.headline();
    let image = core.image();
    let cells = core.cells();
    let end = entries.len();
    let range = HistoryRange {
        history: entries.history,
        start: 0,
        end,
    };
    let tables = tables_of(alloc, image)?;
    let tabled = DecodedImage {
        image,
        tables: &tables,
    };
    let mut again = ReplayMachine::open(alloc, image, cells)?;
    let mut list = WatchList { watches };
    look_at_all(&again.machine, &mut list.watches, 0, None);
    fold_range(&mut again, &tabled, &range, &mut list)?;
    Ok(list.watches)
}

// Whether the process that made a change lives.
fn maker_lives(core: &Core, change: Option<Change>) -> bool
    ensures { result ≡ words.maker_lives (state_of core.now.core) change }
{
    match change {
        Some(change) => core.lives(change.place.process),
        None => false,
    }
}

// Why the process of a watch waits.
fn reason_for(
    alloc: Global,
    core: &Core,
    variables: &Variables,
    watch: &Watch,
) -> Result<Reason, AllocError>
    requires variables { AreVariablesOf core.now.core.program variables.now }
    requires waits { IsSome (wanted_by core.now.core.program watch.now.listed.process (state_of core.now.core)) }
    ensures { IfOk result (λ reason. reason
        ≡ words.reason_with core.now.core.program (state_of core.now.core) watch.now.listed watch.now.latest) }
{
    let called = called(alloc, core, variables, watch.listed.process)?;
    Ok(Reason {
        listed: watch.listed,
        called,
        latest: watch.latest.last,
        lives: maker_lives(core, watch.latest.last),
        brought: watch.latest.before,
        bringer_lives: maker_lives(core, watch.latest.before),
    })
}

fn reasons_for(alloc: Global, core: &Core, watches: &[Watch]) -> Result<Vec<Reason>, AllocError>
    requires { AreWaiting core.now.core watches.now }
    ensures { IfOk result (λ reasons. reasons.items ≡ all_reasons core.now.core.program (state_of core.now.core) watches.now) }
{
    let variables = Variables::of_image(alloc, core.image())?;
    let mut reasons = Vec::new(alloc);
    for watch in watches {
        let reason = reason_for(alloc, core, &variables, watch)?;
        reasons.push(reason)?;
    }
    Ok(reasons)
}

// Why processes wait after the history of a core that has made these entries.
fn find_reasons(
    alloc: Global,
    core: &Core,
    entries: &HistoryPrefix<'_>,
) -> Result<Vec<Reason>, AllocError>
    requires { IsReplayed core.now.core (first_of entries.now) }
    ensures { IfOk result (λ reasons. reasons.items ≡ words.reasons_of core.now.core.program (first_of entries.now)) }
{
    let watches = all_watches(alloc, core)?;
    let found = find_changes(alloc, core, entries, watches)?;
    reasons_for(alloc, core, &found)
}

// Whether process p lives and wasn't found waiting.
fn is_ready(core: &Core, p: u64) -> bool
    ensures { result
        ≡ (not (is_number_among p (progress_after core.now.core.program core.now.core.history).listed) && is_some (living (state_of core.now.core) p)) }
{
    core.want(p).is_none() && core.lives(p)
}

// How many processes live and weren't found waiting, unless a STOP has ended the run.
fn able_of(core: &Core) -> u64
    ensures { result ≡ words.able_of core.now.core.program core.now.core.history }
{
    if core.machine().halted {
        return 0;
    }
    let mut able = 0;
    for index in 0..core.made() {
        if is_ready(core, index + 1) {
            able += 1;
        }
    }
    able
}

/// Why processes wait after the history of a core, which has made these entries, as a text. The entries are made
/// again for it, unless no process waits.
///
/// # Errors
///
/// Only where memory was refused.
pub fn why_text(
    alloc: Global,
    core: &Core,
    entries: &HistoryPrefix<'_>,
) -> Result<Vec<u8>, AllocError>
    requires { IsReplayed core.now.core (first_of entries.now) }
    ensures { IfOk result (λ text. text.items ≡ words.why_text core.now.core.program (first_of entries.now)) }
{
    let reasons = find_reasons(alloc, core, entries)?;
    let mut text = Vec::new(alloc);
    append_head(&mut text, entries.len())?;
    append_reasons(alloc, &mut text, core.image(), &reasons)?;
    append_able(&mut text, &reasons, able_of(core))?;
    Ok(text)
}
