//! The turns of a history, made again for an observer.
ghost use Rattle.std.specs.Prelude.{◌≡◌, ◌+◌, ◌-◌, ◌^◌, ◌<◌, ◌≤◌, ◌∷◌, ℕ, [], true, IfOk, OnOk, drop, length, replicate, take};
ghost use Rattle.hep_fold.specs.Folds.{CanBeMade, CanFold, Folds, KnowsAll, KnowsBefore, entries_before, entries_until, replay_of, seen_within, turns_within};
ghost use Rattle.hep_fold.specs.Observers.{later_row, row_turns};
ghost use Rattle.hep_fold.specs.Turns.{seen_along, turns_from};
ghost use Rattle.hep_history.specs.Runs.{entry_of};
ghost use Rattle.hep_machine.specs.Words.{run, schedule_of};
ghost use Rattle.hep_state.specs.Words.{IsMachineAfter};

use crate::history_range::HistoryRange;
use crate::observer::Observer;
use crate::replay_machine::{MOST_AT_ONCE, ReplayMachine};
use crate::turn_row::TurnRow;
use crate::unobserved::Unobserved;
use hep_advance::{DecodedImage, tables_of};
use hep_history::Run;
use hep_image::Image;
use hep_machine::Entry;
use hep_state::laws::activations_are_few;
use std::alloc::{AllocError, Global};

// Makes a turn of process p, which is part of the entry with this number.
fn make_turn<O: Observer>(
    again: &mut ReplayMachine,
    tabled: &DecodedImage<'_>,
    observer: &mut O,
    entry: u64,
    p: u64,
) -> Result<(), AllocError>
    requires { CanFold O.knows O.see tabled.now ((entry, p) ∷ []) again.old observer.old }
    ensures { OnOk result (Folds O.knows O.see tabled.now ((entry, p) ∷ []) again.old observer.old [] again.new observer.new) }
{
    let look = observer.look(&again.machine, tabled.image, entry, p)?;
    again.turn(tabled.image, p)?;
    observer.tell(&again.machine, tabled.image, entry, p, look)?;
    Ok(())
}

// Makes the first turns of a row that the observer makes at once, and returns their number.
fn make_at_once<O: Observer>(
    again: &mut ReplayMachine,
    tabled: &DecodedImage<'_>,
    observer: &mut O,
    row: TurnRow,
) -> Result<u64, AllocError>
    requires ahead { CanFold O.knows O.see tabled.now (row_turns row) again.old observer.old }
    requires some { 1 ≤ row.count }
    ensures made { IfOk result (λ made. Folds O.knows O.see tabled.now (row_turns row) again.old observer.old
        (row_turns (later_row row made)) again.new observer.new) }
    ensures few { IfOk result (λ made. made ≤ row.count) }
{
    activations_are_few();
    let few = row.count.min(MOST_AT_ONCE);
    let first = TurnRow {
        entry: row.entry,
        process: row.process,
        count: few,
        apart: row.apart,
    };
    again.history.reserve(few as u32)?;
    let made = observer.go_on(&mut again.machine, tabled, first);
    let entry = Entry {
        process: row.process,
        steps: 1,
    };
    again.history.push_many(entry, made as u32);
    Ok(made)
}

// Makes the first turns of a row, and returns their number: those that the observer makes at once, or else one.
fn make_turns<O: Observer>(
    again: &mut ReplayMachine,
    tabled: &DecodedImage<'_>,
    observer: &mut O,
    row: TurnRow,
) -> Result<u64, AllocError>
    requires ahead { CanFold O.knows O.see tabled.now (row_turns row) again.old observer.old }
    requires some { 1 ≤ row.count }
    ensures made { IfOk result (λ made. Folds O.knows O.see tabled.now (row_turns row) again.old observer.old
        (row_turns (later_row row made)) again.new observer.new) }
    ensures some { IfOk result (λ made. 1 ≤ made) }
    ensures few { IfOk result (λ made. made ≤ row.count) }
{
    let made = make_at_once(again, tabled, observer, row)?;
    if made == 0 {
        make_turn(again, tabled, observer, row.entry, row.process)?;
        return Ok(1);
    }
    Ok(made)
}

// Makes all turns of a row.
fn make_row<O: Observer>(
    again: &mut ReplayMachine,
    tabled: &DecodedImage<'_>,
    observer: &mut O,
    row: TurnRow,
) -> Result<(), AllocError>
    requires ahead { CanFold O.knows O.see tabled.now (row_turns row) again.old observer.old }
    requires few { row.apart ≡ true → row.entry + row.count < 2 ^ 64 }
    ensures { OnOk result (Folds O.knows O.see tabled.now (row_turns row) again.old observer.old [] again.new observer.new) }
{
    let mut made = 0;
    while made < row.count {
        made += make_turns(again, tabled, observer, row.after(made))?;
    }
    Ok(())
}

// Makes the turns of a run of equal entries, from the one with this number on.
fn make_run<O: Observer>(
    again: &mut ReplayMachine,
    tabled: &DecodedImage<'_>,
    observer: &mut O,
    number: u64,
    run: Run,
) -> Result<(), AllocError>
    requires ahead { CanFold O.knows O.see tabled.now (turns_from number (replicate run.count (entry_of run))) again.old observer.old }
    requires few { number + run.count < 2 ^ 64 }
    ensures { OnOk result (Folds O.knows O.see tabled.now (turns_from number (replicate run.count (entry_of run))) again.old observer.old [] again.new observer.new) }
{
    if run.steps == 1 {
        let row = TurnRow {
            entry: number,
            process: run.process,
            count: run.count as u64,
            apart: true,
        };
        make_row(again, tabled, observer, row)?;
        return Ok(());
    }
    for before in 0..run.count {
        let row = TurnRow {
            entry: number + before as u64,
            process: run.process,
            count: run.steps as u64,
            apart: false,
        };
        make_row(again, tabled, observer, row)?;
    }
    Ok(())
}

// Makes the turns of the entries in a range.
fn make_range<O: Observer>(
    again: &mut ReplayMachine,
    tabled: &DecodedImage<'_>,
    observer: &mut O,
    range: &HistoryRange<'_>,
) -> Result<(), AllocError>
    requires ahead { CanFold O.knows O.see tabled.now (turns_within range.now) again.old observer.old }
    requires order { range.now.start ≤ range.now.end }
    requires within { range.now.end ≤ length range.now.history.now.items }
    ensures { OnOk result (Folds O.knows O.see tabled.now (turns_within range.now) again.old observer.old [] again.new observer.new) }
{
    // A history has 2 ^ 63 entries at most, so the number of the next one is in range.
    let all = range.history.len();
    let end = range.end.min(all);
    let mut runs = range.history.runs();
    let mut at = 0;
    let mut made = range.start;
    while at < end {
        let Some(run) = runs.next() else {
            unreachable!()
        };
        let some = u64::from(run.count).min(end - at);
        at += some;
        let more = at.saturating_sub(made);
        let part = Run {
            process: run.process,
            steps: run.steps,
            count: more as u32,
        };
        make_run(again, tabled, observer, made + 1, part)?;
        made += more;
    }
    Ok(())
}

/// Makes the turns of the entries in a range again, on a machine that has made the earlier ones. The observer is told
/// of them.
///
/// # Errors
///
/// Only where memory was refused.
pub fn fold_range<O: Observer>(
    again: &mut ReplayMachine,
    tabled: &DecodedImage<'_>,
    range: &HistoryRange<'_>,
    observer: &mut O,
) -> Result<(), AllocError>
    requires { (cells : ℕ) × (seen : O.Seen) × KnowsBefore O.knows tabled.now range.now again.old observer.old cells seen }
    ensures made { OnOk result ((cells : ℕ) (seen : O.Seen) → KnowsBefore O.knows tabled.now range.now again.old observer.old cells seen
        → IsMachineAfter tabled.now.image.now cells (schedule_of (entries_until range.now)) again.new.machine) }
    ensures seen { OnOk result ((cells : ℕ) (seen : O.Seen) → KnowsBefore O.knows tabled.now range.now again.old observer.old cells seen
        → KnowsAll O.knows tabled.now range.now observer.new cells
        (seen_within tabled.now.image.now (O.see tabled.now.image.now) range.now seen)) }
{
    make_range(again, tabled, observer, range)?;
    Ok(())
}

/// Makes the turns of a history before the end of a range, in an arena of `cells` cells, 1 to 16,777,216. The observer
/// is told of the turns in the range. The earlier ones are made at once as far as possible. Returns the machine after
/// all of them.
///
/// # Errors
///
/// Only where memory was refused.
pub fn fold_history<O: Observer>(
    alloc: Global,
    image: &Image,
    cells: u32,
    range: &HistoryRange<'_>,
    observer: &mut O,
) -> Result<ReplayMachine, AllocError>
    requires size { (1 ≤ cells) × (cells ≤ 16777216) }
    requires possible { CanBeMade image.now cells range.now }
    requires known { (seen : O.Seen) × O.knows image.now (replay_of cells range.now) (schedule_of (entries_before range.now)) observer.old seen }
    ensures made { IfOk result (λ again. IsMachineAfter image.now cells (schedule_of (entries_until range.now)) again.machine) }
    ensures seen { OnOk result ((seen : O.Seen) → O.knows image.now (replay_of cells range.now) (schedule_of (entries_before range.now)) observer.old seen
        → O.knows image.now (replay_of cells range.now) (schedule_of (entries_until range.now)) observer.new
        (seen_along image.now (O.see image.now) (run image.now (schedule_of (entries_before range.now))) (turns_within range.now) seen)) }
{
    let tables = tables_of(alloc, image)?;
    let tabled = DecodedImage {
        image,
        tables: &tables,
    };
    let mut again = ReplayMachine::open(alloc, image, cells)?;
    let before = HistoryRange {
        history: range.history,
        start: 0,
        end: range.start,
    };
    make_range(&mut again, &tabled, &mut Unobserved {}, &before)?;
    fold_range(&mut again, &tabled, range, observer)?;
    Ok(again)
}
