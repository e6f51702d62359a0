//! How a turn changes the lists of ready and of waiting processes.
ghost use Rattle.std.specs.Prelude.{◌≡◌, ◌≤◌, ◌+◌, ◌||◌, ℕ, Some, slice_get};
ghost use Rattle.hep_machine.specs.Words.{is_number_among};
ghost use Rattle.hep_image.specs.Image.{most_cells};
ghost use Rattle.hep_blocked.specs.RosterUpdates.{awake_by, awake_where, is_woken, is_woken_where};
ghost use Rattle.hep_blocked.specs.Rosters.{want_of};
ghost use Rattle.hep_step.specs.declared.closed_range.ClosedRange.{ClosedRange as PureRange};
ghost use Rattle.hep_step.specs.PurgeEffects.{has_cell, have_cell};
ghost use Rattle.hep_core.specs.Waking.{AreInArena, CanNote, GoAlongTurn, HasRoomLeft, NotesReady, awake_after, is_woken_after};

use hep_blocked::{Roster, Want};
use hep_views::{ClosedRange, CoreState, TurnOutcome};

/// Notes a step of process p, before which `made` processes had been made: p isn't ready if it has ended, and a
/// process that it made is.
pub(crate) fn note_ready(roster: &mut Roster, machine: &CoreState, p: u64, made: u64)
    requires { CanNote roster.old made machine.now }
    ensures ready { NotesReady p made machine.now roster.old.ready roster.new.ready }
    ensures waiting { (q : ℕ) → want_of roster.new.waiting q ≡ want_of roster.old.waiting q }
    ensures room { HasRoomLeft machine.now roster.new }
{
    if !machine.lives(p) {
        roster.remove(p);
    }
    if made < machine.made {
        roster.enroll(machine.made);
    }
}

// Processes that wait for what a step has just brought about are ready now.
fn wake(roster: &mut Roster, changed: Option<Want>)
    ensures waiting { (q : ℕ) → want_of roster.new.waiting q ≡ awake_by changed (want_of roster.old.waiting q) }
    ensures ready { (q : ℕ) → is_number_among q roster.new.ready
        ≡ (is_woken changed (want_of roster.old.waiting) q || is_number_among q roster.old.ready) }
    ensures others { (roster.new.last ≡ roster.old.last) × (roster.new.room ≡ roster.old.room) }
{
    if let Some(want) = changed {
        roster.wake(want);
    }
}

// Processes that wait for a cell of a range to be empty are ready now.
fn wake_range(roster: &mut Roster, range: ClosedRange)
    requires few { range.first + range.cells ≤ most_cells }
    ensures waiting { (q : ℕ) → want_of roster.new.waiting q ≡ awake_where (has_cell range) (want_of roster.old.waiting q) }
    ensures ready { (q : ℕ) → is_number_among q roster.new.ready
        ≡ (is_woken_where (has_cell range) (want_of roster.old.waiting) q || is_number_among q roster.old.ready) }
    ensures others { (roster.new.last ≡ roster.old.last) × (roster.new.room ≡ roster.old.room) }
{
    for cell in 0..range.cells {
        roster.wake(Want {
            cell: range.first + cell,
            full: false,
        });
    }
}

// Processes that wait for a cell that a PURGE emptied to be empty are ready now.
fn wake_emptied(roster: &mut Roster, ranges: &[ClosedRange])
    requires few { (i : ℕ) (r : PureRange) → slice_get ranges.now i ≡ Some r → r.first + r.cells ≤ most_cells }
    ensures waiting { (q : ℕ) → want_of roster.new.waiting q ≡ awake_where (have_cell ranges.now) (want_of roster.old.waiting q) }
    ensures ready { (q : ℕ) → is_number_among q roster.new.ready
        ≡ (is_woken_where (have_cell ranges.now) (want_of roster.old.waiting) q || is_number_among q roster.old.ready) }
    ensures others { (roster.new.last ≡ roster.old.last) × (roster.new.room ≡ roster.old.room) }
{
    for range in ranges {
        wake_range(roster, *range);
    }
}

/// After a turn that made a step, the processes that waited for what it brought about are ready. After a PURGE these
/// are the ones that waited for the emptied cells.
pub(crate) fn wake_after(roster: &mut Roster, turned: TurnOutcome, emptied: &[ClosedRange])
    requires few { AreInArena turned emptied.now }
    ensures waiting { (q : ℕ) → want_of roster.new.waiting q ≡ awake_after turned emptied.now (want_of roster.old.waiting q) }
    ensures ready { (q : ℕ) → is_number_among q roster.new.ready
        ≡ (is_woken_after turned emptied.now (want_of roster.old.waiting) q || is_number_among q roster.old.ready) }
    ensures others { (roster.new.last ≡ roster.old.last) × (roster.new.room ≡ roster.old.room) }
{
    match turned {
        TurnOutcome::Stepped { changed } => wake(roster, changed),
        TurnOutcome::Purged => wake_emptied(roster, emptied),
        TurnOutcome::Waits(_) => {}
    }
}

/// Notes a turn of process p that made a step, before which `made` processes had been made: p isn't ready if it has
/// ended; a process that it made is; and so are those that waited for what the turn brought about.
pub(crate) fn note_step(
    roster: &mut Roster,
    machine: &CoreState,
    p: u64,
    made: u64,
    turned: TurnOutcome,
)
    requires made { CanNote roster.old made machine.now }
    requires few { AreInArena turned machine.now.passing.ranges.items }
    ensures lists { GoAlongTurn p made turned machine.now roster.old roster.new }
    ensures room { HasRoomLeft machine.now roster.new }
{
    note_ready(roster, machine, p, made);
    wake_after(roster, turned, &machine.passing.ranges);
}
