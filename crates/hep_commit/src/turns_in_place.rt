//! Turns of private steps in place, with the step after them.
ghost use Rattle.std.specs.Prelude.{◌≡◌, ◌≤◌, ◌<◌, ◌-◌, true, false, suc};
ghost use Rattle.hep_advance.specs.SilentRuns.{MakesMoves};
ghost use Rattle.hep_state.specs.Words.{AreNumbered, HasLevels, IsItsTurn, IsSameButTop, LivesOn, snapshot_of};
ghost use Rattle.hep_private.specs.Segments.{most_records};
ghost use Rattle.hep_private.specs.Batches.{HasNoPrivate};
ghost use Rattle.hep_commit.specs.TurnsInPlace.{ArePrivateIn, IsAsBefore, IsEndBehind, IsMadeInPlace, IsPrepared};

use crate::application::make_private;
use crate::commit_laws::restored_machines_are_as_before;
use crate::noninterference::private_steps_are_turns;
use crate::own_cells::{OwnCellTable, OwnCells};
use crate::undo_log::UndoLog;
use crate::validation::is_next_private;
use hep_advance::{CoreState, DecodedCode, DecodedImage, turn_by_table};
use hep_private::{Image, MOST_RECORDS, PrivateImage};

/// A program, with its tables, own cells and private code, which are made before it runs.
#[derive(Clone, Copy)]
pub struct PreparedProgram<'a> {
    pub image: &'a Image,
    pub tables: &'a [DecodedCode],
    pub own: &'a [OwnCells],
    pub ahead: &'a PrivateImage<'a>,
}

/// Whether no private step of process p, which lives, comes next, by the tables of private code. False doesn't say
/// that one comes.
#[inline(always)]
pub fn stands_alone(machine: &CoreState, ahead: &PrivateImage<'_>, p: u64) -> bool
    requires numbers { AreNumbered machine.now }
    requires living { HasLevels (snapshot_of machine.now) p }
    ensures { result ≡ true → (levels : HasLevels (snapshot_of machine.now) p)
        → HasNoPrivate ahead.now levels.level.unit levels.level.index }
{
    let at = machine.place(p);
    let level = machine.processes[at].top();
    ahead.rests(level.unit, level.index)
}

// Ends a turn of process p after `steps` private steps. A next step that isn't private is made, if the table has it
// and it only moves p. A next step that is private is left out after 1,023 steps. Returns the number of the turn's
// steps, or 0 where neither holds. Then only the leading constants may have been pushed.
#[inline(always)]
fn end_turn(machine: &mut CoreState, prepared: &PreparedProgram<'_>, p: u64, steps: u32) -> u32
    requires prepared { IsPrepared prepared.now }
    requires turn { IsItsTurn prepared.now.image.now p machine.old }
    requires few { steps ≤ most_records }
    ensures ended { 0 < result → IsEndBehind prepared.now.image.now p machine.old steps result }
    ensures gone { MakesMoves prepared.now.image.now p machine.old (result - steps) machine.new }
    ensures lives { LivesOn p 0 machine.old machine.new }
    ensures none { result ≡ 0 → IsSameButTop prepared.now.image.now p (snapshot_of machine.old) (snapshot_of machine.new) }
{
    if steps == 0 {
        return 0;
    }
    if stands_alone(machine, prepared.ahead, p) {
        let tabled = DecodedImage {
            image: prepared.image,
            tables: prepared.tables,
        };
        if turn_by_table(machine, &tabled, p) == 0 {
            return 0;
        }
        return steps + 1;
    }
    if steps < MOST_RECORDS as u32 || !is_next_private(machine, prepared.image, p) {
        return 0;
    }
    steps
}

/// Makes a turn of process p in place: at least one and at most `most` private steps, and the step after them, if the
/// table has it and it only moves p. After 1,023 private steps a private one may follow, which is left out. Returns
/// the number of steps. `saved` is overwritten with what the process had before.
///
/// It returns 0 where there is no such turn or memory was refused, and nothing has changed.
pub fn turn_in_place(
    machine: &mut CoreState,
    prepared: &PreparedProgram<'_>,
    saved: &mut UndoLog,
    p: u64,
    most: u32,
) -> u32
    requires prepared { IsPrepared prepared.now }
    requires turn { IsItsTurn prepared.now.image.now p machine.old }
    requires few { most ≤ most_records }
    ensures made { 0 < result → IsMadeInPlace prepared.now.image.now p machine.old result }
    ensures gone { 0 < result → MakesMoves prepared.now.image.now p machine.old result machine.new }
    ensures lives { 0 < result → LivesOn p 0 machine.old machine.new }
    ensures few { result ≤ suc most }
    ensures none { result ≡ 0 → IsAsBefore prepared.now.image.now machine.old machine.new }
{
    prepared.image.is_runnable();
    private_steps_are_turns();
    restored_machines_are_as_before();
    let owned = OwnCellTable {
        image: prepared.image,
        tables: prepared.own,
    };
    if saved.keep(machine, &owned, p).is_err() {
        return 0;
    }
    let Some(steps) = make_private(machine, &owned, prepared.ahead, p, most) else {
        return 0;
    };
    let made = end_turn(machine, prepared, p, steps);
    if made == 0 {
        saved.put_back(machine, &owned, p);
    }
    made
}

/// Makes `steps` private steps of process p in place, where another private one follows them, and returns whether it
/// did. `saved` is overwritten with what the process had before.
///
/// It returns false where not all of them come next or memory was refused, and nothing has changed.
pub fn run_in_place(
    machine: &mut CoreState,
    prepared: &PreparedProgram<'_>,
    saved: &mut UndoLog,
    p: u64,
    steps: u32,
) -> bool
    requires prepared { IsPrepared prepared.now }
    requires turn { IsItsTurn prepared.now.image.now p machine.old }
    ensures private { result ≡ true → ArePrivateIn prepared.now.image.now p machine.old (suc steps) }
    ensures gone { result ≡ true → MakesMoves prepared.now.image.now p machine.old steps machine.new }
    ensures lives { result ≡ true → LivesOn p 0 machine.old machine.new }
    ensures none { result ≡ false → IsAsBefore prepared.now.image.now machine.old machine.new }
{
    prepared.image.is_runnable();
    private_steps_are_turns();
    restored_machines_are_as_before();
    let owned = OwnCellTable {
        image: prepared.image,
        tables: prepared.own,
    };
    if saved.keep(machine, &owned, p).is_err() {
        return false;
    }
    let Some(made) = make_private(machine, &owned, prepared.ahead, p, steps) else {
        return false;
    };
    if made == steps && is_next_private(machine, prepared.image, p) {
        return true;
    }
    saved.put_back(machine, &owned, p);
    false
}
