//! Turns of a process in a row, after which it lives, and which fill and empty no cell.
ghost use Rattle.std.specs.Prelude.{◌≡◌, ◌+◌, ◌^◌, ◌≤◌, ◌<◌, false, true};
ghost use Rattle.hep_state.specs.Words.{IsSameButTop, LeavesOthers, LivesOn, snapshot_of};
ghost use Rattle.hep_advance.specs.SilentRuns.{CanTakeTurns, HasNoMoveAhead, MakesMoves};

use crate::top_run::{go_top, step_top, top_rests};
use hep_fast::DecodedImage;
use hep_state::{CoreState, laws};

// Makes at most `most` turns of process p, which lives, each a step of a plain operation that moves it, and returns
// their number. This takes no memory.
//
// It makes fewer only where the next operation of p isn't plain, or is a fault.
fn move_on(machine: &mut CoreState, tabled: &DecodedImage<'_>, p: u64, most: u64) -> u64
    requires { CanTakeTurns tabled.now p machine.old }
    ensures gone { MakesMoves tabled.now.image.now p machine.old result machine.new }
    ensures few { result ≤ most }
    ensures all { result < most → HasNoMoveAhead tabled.now.image.now p (snapshot_of machine.new) }
    ensures lives { LivesOn p 0 machine.old machine.new }
{
    tabled.image.is_runnable();
    laws::tops_are_running();
    let at = machine.place(p);
    let process = &mut machine.processes[at];
    go_top(process, &mut machine.frames, tabled, most)
}

/// Makes one turn of process p, which lives, if its table has the step and that only moves p. Returns the number of
/// turns. Where it makes none, only the leading constants of p may have been pushed.
#[inline(always)]
pub fn turn_by_table(machine: &mut CoreState, tabled: &DecodedImage<'_>, p: u64) -> u64
    requires { CanTakeTurns tabled.now p machine.old }
    ensures gone { MakesMoves tabled.now.image.now p machine.old result machine.new }
    ensures few { result ≤ 1 }
    ensures none { result ≡ 0 → IsSameButTop tabled.now.image.now p (snapshot_of machine.old) (snapshot_of machine.new) }
    ensures lives { LivesOn p 0 machine.old machine.new }
{
    tabled.image.is_runnable();
    laws::tops_are_running();
    let at = machine.place(p);
    let process = &mut machine.processes[at];
    step_top(process, &mut machine.frames, tabled)
}

// Makes turns of process p, as `go_on` does. It is a function of its own, so that a single turn needs no stack space
// for it.
#[inline(never)]
fn go_along(machine: &mut CoreState, tabled: &DecodedImage<'_>, p: u64, most: u64) -> u64
    requires turn { CanTakeTurns tabled.now p machine.old }
    requires countable { machine.old.activations + most < 2 ^ 64 }
    ensures gone { MakesMoves tabled.now.image.now p machine.old result machine.new }
    ensures few { result ≤ most }
    ensures all { result < most → HasNoMoveAhead tabled.now.image.now p (snapshot_of machine.new) }
    ensures made { machine.new.made ≡ machine.old.made }
    ensures halted { machine.new.halted ≡ false }
    ensures others { LeavesOthers p (snapshot_of machine.old) (snapshot_of machine.new) }
{
    let mut made = 0;
    while made < most {
        made += move_on(machine, tabled, p, most - made);
        if made == most {
            return made;
        }
        if !machine.turn_plainly(tabled.image, p) {
            return made;
        }
        made += 1;
    }
    made
}

// Makes one turn of process p at most, as `go_on` does: by its table, or otherwise like any other turn.
#[inline(always)]
fn go_once(machine: &mut CoreState, tabled: &DecodedImage<'_>, p: u64) -> u64
    requires turn { CanTakeTurns tabled.now p machine.old }
    requires countable { machine.old.activations + 1 < 2 ^ 64 }
    ensures gone { MakesMoves tabled.now.image.now p machine.old result machine.new }
    ensures few { result ≤ 1 }
    ensures all { result < 1 → HasNoMoveAhead tabled.now.image.now p (snapshot_of machine.new) }
    ensures made { machine.new.made ≡ machine.old.made }
    ensures halted { machine.new.halted ≡ false }
    ensures others { LeavesOthers p (snapshot_of machine.old) (snapshot_of machine.new) }
{
    let made = turn_by_table(machine, tabled, p);
    if made == 1 {
        return made;
    }
    // The tables have to be in memory for this call alone.
    let tabled = *tabled;
    go_along(machine, &tabled, p, 1)
}

/// Makes at most `most` turns of process p, which lives, and returns their number. Each is a step of a plain
/// operation, or begins or ends an activation. None fills or empties a cell, or makes or ends a process, and the
/// other processes stay at their places.
///
/// It makes fewer only where the next operation of p isn't plain, or is a fault. A single turn, as processes make them
/// that take turns, costs least where the table has its step.
#[inline(always)]
pub fn go_on(machine: &mut CoreState, tabled: &DecodedImage<'_>, p: u64, most: u64) -> u64
    requires turn { CanTakeTurns tabled.now p machine.old }
    requires countable { machine.old.activations + most < 2 ^ 64 }
    ensures gone { MakesMoves tabled.now.image.now p machine.old result machine.new }
    ensures few { result ≤ most }
    ensures all { result < most → HasNoMoveAhead tabled.now.image.now p (snapshot_of machine.new) }
    ensures made { machine.new.made ≡ machine.old.made }
    ensures halted { machine.new.halted ≡ false }
    ensures others { LeavesOthers p (snapshot_of machine.old) (snapshot_of machine.new) }
{
    if most == 1 {
        return go_once(machine, tabled, p);
    }
    go_along(machine, tabled, p, most)
}

/// Whether the table of process p, which lives, has an operation at its index that isn't plain. Then no plain
/// operation comes next. It returns false where constants come first, whatever follows them.
#[inline(always)]
pub fn rests(machine: &CoreState, tabled: &DecodedImage<'_>, p: u64) -> bool
    requires { CanTakeTurns tabled.now p machine.now }
    ensures { result ≡ true → HasNoMoveAhead tabled.now.image.now p (snapshot_of machine.now) }
{
    let at = machine.place(p);
    let process = &machine.processes[at];
    top_rests(process, tabled)
}
