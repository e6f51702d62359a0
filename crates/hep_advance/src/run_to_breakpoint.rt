//! Turns of a process in a row, after which it lives, which fill and empty no cell, and which begin where nothing is
//! watched.
ghost use Rattle.std.specs.Prelude.{◌≡◌, ◌≤◌, ◌<◌, ◌+◌, ◌^◌, ℕ, List, false};
ghost use Rattle.hep_advance.specs.SilentRuns.{CanTakeTurns, MakesMoves};
ghost use Rattle.hep_machine.specs.Words.{Units, run};
ghost use Rattle.hep_state.specs.Words.{AreNumbered, HasLevels, IsMachineAfter, LivesOn, snapshot_of};
ghost use Rattle.hep_advance.specs.RunsToBreakpoints.{EndsBefore, PassesTurns};
ghost use Rattle.hep_advance.specs.BreakpointRows as words;

use crate::breakpoints::{Breakpoints, row_of, watched_at};
use crate::top_to_breakpoint::pass_top;
use hep_fast::DecodedImage;
use hep_state::CoreState;
use hep_state::laws::tops_are_running;

// Makes at most `most` turns of process p, which lives, and returns their number. Each begins where nothing is
// watched, and is a step of a plain operation that moves p. This takes no memory.
//
// It makes fewer only where p is at an index that is watched, or the next operation isn't plain, or is a fault.
fn pass_moves(
    machine: &mut CoreState,
    tabled: &DecodedImage<'_>,
    watches: &[Breakpoints],
    p: u64,
    most: u64,
) -> u64
    requires { CanTakeTurns tabled.now p machine.old }
    ensures gone { MakesMoves tabled.now.image.now p machine.old result machine.new }
    ensures unwatched { PassesTurns tabled.now.image.now watches.now p machine.old result }
    ensures few { result ≤ most }
    ensures all { result < most → EndsBefore tabled.now.image.now watches.now p (snapshot_of machine.new) }
    ensures lives { LivesOn p 0 machine.old machine.new }
{
    tabled.image.is_runnable();
    tops_are_running();
    let at = machine.place(p);
    let process = &mut machine.processes[at];
    pass_top(process, &mut machine.frames, tabled, watches, most)
}

/// Whether process p, which lives, is at an index of the code that is watched.
#[inline(always)]
pub fn stands_watched(machine: &CoreState, watches: &[Breakpoints], p: u64) -> bool
    requires numbers { AreNumbered machine.now }
    requires living { HasLevels (snapshot_of machine.now) p }
    ensures place { (levels : HasLevels (snapshot_of machine.now) p) → result ≡ words.is_watched watches.now levels.level.unit levels.level.index }
    ensures unwatched { result ≡ false → machine.now.halted ≡ false → (program : Units) (cells : ℕ) (choices : List ℕ)
        → IsMachineAfter program cells choices machine.now → words.IsUnwatched program watches.now p (run program choices) }
{
    let at = machine.place(p);
    let level = machine.processes[at].top();
    watched_at(row_of(watches, level.unit as usize), level.index)
}

/// Makes at most `most` turns of process p, which lives, and returns their number. Each begins where nothing is
/// watched, and is a step of a plain operation, or begins or ends an activation. None fills or empties a cell, or
/// makes or ends a process, and the other processes stay at their places.
///
/// It makes fewer only where p is at an index that is watched, or the next operation isn't plain, or is a fault.
pub fn pass_on(
    machine: &mut CoreState,
    tabled: &DecodedImage<'_>,
    watches: &[Breakpoints],
    p: u64,
    most: u64,
) -> u64
    requires turn { CanTakeTurns tabled.now p machine.old }
    requires countable { machine.old.activations + most < 2 ^ 64 }
    ensures gone { MakesMoves tabled.now.image.now p machine.old result machine.new }
    ensures unwatched { PassesTurns tabled.now.image.now watches.now p machine.old result }
    ensures few { result ≤ most }
    ensures all { result < most → EndsBefore tabled.now.image.now watches.now p (snapshot_of machine.new) }
    ensures lives { LivesOn p result machine.old machine.new }
{
    let mut made = 0;
    while made < most {
        made += pass_moves(machine, tabled, watches, p, most - made);
        if made == most {
            return made;
        }
        if stands_watched(machine, watches, p) {
            return made;
        }
        if !machine.turn_plainly(tabled.image, p) {
            return made;
        }
        made += 1;
    }
    made
}
