//! Turns of a process in a row, after which it lives, and which fill and empty no cell, with the statements that they
//! begin.
ghost use Rattle.std.specs.Prelude.{◌≡◌, ◌≤◌, ◌<◌, ◌+◌, ◌^◌, ℕ, List};
ghost use Rattle.hep_cover.specs.StatementStarts as words;
ghost use Rattle.hep_advance.specs.SilentRuns.{CanTakeTurns, HasNoMoveAhead, MakesMoves};
ghost use Rattle.hep_machine.specs.Words.{run};
ghost use Rattle.hep_state.specs.Words.{AfterTurns, IsItsTurn, LivesOn, snapshot_of};
ghost use Rattle.hep_cover.specs.StartMarks.{AreMarks};
ghost use Rattle.hep_cover.specs.CountedRuns.{CountsTurns};

use crate::counted_top::count_top;
use crate::line_counts::count;
use crate::statement_starts::{MarkedImage, StatementStarts, lines_of, mark_at};
use hep_image::Image;
use hep_views::{CoreState, tops_are_running};

// Makes at most `most` turns of process p, which lives, each a step of a plain operation that moves it, and returns
// their number. The statements that they begin are counted. This takes no memory.
//
// It makes fewer only where the next operation of p isn't plain, or is a fault.
fn count_moves(
    machine: &mut CoreState,
    marked: &MarkedImage<'_>,
    counts: &mut Vec<Option<u64>>,
    p: u64,
    most: u64,
) -> u64
    requires turn { CanTakeTurns marked.now.tabled p machine.old }
    requires marks { AreMarks marked.now.tabled.image.now marked.now.operations.now marked.now.marks.now }
    ensures gone { MakesMoves marked.now.tabled.image.now p machine.old result machine.new }
    ensures counted { CountsTurns marked.now.tabled.image.now marked.now.operations.now p machine.old counts.old.items result counts.new.items }
    ensures few { result ≤ most }
    ensures all { result < most → HasNoMoveAhead marked.now.tabled.image.now p (snapshot_of machine.new) }
    ensures lives { LivesOn p 0 machine.old machine.new }
{
    marked.tabled.image.is_runnable();
    tops_are_running();
    let at = machine.place(p);
    let process = &mut machine.processes[at];
    count_top(process, &mut machine.frames, marked, counts, most)
}

/// The line of the statement that a step of process p, which lives, begins, if it begins one.
pub fn begun(machine: &CoreState, image: &Image, marks: &[StatementStarts], p: u64) -> Option<u32>
    requires turn { IsItsTurn image.now p machine.now }
    requires marks { (operations : List ℕ) × AreMarks image.now operations marks.now }
    ensures { (operations : List ℕ) → AreMarks image.now operations marks.now → AfterTurns image.now machine.now (λ cells choices.
        result ≡ words.begun image.now operations p (run image.now choices)) }
{
    let at = machine.place(p);
    let level = machine.processes[at].top();
    mark_at(lines_of(marks, level.unit as usize), level.index)
}

/// Makes at most `most` turns of process p, which lives, and returns their number. Each is a step of a plain
/// operation, or begins or ends an activation, and the statement that it begins is counted. None fills or empties a
/// cell, or makes or ends a process, and the other processes stay at their places.
///
/// It makes fewer only where the next operation of p isn't plain, or is a fault.
pub fn count_on(
    machine: &mut CoreState,
    marked: &MarkedImage<'_>,
    counts: &mut Vec<Option<u64>>,
    p: u64,
    most: u64,
) -> u64
    requires turn { CanTakeTurns marked.now.tabled p machine.old }
    requires marks { AreMarks marked.now.tabled.image.now marked.now.operations.now marked.now.marks.now }
    requires countable { machine.old.activations + most < 2 ^ 64 }
    ensures gone { MakesMoves marked.now.tabled.image.now p machine.old result machine.new }
    ensures counted { CountsTurns marked.now.tabled.image.now marked.now.operations.now p machine.old counts.old.items result counts.new.items }
    ensures few { result ≤ most }
    ensures all { result < most → HasNoMoveAhead marked.now.tabled.image.now p (snapshot_of machine.new) }
    ensures lives { LivesOn p result machine.old machine.new }
{
    let mut made = 0;
    while made < most {
        made += count_moves(machine, marked, counts, p, most - made);
        if made == most {
            return made;
        }
        let line = begun(machine, marked.tabled.image, marked.marks, p);
        if !machine.turn_plainly(marked.tabled.image, p) {
            return made;
        }
        count(counts, line);
        made += 1;
    }
    made
}
