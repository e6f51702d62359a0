//! How many cells are out where a run stops, and what a stopped core answers.

use super::{chosen, image_from, source_of};
use hep_run::{ChoiceStop, ChooseFault, Core};
use std::alloc::Global;
use std::process::Abort;

// A core in an arena of so many cells, after a turn of each of these processes.
fn core_after(rt: &impl Abort, alloc: Global, lines: &[&[u8]], cells: u8, choices: &[u64]) -> Core {
    assert!(rt; 0 < cells);
    let source = source_of(rt, alloc, lines);
    let image = image_from(rt, alloc, &source);
    let mut core = Core::new(alloc, image, u32::from(cells), 100).expect(rt, "no core");
    for process in choices {
        let _turn = chosen(&mut core, *process).expect(rt, "no turn");
    }
    core
}

// A further turn of process 1 is refused by a stop, again and again, and changes nothing; so many cells are out.
fn stays_stopped(rt: &impl Abort, core: &mut Core, stop: ChoiceStop, used: u32) {
    let entries = core.history().len();
    for _call in 0..2 {
        assert!(rt; chosen(core, 1).err() == Some(ChooseFault::Stopped(stop)));
        assert!(rt; core.used() == used);
        assert!(rt; core.history().len() == entries);
    }
}

const STOPPED: [&[u8]; 3] = [b"      PRINT *,1", b"      STOP", b"      END"];

/// After a STOP the cells of the frame stay out.
pub fn after_a_stop(rt: &impl Abort, alloc: Global) {
    let mut core = core_after(rt, alloc, &STOPPED, 8, &[1, 1]);
    stays_stopped(rt, &mut core, ChoiceStop::Halted, 1);
    assert!(rt; core.output().len() == 1);
}

const RECURSION: [&[u8]; 5] = [
    b"      CALL S",
    b"      END",
    b"      SUBROUTINE S",
    b"      CALL S",
    b"      END",
];

/// A recursion without an end stops where no gap is left.
pub fn endless_recursion(rt: &impl Abort, alloc: Global) {
    let mut core = core_after(rt, alloc, &RECURSION, 4, &[1, 1, 1]);
    stays_stopped(rt, &mut core, ChoiceStop::ArenaFull, 4);
}

// Two processes add to a variable, and the main program waits for both.
pub const ADDED: [&[u8]; 14] = [
    b"      PROGRAM P",
    b"      INTEGER $X,$D",
    b"      $X=0",
    b"      CREATE ADD($X,$D)",
    b"      CREATE ADD($X,$D)",
    b"      I=$D",
    b"      I=$D",
    b"      PRINT *,$X",
    b"      END",
    b"      SUBROUTINE ADD($A,$B)",
    b"      INTEGER $A,$B",
    b"      $A=$A+1",
    b"      $B=1",
    b"      END",
];

/// In arenas of 4 to 13 cells a frame finds no gap, the second one or the third; in one of 14 all have theirs.
pub fn arenas(rt: &impl Abort, alloc: Global) {
    for cells in 4..9 {
        let mut core = core_after(rt, alloc, &ADDED, cells, &[1]);
        stays_stopped(rt, &mut core, ChoiceStop::ArenaFull, 4);
    }
    for cells in 9..14 {
        let mut core = core_after(rt, alloc, &ADDED, cells, &[1, 1]);
        stays_stopped(rt, &mut core, ChoiceStop::ArenaFull, 9);
    }
    let core = core_after(rt, alloc, &ADDED, 14, &[1, 1, 1]);
    assert!(rt; core.used() == 14);
}

// Two processes of A, of which the first one ends, leave a gap that is too short for C in an arena of seven cells.
const GAPS: [&[u8]; 12] = [
    b"      PROGRAM P",
    b"      CREATE A",
    b"      CREATE A",
    b"      CREATE C",
    b"      END",
    b"      SUBROUTINE A",
    b"      I=1",
    b"      END",
    b"      SUBROUTINE C",
    b"      J=1",
    b"      K=2",
    b"      END",
];

/// A gap that is too short stops the run, and one that is long enough is taken.
pub fn gaps(rt: &impl Abort, alloc: Global) {
    let mut core = core_after(rt, alloc, &GAPS, 7, &[1, 1, 2, 2]);
    stays_stopped(rt, &mut core, ChoiceStop::ArenaFull, 3);
    let core = core_after(rt, alloc, &GAPS, 8, &[1, 1, 2, 2, 1]);
    assert!(rt; core.used() == 6);
}
