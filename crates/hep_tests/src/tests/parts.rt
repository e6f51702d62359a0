//! The parts by themselves, through their public calls.
ghost use Rattle.std.specs.Prelude.{◌≡◌, ◌∷◌, [], length};

use super::{UNDEFINED, chosen, core_of, image_from, is_single_steps, source_of};
use hep_arena::laws::{giving, taking};
use hep_arena::{Arena, Block};
use hep_run::{ChoiceStop, ChooseFault, Core, NewFault, Verdict};
use hep_text::{Span, Stmt, statements};
use std::alloc::Global;
use std::process::Abort;

// ---- the text

/// Labels, texts without blanks, and where the characters of a statement stand.
pub fn labels_and_blanks(rt: &impl Abort, alloc: Global) {
    let source = b"C a comment\r\n 1 0  go to 2 0\r\n      END";
    let read = statements(alloc, source).expect(rt, "no statements");
    assert!(rt; read.len() == 2);
    is_labelled_jump(rt, &read[0]);
    is_bare_end(rt, &read[1]);
}

fn is_labelled_jump(rt: &impl Abort, jump: &Stmt) {
    assert!(rt; jump.line == 2 && jump.label == Some(10));
    assert!(rt; jump.text.as_slice() == b"GOTO20".as_slice());
    let last = Span {
        line: 2,
        column: 15,
    };
    assert!(rt; jump.spans.as_slice().last().copied() == Some(last));
}

fn is_bare_end(rt: &impl Abort, end: &Stmt) {
    assert!(rt; end.line == 3 && end.label.is_none());
    assert!(rt; end.text.as_slice() == b"END".as_slice());
    assert!(rt; end.spans.as_slice().len() == 3);
}

// ---- the core

/// An arena without room for the main program, and a history that is full.
pub fn full_history(rt: &impl Abort, alloc: Global) {
    let refused = Core::new(alloc, image_from(rt, alloc, UNDEFINED), 2, 100);
    assert!(rt; refused.err() == Some(NewFault::ArenaFull));
    let mut core = core_of(rt, alloc, UNDEFINED, 3);
    for _step in 0..3 {
        let _turn = chosen(&mut core, 1).expect(rt, "no turn");
    }
    // That a process doesn't live is reported before that the history is full, and a stop before both.
    assert!(rt; chosen(&mut core, 2).err() == Some(ChooseFault::NoSuchProcess));
    assert!(rt; core.verdict() == Verdict::Running);
    for process in [1, 2, 1] {
        assert!(rt;
            chosen(&mut core, process).err() == Some(ChooseFault::Stopped(ChoiceStop::StepLimit))
        );
        assert!(rt; core.verdict() == Verdict::Stopped(ChoiceStop::StepLimit));
        assert!(rt; is_single_steps(core.history(), 3));
    }
}

// A creates B, which outlives it, and C comes after A.
const OUTLIVED: [&[u8]; 13] = [
    b"      PROGRAM P",
    b"      CALL A",
    b"      CALL C",
    b"      END",
    b"      SUBROUTINE A",
    b"      CREATE B(K)",
    b"      END",
    b"      SUBROUTINE B(J)",
    b"      J=7",
    b"      END",
    b"      SUBROUTINE C",
    b"      PRINT *,M",
    b"      END",
];

// The frame of S has the bounds of A.
const SHAPED: [&[u8]; 9] = [
    b"      INTEGER X(6)",
    b"      X(4)=8",
    b"      CALL S(X,3)",
    b"      END",
    b"      SUBROUTINE S(A,N)",
    b"      INTEGER A(N,2)",
    b"      N=1",
    b"      PRINT *,A(1,2)",
    b"      END",
];

// P calls S, which resumes and waits for what P stores behind its CALL.
const RESUMED: [&[u8]; 13] = [
    b"      PROGRAM P",
    b"      INTEGER $X",
    b"      K=3",
    b"      CALL S(K,$X)",
    b"      K=4",
    b"      $X=1",
    b"      END",
    b"      SUBROUTINE S(J,$Y)",
    b"      INTEGER $Y",
    b"      RESUME",
    b"      I=$Y",
    b"      PRINT *,J+I",
    b"      END",
];

// How many cells are out at first, and after each choice of these processes, with which the run is done.
fn follow(rt: &impl Abort, alloc: Global, lines: &[&[u8]], first: u32, choices: &[(u64, u32)]) {
    let source = source_of(rt, alloc, lines);
    let image = image_from(rt, alloc, &source);
    let mut core = Core::new(alloc, image, 64, 100).expect(rt, "no core");
    for process in [99, 2] {
        assert!(rt; chosen(&mut core, process).err() == Some(ChooseFault::NoSuchProcess));
    }
    assert!(rt; core.used() == first);
    for (process, used) in choices {
        let _turn = chosen(&mut core, *process).expect(rt, "no turn");
        assert!(rt; core.used() == *used);
    }
    assert!(rt; core.verdict() == Verdict::Done);
}

/// Frames are given back in the step that ends them; A's stays until B has ended, whose dummy argument is a variable of A.
pub fn held_frames(rt: &impl Abort, alloc: Global) {
    let outlived = [(1, 3), (1, 6), (1, 6), (1, 8), (2, 8), (1, 6), (2, 0)];
    follow(rt, alloc, &OUTLIVED, 1, &outlived);
    let shaped = [(1, 7), (1, 16), (1, 16), (1, 16), (1, 16), (1, 7), (1, 0)];
    follow(rt, alloc, &SHAPED, 7, &shaped);
}

/// The frame of a resumed activation, and that of its caller, which ends first, stay until it has ended.
pub fn held_by_the_resumed(rt: &impl Abort, alloc: Global) {
    let caller = [(1, 3), (1, 9), (1, 9), (2, 9), (1, 9), (1, 9), (1, 9)];
    let resumed = [(2, 9), (2, 9), (2, 9), (2, 9), (2, 9), (2, 9), (2, 0)];
    let mut choices = Vec::new(alloc);
    choices.extend_from_slice(&caller).expect(rt, "no memory");
    choices.extend_from_slice(&resumed).expect(rt, "no memory");
    follow(rt, alloc, &RESUMED, 3, &choices);
}

/// Who was found waiting, for what, and who comes after it.
pub fn waiting_processes(rt: &impl Abort, alloc: Global) {
    let source = b"      INTEGER $Q\n      I=$Q\n      END\n";
    let mut core = core_of(rt, alloc, source, 100);
    assert!(rt; core.waiting_after(0).is_none());
    let turn = chosen(&mut core, 1).expect(rt, "no turn");
    assert!(rt; turn.blocked);
    assert!(rt; core.verdict() == Verdict::Waiting);
    assert!(rt; core.next_ready().is_none());
    let found = core.waiting_after(0).expect(rt, "nobody waits");
    assert!(rt; found.process == 1 && found.unit == 0 && found.line == 2 && found.full);
    assert!(rt; found.owner == 1 && found.element == 0);
    let name = core.image().name(found.name).expect(rt, "no name");
    assert!(rt; name == b"$Q".as_slice());
    assert!(rt; core.waiting_after(1).is_none());
}

// ---- the arena

// Three blocks in an arena of ten cells leave a hole of one, and a block of five doesn't fit where one of four has come back. Then
// the first one comes back too; the third one is left, between two holes.
fn two_are_back(rt: &impl Abort, alloc: Global) -> (Arena, Block)
    ensures holes { result.0.holes ≡ (0, 7) ∷ (9, 1) ∷ [] }
    ensures cells { length result.0.contents ≡ 10 }
    ensures block { (result.1.at ≡ 7) × (result.1.len ≡ 2) }
{
    taking();
    giving();
    let mut arena = Arena::new(alloc, 10).expect(rt, "no memory").sent();
    let first = arena.take(3).expect(rt, "no block");
    let second = arena.take(4).expect(rt, "no block");
    let third = arena.take(2).expect(rt, "no block");
    assert!(rt; first.at() == 0 && second.at() == 3 && third.at() == 7);
    assert!(rt; arena.used() == 9 && arena.fits(1) && !arena.fits(2));
    arena.give(second);
    assert!(rt; arena.used() == 5 && arena.fits(4) && !arena.fits(5));
    assert!(rt; arena.take(5).is_none());
    assert!(rt; arena.used() == 5);
    arena.give(first);
    assert!(rt; arena.used() == 2 && arena.fits(7) && !arena.fits(8));
    (arena, third)
}

/// A block of five fits where two neighbours have come back. Once all are back, all cells are one hole, whichever of the last two comes first.
pub fn three_blocks(rt: &impl Abort, alloc: Global) {
    taking();
    giving();
    for is_lower_first in [false, true] {
        let (mut arena, third) = two_are_back(rt, alloc);
        let fourth = arena.take(5).expect(rt, "no block");
        assert!(rt; fourth.at() == 0 && arena.used() == 7);
        assert!(rt; arena.fits(2) && !arena.fits(3));
        if is_lower_first {
            arena.give(fourth);
            arena.give(third);
        } else {
            arena.give(third);
            arena.give(fourth);
        }
        assert!(rt; arena.used() == 0 && arena.fits(10));
    }
}
