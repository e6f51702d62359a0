//! Calls of the crates, with memory and without, and with readers and writers that behave badly. Whole runs
//! with their bytes are cases of the folder `tests` at the top of the repository.
ghost use Rattle.hep_private.specs.Segments.{IsMadeBy};

mod cells;
mod commits;
mod growths;
mod histories;
mod lowering;
mod parts;
mod races;
mod segments;
mod streams;
mod workers;

use hep_history::History;
use hep_image::{Image, Syntax};
use hep_parse::parse;
use hep_run::{
    ChooseFault, CommitFault, Core, Segment, Ticket, Turn, Verdict, check, compute, lower,
};
use hep_source::Program;
use hep_text::statements;
use std::alloc::Global;
use std::process::Abort;

// The calls that the tests make, without what their contracts say of them. Each ends the test where it is refused.

fn program_of(rt: &impl Abort, alloc: Global, source: &[u8]) -> Program {
    let read = statements(alloc, source).expect(rt, "no statements");
    parse(alloc, &read).expect(rt, "no program")
}

fn image_from(rt: &impl Abort, alloc: Global, source: &[u8]) -> Image {
    let checked = check(alloc, program_of(rt, alloc, source)).expect(rt, "not accepted");
    lower(alloc, checked).expect(rt, "no image")
}

// In an arena of three cells.
fn core_of(rt: &impl Abort, alloc: Global, source: &[u8], steps: u64) -> Core {
    let image = image_from(rt, alloc, source);
    Core::new(alloc, image, 3, steps).expect(rt, "no core")
}

fn chosen(core: &mut Core, process: u64) -> Result<Turn, ChooseFault> {
    core.choose(process)
}

fn checked_out(core: &mut Core, process: u64) -> Result<Ticket, ChooseFault> {
    core.check_out(process)
}

fn committed(core: &mut Core, segment: &Segment) -> Result<Turn, CommitFault> {
    core.commit(segment)
}

// The segment of a ticket, by the image of a core.
fn computed(core: &Core, ticket: &Ticket) -> Segment
    ensures { IsMadeBy core.now.core.program result }
{
    compute(core.image(), ticket)
}

// So many entries of one step of process 1.
fn is_single_steps(history: &History, count: u64) -> bool {
    history.len() == count
        && history
            .iter()
            .all(|entry| entry.process == 1 && entry.steps == 1)
}

const UNDEFINED: &[u8] = b"      I=3\n      PRINT *,I*I-1\n      PRINT *,J\n      END\n";

// Each form of the language.
const FORMS: [&[u8]; 40] = [
    b"      PROGRAM P",
    b"      IMPLICIT INTEGER (A-C,X), LOGICAL (L)",
    b"      PARAMETER (N=2*3,M=-N)",
    b"      INTEGER A(N),B(0:N,*)",
    b"      LOGICAL Q,R",
    b"      DIMENSION $X(2,-1:1)",
    b"      COMMON C,D(2)/BLK/E,$F//G",
    b"      DATA A/2*0,N*M,-1/,Q/.TRUE./",
    b"      A(1)=X(2)+(3)",
    b"      IF(3)=5",
    b"      DO 10,I=1,3",
    b"      DO10J=1,10,2",
    b"      IF (I-2) 10,20,10",
    b"      IF (L.AND..NOT.Q.OR.-I.LT.J) GO TO 10",
    b"      IF (L.EQV.R) THEN",
    b"      $X(1,0)=1",
    b"      ELSE IF (I.GE.N.NEQV.L) THEN",
    b"      GO TO (10,20),I",
    b"      ELSE",
    b"      GO TO (10) I",
    b"      END IF",
    b"10    CONTINUE",
    b"      CREATE S(A,$X)",
    b"      CALL S(A(2),(I))",
    b"      PURGE $X,$F",
    b"20    PRINT *,'IT''S',I**2,FULL($F)",
    b"      PRINT=1",
    b"      STOP 'DONE'",
    b"      END",
    b"      SUBROUTINE S(A,$B)",
    b"      CALL T",
    b"      CALL T()",
    b"      RESUME",
    b"      STOP 77",
    b"      RETURN",
    b"      END",
    b"      LOGICAL FUNCTION F(N,$B)",
    b"      F=G().GT.N",
    b"      RETURN",
    b"      END",
];

// Lines, each with its end.
fn source_of(rt: &impl Abort, alloc: Global, lines: &[&[u8]]) -> Vec<u8> {
    let mut source = Vec::new(alloc);
    for line in lines {
        source.extend_from_slice(line).expect(rt, "no memory");
        source.push(b'\n').expect(rt, "no memory");
    }
    source
}

// Each form is read, and a copy of a program is the same program.
fn forms(rt: &impl Abort, alloc: Global) {
    let source = source_of(rt, alloc, &FORMS);
    let program = program_of(rt, alloc, &source);
    assert!(rt; program.as_slice().len() == 3);
    let copy = program.copy(alloc).expect(rt, "no copy");
    assert!(rt; program.same(&copy));
    let other = program_of(rt, alloc, UNDEFINED);
    assert!(rt; !program.same(&other));
}

// The core by itself: its cells, its refusals, and what they leave.
fn core(rt: &impl Abort, alloc: Global) {
    let checked = check(alloc, program_of(rt, alloc, UNDEFINED)).expect(rt, "not accepted");
    checked.is_accepted();
    assert!(rt; checked.program().as_slice().len() == 1);
    let image = lower(alloc, checked).expect(rt, "no image");
    let mut core = Core::new(alloc, image, 3, 7).expect(rt, "no core");
    let unit = core.image().name(0).expect(rt, "no name");
    assert!(rt; unit == b"MAIN".as_slice());
    let variable = core.image().name(2).expect(rt, "no name");
    assert!(rt; variable == b"J".as_slice());
    assert!(rt; core.image().name(3).is_none());
    assert!(rt; chosen(&mut core, 2).err() == Some(ChooseFault::NoSuchProcess));
    for _step in 0..7 {
        assert!(rt; core.used() == 3);
        assert!(rt; core.verdict() == Verdict::Running);
        assert!(rt; core.next_ready() == Some(1));
        let turn = chosen(&mut core, 1).expect(rt, "no turn");
        assert!(rt; turn.steps == 1 && !turn.blocked);
    }
    // The frame was given back.
    assert!(rt; core.used() == 0);
    assert!(rt; core.verdict() == Verdict::Done);
    assert!(rt; core.next_ready().is_none());
    assert!(rt; chosen(&mut core, 1).err() == Some(ChooseFault::NoSuchProcess));
    assert!(rt; core.output().len() == 1);
    assert!(rt; core.faults().len() == 1);
    assert!(rt; is_single_steps(core.history(), 7));
}

// All but those that start threads or count growths, which are tests of their own: each test has all that is below it read once more.
#[test]
fn calls(rt: HostRuntime) {
    let alloc = rt.alloc();
    forms(&rt, alloc);
    core(&rt, alloc);
    cells::after_a_stop(&rt, alloc);
    cells::endless_recursion(&rt, alloc);
    cells::arenas(&rt, alloc);
    cells::gaps(&rt, alloc);
    histories::same_bytes(&rt, alloc);
    lowering::image(&rt, alloc);
    lowering::names(&rt, alloc);
    lowering::sizes(&rt);
    parts::labels_and_blanks(&rt, alloc);
    parts::full_history(&rt, alloc);
    parts::held_frames(&rt, alloc);
    parts::held_by_the_resumed(&rt, alloc);
    parts::waiting_processes(&rt, alloc);
    parts::three_blocks(&rt, alloc);
    races::two_stores(&rt, alloc);
    races::handed_over(&rt, alloc);
    segments::steps_of_a_loop(&rt, alloc);
    segments::first_reads(&rt, alloc);
    segments::longest_segment(&rt, alloc);
    streams::sources(&rt, alloc);
    streams::failed_reads(&rt, alloc);
    streams::outputs(&rt, alloc);
    workers::tickets(&rt, alloc);
    workers::at_the_opening(&rt, alloc);
    workers::foreign_segments(&rt, alloc);
    workers::full_histories(&rt, alloc);
    workers::closing(&rt, alloc);
}
