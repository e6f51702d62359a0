//! Commits of segments with private steps.

use super::{computed, image_from};
use hep_image::Image;
use hep_run::{ChoiceStop, ChooseFault, CommitFault, Core, Offer, Segment, Turn, Verdict, compute};
use std::alloc::Global;
use std::process::Abort;

const ENDLESS: &[u8] = b"   10 GO TO 10\n      END\n";

const WAITING: &[u8] = b"      INTEGER $A\n      J=1\n      I=$A\n      END\n";

const CALLING: &[u8] =
    b"      J=1\n      CALL S\n      END\n      SUBROUTINE S\n      K=1\n      END\n";

const OVERFLOW: &[u8] = b"      I=9223372036854775807\n      I=I+1\n      END\n";

const PRINTING: &[u8] = b"      I=2\n      PRINT *,I*3\n      END\n";

// A core of a source, and its image.
fn begun(rt: &impl Abort, alloc: Global, source: &[u8], cells: u32, steps: u64) -> (Core, Image) {
    let image = image_from(rt, alloc, source);
    let copy = image.copy(alloc).expect(rt, "no copy");
    let core = Core::new(alloc, copy, cells.clamp(1, 16), steps).expect(rt, "no core");
    (core, image)
}

// The segment of process 1, which is out from now on.
fn segment_of(rt: &impl Abort, core: &mut Core, image: &Image) -> Segment {
    let ticket = core.check_out(1).expect(rt, "no ticket");
    compute(image, &ticket)
}

// A turn of process 1, as a worker makes it.
fn turn_of(rt: &impl Abort, core: &mut Core, image: &Image) -> Result<Turn, CommitFault> {
    let segment = segment_of(rt, core, image);
    core.commit(&segment)
}

fn made(steps: u32) -> Result<Turn, CommitFault> {
    Ok(Turn {
        steps,
        blocked: false,
    })
}

// There is no end of private steps, so a turn has as many as a segment.
#[test]
fn endless_steps(rt: HostRuntime) {
    let (mut core, image) = begun(&rt, rt.alloc(), ENDLESS, 3, 2);
    for _turn in 0..2 {
        assert!(rt; turn_of(&rt, &mut core, &image) == made(1_023));
    }
    assert!(rt; core.history().len() == 2);
    let full = ChooseFault::Stopped(ChoiceStop::StepLimit);
    assert!(rt; core.check_out(1).err() == Some(full));
}

// A step that would wait is left out behind private ones, and by itself finds the process waiting.
#[test]
fn waiting_behind_steps(rt: HostRuntime) {
    let (mut core, image) = begun(&rt, rt.alloc(), WAITING, 9, 9);
    assert!(rt; turn_of(&rt, &mut core, &image) == made(1));
    assert!(rt; core.verdict() == Verdict::Running);
    let waits = Turn {
        steps: 0,
        blocked: true,
    };
    assert!(rt; turn_of(&rt, &mut core, &image) == Ok(waits));
    assert!(rt; core.verdict() == Verdict::Waiting);
    assert!(rt; core.history().len() == 2);
}

// So is a CALL without a gap for its frame, which stops the core by itself.
#[test]
fn full_behind_steps(rt: HostRuntime) {
    let (mut core, image) = begun(&rt, rt.alloc(), CALLING, 3, 9);
    assert!(rt; turn_of(&rt, &mut core, &image) == made(1));
    assert!(rt; core.stop().is_none());
    let full = CommitFault::Stopped(ChoiceStop::ArenaFull);
    assert!(rt; turn_of(&rt, &mut core, &image) == Err(full));
    assert!(rt; core.history().len() == 1);
}

// The step that ends a row of private ones is made with them: a fault, a PRINT, and END.
#[test]
fn further_steps(rt: HostRuntime) {
    let alloc = rt.alloc();
    let (mut core, image) = begun(&rt, alloc, OVERFLOW, 9, 9);
    assert!(rt; turn_of(&rt, &mut core, &image) == made(3));
    assert!(rt; core.faults().len() == 1 && core.verdict() == Verdict::Done);
    let (mut core, image) = begun(&rt, alloc, PRINTING, 9, 9);
    assert!(rt; turn_of(&rt, &mut core, &image) == made(4));
    assert!(rt; core.output().len() == 1);
    assert!(rt; turn_of(&rt, &mut core, &image) == made(1));
    assert!(rt; core.verdict() == Verdict::Done && core.history().len() == 2);
}

// A segment is committed once, and only by a core whose image makes its steps from where its process is.
#[test]
fn stale_steps(rt: HostRuntime) {
    let alloc = rt.alloc();
    let (mut core, image) = begun(&rt, alloc, b"      K=1\n      K=K+1\n      END\n", 9, 9);
    let (mut other, changed) = begun(&rt, alloc, b"      K=1\n      K=K+2\n      END\n", 9, 9);
    let (mut alike, same) = begun(&rt, alloc, b"      K=1\n      K=K+1\n      END\n", 9, 9);
    let segment = segment_of(&rt, &mut core, &image);
    let foreign = segment_of(&rt, &mut other, &changed);
    let taken = segment_of(&rt, &mut alike, &same);
    assert!(rt; core.commit(&foreign) == Err(CommitFault::Stale));
    assert!(rt; core.history().len() == 0);
    assert!(rt; core.commit(&taken) == made(5));
    assert!(rt; core.commit(&taken) == Err(CommitFault::Stale));
    assert!(rt; core.commit(&segment) == Err(CommitFault::Stale));
    assert!(rt; core.verdict() == Verdict::Done);
}

// What the core's own image makes is committed without being made again, and the next ticket has the room of the one before.
#[test]
fn known_steps(rt: HostRuntime) {
    let (mut core, _image) = begun(&rt, rt.alloc(), PRINTING, 9, 9);
    let first = core.check_out(1).expect(&rt, "no ticket");
    let segment = computed(&core, &first);
    let offer = Offer::Recorded {
        segment: &segment,
        known: true,
    };
    assert!(rt; core.commit_offer(&offer) == made(4));
    let again = core.check_out_again(1, first).expect(&rt, "no ticket");
    assert!(rt; again.id().number == 2);
    let next = computed(&core, &again);
    let offer = Offer::Recorded {
        segment: &next,
        known: true,
    };
    assert!(rt; core.commit_offer(&offer) == made(1));
    assert!(rt; core.verdict() == Verdict::Done && core.history().len() == 2);
}
