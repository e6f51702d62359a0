//! Segments: which private steps are made of a ticket, and what their records say.

use super::image_from;
use hep_image::Image;
use hep_private::{CellCopy, Record, Segment, Ticket, TicketId, compute, compute_into};
use hep_source::Value;
use std::alloc::Global;
use std::process::Abort;

const LOOP: &[u8] = b"      PROGRAM P
      COMMON K
      I=1
      DO 10 J=1,3
      I=I+J
   10 CONTINUE
      K=I
      END
";

const RAISE: &[u8] = b"      I=I+1\n      I=-I\n      END\n";

const PASSED: &[u8] =
    b"      I=1\n      J=2\n      CALL S(J)\n      END\n      SUBROUTINE S(K)\n      END\n";

// At the first statement of the first unit, with these copies.
fn ticket_of(
    rt: &impl Abort,
    alloc: Global,
    image: &Image,
    number: u64,
    copies: &[CellCopy],
) -> Ticket {
    let id = TicketId { number, process: 1 };
    let index = if image.program().as_slice().is_empty() {
        0
    } else {
        image.unit(0).entry as usize
    };
    let mut kept = Vec::new(alloc);
    kept.extend_from_slice(copies).expect(rt, "no memory");
    Ticket::new(id, 0, index, Vec::new(alloc), kept)
}

fn segment_of(rt: &impl Abort, alloc: Global, source: &[u8], copies: &[CellCopy]) -> Segment {
    let image = image_from(rt, alloc, source);
    let ticket = ticket_of(rt, alloc, &image, 1, copies);
    compute(&image, &ticket)
}

/// All steps but the store in COMMON, in front of which its value is an operand.
pub fn steps_of_a_loop(rt: &impl Abort, alloc: Global) {
    let segment = segment_of(rt, alloc, LOOP, &[]);
    assert!(rt; segment.records().len() == 21);
    assert!(rt; segment.end_operands() == [Value::Int(7)].as_slice());
    let ends = segment.records()[7];
    let Record::Ends {
        first_variable,
        first_count,
        first_increment,
        raised,
        count,
        increment,
        ..
    } = ends
    else {
        assert!(rt; false);
        return;
    };
    assert!(rt; !first_variable && !first_count && !first_increment);
    assert!(rt; raised == 2 && count == 3 && increment == 1);
}

/// What is read first is that of the copies; without a value there is no step.
pub fn first_reads(rt: &impl Abort, alloc: Global) {
    let none = segment_of(rt, alloc, RAISE, &[]);
    assert!(rt; none.records().is_empty());
    let copy = CellCopy {
        cell: 1,
        value: Some(Value::Int(5)),
    };
    let segment = segment_of(rt, alloc, RAISE, &[copy]);
    assert!(rt; segment.records().len() == 6);
    let Record::Reads { first, value, .. } = segment.records()[0] else {
        assert!(rt; false);
        return;
    };
    assert!(rt; first);
    assert!(rt; value == Value::Int(5));
    let Record::Stores { cell, value, .. } = segment.records()[5] else {
        assert!(rt; false);
        return;
    };
    assert!(rt; cell == 1 && value == Value::Int(-6));
}

/// There is an end to a segment, and another one can be made in its place.
pub fn longest_segment(rt: &impl Abort, alloc: Global) {
    let mut segment = segment_of(rt, alloc, b"   10 GO TO 10\n      END\n", &[]);
    assert!(rt; segment.records().len() == 1023);
    let image = image_from(rt, alloc, PASSED);
    let ticket = ticket_of(rt, alloc, &image, 2, &[]);
    compute_into(&image, &ticket, &mut segment);
    // J is passed, so that it isn't private.
    assert!(rt; segment.records().len() == 1);
    assert!(rt; segment.ticket().number == 2);
}
