//! Images: what is lowered of a program, and the sizes of what they, the arena and segments are made of.

use super::image_from;
use hep_arena::Cell;
use hep_code::{Instruction, Operation, Variable};
use hep_image::{DataRow, Image, UnitCode};
use hep_private::{Record, Segment};
use hep_source::Value;
use std::alloc::Global;
use std::mem::size_of;
use std::process::Abort;

fn first_unit(image: &Image) -> Option<&UnitCode> {
    if image.program().as_slice().is_empty() {
        return None;
    }
    Some(image.unit(0))
}

const SUM: &[u8] = b"      PROGRAM P
      INTEGER A(3)
      COMMON /C/ K
      DATA A/2*7,8/,N/5/
      N=N+A(2)
      PRINT *,N
      END
";

fn row(first: u32, count: u32, value: i64) -> DataRow {
    DataRow {
        first,
        count,
        value: Value::Int(value),
    }
}

/// What an image has of a unit, of DATA and of COMMON, and that a copy is of the same program.
pub fn image(rt: &impl Abort, alloc: Global) {
    let image = image_from(rt, alloc, SUM);
    assert!(rt; image.common() == 1);
    // The frame stands behind COMMON: a header, A and N.
    let rows = [row(5, 1, 5), row(2, 2, 7), row(4, 1, 8)];
    assert!(rt; image.rows() == rows.as_slice());
    let unit = first_unit(&image).expect(rt, "no unit");
    assert!(rt; unit.cells == 5);
    assert!(rt; unit.private.as_slice() == [4].as_slice());
    assert!(rt; unit.arrays.as_slice().len() == 1);
    assert!(rt; unit.operands == 2);
    let copy = image.copy(alloc).expect(rt, "no copy");
    assert!(rt; copy.has_same_program(&image));
}

/// The names of an image by their numbers.
pub fn names(rt: &impl Abort, alloc: Global) {
    let image = image_from(rt, alloc, SUM);
    let names = [
        b"P".as_slice(),
        b"A".as_slice(),
        b"K".as_slice(),
        b"N".as_slice(),
        b"C".as_slice(),
    ];
    for (number, name) in names.iter().enumerate() {
        let found = image.name(number as u32).expect(rt, "no name");
        assert!(rt; found == *name);
    }
    assert!(rt; image.name(5).is_none());
}

/// A step reads an operation and some cells, and a private one leaves a record, so runs are as fast as these are small.
pub fn sizes(rt: &impl Abort) {
    assert!(rt; size_of::<Variable>() == 8);
    assert!(rt; size_of::<Operation>() == 24);
    assert!(rt; size_of::<Instruction>() == 32);
    assert!(rt; size_of::<Cell>() == 16);
    assert!(rt; size_of::<Record>() == 48);
    assert!(rt; size_of::<Segment>() == 59_408);
}
