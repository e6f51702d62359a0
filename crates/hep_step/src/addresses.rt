//! The storage unit of a variable or an element (X3.9-1978, 2.13 and 5.4).
ghost use Rattle.std.specs.Prelude.{◌≡◌, ◌<◌, ◌≤◌, length, Some, IfSome, MatchOption};
ghost use Rattle.std.specs.Option.{is_none};
ghost use Rattle.hep_machine.specs.Words.{integers_of, counted_element, elements};
ghost use Rattle.hep_image.specs.Addressing as finding;
ghost use Rattle.hep_image.specs.Addressing.{address_of, base_at, bounds_at, cells_in};
ghost use Rattle.hep_image.specs.FrameBounds.{AreExtentsIn, IsStartIn, LiesIn};
ghost use Rattle.hep_step.specs.Cells.{HasFrame, IsReached};

use crate::frame::{Frame, base, bounds, rest};
use arrayvec::ArrayVec;
use hep_arena::Arena;
use hep_code::Variable;
use hep_image::{Array, Extents, Start};
use hep_machine::values::integer_of;
use hep_machine::{Bound, Kind};
use hep_shape::{element_among, is_open};
use hep_source::Value;

// The greatest number of subscripts of an element (X3.9-1978, 5.4.2).
const MOST_SUBSCRIPTS: usize = 7;

/// The number of an element in its array, counted from 1, if there is such an element; and whether the array's last
/// bound is open.
#[derive(Clone, Copy)]
pub struct ElementNumber {
    pub number: Option<u32>,
    pub is_open: bool,
}

/// The address of a variable's cell, or of its element with these subscripts, in a unit with these arrays.
///
/// The cell, if there is one, has to be taken.
///
/// # Errors
///
/// `Range` where there is no such element, and where a scalar has subscripts.
#[inline(always)]
pub fn address(
    arena: &Arena,
    frame: Frame,
    arrays: &[Array],
    variable: Variable,
    subscripts: &[Value],
) -> Result<u32, Kind>
    requires frame { HasFrame arena.now frame }
    requires inside { LiesIn frame.cells arrays.now variable }
    requires reached { IsReached arena.now (address_of (cells_in arena.now.contents) frame.first arrays.now variable subscripts.now) }
    ensures { result ≡ address_of (cells_in arena.now.contents) frame.first arrays.now variable subscripts.now }
{
    match variable {
        Variable::Local { cell, .. } => of_scalar(arena, frame, Start::Local(cell), subscripts),
        Variable::Common { cell, .. } => of_scalar(arena, frame, Start::Common(cell), subscripts),
        Variable::Dummy { cells, .. } => of_scalar(arena, frame, Start::Dummy(cells), subscripts),
        Variable::Array { array, .. } => match arrays.get(array as usize) {
            Some(array) => of_element(arena, frame, array, subscripts),
            None => Err(Kind::Range),
        },
        Variable::Absent => Err(Kind::Range),
    }
}

// The address of a scalar, which has no subscripts.
#[inline(always)]
fn of_scalar(arena: &Arena, frame: Frame, start: Start, subscripts: &[Value]) -> Result<u32, Kind>
    requires frame { HasFrame arena.now frame }
    requires inside { IsStartIn frame.cells start }
    requires reached { IsReached arena.now (finding.address_of_scalar (cells_in arena.now.contents) frame.first
        (base_at (cells_in arena.now.contents) frame.first start) subscripts.now) }
    ensures { result ≡ finding.address_of_scalar (cells_in arena.now.contents) frame.first
        (base_at (cells_in arena.now.contents) frame.first start) subscripts.now }
{
    match subscripts {
        [] => Ok(base(arena, frame, start) as u32),
        _ => Err(Kind::Range),
    }
}

// The address of an element. Where the last bound is open, the call gives the number of elements.
fn of_element(arena: &Arena, frame: Frame, array: &Array, subscripts: &[Value]) -> Result<u32, Kind>
    requires frame { HasFrame arena.now frame }
    requires start { IsStartIn frame.cells array.now.start }
    requires extents { AreExtentsIn frame.cells array.now.extents }
    requires reached { IsReached arena.now (finding.address_in_array (cells_in arena.now.contents) frame.first
        (Some array.now) subscripts.now) }
    ensures { result ≡ finding.address_in_array (cells_in arena.now.contents) frame.first (Some array.now) subscripts.now }
{
    let numbered = number_in(arena, frame, &array.extents, subscripts);
    let Some(number) = numbered.number else {
        return Err(Kind::Range);
    };
    let number = u64::from(number);
    if numbered.is_open && rest(arena, frame, array.start) < number {
        return Err(Kind::Range);
    }
    Ok((base(arena, frame, array.start) + (number - 1)) as u32)
}

/// The element with these subscripts (X3.9-1978, 5.4), in an array with these bounds.
pub fn number_in(
    arena: &Arena,
    frame: Frame,
    extents: &Extents,
    subscripts: &[Value],
) -> ElementNumber
    requires frame { HasFrame arena.now frame }
    requires extents { AreExtentsIn frame.cells extents.now }
    ensures number { result.number ≡ counted_element (bounds_at (cells_in arena.now.contents) frame.first extents.now)
        (integers_of subscripts.now) }
    ensures some { IfSome result.number (λ n. 1 ≤ n) }
    ensures is_open { result.is_open ≡ is_none (elements (bounds_at (cells_in arena.now.contents) frame.first extents.now)) }
{
    match extents {
        Extents::Constant(shape) => ElementNumber {
            number: number_among(shape.bounds(), subscripts),
            is_open: shape.cells().is_none(),
        },
        Extents::Adjustable { cells, dimensions } => {
            let bounds = bounds(arena, frame, *cells, *dimensions);
            ElementNumber {
                number: number_among(&bounds, subscripts),
                is_open: is_open(&bounds),
            }
        }
    }
}

// The number of the element with these subscripts in an array with these bounds.
#[tactic(auto, using(crate::proofs::Elements::too_many_subscripts))]
fn number_among(bounds: &[Bound], subscripts: &[Value]) -> Option<u32>
    requires { length bounds.now ≤ 7 }
    ensures number { result ≡ counted_element bounds.now (integers_of subscripts.now) }
    ensures some { IfSome result (λ n. 1 ≤ n) }
{
    let Some(subscripts) = integers(subscripts) else {
        return None;
    };
    element_among(bounds, &subscripts)
}

// The values as integers. `None` where there are more than seven, the most subscripts of an element.
fn integers(values: &[Value]) -> Option<ArrayVec<i64, MOST_SUBSCRIPTS>>
    ensures { MatchOption result (7 < length values.now) (λ integers. integers.items ≡ integers_of values.now) }
{
    if MOST_SUBSCRIPTS < values.len() {
        return None;
    }
    let mut integers = ArrayVec::new();
    for value in values {
        integers.push(integer_of(*value));
    }
    Some(integers)
}
