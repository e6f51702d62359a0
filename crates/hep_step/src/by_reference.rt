//! What a variable, an array or an element passes (X3.9-1978, 15.9.3).
ghost use Rattle.std.specs.Prelude.{◌≡◌, ◌<◌, ◌^◌, true, Some, length};
ghost use Rattle.hep_machine.specs.Words.{elements, is_shape};
ghost use Rattle.hep_image.specs.Addressing.{base_at, bounds_at, cells_in};
ghost use Rattle.hep_image.specs.FrameBounds.{AreExtentsIn, IsStartIn};
ghost use Rattle.hep_step.specs.Cells.{HasFrame};
ghost use Rattle.hep_step.specs.declared.dummy_storage.DummyStorage.TheVariants as given;
ghost use Rattle.hep_step.specs.ArgumentPassing as definitions;
ghost use Rattle.hep_step.specs.ArgumentPassing.{given_units, passed_at, passed_of_array, passed_of_scalar};
ghost use Rattle.hep_step.specs.ReadyToPass.{AreUnitsIn, IsPassable};

use crate::addresses::number_in;
use crate::dummy_storage::DummyStorage;
use crate::frame::{Frame, base, bounds, rest};
use hep_arena::Arena;
use hep_code::Variable;
use hep_image::{Array, Extents, Start};
use hep_machine::Kind;
use hep_shape::Shape;
use hep_source::Value;

/// What a variable, a whole array or the element with these subscripts gives a dummy argument, in a unit with these
/// arrays: a whole array from its first element on, and an element with those after it.
///
/// # Errors
///
/// `Range` where there is no such element, and where a scalar has subscripts (X3.9-1978, 15.9.3).
pub fn passed(
    arrays: &[Array],
    arena: &Arena,
    frame: Frame,
    variable: Variable,
    subscripts: &[Value],
) -> Result<DummyStorage, Kind>
    requires frame { HasFrame arena.now frame }
    requires passable { IsPassable arena.now arrays.now frame variable subscripts.now }
    ensures { result ≡ given_units (passed_at (cells_in arena.now.contents) frame.first arrays.now variable subscripts.now) }
{
    match variable {
        Variable::Local { cell, .. } => of_scalar(arena, frame, Start::Local(cell), subscripts),
        Variable::Common { cell, .. } => of_scalar(arena, frame, Start::Common(cell), subscripts),
        Variable::Dummy { cells, .. } => of_scalar(arena, frame, Start::Dummy(cells), subscripts),
        Variable::Array { array, .. } => match arrays.get(array as usize) {
            Some(array) => of_array(arena, frame, array, subscripts),
            None => Err(Kind::Range),
        },
        Variable::Absent => Err(Kind::Range),
    }
}

// `count` storage units from a cell on; both numbers fit in 32 bits.
fn units(first: u64, count: u64) -> DummyStorage
    requires first { first < 2 ^ 32 }
    requires count { count < 2 ^ 32 }
    ensures { result ≡ given.Units first count }
{
    DummyStorage::Units {
        first: first as u32,
        count: count as u32,
    }
}

// What a scalar gives, which has no subscripts.
fn of_scalar(
    arena: &Arena,
    frame: Frame,
    start: Start,
    subscripts: &[Value],
) -> Result<DummyStorage, Kind>
    requires frame { HasFrame arena.now frame }
    requires inside { IsStartIn frame.cells start }
    requires reached { AreUnitsIn (length arena.now.contents)
        (passed_of_scalar (base_at (cells_in arena.now.contents) frame.first start) subscripts.now) }
    ensures { result ≡ given_units (passed_of_scalar (base_at (cells_in arena.now.contents) frame.first start) subscripts.now) }
{
    match subscripts {
        [] => Ok(units(base(arena, frame, start), 1)),
        _ => Err(Kind::Range),
    }
}

// The number of elements of an array (X3.9-1978, 5.2.3). Where its last bound is open, the call gives it.
fn count_of(arena: &Arena, frame: Frame, array: &Array) -> u64
    requires frame { HasFrame arena.now frame }
    requires start { IsStartIn frame.cells array.now.start }
    requires extents { AreExtentsIn frame.cells array.now.extents }
    requires shape { is_shape (bounds_at (cells_in arena.now.contents) frame.first array.now.extents) ≡ true }
    ensures { result ≡ definitions.count_of (cells_in arena.now.contents) frame.first array.now }
{
    match elements_of(arena, frame, &array.extents) {
        Some(elements) => u64::from(elements),
        None => rest(arena, frame, array.start),
    }
}

// The number of elements by the bounds. `None` where the last one is open.
fn elements_of(arena: &Arena, frame: Frame, extents: &Extents) -> Option<u32>
    requires frame { HasFrame arena.now frame }
    requires extents { AreExtentsIn frame.cells extents.now }
    requires shape { is_shape (bounds_at (cells_in arena.now.contents) frame.first extents.now) ≡ true }
    ensures { result ≡ elements (bounds_at (cells_in arena.now.contents) frame.first extents.now) }
{
    match extents {
        Extents::Constant(shape) => shape.cells(),
        Extents::Adjustable { cells, dimensions } => {
            let shape = Shape::new(&bounds(arena, frame, *cells, *dimensions))?;
            shape.cells()
        }
    }
}

// What an array gives, or its element with these subscripts.
fn of_array(
    arena: &Arena,
    frame: Frame,
    array: &Array,
    subscripts: &[Value],
) -> Result<DummyStorage, Kind>
    requires frame { HasFrame arena.now frame }
    requires start { IsStartIn frame.cells array.now.start }
    requires extents { AreExtentsIn frame.cells array.now.extents }
    requires shape { is_shape (bounds_at (cells_in arena.now.contents) frame.first array.now.extents) ≡ true }
    requires reached { AreUnitsIn (length arena.now.contents)
        (passed_of_array (cells_in arena.now.contents) frame.first (Some array.now) subscripts.now) }
    ensures { result ≡ given_units (passed_of_array (cells_in arena.now.contents) frame.first (Some array.now) subscripts.now) }
{
    let first = base(arena, frame, array.start);
    let count = count_of(arena, frame, array);
    if subscripts.is_empty() {
        return Ok(units(first, count));
    }
    let Some(number) = number_in(arena, frame, &array.extents, subscripts).number else {
        return Err(Kind::Range);
    };
    let before = u64::from(number) - 1;
    if count <= before {
        return Err(Kind::Range);
    }
    Ok(units(first + before, count - before))
}
