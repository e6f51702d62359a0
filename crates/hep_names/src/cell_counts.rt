//! The number of cells of a name by all constants of a unit, and the number of its adjustable dimensions (X3.9-1978,
//! 5.2.3 and 5.5.1).
ghost use Rattle.std.specs.Prelude.{◌≡◌, ◌<◌, ◌≤◌, ◌^◌, is_some, if◌then◌else◌, IfOk};
ghost use Rattle.std.specs.Option.{option_map};
ghost use Rattle.hep_machine.specs.Words.{cells_of_shape, if_shape};
ghost use Rattle.hep_machine.specs.Constants as values;

use crate::bounds::bounds_of;
use crate::symbols::Symbols;
use hep_machine::Bound;
use hep_shape::Shape;
use hep_source::Name;
use std::alloc::{AllocError, Global};

// The number of elements of an array with these bounds; 0 where a bound has no value, where they make no shape, or where the last is open.
fn element_count(bounds: Option<Vec<Bound>>) -> u32
    ensures { result ≡ cells_of_shape (if_shape (option_map (λ v. v.items) bounds)) }
{
    let Some(bounds) = bounds else {
        return 0;
    };
    match Shape::new(&bounds) {
        Some(shape) => shape.cells().unwrap_or(0),
        None => 0,
    }
}

/// The number of cells of a variable of a unit: 1 for a scalar, the number of elements for an array (5.2.3), and 0 for
/// an array whose shape isn't constant.
///
/// # Errors
///
/// Only where memory was refused.
pub fn cells_of(alloc: Global, symbols: &Symbols, name: &Name) -> Result<u32, AllocError>
    ensures { IfOk result (λ cells. cells ≡ values.cells_of symbols.now name.now) }
{
    if !symbols.is_array(name) {
        return Ok(1);
    }
    let bounds = bounds_of(
        alloc,
        symbols,
        symbols.constants(),
        symbols.dimensions(name),
    )?;
    Ok(element_count(bounds))
}

// The number of dimensions of an array that each call fixes anew: 0 where the bounds have values, and else all.
fn adjustable_count(bounds: Option<Vec<Bound>>, dimensions: usize) -> usize
    ensures counted { result ≡ (if is_some (option_map (λ v. v.items) bounds) then 0 else dimensions) }
    ensures bounded { result ≤ dimensions }
{
    match bounds {
        Some(_) => 0,
        None => dimensions,
    }
}

/// The number of dimensions of a variable that each call fixes anew: all dimensions of an array with a bound that
/// isn't constant, and else 0 (5.5.1).
///
/// # Errors
///
/// Only where memory was refused.
pub fn adjustable_dimensions(
    alloc: Global,
    symbols: &Symbols,
    name: &Name,
) -> Result<usize, AllocError>
    ensures counted { IfOk result (λ count. count ≡ values.adjustable_dimensions symbols.now name.now) }
    ensures bounded { IfOk result (λ count. count < 2 ^ 63) }
{
    let dimensions = symbols.dimensions(name);
    let bounds = bounds_of(alloc, symbols, symbols.constants(), dimensions)?;
    Ok(adjustable_count(bounds, dimensions.len()))
}
