//! The variables of a unit.
ghost use Rattle.std.specs.Prelude.{◌≡◌, true, IfOk};
ghost use Rattle.std.specs.Option.{option_map, unwrap_or};
ghost use Rattle.hep_machine.specs.Words.{are_dimensions, constant_shape, if_shape, no_shape};
ghost use Rattle.hep_state_text.specs.Variables.{IsOwn, IsScalar};

use crate::variable::DisplayedVariable;
use hep_machine::Bound;
use hep_names::{Symbols, bounds_of};
use hep_shape::Shape;
use hep_source::Name;
use std::alloc::{AllocError, Global};

// The bounds, if they have values and are a shape.
fn shaped(alloc: Global, bounds: Option<Vec<Bound>>) -> Vec<Bound>
    ensures shape { result.items ≡ unwrap_or (if_shape (option_map (λ v. v.items) bounds)) no_shape }
    ensures dimensions { are_dimensions result.items ≡ true }
{
    let Some(bounds) = bounds else {
        return Vec::new(alloc);
    };
    match Shape::new(&bounds) {
        Some(_) => bounds,
        None => Vec::new(alloc),
    }
}

// The bounds of a variable, none for a scalar.
fn shape(alloc: Global, symbols: &Symbols, name: &Name) -> Result<Vec<Bound>, AllocError>
    ensures shape { IfOk result (λ bounds. bounds.items ≡ unwrap_or (constant_shape symbols.now name.now) no_shape) }
    ensures dimensions { IfOk result (λ bounds. are_dimensions bounds.items ≡ true) }
{
    if !symbols.is_array(name) {
        return Ok(Vec::new(alloc));
    }
    let dimensions = symbols.dimensions(name);
    let bounds = bounds_of(alloc, symbols, symbols.constants(), dimensions)?;
    Ok(shaped(alloc, bounds))
}

/// A variable that is no dummy argument.
///
/// # Errors
///
/// Only where memory was refused.
pub(crate) fn own_variable(
    alloc: Global,
    symbols: &Symbols,
    name: &Name,
) -> Result<DisplayedVariable, AllocError>
    ensures { IfOk result (IsOwn symbols.now name.now) }
{
    Ok(DisplayedVariable {
        name: name.spelling(alloc)?,
        asynchronous: name.asynchronous,
        bounds: shape(alloc, symbols, name)?,
    })
}

/// A variable that is a scalar.
///
/// # Errors
///
/// Only where memory was refused.
pub(crate) fn scalar_variable(alloc: Global, name: &Name) -> Result<DisplayedVariable, AllocError>
    ensures { IfOk result (IsScalar name.now) }
{
    Ok(DisplayedVariable {
        name: name.spelling(alloc)?,
        asynchronous: name.asynchronous,
        bounds: Vec::new(alloc),
    })
}
