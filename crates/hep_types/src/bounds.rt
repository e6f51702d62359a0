//! Bounds of arrays (X3.9-1978, 5.1.1 and 5.1.2).
ghost use Rattle.std.specs.Prelude.{◌≡◌, ◌||◌, ◌&&◌, true, Some, is_some, is_none, option_to_list, IfOk};
ghost use Rattle.std.specs.List.{list_all, list_any};
ghost use Rattle.std.specs.Option.{option_map};
ghost use Rattle.std.specs.Vec.{vec_items};
ghost use Rattle.hep_machine.specs.Words.{value_among, is_nonempty, trees_in_upper, Occurrence as PureOccurrence};
ghost use Rattle.hep_conditions.specs.Constants as conditions;
ghost use Rattle.hep_types.specs.Bounds as walks;

use crate::parameters::has_value;
use crate::scope::Scope;
use crate::types::is_typed_as;
use crate::variables::{is_dummy, is_plain_integer_scalar};
use hep_machine::Bound;
use hep_names::{Constants, Symbols, bounds_of, lists, occurrences};
use hep_shape::Shape;
use hep_source::{Declarator, Dimension, Expr, Name, Occurrence, UpperBound, Value, ValueType};
use std::alloc::{AllocError, Global};

// Whether a bound may use this scalar: an integer without `$` that is a dummy argument or in COMMON.
fn is_adjusting(symbols: &Symbols, name: &Name) -> bool
    ensures { result ≡ conditions.is_adjusting symbols.now name.now }
{
    is_plain_integer_scalar(symbols, name) && (is_dummy(symbols, name) || symbols.is_common(name))
}

// Whether a name is a constant or such a scalar.
fn is_constant_or_adjusting(symbols: &Symbols, constants: &Constants, name: &Name) -> bool
    ensures { result ≡ (is_some (value_among constants.now name.now) || conditions.is_adjusting symbols.now name.now) }
{
    constants.get(name).is_some() || is_adjusting(symbols, name)
}

fn are_adjusting(symbols: &Symbols, constants: &Constants, occurrences: &[Occurrence]) -> bool
    ensures { result ≡ list_all (λ (p : PureOccurrence). is_some (value_among constants.now p.name)
        || conditions.is_adjusting symbols.now p.name) occurrences.now }
{
    for occurrence in occurrences {
        if !is_constant_or_adjusting(symbols, constants, &occurrence.name) {
            return false;
        }
    }
    true
}

fn is_any_adjusted(constants: &Constants, occurrences: &[Occurrence]) -> bool
    ensures { result ≡ list_any (λ (p : PureOccurrence). is_none (value_among constants.now p.name)) occurrences.now }
{
    for occurrence in occurrences {
        if constants.get(&occurrence.name).is_none() {
            return true;
        }
    }
    false
}

// Whether a bound has such scalars, and else only constants and no reference of a function.
fn is_adjusted(scope: &Scope, expression: &Expr) -> Result<bool, AllocError>
    ensures { IfOk result (λ is_adjusted. is_adjusted
        ≡ (conditions.is_adjusted scope.now.symbols.now scope.now.parameters.now.known expression.now
        && conditions.is_adjustable scope.now.symbols.now scope.now.parameters.now.known expression.now)) }
{
    let (symbols, constants) = (scope.symbols, scope.parameters.known());
    let mut found = Vec::new(scope.alloc);
    occurrences::add_in_expression(symbols, &mut found, expression)?;
    let mut names = Vec::new(scope.alloc);
    lists::add_in(&mut names, expression)?;
    let is_adjustable = are_adjusting(symbols, constants, &found) && names.is_empty();
    Ok(is_any_adjusted(constants, &found) && is_adjustable)
}

fn is_bound(scope: &Scope, is_of_dummy: bool, expression: &Expr) -> Result<bool, AllocError>
    ensures { IfOk result (λ is_bound. is_bound
        ≡ conditions.is_bound scope.now.symbols.now scope.now.parameters.now is_of_dummy expression.now) }
{
    let has_value = has_value(scope, expression)?;
    let is_adjusted = is_adjusted(scope, expression)?;
    Ok(
        is_typed_as(None, scope.symbols, ValueType::Integer, expression)
            && (has_value || (is_of_dummy && is_adjusted)),
    )
}

fn is_lower_bound(
    scope: &Scope,
    is_of_dummy: bool,
    lower: &Option<Expr>,
) -> Result<bool, AllocError>
    ensures { IfOk result (λ is_bound. is_bound
        ≡ list_all (conditions.is_bound scope.now.symbols.now scope.now.parameters.now is_of_dummy) (option_to_list lower.now)) }
{
    match lower {
        Some(lower) => is_bound(scope, is_of_dummy, lower),
        None => Ok(true),
    }
}

fn is_upper_bound(scope: &Scope, is_of_dummy: bool, upper: &UpperBound) -> Result<bool, AllocError>
    ensures { IfOk result (λ is_bound. is_bound
        ≡ conditions.is_upper_bound scope.now.symbols.now scope.now.parameters.now is_of_dummy upper.now) }
{
    match upper {
        UpperBound::Expression(upper) => is_bound(scope, is_of_dummy, upper),
        UpperBound::Open => Ok(is_of_dummy),
    }
}

fn is_dimension(scope: &Scope, is_of_dummy: bool, dimension: &Dimension) -> Result<bool, AllocError>
    ensures { IfOk result (λ is_dimension. is_dimension
        ≡ conditions.is_dimension scope.now.symbols.now scope.now.parameters.now is_of_dummy dimension.now) }
{
    let is_lower = is_lower_bound(scope, is_of_dummy, &dimension.lower)?;
    let is_upper = is_upper_bound(scope, is_of_dummy, &dimension.upper)?;
    Ok(is_lower && is_upper)
}

fn are_dimensions(
    scope: &Scope,
    is_of_dummy: bool,
    dimensions: &[Dimension],
) -> Result<bool, AllocError>
    ensures { IfOk result (λ are_dimensions. are_dimensions
        ≡ list_all (conditions.is_dimension scope.now.symbols.now scope.now.parameters.now is_of_dummy) dimensions.now) }
{
    for dimension in dimensions {
        if !is_dimension(scope, is_of_dummy, dimension)? {
            return Ok(false);
        }
    }
    Ok(true)
}

// ---- bounds that a violation leaves open

fn is_open(scope: &Scope, expression: &Expr) -> Result<bool, AllocError>
    ensures { IfOk result (λ is_open. is_open ≡ conditions.is_open scope.now.symbols.now scope.now.parameters.now expression.now) }
{
    let evaluation = scope
        .parameters
        .evaluate(scope.alloc, scope.symbols, expression)?;
    Ok(evaluation.is_open)
}

fn is_lower_open(scope: &Scope, lower: &Option<Expr>) -> Result<bool, AllocError>
    ensures { IfOk result (λ is_open. is_open
        ≡ list_any (conditions.is_open scope.now.symbols.now scope.now.parameters.now) (option_to_list lower.now)) }
{
    match lower {
        Some(lower) => is_open(scope, lower),
        None => Ok(false),
    }
}

fn is_upper_open(scope: &Scope, upper: &UpperBound) -> Result<bool, AllocError>
    ensures { IfOk result (λ is_open. is_open
        ≡ list_any (conditions.is_open scope.now.symbols.now scope.now.parameters.now) (trees_in_upper upper.now)) }
{
    match upper {
        UpperBound::Expression(upper) => is_open(scope, upper),
        UpperBound::Open => Ok(false),
    }
}

fn is_dimension_open(scope: &Scope, dimension: &Dimension) -> Result<bool, AllocError>
    ensures { IfOk result (λ is_open. is_open ≡ walks.is_dimension_open scope.now.symbols.now scope.now.parameters.now dimension.now) }
{
    let is_lower = is_lower_open(scope, &dimension.lower)?;
    let is_upper = is_upper_open(scope, &dimension.upper)?;
    Ok(is_lower || is_upper)
}

fn is_any_open(scope: &Scope, dimensions: &[Dimension]) -> Result<bool, AllocError>
    ensures { IfOk result (λ is_open. is_open
        ≡ list_any (walks.is_dimension_open scope.now.symbols.now scope.now.parameters.now) dimensions.now) }
{
    for dimension in dimensions {
        if is_dimension_open(scope, dimension)? {
            return Ok(true);
        }
    }
    Ok(false)
}

/// Whether a violation leaves some bound of a declarator open.
///
/// # Errors
///
/// Only where memory was refused.
pub fn are_bounds_open(scope: &Scope, declarator: &Declarator) -> Result<bool, AllocError>
    ensures { IfOk result (λ are_open. are_open
        ≡ conditions.are_bounds_open scope.now.symbols.now scope.now.parameters.now declarator.now) }
{
    is_any_open(scope, declarator.dimensions.as_slice())
}

fn is_shape_if_known(bounds: &Option<Vec<Bound>>) -> bool
    ensures { result ≡ conditions.is_shape_if_known (option_map vec_items bounds.now) }
{
    match bounds {
        Some(bounds) => Shape::new(bounds).is_some(),
        None => true,
    }
}

// Whether dimensions are right: they make a shape, unless a bound is open.
fn are_right(are_dimensions: bool, are_open: bool, is_shape: bool) -> bool
    ensures { result ≡ (are_dimensions && (are_open || is_shape)) }
{
    are_dimensions && (are_open || is_shape)
}

/// Whether the bounds of a declarator are right: each is constant, or adjustable in a dummy argument, and they make a shape
/// where all are constant.
///
/// # Errors
///
/// Only where memory was refused.
pub fn has_bounds(scope: &Scope, declarator: &Declarator) -> Result<bool, AllocError>
    ensures { IfOk result (λ has_bounds. has_bounds ≡ conditions.has_bounds scope.now.symbols.now scope.now.parameters.now declarator.now) }
{
    let dimensions = declarator.dimensions.as_slice();
    if dimensions.is_empty() {
        return Ok(true);
    }
    let is_of_dummy = is_dummy(scope.symbols, &declarator.occurrence.name);
    let are_dimensions = are_dimensions(scope, is_of_dummy, dimensions)?;
    let are_open = are_bounds_open(scope, declarator)?;
    let bounds = bounds_of(
        scope.alloc,
        scope.symbols,
        scope.parameters.known(),
        dimensions,
    )?;
    Ok(are_right(are_dimensions, are_open, is_shape_if_known(&bounds)))
}

/// The shape that a declarator with dimensions gives its name; none where the bounds are refused, open or not
/// constant.
///
/// # Errors
///
/// Only where memory was refused.
pub fn shape_given(scope: &Scope, declarator: &Declarator) -> Result<Option<Shape>, AllocError>
    ensures { is_nonempty declarator.now.dimensions ≡ true
        → IfOk result (λ shape. shape ≡ walks.shape_given scope.now.symbols.now scope.now.parameters.now declarator.now) }
{
    let has_bounds = has_bounds(scope, declarator)?;
    let are_open = are_bounds_open(scope, declarator)?;
    let dimensions = declarator.dimensions.as_slice();
    match bounds_of(
        scope.alloc,
        scope.symbols,
        scope.parameters.known(),
        dimensions,
    )? {
        Some(bounds) if has_bounds && !are_open => Ok(Shape::new(&bounds)),
        _ => Ok(None),
    }
}
