//! Integers and bounds by constants (X3.9-1978, 5.1.1 and 5.4).
ghost use Rattle.std.specs.Prelude.{◌≡◌, Some, IfOk};
ghost use Rattle.std.specs.Option.{option_map};
ghost use Rattle.std.specs.Vec.{vec_items};
ghost use Rattle.hep_machine.specs.Words.{trees_of, integers_of, value_among};
ghost use Rattle.hep_machine.specs.Arithmetic as arithmetic;
ghost use Rattle.hep_machine.specs.Constants as values;
ghost use Rattle.hep_names.specs.Bounds as walks;

use crate::constants::Constants;
use crate::evaluation::value_of;
use crate::symbols::Symbols;
use hep_machine::Bound;
use hep_machine::values::integer_of;
use hep_source::{Dimension, Expr, UpperBound, Value};
use std::alloc::{AllocError, Global};

/// The integer values of a list of expressions, by these constants; none where one has no value.
///
/// # Errors
///
/// Only where memory was refused.
pub fn integers(
    alloc: Global,
    symbols: &Symbols,
    constants: &Constants,
    expressions: &[Expr],
) -> Result<Option<Vec<i64>>, AllocError>
    ensures { IfOk result (λ integers. option_map (λ v. v.items) integers
        ≡ option_map integers_of (values.values_of symbols.now (values.value_among constants.now) (trees_of expressions.now))) }
{
    let mut integers = Vec::new(alloc);
    for expression in expressions {
        match value_of(alloc, symbols.listed(), constants, expression)? {
            Some(value) => integers.push(integer_of(value))?,
            None => return Ok(None),
        }
    }
    Ok(Some(integers))
}

fn as_integer(value: Option<Value>) -> Option<i64>
    ensures { result ≡ option_map arithmetic.integer_of value }
{
    match value {
        Some(value) => Some(integer_of(value)),
        None => None,
    }
}

// The value of a lower bound; 1 where none is written.
fn lower_value(
    alloc: Global,
    symbols: &Symbols,
    constants: &Constants,
    lower: &Option<Expr>,
) -> Result<Option<i64>, AllocError>
    ensures { IfOk result (λ value. value ≡ values.lower_value symbols.now (value_among constants.now) lower.now) }
{
    match lower {
        Some(lower) => {
            let value = value_of(alloc, symbols.listed(), constants, lower)?;
            Ok(as_integer(value))
        }
        None => Ok(Some(1)),
    }
}

fn closed_at(upper: Option<i64>) -> Option<Option<i64>>
    ensures { result ≡ option_map Some upper }
{
    match upper {
        Some(upper) => Some(Some(upper)),
        None => None,
    }
}

fn upper_value(
    alloc: Global,
    symbols: &Symbols,
    constants: &Constants,
    upper: &UpperBound,
) -> Result<Option<Option<i64>>, AllocError>
    ensures { IfOk result (λ value. value ≡ values.upper_value symbols.now (value_among constants.now) upper.now) }
{
    match upper {
        UpperBound::Expression(upper) => {
            let value = value_of(alloc, symbols.listed(), constants, upper)?;
            Ok(closed_at(as_integer(value)))
        }
        UpperBound::Open => Ok(Some(None)),
    }
}

fn bound_of(lower: Option<i64>, upper: Option<Option<i64>>) -> Option<Bound>
    ensures { result ≡ values.bound_of lower upper }
{
    let (lower, upper) = (lower?, upper?);
    Some(Bound { lower, upper })
}

fn bound_by(
    alloc: Global,
    symbols: &Symbols,
    constants: &Constants,
    dimension: &Dimension,
) -> Result<Option<Bound>, AllocError>
    ensures { IfOk result (λ bound. bound ≡ walks.bound_by symbols.now (value_among constants.now) dimension.now) }
{
    let lower = lower_value(alloc, symbols, constants, &dimension.lower)?;
    let upper = upper_value(alloc, symbols, constants, &dimension.upper)?;
    Ok(bound_of(lower, upper))
}

/// The bounds of these dimensions; none where one has no value.
///
/// # Errors
///
/// Only where memory was refused.
pub fn bounds_of(
    alloc: Global,
    symbols: &Symbols,
    constants: &Constants,
    dimensions: &[Dimension],
) -> Result<Option<Vec<Bound>>, AllocError>
    ensures { IfOk result (λ bounds. option_map vec_items bounds
        ≡ values.bounds_of symbols.now (value_among constants.now) dimensions.now) }
{
    let mut bounds = Vec::new(alloc);
    for dimension in dimensions {
        match bound_by(alloc, symbols, constants, dimension)? {
            Some(bound) => bounds.push(bound)?,
            None => return Ok(None),
        }
    }
    Ok(Some(bounds))
}
