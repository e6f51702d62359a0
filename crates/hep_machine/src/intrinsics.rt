//! Intrinsic functions of integers (X3.9-1978, 15.10): results are exact whole numbers, and one test decides whether a result fits.
ghost use Rattle.std.specs.Prelude.{◌≡◌, pos, ◌-ℤ◌, [], ◌∷◌};
ghost use Rattle.hep_machine.specs.Arithmetic as arithmetic;

use crate::event::Kind;
use crate::values::integer_of;
use hep_source::{PureFunction, Value};

// The result for a wrong number of arguments, which no accepted program has.
const NO_INTEGER: i64 = 0;

fn absolute_value(argument: i64) -> Result<i64, Kind>
    ensures { result ≡ arithmetic.integer_or_overflow (arithmetic.size_of argument) }
{
    argument.checked_abs().ok_or(Kind::Overflow)
}

// The remainder of a division. It is 0 for the divisor -1, even where the quotient overflows.
fn remainder(left: i64, right: i64) -> Result<i64, Kind>
    ensures { result ≡ arithmetic.remainder_of left right }
{
    match right {
        0 => Err(Kind::Divide),
        -1 => Ok(0),
        _ => Ok(left % right),
    }
}

// The negative of the absolute value. It always fits.
fn negative_size(argument: i64) -> i64
    ensures { result ≡ pos 0 -ℤ arithmetic.size_of argument }
{
    if argument < 0 { argument } else { -argument }
}

// The absolute value of the first argument with the sign of the second.
fn with_sign(argument: i64, sign: i64) -> Result<i64, Kind>
    ensures { result ≡ arithmetic.function_result PureFunction.TransferOfSign (argument ∷ sign ∷ []) }
{
    if 0 <= sign {
        absolute_value(argument)
    } else {
        Ok(negative_size(argument))
    }
}

fn positive_difference(left: i64, right: i64) -> Result<i64, Kind>
    ensures { result ≡ arithmetic.function_result PureFunction.PositiveDifference (left ∷ right ∷ []) }
{
    if right < left {
        left.checked_sub(right).ok_or(Kind::Overflow)
    } else {
        Ok(0)
    }
}

fn largest(first: i64, more: &[Value]) -> i64
    ensures { result ≡ arithmetic.largest_of first (arithmetic.integers_of more.now) }
{
    let mut largest = first;
    for argument in more {
        let argument = integer_of(*argument);
        if largest < argument {
            largest = argument;
        }
    }
    largest
}

fn smallest(first: i64, more: &[Value]) -> i64
    ensures { result ≡ arithmetic.smallest_of first (arithmetic.integers_of more.now) }
{
    let mut smallest = first;
    for argument in more {
        let argument = integer_of(*argument);
        if argument < smallest {
            smallest = argument;
        }
    }
    smallest
}

// The result of a function; 0 for a wrong number of arguments.
fn function_result(function: PureFunction, arguments: &[Value]) -> Result<i64, Kind>
    ensures { result ≡ arithmetic.function_result function (arithmetic.integers_of arguments.now) }
{
    match function {
        PureFunction::AbsoluteValue => match arguments {
            [argument] => absolute_value(integer_of(*argument)),
            _ => Ok(NO_INTEGER),
        },
        PureFunction::Remainder => match arguments {
            [left, right] => remainder(integer_of(*left), integer_of(*right)),
            _ => Ok(NO_INTEGER),
        },
        PureFunction::TransferOfSign => match arguments {
            [argument, sign] => with_sign(integer_of(*argument), integer_of(*sign)),
            _ => Ok(NO_INTEGER),
        },
        PureFunction::PositiveDifference => match arguments {
            [left, right] => positive_difference(integer_of(*left), integer_of(*right)),
            _ => Ok(NO_INTEGER),
        },
        PureFunction::Largest => match arguments {
            [first, more @ ..] => Ok(largest(integer_of(*first), more)),
            [] => Ok(NO_INTEGER),
        },
        PureFunction::Smallest => match arguments {
            [first, more @ ..] => Ok(smallest(integer_of(*first), more)),
            [] => Ok(NO_INTEGER),
        },
    }
}

/// The value of a function of integers (X3.9-1978, 15.10).
///
/// # Errors
///
/// `Divide` for a remainder by zero, `Overflow` where the exact result is not a 64-bit integer.
pub fn function_value(function: PureFunction, arguments: &[Value]) -> Result<Value, Kind>
    ensures { result ≡ arithmetic.function_value function arguments.now }
{
    Ok(Value::Int(function_result(function, arguments)?))
}
