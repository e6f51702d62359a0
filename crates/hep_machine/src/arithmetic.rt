//! Integer arithmetic: results are exact whole numbers, and one test decides whether a result fits.
ghost use Rattle.std.specs.Prelude.{◌≡◌, ◌<◌};
ghost use Rattle.std.specs.Int.{int_pow};
ghost use Rattle.hep_machine.specs.Words.{integer_or_overflow, result_of, signed_result, power_of, reciprocal_of};

use crate::event::Kind;
use hep_source::{ArithmeticOperator, Sign};

/// The result of an operator on two integers (X3.9-1978, 6.1 and 6.6).
///
/// # Errors
///
/// `Divide` for a zero divisor or a negative power of zero, `Overflow` where the exact result is
/// not a 64-bit integer.
#[inline(always)]
pub fn apply(operator: ArithmeticOperator, left: i64, right: i64) -> Result<i64, Kind>
    ensures { result ≡ result_of operator left right }
{
    match operator {
        ArithmeticOperator::Add => left.checked_add(right).ok_or(Kind::Overflow),
        ArithmeticOperator::Subtract => left.checked_sub(right).ok_or(Kind::Overflow),
        ArithmeticOperator::Multiply => left.checked_mul(right).ok_or(Kind::Overflow),
        ArithmeticOperator::Divide => quotient(left, right),
        ArithmeticOperator::Power => power(left, right),
    }
}

/// The result of a sign before an integer.
///
/// # Errors
///
/// `Overflow` for the negative of the least integer.
pub fn apply_sign(sign: Sign, operand: i64) -> Result<i64, Kind>
    ensures { result ≡ signed_result sign operand }
{
    match sign {
        Sign::Plus => Ok(operand),
        Sign::Minus => operand.checked_neg().ok_or(Kind::Overflow),
    }
}

// The quotient without its fraction (X3.9-1978, 6.1.5).
fn quotient(left: i64, right: i64) -> Result<i64, Kind>
    ensures { result ≡ result_of ArithmeticOperator.Divide left right }
{
    if right == 0 {
        return Err(Kind::Divide);
    }
    left.checked_div(right).ok_or(Kind::Overflow)
}

// A power. A power with a negative exponent is 1 divided by the power with the exponent's absolute value, without its fraction.
fn power(base: i64, exponent: i64) -> Result<i64, Kind>
    ensures { result ≡ power_of base exponent }
{
    let size = exponent.unsigned_abs();
    if exponent < 0 {
        return reciprocal(base, size);
    }
    match u32::try_from(size) {
        Ok(size) => base.checked_pow(size).ok_or(Kind::Overflow),
        Err(_) => distant_power(base, size),
    }
}

// A power with an exponent above 63. Only powers of 0, 1 and -1 fit.
fn distant_power(base: i64, exponent: u64) -> Result<i64, Kind>
    requires { 63 < exponent }
    ensures { result ≡ integer_or_overflow (int_pow base exponent) }
{
    match base {
        0 | 1 => Ok(base),
        -1 => Ok(if exponent % 2 == 0 { 1 } else { -1 }),
        _ => Err(Kind::Overflow),
    }
}

// 1 divided by a power, without its fraction.
fn reciprocal(base: i64, exponent: u64) -> Result<i64, Kind>
    ensures { result ≡ reciprocal_of base exponent }
{
    match base {
        0 => Err(Kind::Divide),
        1 => Ok(1),
        -1 => Ok(if exponent % 2 == 0 { 1 } else { -1 }),
        _ => Ok(0),
    }
}
