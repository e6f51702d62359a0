//! The end of an iteration (X3.9-1978, 11.10.6 and 11.10.7).
ghost use Rattle.std.specs.Prelude.{◌≡◌, ◌-◌, ◌+ℤ◌, Ok, Err, IfOk, IfErr};
ghost use Rattle.hep_machine.specs.Words.{integer_or_overflow};

use hep_machine::arithmetic::apply;
use hep_machine::{ArithmeticOperator, Kind};

/// The state of a DO after an iteration.
#[derive(Clone, Copy)]
pub struct IterationEnd {
    /// The value of the variable.
    pub variable: i64,
    /// The number of iterations left.
    pub left: u64,
}

/// Ends an iteration: raises the variable's value by the increment, and counts one iteration less.
///
/// # Errors
///
/// `Overflow` where the sum is no 64-bit integer.
#[inline(always)]
pub fn end_iteration(value: i64, left: u64, increment: i64) -> Result<IterationEnd, Kind>
    ensures raised { IfOk result (λ ended. integer_or_overflow (value +ℤ increment) ≡ Ok ended.variable) }
    ensures fault { IfErr result (λ kind. integer_or_overflow (value +ℤ increment) ≡ Err kind) }
    ensures left { IfOk result (λ ended. ended.left ≡ left - 1) }
{
    match apply(ArithmeticOperator::Add, value, increment) {
        Ok(raised) => Ok(IterationEnd {
            variable: raised,
            left: left.saturating_sub(1),
        }),
        Err(kind) => Err(kind),
    }
}
