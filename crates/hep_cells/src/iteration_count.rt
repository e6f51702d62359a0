//! The iteration count of a DO (X3.9-1978, 11.10.3).
ghost use Rattle.std.specs.Prelude.{◌≡◌, ◌≢◌, ◌<◌, ◌^◌, pos, ◌+ℤ◌, ◌-ℤ◌, ◌≤ℤ◌, int_div, nat_abs, IfOk};
ghost use Rattle.hep_machine.specs.Words.{integer_or_overflow, natural};
ghost use Rattle.hep_machine.specs.Step as machine;

use hep_machine::Kind;

/// The values of the three parameters of a DO (11.10.2).
#[derive(Clone, Copy)]
pub struct LoopParameters {
    pub initial: i64,
    pub limit: i64,
    pub increment: i64,
}

// The limit minus the initial value, plus the increment.
#[inline(always)]
fn distance(initial: i64, limit: i64, increment: i64) -> i128
    ensures value { result ≡ (limit -ℤ initial) +ℤ increment }
    ensures few { nat_abs result < 2 ^ 66 }
{
    i128::from(limit) - i128::from(initial) + i128::from(increment)
}

#[tactic(auto, using(crate::proofs::IterationCounts::quotient_fits))]
#[inline(always)]
fn quotient(dividend: i128, divisor: i128) -> i128
    requires some { divisor ≢ pos 0 }
    requires few { nat_abs dividend < 2 ^ 66 }
    ensures { result ≡ int_div dividend divisor }
{
    dividend / divisor
}

// The number as an iteration count, 0 where it is negative.
#[inline(always)]
fn count_of(number: i128) -> Result<i64, Kind>
    ensures value { result ≡ integer_or_overflow (pos (natural number)) }
    ensures some { IfOk result (λ count. pos 0 ≤ℤ count) }
{
    match i64::try_from(number.max(0)) {
        Ok(count) => Ok(count),
        Err(_) => Err(Kind::Overflow),
    }
}

/// The iteration count of a DO.
///
/// # Errors
///
/// `Step` where the increment is 0, `Overflow` where the count is no 64-bit integer.
#[inline(always)]
pub fn iterations(parameters: LoopParameters) -> Result<i64, Kind>
    ensures value { result ≡ machine.iterations parameters.initial parameters.limit parameters.increment }
    ensures some { IfOk result (λ count. pos 0 ≤ℤ count) }
{
    let LoopParameters {
        initial,
        limit,
        increment,
    } = parameters;
    if increment == 0 {
        return Err(Kind::Step);
    }
    let distance = distance(initial, limit, increment);
    count_of(quotient(distance, i128::from(increment)))
}
