//! DO and its end (X3.9-1978, 11.10.3 to 11.10.7), where the variable is private.
ghost use Rattle.std.specs.Prelude.{◌≡◌, Some, suc, pos, ◌+ℤ◌};
ghost use Rattle.std.specs.Option.{option_map};
ghost use Rattle.hep_machine.specs.Words.{integer_of};
ghost use Rattle.hep_machine.specs.Arithmetic as arithmetic;
ghost use Rattle.hep_private.specs.OwnState.{count_in, increment_in, is_first};
ghost use Rattle.hep_private.specs.StepRecords.{if_ok, made_of_end_by, made_of_end_of, made_of_entry_by};
ghost use Rattle.hep_private.specs.PrivateSteps.{here_own, made_of_deed};

use crate::private_step::{PrivateStep, StepContext};
use crate::record::Record;
use crate::write_log::one_less;
use hep_cells::iterations;
use hep_code::{Operation, Variable, instruction};
use hep_machine::arithmetic::apply;
use hep_machine::values::integer_of;
use hep_source::{ArithmeticOperator, Value};
use hep_step::parameters_among;

/// A DO, as the operations at its entry and at the end of its iterations name it.
#[derive(Clone, Copy)]
pub struct PrivateLoop {
    /// The operation, which has the indices at which the activation goes on.
    pub operation: Operation,
    pub variable: Variable,
    /// The first of its two cells, counted from that of the frame.
    pub cells: u32,
}

/// Enters a DO.
pub fn enter_loop(here: &StepContext<'_>, entered: PrivateLoop) -> Option<PrivateStep>
    ensures { option_map (made_of_deed here.now.operands.now) result
        ≡ made_of_entry_by here.now.memory.private.now (here_own here.now) entered.operation entered.variable entered.cells }
{
    let Variable::Local {
        asynchronous: false,
        cell,
    } = entered.variable
    else {
        return None;
    };
    if !here.memory.is_private(cell) {
        return None;
    }
    let parameters = parameters_among(here.operands);
    let count = iterations(parameters).ok()?;
    Some(PrivateStep {
        note: Record::Enters {
            variable: cell,
            cells: entered.cells,
            at: here.index,
            initial: parameters.initial,
            count,
            increment: parameters.increment,
        },
        index: instruction::led_by_count(entered.operation, here.index, count),
        given: None,
    })
}

// The number of iterations left of a DO, 0 where it wasn't entered. The flag is true where no step has stored that
// number.
#[inline(always)]
fn count_at(here: &StepContext<'_>, cells: u32) -> (bool, i64)
    ensures first { result.0 ≡ is_first (here_own here.now) cells }
    ensures count { result.1 ≡ pos (count_in (here_own here.now).values cells) }
{
    let (first, value) = here.memory.read(cells as usize);
    match value {
        Some(value) => (first, integer_of(value).max(0)),
        None => (first, 0),
    }
}

// The increment of a DO, 1 where it wasn't entered. The flag is true where no step has stored it.
#[inline(always)]
fn increment_at(here: &StepContext<'_>, cells: u32) -> (bool, i64)
    ensures first { result.0 ≡ is_first (here_own here.now) (suc cells) }
    ensures increment { result.1 ≡ increment_in (here_own here.now).values cells }
{
    let (first, value) = here.memory.read(cells as usize + 1);
    match value {
        Some(value) => (first, integer_of(value)),
        None => (first, 1),
    }
}

// The sum of a value and an increment, or `None` where it overflows.
#[inline(always)]
fn raised_by(value: Value, increment: i64) -> Option<i64>
    ensures { result ≡ if_ok (arithmetic.integer_or_overflow (integer_of value +ℤ increment)) }
{
    apply(ArithmeticOperator::Add, integer_of(value), increment).ok()
}

// The end of an iteration, where the variable has this value.
#[inline(always)]
fn raise(
    here: &StepContext<'_>,
    ended: PrivateLoop,
    cell: u32,
    first_variable: bool,
    value: Value,
) -> Option<PrivateStep>
    requires { first_variable ≡ is_first (here_own here.now) cell }
    ensures { option_map (made_of_deed here.now.operands.now) result
        ≡ made_of_end_by (here_own here.now) ended.operation cell ended.cells (Some value) }
{
    let (first_count, count) = count_at(here, ended.cells);
    let (first_increment, increment) = increment_at(here, ended.cells);
    match raised_by(value, increment) {
        Some(raised) => Some(PrivateStep {
            note: Record::Ends {
                first_variable,
                first_count,
                first_increment,
                variable: cell,
                cells: ended.cells,
                at: here.index,
                raised,
                count,
                increment,
            },
            index: instruction::led_by_count(ended.operation, here.index, one_less(count)),
            given: None,
        }),
        None => None,
    }
}

/// Ends an iteration of a DO.
#[inline(always)]
pub fn end_loop(here: &StepContext<'_>, ended: PrivateLoop) -> Option<PrivateStep>
    ensures { option_map (made_of_deed here.now.operands.now) result
        ≡ made_of_end_of here.now.memory.private.now (here_own here.now) ended.operation ended.variable ended.cells }
{
    let Variable::Local {
        asynchronous: false,
        cell,
    } = ended.variable
    else {
        return None;
    };
    if !here.memory.is_private(cell) {
        return None;
    }
    let (first_variable, value) = here.memory.read(cell as usize);
    match value {
        Some(value) => raise(here, ended, cell, first_variable, value),
        None => None,
    }
}
