//! Redexes of values alone.
ghost use Rattle.std.specs.Prelude.{◌≡◌, ◌++◌, OnOk};
ghost use Rattle.hep_code.specs.Words.{first_operand, second_operand};
ghost use Rattle.hep_machine.specs.Words as machine;
ghost use Rattle.hep_event.specs.ReductionTexts as words;
ghost use Rattle.hep_event.specs.LineTexts as lines;

use crate::line_text::{
    append_applied, append_combined, append_fault, append_negated, append_signed,
};
use hep_code::Evaluation;
use hep_code::operands::first_operand;
use hep_machine::intrinsics::function_value;
use hep_machine::values::{combined_value, negated_value, signed_value};
use hep_source::{Operator, PureFunction, Sign, Value};
use std::alloc::AllocError;

pub(crate) fn second(operands: &[Value]) -> Value
    ensures { result ≡ second_operand operands.now }
{
    match operands {
        [] => Value::Truth(false),
        [_, others @ ..] => first_operand(others),
    }
}

fn append_sign(text: &mut Vec<u8>, sign: Sign, operand: Value) -> Result<(), AllocError>
    ensures { OnOk result (text.new.items ≡ text.old.items ++ words.result_text (machine.signed_value sign operand) (lines.signed_text sign operand)) }
{
    match signed_value(sign, operand) {
        Ok(value) => append_signed(text, sign, operand, value),
        Err(kind) => append_fault(text, kind),
    }
}

fn append_operator(
    text: &mut Vec<u8>,
    operator: Operator,
    left: Value,
    right: Value,
) -> Result<(), AllocError>
    ensures { OnOk result (text.new.items
        ≡ text.old.items ++ words.result_text (machine.combined_value operator left right) (lines.combined_text operator left right)) }
{
    match combined_value(operator, left, right) {
        Ok(value) => append_combined(text, operator, left, right, value),
        Err(kind) => append_fault(text, kind),
    }
}

fn append_function(
    text: &mut Vec<u8>,
    function: PureFunction,
    arguments: &[Value],
) -> Result<(), AllocError>
    ensures { OnOk result (text.new.items
        ≡ text.old.items ++ words.result_text (machine.function_value function arguments.now) (lines.applied_text function arguments.now)) }
{
    match function_value(function, arguments) {
        Ok(value) => append_applied(text, function, arguments, value),
        Err(kind) => append_fault(text, kind),
    }
}

/// Appends the words for a redex of values alone, by its operation and operands, with its result; nothing where the
/// operation reads a cell.
///
/// # Errors
///
/// Only where memory was refused.
pub fn append_pure(
    text: &mut Vec<u8>,
    evaluation: Evaluation,
    operands: &[Value],
) -> Result<(), AllocError>
    ensures { OnOk result (text.new.items ≡ text.old.items ++ words.pure_text evaluation operands.now) }
{
    match evaluation {
        Evaluation::Sign(sign) => append_sign(text, sign, first_operand(operands)),
        Evaluation::Not => {
            let operand = first_operand(operands);
            append_negated(text, operand, negated_value(operand))
        }
        Evaluation::Combine(operator) => {
            append_operator(text, operator, first_operand(operands), second(operands))
        }
        Evaluation::Apply { function, .. } => append_function(text, function, operands),
        Evaluation::Load { .. } | Evaluation::Test { .. } => Ok(()),
    }
}
