//! Steps whose operation names no variable and prints nothing.
ghost use Rattle.std.specs.Prelude.{◌≡◌, ◌++◌, OnOk};
ghost use Rattle.hep_event.specs.PlainTexts as words;

use crate::line_text::{
    append_branch, append_call, append_choice, append_condition, append_create, append_end,
    append_resume, append_stop,
};
use crate::reduction_text::append_pure;
use hep_code::Operation;
use hep_code::operands::first_operand;
use hep_source::Value;
use std::alloc::AllocError;

/// Numbers before a step: those of the next activation and of the next process; and whether the process has only one
/// activation.
#[derive(Clone, Copy, Debug, PartialEq, Eq)]
pub struct NextNumbers {
    pub activation: u64,
    pub process: u64,
    pub alone: bool,
}

// The process in which a subroutine goes on after RESUME.
fn resumed(numbers: NextNumbers) -> Option<u64>
    ensures { result ≡ words.resumed numbers.alone numbers.process }
{
    if numbers.alone {
        return None;
    }
    Some(numbers.process)
}

/// Appends the words for a step that was no fault, by its operation and operands; `called` is the name of a called
/// unit. Appends nothing where the operation names a variable, prints, or only chooses the next statement.
///
/// # Errors
///
/// Only where memory was refused.
pub fn append_plain(
    text: &mut Vec<u8>,
    called: &[u8],
    numbers: NextNumbers,
    operation: Operation,
    operands: &[Value],
) -> Result<(), AllocError>
    ensures { OnOk result (text.new.items ≡ text.old.items ++ words.plain_text called.now numbers operation operands.now) }
{
    match operation {
        Operation::Evaluate(evaluation) => {
            let kept = operands.len().saturating_sub(evaluation.arity() as usize);
            append_pure(text, evaluation, &operands[kept..])
        }
        Operation::Choose { count, .. } => append_choice(text, count, first_operand(operands)),
        Operation::BySign { .. } => append_branch(text, first_operand(operands)),
        Operation::Condition { .. } | Operation::Branch { .. } => {
            append_condition(text, first_operand(operands))
        }
        Operation::Call { .. } | Operation::Refer { .. } => {
            append_call(text, called, numbers.activation)
        }
        Operation::Create { .. } => append_create(
            text,
            numbers.process,
            called,
            numbers.activation,
        ),
        Operation::Return => append_end(text, numbers.alone),
        Operation::Resume { .. } => append_resume(text, resumed(numbers)),
        Operation::Stop => append_stop(text),
        _ => Ok(()),
    }
}
