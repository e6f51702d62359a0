//! Whether the next step of a process is pure: whether it applies an operator or a function of integers, or only chooses which statement
//! comes next, and is no fault.
ghost use Rattle.std.specs.Prelude.{◌≡◌, IfOk, true};
ghost use Rattle.hep_state.specs.Words.{IsItsTurn};
ghost use Rattle.hep_explore.specs.Pure as words;
ghost use Rattle.hep_explore.specs.Successors.{IsPureAhead};

use hep_code::operands::operand;
use hep_code::{Evaluation, Operation};
use hep_event::coming_of;
use hep_image::Image;
use hep_machine::intrinsics::function_value;
use hep_machine::values::{combined_value, signed_value};
use hep_source::Value;
use hep_state::CoreState;
use hep_state::laws::tops_are_running;
use std::alloc::{AllocError, Global};

// Whether an evaluation with these operands is an operator or a function of integers, and no fault.
fn gives_value(evaluation: Evaluation, operands: &[Value]) -> bool
    ensures { result ≡ words.gives_value evaluation operands.now }
{
    match evaluation {
        Evaluation::Sign(sign) => signed_value(sign, operand(operands, 0)).is_ok(),
        Evaluation::Not => true,
        Evaluation::Combine(operator) => {
            let (left, right) = (operand(operands, 0), operand(operands, 1));
            combined_value(operator, left, right).is_ok()
        }
        Evaluation::Apply { function, .. } => function_value(function, operands).is_ok(),
        Evaluation::Load { .. } | Evaluation::Test { .. } => false,
    }
}

// Whether the step of an operation with these operands is pure.
fn is_pure_operation(operation: Operation, operands: &[Value]) -> bool
    ensures { result ≡ words.is_pure_operation operation operands.now }
{
    match operation {
        Operation::Evaluate(evaluation) => {
            let kept = operands.len().saturating_sub(evaluation.arity() as usize);
            gives_value(evaluation, &operands[kept..])
        }
        Operation::Jump { .. }
        | Operation::Choose { .. }
        | Operation::BySign { .. }
        | Operation::Condition { .. }
        | Operation::Branch { .. } => true,
        _ => false,
    }
}

/// Whether the next step of process p, whose turn it is, is pure.
///
/// # Errors
///
/// Only where memory was refused.
pub(crate) fn is_next_pure(
    alloc: Global,
    image: &Image,
    machine: &CoreState,
    p: u64,
) -> Result<bool, AllocError>
    requires { IsItsTurn image.now p machine.now }
    ensures { IfOk result (λ pure. pure ≡ true → IsPureAhead image.now p machine.now) }
{
    image.is_runnable();
    tops_are_running();
    let coming = coming_of(alloc, machine, image, p)?;
    Ok(is_pure_operation(coming.operation, &coming.operands))
}
