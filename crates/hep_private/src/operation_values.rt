//! The values of operations, where they are private.
ghost use Rattle.std.specs.Prelude.{◌≡◌};
ghost use Rattle.hep_private.specs.StepRecords as recorded;
ghost use Rattle.hep_private.specs.Stores.{values_now};

use crate::write_log::WriteLog;
use hep_code::operands::operand;
use hep_code::{Evaluation, Variable};
use hep_machine::intrinsics::function_value;
use hep_machine::values::{combined_value, negated_value, signed_value};
use hep_source::Value;

/// The value of an operation with these operands, if its step is private.
#[inline(always)]
pub fn value_of(memory: &WriteLog<'_>, evaluation: Evaluation, operands: &[Value]) -> Option<Value>
    ensures { result ≡ recorded.value_of memory.now.private.now (values_now memory.now) evaluation operands.now }
{
    match evaluation {
        Evaluation::Load {
            variable: Variable::Local {
                asynchronous: false,
                cell,
            },
            ..
        } => {
            if operands.is_empty() && memory.is_private(cell) {
                memory.read(cell as usize).1
            } else {
                None
            }
        }
        Evaluation::Load { .. } | Evaluation::Test { .. } => None,
        Evaluation::Sign(sign) => signed_value(sign, operand(operands, 0)).ok(),
        Evaluation::Not => Some(negated_value(operand(operands, 0))),
        Evaluation::Combine(operator) => {
            combined_value(operator, operand(operands, 0), operand(operands, 1)).ok()
        }
        Evaluation::Apply { function, .. } => function_value(function, operands).ok(),
    }
}
