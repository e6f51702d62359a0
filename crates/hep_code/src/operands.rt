//! Operands: the values that stand ahead in the code, and how many an operation takes.
ghost use Rattle.std.specs.Prelude.{◌≡◌, ◌+◌, ◌<◌, ◌≤◌, ◌++◌, ◌∷◌, [], ℕ, drop, length, slice_get, vec_len, vec_capacity};
ghost use Rattle.std.specs.Option.{unwrap_or};
ghost use Rattle.hep_machine.specs.Words.{Name, Redex, Work, no_value};
ghost use Rattle.hep_code.specs.StatementCode as actions;
ghost use Rattle.hep_code.specs.ControlTransfer as moves;
ghost use Rattle.hep_code.specs.Words.{IsPastPushes, values_ahead, AddressedUnit, code_of};
ghost use Rattle.hep_code.specs.CodePosition as standing;

use crate::instruction::{Evaluation, Instruction};
use crate::variable::Variable;
use hep_source::Value;

impl Evaluation {
    /// The number of operands of the operation, which is that of its redex.
    pub fn arity(self) -> u32
        ensures value { result ≡ actions.arity self }
        ensures redex { (variables : Name → Variable) (r : Redex) → self ≡ actions.evaluation_of variables r
            → length (actions.operands_of_redex r) ≡ result }
    {
        match self {
            Evaluation::Load { subscripts, .. } | Evaluation::Test { subscripts, .. } => subscripts,
            Evaluation::Sign(_) | Evaluation::Not => 1,
            Evaluation::Combine(_) => 2,
            Evaluation::Apply { arguments, .. } => arguments,
        }
    }
}

/// The operand at an index, if there is one; no accepted program lacks one.
#[inline(always)]
pub fn operand(operands: &[Value], index: usize) -> Value
    ensures { result ≡ unwrap_or (slice_get operands.now index) no_value }
{
    operands.get(index).copied().unwrap_or(Value::Truth(false))
}

/// The first operand, if there is one; no accepted program lacks one.
pub fn first_operand(operands: &[Value]) -> Value
    ensures { result ≡ moves.first_operand operands.now }
{
    match operands {
        [] => Value::Truth(false),
        [value, ..] => *value,
    }
}

// Appends a value, for which there is room.
fn push_within(operands: &mut Vec<Value>, value: Value)
    requires { vec_len operands.old < vec_capacity operands.old }
    ensures items { operands.new.items ≡ operands.old.items ++ value ∷ [] }
    ensures length { vec_len operands.new ≡ vec_len operands.old + 1 }
    ensures capacity { vec_capacity operands.old ≤ vec_capacity operands.new }
{
    let _ = operands.push(value);
}

/// Pushes the leading constants, which is no step. There is room for them, so that this takes no memory.
pub fn settle(code: &[Instruction], operands: &mut Vec<Value>, index: &mut usize)
    // At the place of an activation in a unit's code, the capacity can be its deepest stack:
    // `laws::operands_have_room`.
    requires room { vec_len operands.old + values_ahead (drop index.old code.now) ≤ vec_capacity operands.old }
    ensures same { standing.left_to_do operands.new.items index.new code.now ≡ standing.left_to_do operands.old.items index.old code.now }
    ensures settled { IsPastPushes code.now index.new }
    ensures stands { (addressed : AddressedUnit) (k : ℕ) (work : Work) → code.now ≡ code_of addressed
        → standing.Stands addressed k work operands.old.items index.old → standing.Stands addressed k work operands.new.items index.new }
    ensures capacity { vec_capacity operands.old ≤ vec_capacity operands.new }
{
    while let Some(Instruction::Push(value)) = code.get(*index) {
        push_within(operands, *value);
        *index += 1;
    }
}
