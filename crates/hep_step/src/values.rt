//! Operations that give values, and that store them (X3.9-1978, sections 6 and 10).
ghost use Rattle.std.specs.Prelude.{◌≡◌, ◌+◌, ◌<◌, ◌≤◌, ◌^◌, ◌++◌, ◌∷◌, [], length, take, vec_len, vec_capacity};
ghost use Rattle.hep_code.specs.declared.instruction.Operation.TheVariants.{Store};
ghost use Rattle.hep_code.specs.Words.{first_operand};
ghost use Rattle.hep_step.specs.Cells.{HasFrame};
ghost use Rattle.hep_image.specs.Addressing.{address_of, cells_in};
ghost use Rattle.hep_step.specs.Effects.{effect_of, effect_of_evaluation, subscripts_in, value_found, changed_by, changed_by_evaluation};
ghost use Rattle.hep_step.specs.PerformedSteps.{IsPerformed, KeepsHoles, seen};
ghost use Rattle.hep_step.specs.StepReady.{IsEvaluationReady, IsVariableReady};

use crate::activation_state::ActivationState;
use crate::addresses::address;
use crate::cell_access::granted;
use crate::effect::Effect;
use crate::reply::{reply_of, reply_to_store};
use crate::storage::Storage;
use hep_arena::Arena;
use hep_code::{Evaluation, Variable};
use hep_machine::Kind;
use hep_source::Value;

// Keeps the first `kept` operands and pushes a value after them, for which there is room.
fn replace(operands: &mut Vec<Value>, kept: usize, value: Value)
    requires kept { kept ≤ vec_len operands.old }
    requires room { kept < vec_capacity operands.old }
    ensures items { operands.new.items ≡ take kept operands.old.items ++ value ∷ [] }
    ensures capacity { vec_capacity operands.old ≤ vec_capacity operands.new }
{
    operands.truncate(kept);
    let _ = operands.push(value);
}

/// Makes an operation that gives a value. The value replaces its operands.
#[inline(always)]
pub(crate) fn evaluate(
    storage: &Storage<'_>,
    arena: &mut Arena,
    line: u32,
    evaluation: Evaluation,
    standing: &mut ActivationState,
) -> Effect
    requires frame { HasFrame arena.old storage.now.frame }
    requires ready { IsEvaluationReady arena.old storage.now.arrays.now storage.now.frame
        (vec_capacity standing.old.operands) standing.old.operands.items evaluation }
    requires index { standing.old.index + 1 < 2 ^ 64 }
    // The rest of the code doesn't matter.
    ensures performed { IsPerformed (effect_of_evaluation [] storage.now.arrays.now storage.now.frame.first line evaluation
        arena.old.contents standing.old.operands.items standing.old.index)
        (changed_by_evaluation storage.now.arrays.now storage.now.frame.first evaluation arena.old.contents standing.old.operands.items)
        (seen arena.old standing.old) result (seen arena.new standing.new) }
    ensures arena { KeepsHoles arena.old arena.new }
    ensures capacity { vec_capacity standing.old.operands ≤ vec_capacity standing.new.operands }
{
    let kept = standing
        .operands
        .len()
        .saturating_sub(evaluation.arity() as usize);
    let Storage { arrays, frame } = *storage;
    let reply = reply_of(arena, frame, arrays, evaluation, &standing.operands[kept..]);
    match granted(arena, line, reply) {
        Ok((value, changed)) => {
            replace(&mut standing.operands, kept, value);
            standing.index += 1;
            Effect::Moved { changed }
        }
        Err(effect) => effect,
    }
}

// The value to be stored, and the subscripts of the element that gets it.
fn value_and_subscripts(operands: &[Value]) -> (Value, &[Value])
    ensures value { result.0 ≡ first_operand operands.now }
    ensures subscripts { result.1.now ≡ subscripts_in operands.now }
{
    match operands {
        [] => (Value::Truth(false), &[]),
        [value, subscripts @ ..] => (*value, subscripts),
    }
}

/// The variable of an assignment, and the index at which the activation goes on.
#[derive(Clone, Copy)]
pub(crate) struct StoreTarget {
    pub(crate) variable: Variable,
    pub(crate) next: u32,
}

/// Makes an assignment: its value is in the cell, and the activation goes on at the index given (10.1 and 10.2).
#[inline(always)]
pub(crate) fn store(
    storage: &Storage<'_>,
    arena: &mut Arena,
    line: u32,
    storing: StoreTarget,
    standing: &mut ActivationState,
) -> Effect
    requires frame { HasFrame arena.old storage.now.frame }
    requires ready { IsVariableReady arena.old storage.now.arrays.now storage.now.frame
        (subscripts_in standing.old.operands.items) storing.variable }
    ensures performed { IsPerformed (effect_of [] storage.now.arrays.now storage.now.frame.first line
        (Store storing.variable 0 storing.next) [] arena.old.contents standing.old.operands.items standing.old.index)
        (changed_by storage.now.arrays.now storage.now.frame.first (Store storing.variable 0 storing.next)
        arena.old.contents standing.old.operands.items)
        (seen arena.old standing.old) result (seen arena.new standing.new) }
    ensures arena { KeepsHoles arena.old arena.new }
    ensures capacity { vec_capacity standing.old.operands ≤ vec_capacity standing.new.operands }
{
    let (value, subscripts) = value_and_subscripts(&standing.operands);
    let reply = reply_to_store(arena, storage, storing.variable, value, subscripts);
    match granted(arena, line, reply) {
        Ok((_, changed)) => {
            standing.operands.clear();
            standing.index = storing.next as usize;
            Effect::Moved { changed }
        }
        Err(effect) => effect,
    }
}

/// The value of a variable, which is that of a function when it ends (15.5.3).
#[inline(always)]
pub(crate) fn value_in(
    storage: &Storage<'_>,
    arena: &Arena,
    variable: Variable,
) -> Result<Value, Kind>
    requires frame { HasFrame arena.now storage.now.frame }
    requires ready { IsVariableReady arena.now storage.now.arrays.now storage.now.frame [] variable }
    ensures { result ≡ value_found arena.now.contents
        (address_of (cells_in arena.now.contents) storage.now.frame.first storage.now.arrays.now variable []) }
{
    let Storage { arrays, frame } = *storage;
    let at = address(arena, frame, arrays, variable, &[])?;
    match arena.get(at).value {
        Some(value) => Ok(value),
        None => Err(Kind::Undefined),
    }
}
