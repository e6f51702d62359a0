//! The next operation of an activation, where its step is private.
ghost use Rattle.std.specs.Prelude.{◌≡◌, ◌+◌, ◌<◌, ◌^◌, [], drop};
ghost use Rattle.std.specs.Option.{option_map};
ghost use Rattle.hep_code.specs.declared.instruction.Operation.TheVariants as operations;
ghost use Rattle.hep_private.specs.StepRecords as recorded;
ghost use Rattle.hep_private.specs.StepRecords.{made_ahead, made_by, made_of_choice};
ghost use Rattle.hep_private.specs.PrivateSteps.{here_own, made_of_deed};

use crate::loops::{PrivateLoop, end_loop, enter_loop};
use crate::operation_values::value_of;
use crate::record::Record;
use crate::write_log::WriteLog;
use hep_code::operands::operand;
use hep_code::{Evaluation, Instruction, Operation, Variable, instruction};
use hep_source::Value;

/// The place of an activation in its unit's code, its operands and its cells.
#[derive(Clone, Copy)]
pub struct StepContext<'a> {
    pub memory: WriteLog<'a>,
    pub operands: &'a [Value],
    pub index: usize,
}

/// A private step: its record, the index that it leads to, and the value that it pushes, if it pushes one. The value
/// follows the operands that stay, whose number is given with it. A step that pushes none leaves no operands.
#[derive(Clone, Copy)]
pub struct PrivateStep {
    pub note: Record,
    pub index: usize,
    pub given: Option<(usize, Value)>,
}

// The record of a value that was read or computed.
#[inline(always)]
fn note_of(here: &StepContext<'_>, evaluation: Evaluation, value: Value) -> Record
    ensures { result ≡ recorded.note_of (here_own here.now) evaluation value }
{
    let at = here.index;
    match evaluation {
        Evaluation::Load {
            variable: Variable::Local { cell, .. },
            ..
        } => Record::Reads {
            first: here.memory.read(cell as usize).0,
            cell,
            at,
            value,
        },
        _ => Record::Gives { at, value },
    }
}

#[inline(always)]
fn evaluate(here: &StepContext<'_>, evaluation: Evaluation) -> Option<PrivateStep>
    requires { here.now.index + 1 < 2 ^ 64 }
    ensures { option_map (made_of_deed here.now.operands.now) result
        ≡ made_by here.now.memory.private.now (here_own here.now) (operations.Evaluate evaluation) [] }
{
    let kept = here
        .operands
        .len()
        .saturating_sub(evaluation.arity() as usize);
    let value = value_of(&here.memory, evaluation, &here.operands[kept..])?;
    Some(PrivateStep {
        note: note_of(here, evaluation, value),
        index: here.index + 1,
        given: Some((kept, value)),
    })
}

#[inline(always)]
fn store(here: &StepContext<'_>, variable: Variable, next: u32) -> Option<PrivateStep>
    ensures { option_map (made_of_deed here.now.operands.now) result
        ≡ made_by here.now.memory.private.now (here_own here.now) (operations.Store variable 0 next) [] }
{
    let Variable::Local {
        asynchronous: false,
        cell,
    } = variable
    else {
        return None;
    };
    if here.operands.len() > 1 || !here.memory.is_private(cell) {
        return None;
    }
    Some(PrivateStep {
        note: Record::Stores {
            cell,
            at: here.index,
            value: operand(here.operands, 0),
        },
        index: next as usize,
        given: None,
    })
}

// The step that only chooses where the activation goes on.
#[inline(always)]
fn lead(here: &StepContext<'_>, operation: Operation, entries: &[Instruction]) -> PrivateStep
    requires { here.now.index + 1 < 2 ^ 64 }
    ensures { made_of_deed here.now.operands.now result ≡ made_of_choice (here_own here.now) operation entries.now }
{
    PrivateStep {
        note: Record::Goes { at: here.index },
        index: instruction::led_to(entries, here.index, operation, here.operands),
        given: None,
    }
}

#[inline(always)]
fn perform(
    here: &StepContext<'_>,
    operation: Operation,
    entries: &[Instruction],
) -> Option<PrivateStep>
    requires { here.now.index + 1 < 2 ^ 64 }
    ensures { option_map (made_of_deed here.now.operands.now) result
        ≡ made_by here.now.memory.private.now (here_own here.now) operation entries.now }
{
    match operation {
        Operation::Evaluate(evaluation) => evaluate(here, evaluation),
        Operation::Store { variable, next, .. } => store(here, variable, next),
        Operation::EnterLoop {
            variable,
            cells,
            ..
        } => enter_loop(
            here,
            PrivateLoop {
                operation,
                variable,
                cells,
            },
        ),
        Operation::EndLoop {
            variable,
            cells,
            ..
        } => end_loop(
            here,
            PrivateLoop {
                operation,
                variable,
                cells,
            },
        ),
        Operation::Jump { .. }
        | Operation::Choose { .. }
        | Operation::BySign { .. }
        | Operation::Condition { .. }
        | Operation::Branch { .. } => Some(lead(here, operation, entries)),
        // No other operation is private.
        _ => None,
    }
}

/// The private step of the operation at the activation's index. `None` where there is no operation or its step isn't
/// private.
#[inline(always)]
pub fn deed_ahead(here: &StepContext<'_>, code: &[Instruction]) -> Option<PrivateStep>
    ensures { option_map (made_of_deed here.now.operands.now) result
        ≡ made_ahead here.now.memory.private.now (here_own here.now) (drop here.now.index code.now) }
{
    match code.get(here.index) {
        Some(Instruction::Step { operation, .. }) => {
            perform(here, *operation, &code[here.index + 1..])
        }
        _ => None,
    }
}
