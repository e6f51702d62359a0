//! The next operation of an activation, whether it is plain, and what the actual arguments of a CALL, a CREATE or a
//! reference give (X3.9-1978, 15.9.3). A plain operation fills and empties no cell, and begins and ends no activation.
ghost use Rattle.std.specs.Prelude.{◌≡◌, ◌<◌, ◌≤◌, ◌∷◌, Ok, Err, IfOk, IfErr, OnErr, MatchOption, drop, length, vec_capacity};
ghost use Rattle.hep_code.specs.declared.instruction.Instruction.TheVariants.{Step};
ghost use Rattle.hep_step.specs.ArgumentList.{AreAllPassable, made_of_all};
ghost use Rattle.hep_step.specs.ArgumentPassing.{given_for};
ghost use Rattle.hep_step.specs.Cells.{HasFrame};
ghost use Rattle.hep_step.specs.Effects as effects;
ghost use Rattle.hep_step.specs.Effects.{changed_at, effect_at};
ghost use Rattle.hep_step.specs.PerformedSteps.{HasNoStep, HasPrint, IsPerformed, KeepsHoles, seen};
ghost use Rattle.hep_step.specs.StepReady.{IsReady};

use crate::activation_state::ActivationState;
use crate::argument_list::{ArgumentList, FromArgument, make_from_entries};
use crate::by_reference::passed;
use crate::control_transfer::jump;
use crate::dummy_storage::DummyStorage;
use crate::effect::Effect;
use crate::frame::Frame;
use crate::loops::{Loop, end_loop, enter_loop};
use crate::passed_argument::PassedArgument;
use crate::printing::print;
use crate::storage::Storage;
use crate::values::{StoreTarget, evaluate, store, value_in};
use hep_arena::Arena;
use hep_code::{Evaluation, Instruction, Operation};
use hep_image::Array;
use hep_machine::Kind;
use std::alloc::{AllocError, Global};

fn is_plain_evaluation(evaluation: Evaluation) -> bool
    ensures { result ≡ effects.is_plain_evaluation evaluation }
{
    match evaluation {
        Evaluation::Load { variable, .. } => !variable.is_asynchronous(),
        Evaluation::Test { .. } => false,
        Evaluation::Sign(_) | Evaluation::Not | Evaluation::Combine(_) | Evaluation::Apply { .. } =>
            true,
    }
}

/// Whether an operation is plain: it reads no variable with `$` and assigns to none, tests no cell, prints nothing,
/// and begins and ends no activation.
pub fn is_plain_operation(operation: Operation) -> bool
    ensures { result ≡ effects.is_plain_operation operation }
{
    match operation {
        Operation::Evaluate(evaluation) => is_plain_evaluation(evaluation),
        Operation::Store { variable, .. } => !variable.is_asynchronous(),
        Operation::Print { .. }
        | Operation::Return
        | Operation::Answer { .. }
        | Operation::Stop
        | Operation::Call { .. }
        | Operation::Create { .. }
        | Operation::Refer { .. }
        | Operation::Purge { .. }
        | Operation::Resume { .. } => false,
        Operation::Jump { .. }
        | Operation::Choose { .. }
        | Operation::BySign { .. }
        | Operation::Condition { .. }
        | Operation::Branch { .. }
        | Operation::EnterLoop { .. }
        | Operation::EndLoop { .. } => true,
    }
}

/// Whether a plain operation is at an index of the code.
pub(crate) fn is_plain(code: &[Instruction], index: usize) -> bool
    ensures { result ≡ effects.is_plain (drop index code.now) }
{
    match code.get(index) {
        Some(Instruction::Step { operation, .. }) => is_plain_operation(*operation),
        _ => false,
    }
}

// An operation, with the initial line of its statement and the instructions after it.
#[derive(Clone, Copy)]
struct CurrentOperation<'a> {
    line: u32,
    operation: Operation,
    entries: &'a [Instruction],
}

// The operation at an index, if there is one.
fn operation_at(code: &[Instruction], index: usize) -> Option<CurrentOperation<'_>>
    ensures ahead { MatchOption result (HasNoStep (drop index code.now)) (λ ahead. drop index code.now
        ≡ Step ahead.line ahead.operation ∷ ahead.entries.now) }
    ensures within { MatchOption result (index ≡ index) (λ _. index < length code.now) }
{
    match code.get(index) {
        Some(Instruction::Step { line, operation }) => Some(CurrentOperation {
            line: *line,
            operation: *operation,
            entries: &code[index + 1..],
        }),
        _ => None,
    }
}

/// Makes the operation at an index of the code, with these operands. `specs/Effects` says what it does to the arena
/// and the operands, which index it leads to, and which cell it fills or empties. It takes memory only for a record.
///
/// # Errors
///
/// Only where memory was refused for the record of a PRINT; nothing has changed then.
#[inline(always)]
pub fn perform(
    alloc: Global,
    code: &[Instruction],
    storage: &Storage<'_>,
    arena: &mut Arena,
    standing: &mut ActivationState,
) -> Result<Effect, AllocError>
    // In a running activation the capacity can be its unit's deepest stack: `laws::activations_are_ready`.
    requires ready { IsReady code.now storage.now.arrays.now arena.old storage.now.frame standing.old.operands.items
        (vec_capacity standing.old.operands) standing.old.index }
    ensures performed { IfOk result (λ effect. IsPerformed
        (effect_at code.now storage.now.arrays.now storage.now.frame.first arena.old.contents standing.old.operands.items standing.old.index)
        (changed_at code.now storage.now.arrays.now storage.now.frame.first arena.old.contents standing.old.operands.items standing.old.index)
        (seen arena.old standing.old) effect (seen arena.new standing.new)) }
    ensures refused { OnErr result (seen arena.new standing.new ≡ seen arena.old standing.old) }
    ensures memory { OnErr result (HasPrint (drop standing.old.index code.now)) }
    ensures arena { KeepsHoles arena.old arena.new }
    ensures capacity { vec_capacity standing.old.operands ≤ vec_capacity standing.new.operands }
{
    let Some(
        CurrentOperation {
            line,
            operation,
            entries,
        },
    ) = operation_at(code, standing.index)
    else {
        return Ok(Effect::LeftOut);
    };
    match operation {
        Operation::Evaluate(evaluation) => {
            Ok(evaluate(storage, arena, line, evaluation, standing))
        }
        Operation::Store { variable, next, .. } => {
            let storing = StoreTarget { variable, next };
            Ok(store(storage, arena, line, storing, standing))
        }
        Operation::EnterLoop {
            variable,
            cells,
            ..
        } => {
            let entered = Loop {
                variable,
                cells,
                operation,
            };
            Ok(enter_loop(storage, arena, line, entered, standing))
        }
        Operation::EndLoop {
            variable,
            cells,
            ..
        } => {
            let ended = Loop {
                variable,
                cells,
                operation,
            };
            Ok(end_loop(storage, arena, line, ended, standing))
        }
        Operation::Print { count, next } => print(alloc, count, next, entries, standing),
        Operation::Return => Ok(Effect::Returned),
        Operation::Answer { variable } => match value_in(storage, arena, variable) {
            Ok(value) => Ok(Effect::Answered(value)),
            Err(kind) => Ok(Effect::Failed { line, kind }),
        },
        Operation::Stop => Ok(Effect::Stopped),
        Operation::Call { .. }
        | Operation::Create { .. }
        | Operation::Refer { .. }
        | Operation::Purge { .. }
        | Operation::Resume { .. } => Ok(Effect::LeftOut),
        Operation::Jump { .. }
        | Operation::Choose { .. }
        | Operation::BySign { .. }
        | Operation::Condition { .. }
        | Operation::Branch { .. } => {
            jump(entries, operation, standing);
            Ok(Effect::Moved { changed: None })
        }
    }
}

impl FromArgument for DummyStorage {
    ghost made_for = { given_for };

    fn from_passed(
        given: PassedArgument<'_>,
        arrays: &[Array],
        arena: &Arena,
        frame: Frame,
    ) -> Result<DummyStorage, Kind> {
        match given {
            PassedArgument::ByValue(value) => Ok(DummyStorage::Value(value)),
            PassedArgument::ByReference {
                variable,
                subscripts,
            } => passed(arrays, arena, frame, variable, subscripts),
        }
    }
}

/// Computes what all passed actual arguments give, from left to right, and overwrites `given` with it. There is room
/// for it, so that this takes no memory.
///
/// # Errors
///
/// `Range` where one of them is no element, or a scalar with subscripts (X3.9-1978, 15.9.3).
pub fn give_actuals(all: &ArgumentList<'_>, given: &mut Vec<DummyStorage>) -> Result<(), Kind>
    requires frame { HasFrame all.now.arena.now all.now.frame }
    // An activation that calls satisfies it: `laws::callers_can_pass`.
    requires passable { AreAllPassable all.now }
    requires room { all.now.count ≤ vec_capacity given.old }
    ensures given { IfOk result (λ _. made_of_all given_for all.now ≡ Ok given.new.items) }
    ensures fault { IfErr result (λ kind. made_of_all given_for all.now ≡ Err kind) }
    ensures capacity { vec_capacity given.old ≤ vec_capacity given.new }
{
    make_from_entries(all, given)
}
