//! Steps of an activation in a row, none of which matters to waiting processes.
ghost use Rattle.std.specs.Prelude.{◌≡◌, ◌≤◌, ◌<◌, ◌+◌, ℕ, drop, length, vec_len, vec_capacity};
ghost use Rattle.hep_code.specs.Words.{values_ahead};
ghost use Rattle.hep_step.specs.PerformedSteps.{KeepsHoles, Snapshot, seen};
ghost use Rattle.hep_step.specs.StepReady.{IsReady};
ghost use Rattle.hep_step.specs.SilentSteps.{CanGoOn, Goes, HasGoneOnce, HasNoMove, IsSettledTo, is_moved};

use crate::activation_state::ActivationState;
use crate::effect::Effect;
use crate::frame::Frame;
use crate::performing::{is_plain, perform};
use crate::storage::Storage;
use hep_arena::Arena;
use hep_code::Instruction;
use hep_code::operands::settle;
use hep_image::Array;
use std::alloc::{AllocError, Global};

/// What doesn't change while an activation runs: its unit's code and arrays, and its frame in the arena.
#[derive(Clone, Copy)]
pub struct Activation<'a> {
    pub code: &'a [Instruction],
    pub arrays: &'a [Array],
    pub frame: Frame,
}

// Whether an operation was performed that only moves the activation.
fn moved(performed: Result<Effect, AllocError>) -> bool
    ensures { result ≡ is_moved performed }
{
    match performed {
        Ok(Effect::Moved { .. }) => true,
        _ => false,
    }
}

// Makes a step, if the next operation is plain and moves the activation, and returns whether it did. If not, the
// leading constants are pushed, and nothing else has changed.
fn step(
    alloc: Global,
    activation: &Activation<'_>,
    arena: &mut Arena,
    standing: &mut ActivationState,
) -> bool
    requires room { vec_len standing.old.operands + values_ahead (drop standing.old.index activation.now.code.now) ≤ vec_capacity standing.old.operands }
    requires ready { (t : Snapshot) (room : ℕ)
        → IsSettledTo activation.now.code.now (seen arena.old standing.old) t → vec_capacity standing.old.operands ≤ room
        → IsReady activation.now.code.now activation.now.arrays.now arena.old activation.now.frame t.operands room t.index }
    ensures stepped { HasGoneOnce activation.now.code.now activation.now.arrays.now activation.now.frame.first
        (seen arena.old standing.old) result
        (seen arena.new standing.new) }
    ensures arena { KeepsHoles arena.old arena.new }
    ensures capacity { vec_capacity standing.old.operands ≤ vec_capacity standing.new.operands }
{
    let Activation {
        code,
        arrays,
        frame,
    } = *activation;
    settle(code, &mut standing.operands, &mut standing.index);
    if !is_plain(code, standing.index) {
        return false;
    }
    let storage = Storage { arrays, frame };
    let performed = perform(alloc, code, &storage, arena, standing);
    moved(performed)
}

/// Makes at most `most` steps of an activation, each of a plain operation that moves it, and returns their number.
/// The leading constants after the last step are pushed.
///
/// It makes fewer only where the next operation isn't plain, or doesn't move the activation, such as a division by
/// zero.
pub fn move_on(
    alloc: Global,
    activation: &Activation<'_>,
    arena: &mut Arena,
    standing: &mut ActivationState,
    most: u64,
) -> u64
    // A running activation can go on wherever its steps lead.
    requires ready { (n : ℕ) (t : Snapshot)
        → Goes activation.now.code.now activation.now.arrays.now activation.now.frame.first
        (seen arena.old standing.old) n t
        → CanGoOn activation.now.code.now activation.now.arrays.now arena.old.holes activation.now.frame (vec_capacity standing.old.operands) t }
    ensures gone { Goes activation.now.code.now activation.now.arrays.now activation.now.frame.first
        (seen arena.old standing.old) result
        (seen arena.new standing.new) }
    ensures few { result ≤ most }
    ensures all { result < most → HasNoMove activation.now.code.now activation.now.arrays.now activation.now.frame.first
        (seen arena.new standing.new) }
    ensures holes { arena.new.holes ≡ arena.old.holes }
    ensures capacity { vec_capacity standing.old.operands ≤ vec_capacity standing.new.operands }
{
    for done in 0..most {
        if !step(alloc, activation, arena, standing) {
            return done;
        }
    }
    most
}
