//! Operations that only choose the next index (X3.9-1978, 11.1 to 11.11).
ghost use Rattle.std.specs.Prelude.{◌≡◌, ◌+◌, ◌<◌, ◌≤◌, ◌^◌, [], vec_capacity};
ghost use Rattle.hep_code.specs.ControlTransfer as moves;

use crate::activation_state::ActivationState;
use hep_code::{Instruction, Operation, instruction};

/// The activation goes on at an index, with no operands.
pub(crate) fn go_on(standing: &mut ActivationState, next: usize)
    ensures operands { standing.new.operands.items ≡ [] }
    ensures index { standing.new.index ≡ next }
    ensures capacity { vec_capacity standing.old.operands ≤ vec_capacity standing.new.operands }
{
    standing.operands.clear();
    standing.index = next;
}

/// The activation goes on, with no operands, at the index that the operation chooses.
pub(crate) fn jump(entries: &[Instruction], operation: Operation, standing: &mut ActivationState)
    requires { standing.old.index + 1 < 2 ^ 64 }
    ensures operands { standing.new.operands.items ≡ [] }
    ensures index { standing.new.index ≡ moves.led_to operation entries.now standing.old.operands.items standing.old.index }
    ensures capacity { vec_capacity standing.old.operands ≤ vec_capacity standing.new.operands }
{
    let next = instruction::led_to(entries, standing.index, operation, &standing.operands);
    go_on(standing, next);
}
