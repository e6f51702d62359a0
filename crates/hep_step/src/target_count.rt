//! The greatest number of targets of a PURGE.
ghost use Rattle.std.specs.Prelude.{◌≡◌, Some};
ghost use Rattle.hep_step.specs.TargetCount as room;
ghost use Rattle.hep_step.specs.TargetCount.{targets_in};

use hep_code::{Instruction, Operation};

// The number of targets of an instruction, where it is a PURGE, and 0 otherwise.
fn targets_of(instruction: &Instruction) -> usize
    ensures { result ≡ targets_in (Some instruction.now) }
{
    match instruction {
        Instruction::Step {
            operation: Operation::Purge { count, .. },
            ..
        } => *count as usize,
        _ => 0,
    }
}

/// The greatest number of targets of a PURGE in the code: 0 where there is none.
///
/// It goes through the code once.
pub fn most_targets(code: &[Instruction]) -> usize
    ensures { result ≡ room.most_targets code.now }
{
    let mut most = 0;
    for instruction in code {
        most = most.max(targets_of(instruction));
    }
    most
}
