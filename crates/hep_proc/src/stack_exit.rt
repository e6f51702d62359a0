//! RETURN, END and RESUME: an activation leaves the stack of its process (X3.9-1978, 15.5.2, 15.6.2 and 15.8, and
//! docs/MACHINE.md, "Steps").
ghost use Rattle.std.specs.Prelude.{◌≡◌, ◌<◌, ◌≤◌, ◌++◌, ◌∷◌, [], vec_len, vec_capacity};
ghost use Rattle.hep_proc.specs.Stacks.{HasTop};
ghost use Rattle.hep_proc.specs.StackExit.{CanLeave, LeavesFrames, LeavesStack};

use crate::frames::Frames;
use crate::process::{Local, Process};
use hep_source::Value;

/// Why an activation leaves the stack of its process.
#[derive(Clone, Copy)]
pub enum ExitReason {
    /// RETURN, or the END of a subroutine.
    Returned,
    /// The END of a function, with this value.
    Answered(Value),
    /// RESUME: it goes on as a process of its own, in its frame.
    Resumed,
}

/// Takes the top activation of a process off the stack, and returns its level. Its frame is given back as soon as no
/// activation needs it, unless the activation goes on. The value of a function follows the operands that the
/// activation below kept and now has again.
///
/// There is room for these and the value.
#[inline(always)]
pub fn leave(process: &mut Process, frames: &mut Frames, why: ExitReason) -> Local
    requires some { 0 < vec_len process.old.levels }
    requires out { CanLeave why process.old frames.old }
    ensures level { HasTop process.old result }
    ensures stack { LeavesStack why process.old process.new }
    ensures frames { LeavesFrames why result.key frames.old frames.new }
    ensures number { process.new.number ≡ process.old.number }
    ensures fewer { process.old.levels.items ≡ process.new.levels.items ++ result ∷ [] }
    ensures capacity { vec_capacity process.old.operands ≤ vec_capacity process.new.operands }
{
    let level = process.end_top();
    match why {
        ExitReason::Returned => frames.leave(level.key),
        ExitReason::Answered(value) => {
            frames.leave(level.key);
            process.take_value(value);
        }
        ExitReason::Resumed => {}
    }
    level
}
