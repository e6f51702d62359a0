//! The code after the next operation of a process, and its leading constants.
ghost use Rattle.hep_proc.specs.Stacks.{IsSameProcess};
ghost use Rattle.hep_state.specs.Words.{CanSettle, HasBehind, IsInCode, Settles};

use crate::top_place::place;
use hep_code::Instruction;
use hep_code::operands::settle;
use hep_proc::{Frames, Process};
use hep_step::{Array, Frame, Image};

// The code after the next operation of a process, its unit's arrays, and its frame in the arena.
pub(crate) fn behind<'a>(
    process: &Process,
    frames: &Frames,
    image: &'a Image,
) -> (&'a [Instruction], &'a [Array], Frame)
    requires { IsInCode image.now frames.now process.now }
    ensures { HasBehind image.now frames.now process.now result.0.now result.1.now result.2 }
{
    let (unit, frame, index) = place(process, frames, image);
    let entries = &unit.code.as_slice()[index + 1..];
    (entries, unit.arrays.as_slice(), frame)
}

// Pushes the leading constants of the top activation of a process, in its unit's code. There is room for them.
pub(crate) fn settle_top(process: &mut Process, code: &[Instruction])
    requires { CanSettle process.old code.now }
    ensures settled { Settles process.old code.now process.new }
    ensures same { IsSameProcess process.old process.new }
{
    let mut index = process.top().index;
    settle(code, &mut process.operands, &mut index);
    process.stand_at(index);
}
