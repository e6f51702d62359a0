//! The place of the top activation of a process in the arena and in the code, and its next operation
//! (docs/MACHINE.md, "Steps").
ghost use Rattle.std.specs.Prelude.{◌≡◌, length};
ghost use Rattle.hep_proc.specs.Stacks.{IsSameProcess};
ghost use Rattle.hep_state.specs.TopPlace.{AdvancesTop, CanAdvanceTop, HasPlace, IsPlaced};

use hep_proc::{Frames, Local, Process};
use hep_step::{ActivationState, Effect, Frame, Image, Storage, UnitCode, perform};
use std::alloc::{AllocError, Global};
use std::mem::replace;

/// The place of the top activation of a process: its unit, its frame in the arena, and its index in the unit's code.
#[inline(always)]
pub fn place<'a>(
    process: &Process,
    frames: &Frames,
    image: &'a Image,
) -> (&'a UnitCode, Frame, usize)
    requires { IsPlaced image.now frames.now process.now }
    ensures { HasPlace image.now frames.now process.now result.0.now result.1 result.2 }
{
    let Local {
        key,
        unit,
        index,
        ..
    } = process.top();
    let frame = Frame {
        first: frames.first(key),
        cells: frames.cells(key),
    };
    (image.unit(unit as usize), frame, index)
}

/// Performs the next operation of a process, which has no leading constants.
///
/// # Errors
///
/// Only where memory was refused for a record; nothing is changed then.
#[inline(always)]
pub fn advance(
    alloc: Global,
    process: &mut Process,
    frames: &mut Frames,
    image: &Image,
) -> Result<Effect, AllocError>
    requires { CanAdvanceTop image.now process.old frames.old }
    ensures advanced { AdvancesTop image.now process.old frames.old result process.new frames.new }
    ensures nodes { frames.new.nodes ≡ frames.old.nodes }
    ensures holes { frames.new.arena.holes ≡ frames.old.arena.holes }
    ensures cells { length frames.new.arena.contents ≡ length frames.old.arena.contents }
    ensures same { IsSameProcess process.old process.new }
{
    let (unit, frame, index) = place(process, frames, image);
    let code = unit.code.as_slice();
    let arrays = unit.arrays.as_slice();
    let storage = Storage { arrays, frame };
    let operands = replace(&mut process.operands, Vec::new(alloc));
    let mut standing = ActivationState { operands, index };
    let performed = perform(alloc, code, &storage, &mut frames.arena, &mut standing);
    let ActivationState { operands, index } = standing;
    process.operands = operands;
    process.stand_at(index);
    performed
}
