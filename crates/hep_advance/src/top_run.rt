//! The top activation of a process, and steps that only move it.
ghost use Rattle.std.specs.Prelude.{◌≡◌, ◌≤◌, true};
ghost use Rattle.hep_proc.specs.Stacks.{IsSameProcess};
ghost use Rattle.hep_advance.specs.SilentRuns.{CanGoTop, GoesTop, IsTabledTop, RestsAtTop};

use hep_fast::{Activation, DecodedImage, FastActivation, move_by_table, rests, step_by_table};
use hep_state::{Frames, Process, place};

/// Makes at most `most` steps of the top activation of a process, each of which only moves it, and returns their
/// number.
pub(crate) fn go_top(
    process: &mut Process,
    frames: &mut Frames,
    tabled: &DecodedImage<'_>,
    most: u64,
) -> u64
    requires { CanGoTop tabled.now process.old frames.old }
    ensures gone { GoesTop tabled.now.image.now process.old frames.old most result process.new frames.new }
    ensures few { result ≤ most }
    ensures nodes { frames.new.nodes ≡ frames.old.nodes }
    ensures holes { frames.new.arena.holes ≡ frames.old.arena.holes }
    ensures same { IsSameProcess process.old process.new }
{
    let (unit, frame, mut index) = place(process, frames, tabled.image);
    let activation = Activation {
        code: unit.code.as_slice(),
        arrays: unit.arrays.as_slice(),
        frame,
    };
    let level = process.top();
    let table = tabled.table(level.unit as usize);
    let fast = FastActivation { activation, table };
    let operands = &mut process.operands;
    let made = move_by_table(&fast, &mut frames.arena, operands, &mut index, most);
    process.stand_at(index);
    made
}

/// Makes one step of the top activation of a process by its table, if that has it and it only moves the activation.
/// Returns the number of steps.
#[inline(always)]
pub(crate) fn step_top(process: &mut Process, frames: &mut Frames, tabled: &DecodedImage<'_>) -> u64
    requires { CanGoTop tabled.now process.old frames.old }
    ensures gone { GoesTop tabled.now.image.now process.old frames.old result result process.new frames.new }
    ensures few { result ≤ 1 }
    ensures nodes { frames.new.nodes ≡ frames.old.nodes }
    ensures holes { frames.new.arena.holes ≡ frames.old.arena.holes }
    ensures same { IsSameProcess process.old process.new }
{
    let (unit, frame, mut index) = place(process, frames, tabled.image);
    let activation = Activation {
        code: unit.code.as_slice(),
        arrays: unit.arrays.as_slice(),
        frame,
    };
    let level = process.top();
    let table = tabled.table(level.unit as usize);
    let fast = FastActivation { activation, table };
    let made = step_by_table(&fast, &mut frames.arena, &mut process.operands, &mut index);
    process.stand_at(index);
    made
}

/// Whether the table has an operation that isn't plain at the index of a process's top activation.
#[inline(always)]
pub(crate) fn top_rests(process: &Process, tabled: &DecodedImage<'_>) -> bool
    requires { IsTabledTop tabled.now process.now }
    ensures { result ≡ true → RestsAtTop tabled.now.image.now process.now }
{
    let level = process.top();
    let table = tabled.table(level.unit as usize);
    rests(table, level.index)
}
