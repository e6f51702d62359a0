//! Steps of a process's top activation that only move it, up to a breakpoint.
ghost use Rattle.std.specs.Prelude.{◌≡◌, ◌≤◌};
ghost use Rattle.hep_proc.specs.Stacks.{IsSameProcess};
ghost use Rattle.hep_advance.specs.SilentRuns.{CanGoTop};
ghost use Rattle.hep_advance.specs.RunsToBreakpoints.{PassesTop};

use crate::bounded_run::{BoundedRun, walk_on};
use crate::breakpoints::{Breakpoints, row_of};
use hep_fast::{Activation, DecodedImage, FastActivation};
use hep_state::{Frames, Process, place};

/// Makes at most `most` steps of the top activation of a process, each of which begins where nothing is watched and
/// only moves it, and returns their number.
pub(crate) fn pass_top(
    process: &mut Process,
    frames: &mut Frames,
    tabled: &DecodedImage<'_>,
    watches: &[Breakpoints],
    most: u64,
) -> u64
    requires { CanGoTop tabled.now process.old frames.old }
    ensures passed { PassesTop tabled.now.image.now watches.now process.old frames.old most result process.new frames.new }
    ensures few { result ≤ most }
    ensures nodes { frames.new.nodes ≡ frames.old.nodes }
    ensures holes { frames.new.arena.holes ≡ frames.old.arena.holes }
    ensures same { IsSameProcess process.old process.new }
{
    let (unit, frame, mut index) = place(process, frames, tabled.image);
    let activation = Activation {
        code: unit.code.as_slice(),
        arrays: unit.arrays.as_slice(),
        frame,
    };
    let level = process.top();
    let table = tabled.table(level.unit as usize);
    let watched = row_of(watches, level.unit as usize);
    let walk = BoundedRun {
        fast: FastActivation { activation, table },
        watched,
        most,
    };
    let operands = &mut process.operands;
    let made = walk_on(&walk, &mut frames.arena, operands, &mut index);
    process.stand_at(index);
    made
}
