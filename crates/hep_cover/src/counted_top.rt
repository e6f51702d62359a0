//! Steps of a process's top activation that only move it, and are counted.
ghost use Rattle.std.specs.Prelude.{◌≡◌, ◌≤◌};
ghost use Rattle.hep_proc.specs.Stacks.{IsSameProcess};
ghost use Rattle.hep_advance.specs.SilentRuns.{CanGoTop};
ghost use Rattle.hep_cover.specs.StartMarks.{AreMarks};
ghost use Rattle.hep_cover.specs.CountedRuns.{TalliesTop};

use crate::counted_run::{CountedRun, walk_on};
use crate::statement_starts::{MarkedImage, lines_of};
use hep_fast::FastActivation;
use hep_proc::{Frames, Process};
use hep_step::Activation;
use hep_views::state_place as place;

/// Makes at most `most` steps of the top activation of a process, each of which only moves it and is counted, and
/// returns their number.
pub(crate) fn count_top(
    process: &mut Process,
    frames: &mut Frames,
    marked: &MarkedImage<'_>,
    counts: &mut Vec<Option<u64>>,
    most: u64,
) -> u64
    requires can { CanGoTop marked.now.tabled process.old frames.old }
    requires marks { AreMarks marked.now.tabled.image.now marked.now.operations.now marked.now.marks.now }
    ensures tallied { TalliesTop marked.now.tabled.image.now marked.now.operations.now process.old frames.old counts.old.items most result process.new frames.new counts.new.items }
    ensures few { result ≤ most }
    ensures nodes { frames.new.nodes ≡ frames.old.nodes }
    ensures holes { frames.new.arena.holes ≡ frames.old.arena.holes }
    ensures same { IsSameProcess process.old process.new }
{
    let (unit, frame, mut index) = place(process, frames, marked.tabled.image);
    let activation = Activation {
        code: unit.code.as_slice(),
        arrays: unit.arrays.as_slice(),
        frame,
    };
    let level = process.top();
    let table = marked.tabled.table(level.unit as usize);
    let lines = lines_of(marked.marks, level.unit as usize);
    let walk = CountedRun {
        fast: FastActivation { activation, table },
        operations: marked.operations,
        lines,
        most,
    };
    let operands = &mut process.operands;
    let made = walk_on(&walk, &mut frames.arena, operands, &mut index, counts);
    process.stand_at(index);
    made
}
