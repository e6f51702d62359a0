//! Steps of an activation that only move it, each counted by the statement that it begins.
ghost use Rattle.std.specs.Prelude.{◌≡◌, ◌≤◌, ℕ, length, vec_capacity};
ghost use Rattle.hep_step.specs.PerformedSteps.{Snapshot, snapshot};
ghost use Rattle.hep_step.specs.SilentSteps.{CanGoOn, Goes};
ghost use Rattle.hep_fast.specs.Interpreter.{IsTabled};
ghost use Rattle.hep_cover.specs.StartMarks.{marks};
ghost use Rattle.hep_cover.specs.CountedRuns.{HasTallied};

use crate::line_counts::count;
use crate::statement_starts::mark_at;
use hep_advance::step_once;
use hep_arena::Arena;
use hep_fast::FastActivation;
use hep_source::Value;

/// A number of steps of an activation, with its table and the marks of its code.
#[derive(Clone, Copy)]
pub(crate) struct CountedRun<'a> {
    pub fast: FastActivation<'a>,
    pub operations: &'a [usize],
    pub lines: &'a [Option<u32>],
    pub most: u64,
}

/// Makes the steps of a walk, and returns their number. There are fewer than asked for only where the next operation
/// isn't plain, or doesn't move the activation. Each is counted by the statement that it begins.
pub(crate) fn walk_on(
    walk: &CountedRun<'_>,
    arena: &mut Arena,
    operands: &mut Vec<Value>,
    index: &mut usize,
    counts: &mut Vec<Option<u64>>,
) -> u64
    requires tabled { IsTabled walk.now.fast (length arena.old.contents) }
    requires ready { (n : ℕ) (t : Snapshot)
        → Goes walk.now.fast.activation.code.now walk.now.fast.activation.arrays.now walk.now.fast.activation.frame.first
        (snapshot arena.old.contents operands.old.items index.old) n t
        → CanGoOn walk.now.fast.activation.code.now walk.now.fast.activation.arrays.now arena.old.holes walk.now.fast.activation.frame (vec_capacity operands.old) t }
    requires marks { walk.now.lines.now ≡ marks walk.now.operations.now walk.now.fast.activation.code.now }
    ensures tallied { HasTallied walk.now.operations.now walk.now.fast.activation.code.now walk.now.fast.activation.arrays.now walk.now.fast.activation.frame.first
        (snapshot arena.old.contents operands.old.items index.old) counts.old.items walk.now.most result
        (snapshot arena.new.contents operands.new.items index.new) counts.new.items }
    ensures holes { arena.new.holes ≡ arena.old.holes }
    ensures capacity { vec_capacity operands.old ≤ vec_capacity operands.new }
{
    let mut done = 0;
    while done < walk.most {
        let before = *index;
        let made = step_once(&walk.fast, arena, operands, index);
        if made == 0 {
            return done;
        }
        count(counts, mark_at(walk.lines, before));
        done += 1;
    }
    done
}
