//! Steps of an activation that only move it, one by one, up to a breakpoint.
ghost use Rattle.std.specs.Prelude.{◌≡◌, ◌≤◌, ℕ, length, vec_capacity};
ghost use Rattle.hep_step.specs.PerformedSteps.{Snapshot, snapshot};
ghost use Rattle.hep_step.specs.SilentSteps.{CanGoOn, Goes};
ghost use Rattle.hep_fast.specs.Interpreter.{HasMovedOn, IsTabled};
ghost use Rattle.hep_advance.specs.RunsToBreakpoints.{HasPassed};

use crate::breakpoints::watched_at;
use hep_arena::Arena;
use hep_fast::{FastActivation, move_by_table, step_by_table};
use hep_source::Value;

/// A number of steps of an activation, with its table and the breakpoints of its code.
#[derive(Clone, Copy)]
pub(crate) struct BoundedRun<'a> {
    pub fast: FastActivation<'a>,
    pub watched: &'a [bool],
    pub most: u64,
}

/// Makes one step of an activation that only moves it, or none: by its table where that has it. It makes none only
/// where the next operation isn't plain, or doesn't move the activation.
#[inline(always)]
pub fn step_once(
    fast: &FastActivation<'_>,
    arena: &mut Arena,
    operands: &mut Vec<Value>,
    index: &mut usize,
) -> u64
    requires tabled { IsTabled fast.now (length arena.old.contents) }
    requires ready { (n : ℕ) (t : Snapshot)
        → Goes fast.now.activation.code.now fast.now.activation.arrays.now fast.now.activation.frame.first
        (snapshot arena.old.contents operands.old.items index.old) n t
        → CanGoOn fast.now.activation.code.now fast.now.activation.arrays.now arena.old.holes fast.now.activation.frame (vec_capacity operands.old) t }
    ensures moved { HasMovedOn fast.now.activation (snapshot arena.old.contents operands.old.items index.old) 1 result
        (snapshot arena.new.contents operands.new.items index.new) }
    ensures holes { arena.new.holes ≡ arena.old.holes }
    ensures capacity { vec_capacity operands.old ≤ vec_capacity operands.new }
{
    let made = step_by_table(fast, arena, operands, index);
    if made == 1 {
        return made;
    }
    move_by_table(fast, arena, operands, index, 1)
}

/// Makes the steps of a walk, and returns their number. There are fewer than asked for only where the activation is
/// at an index that is watched, or where the next operation isn't plain or doesn't move it.
pub(crate) fn walk_on(
    walk: &BoundedRun<'_>,
    arena: &mut Arena,
    operands: &mut Vec<Value>,
    index: &mut usize,
) -> u64
    requires tabled { IsTabled walk.now.fast (length arena.old.contents) }
    requires ready { (n : ℕ) (t : Snapshot)
        → Goes walk.now.fast.activation.code.now walk.now.fast.activation.arrays.now walk.now.fast.activation.frame.first
        (snapshot arena.old.contents operands.old.items index.old) n t
        → CanGoOn walk.now.fast.activation.code.now walk.now.fast.activation.arrays.now arena.old.holes walk.now.fast.activation.frame (vec_capacity operands.old) t }
    ensures passed { HasPassed walk.now.watched.now walk.now.fast.activation.code.now walk.now.fast.activation.arrays.now walk.now.fast.activation.frame.first
        (snapshot arena.old.contents operands.old.items index.old) walk.now.most result (snapshot arena.new.contents operands.new.items index.new) }
    ensures holes { arena.new.holes ≡ arena.old.holes }
    ensures capacity { vec_capacity operands.old ≤ vec_capacity operands.new }
{
    let mut done = 0;
    while done < walk.most {
        if watched_at(walk.watched, *index) {
            return done;
        }
        let made = step_once(&walk.fast, arena, operands, index);
        if made == 0 {
            return done;
        }
        done += 1;
    }
    done
}
