//! The cells that a PURGE empties (`docs/LANGUAGE.md`, 9).
ghost use Rattle.std.specs.Prelude.{◌≡◌, ◌≤◌, Ok, Err, IfOk, IfErr, vec_capacity};
ghost use Rattle.hep_step.specs.ArgumentList.{AreAllPassable, all_passed, made_of_all};
ghost use Rattle.hep_step.specs.Cells.{HasFrame};
ghost use Rattle.hep_step.specs.PurgedRanges as definitions;
ghost use Rattle.hep_step.specs.PurgedRanges.{range_for};
ghost use Rattle.hep_step.specs.PurgeReady.{AreOut, AreReached};

use crate::argument_list::{ArgumentList, FromArgument, make_from_entries};
use crate::by_reference::passed;
use crate::closed_range::ClosedRange;
use crate::dummy_storage::DummyStorage;
use crate::frame::Frame;
use crate::passed_argument::PassedArgument;
use hep_arena::Arena;
use hep_code::Variable;
use hep_image::Array;
use hep_machine::Kind;
use hep_source::Value;

// No cells.
const NONE: ClosedRange = ClosedRange { first: 0, cells: 0 };

// Whether a target is an array without subscripts, which means all its elements.
fn is_whole(variable: Variable, subscripts: &[Value]) -> bool
    ensures { result ≡ definitions.is_whole variable subscripts.now }
{
    matches!(variable, Variable::Array { .. }) && subscripts.is_empty()
}

impl FromArgument for ClosedRange {
    ghost made_for = { range_for };

    fn from_passed(
        target: PassedArgument<'_>,
        arrays: &[Array],
        arena: &Arena,
        frame: Frame,
    ) -> Result<ClosedRange, Kind> {
        let PassedArgument::ByReference {
            variable,
            subscripts,
        } = target
        else {
            return Ok(NONE);
        };
        match passed(arrays, arena, frame, variable, subscripts)? {
            DummyStorage::Units { first, count } => {
                let cells = if is_whole(variable, subscripts) {
                    count
                } else {
                    1
                };
                Ok(ClosedRange { first, cells })
            }
            DummyStorage::Value(_) => Ok(NONE),
        }
    }
}

/// Finds the cells that a PURGE empties, from left to right, by all that is passed, and overwrites `ranges` with
/// them. There is room for them, so that this takes no memory.
///
/// # Errors
///
/// `Range` where an element doesn't exist, and where a scalar has subscripts.
#[tactic(auto, using(crate::proofs::PurgedCells::ranges_reached))]
pub fn find_ranges(all: &ArgumentList<'_>, ranges: &mut Vec<ClosedRange>) -> Result<(), Kind>
    requires frame { HasFrame all.now.arena.now all.now.frame }
    // An activation that purges satisfies these two: `laws::purges_are_ready`.
    requires passable { AreAllPassable all.now }
    requires out { AreOut all.now.arena.now all.now.arrays.now all.now.frame (all_passed all.now) }
    requires room { all.now.count ≤ vec_capacity ranges.old }
    ensures ranges { IfOk result (λ _. made_of_all range_for all.now ≡ Ok ranges.new.items) }
    ensures fault { IfErr result (λ kind. made_of_all range_for all.now ≡ Err kind) }
    ensures reached { IfOk result (λ _. AreReached all.now.arena.now ranges.new.items) }
    ensures capacity { vec_capacity ranges.old ≤ vec_capacity ranges.new }
{
    make_from_entries(all, ranges)
}
