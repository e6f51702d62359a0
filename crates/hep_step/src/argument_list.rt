//! The results of what the entries after a CALL, CREATE or PURGE pass (X3.9-1978, 15.9.3).
ghost use Rattle.std.specs.Prelude.{◌≡◌, ◌≤◌, Ok, Err, IfOk, IfErr, vec_capacity};
ghost use Rattle.hep_step.specs.Cells.{HasFrame};
ghost use Rattle.hep_step.specs.ArgumentList.{AreAllPassable, made_of_all};

use crate::frame::Frame;
use crate::passed_argument::{PassedArgument, first_of, passed_ahead};
use hep_arena::Arena;
use hep_code::Instruction;
use hep_image::Array;
use hep_machine::Kind;
use hep_source::Value;

/// All that is passed by the entries after an operation, with the operands, in a unit with these arrays, whose
/// activation has this frame in the arena.
#[derive(Clone, Copy)]
pub struct ArgumentList<'a> {
    /// The instructions after the operation, its entries first.
    pub entries: &'a [Instruction],
    /// The number of its entries.
    pub count: usize,
    /// The operands of the activation.
    pub operands: &'a [Value],
    /// The arrays of its unit.
    pub arrays: &'a [Array],
    /// The arena with its variables.
    pub arena: &'a Arena,
    /// Its frame in the arena.
    pub frame: Frame,
}

/// A result of what an entry after a CALL, CREATE or PURGE passes: what it gives, or the cells that it names.
pub trait FromArgument: Drop {
    ghost use Rattle.std.specs.Prelude.{◌≡◌, [], ◌∷◌, ℕ, List, Result};
    ghost use Rattle.hep_machine.specs.declared.event.Kind.{Kind as PureKind};
    ghost use Rattle.hep_machine.specs.declared.slot.Slot.{Slot};
    ghost use Rattle.hep_code.specs.PassedArguments.{PassedArgument as PurePassedArgument};
    ghost use Rattle.hep_image.specs.declared.array.Array.{Array as PureArray};
    ghost use Rattle.hep_image.specs.Addressing.{cells_in};
    ghost use Rattle.hep_step.specs.Cells.{HasFrame};
    ghost use Rattle.hep_step.specs.PassedEntries.{passed_view};
    ghost use Rattle.hep_step.specs.ReadyToPass.{ArePassable};

    // From the contents of the arena, the first cell of the frame, and the arrays of the unit.
    ghost made_for: { (ℕ → Slot) → ℕ → List PureArray → PurePassedArgument → Result Self PureKind };

    /// The result of what an entry passes, in a unit with these arrays.
    ///
    /// # Errors
    ///
    /// `Range` where what is passed is no element, or a scalar with subscripts (X3.9-1978, 15.9.3).
    fn from_passed(
        passed: PassedArgument<'_>,
        arrays: &[Array],
        arena: &Arena,
        frame: Frame,
    ) -> Result<Self, Kind>
        requires frame { HasFrame arena.now frame }
        requires passable { ArePassable arena.now arrays.now frame (passed_view passed ∷ []) }
        ensures { result ≡ made_for (cells_in arena.now.contents) frame.first arrays.now (passed_view passed.entry) };
}

/// Computes the results of all that is passed, from left to right, and overwrites `made` with them. There is room for
/// them, so that this takes no memory.
///
/// # Errors
///
/// `Range` where something that is passed is no element, or a scalar with subscripts (X3.9-1978, 15.9.3).
#[tactic(auto, using(crate::proofs::PassedEntries::passed_taken))]
pub fn make_from_entries<T: FromArgument>(
    all: &ArgumentList<'_>,
    made: &mut Vec<T>,
) -> Result<(), Kind>
    requires frame { HasFrame all.now.arena.now all.now.frame }
    requires passable { AreAllPassable all.now }
    requires room { all.now.count ≤ vec_capacity made.old }
    ensures made { IfOk result (λ _. made_of_all T.made_for all.now ≡ Ok made.new.items) }
    ensures fault { IfErr result (λ kind. made_of_all T.made_for all.now ≡ Err kind) }
    ensures capacity { vec_capacity made.old ≤ vec_capacity made.new }
{
    made.clear();
    let mut rest = all.operands;
    for entry in first_of(all.entries, all.count) {
        let Some((passed, behind)) = passed_ahead(entry, rest) else {
            break;
        };
        let one = T::from_passed(passed, all.arrays, all.arena, all.frame)?;
        let _ = made.push(one);
        rest = behind;
    }
    Ok(())
}
