//! Laws of passing: actual arguments give, by the cells of the arena, what the source machine's dummy arguments are
//! associated with.
ghost use Rattle.std.specs.Prelude.{◌≡◌, ◌≢◌, ℕ, ◌≤◌, List, length, map};
ghost use Rattle.hep_machine.specs.Words.{Name, Value, dummies_for, dummy_for, Actual, referred};
ghost use Rattle.hep_code.specs.declared.instruction.Instruction.{Instruction};
ghost use Rattle.hep_code.specs.declared.variable.Variable.TheVariants.{Absent};
ghost use Rattle.hep_code.specs.Words.{passed_actual};
ghost use Rattle.hep_layout.specs.Words.{IsMemory};
ghost use Rattle.hep_image.specs.Image.{most_cells};
ghost use Rattle.hep_image.specs.Arrays.{ArePlacedArrays};
ghost use Rattle.hep_step.specs.Cells.{HasFrame};
ghost use Rattle.hep_step.specs.StepReady.{frame_in_arena};
ghost use Rattle.hep_step.specs.ArgumentAgreement.{AreGivenAs, ArePlaced, CallerOf, IsCaller, IsPassedAs, arrays_calling, given_passed};
ghost use Rattle.hep_step.specs.ArgumentAgreement.{passed_by_entries, scope_calling, storage_passed, unit_calling, variables_calling};
ghost use Rattle.hep_step.specs.ReadyToPass.{ArePassable, IsPassable};

/// A variable, an array or an element passes the storage units that the source machine's dummy argument is associated
/// with, or there is the same fault (X3.9-1978, 15.9.3).
pub fn actuals_are_passed()
    ensures { (c : CallerOf) (b : ℕ) (x y : Name) (vs : List Value) → IsCaller c → variables_calling c x ≢ Absent
        → IsPassedAs c.program c.state c.layout (storage_passed c x vs) (dummy_for (scope_calling c) b y (referred (x, vs))) }
{}

/// All actual arguments give, in order, what the dummy arguments of the new activation are associated with, or the
/// first one that is no element is the same fault; and so do the entries after a CALL, a CREATE or a reference with
/// its operands.
pub fn all_actuals_are_passed()
    ensures actuals { (c : CallerOf) (b : ℕ) (xs : List Name) (actuals : List Actual) → IsCaller c
        → ArePlaced (variables_calling c) actuals → length xs ≡ length actuals
        → AreGivenAs c.program c.state c.layout b xs actuals (given_passed c (map (passed_actual (variables_calling c)) actuals))
        (dummies_for (scope_calling c) b xs actuals) }
    ensures entries { (c : CallerOf) (b : ℕ) (xs : List Name) (actuals : List Actual) (more : List Instruction) → IsCaller c
        → ArePlaced (variables_calling c) actuals → length xs ≡ length actuals
        → AreGivenAs c.program c.state c.layout b xs actuals (given_passed c (passed_by_entries c actuals more))
        (dummies_for (scope_calling c) b xs actuals) }
{}

/// A caller can pass all its actual arguments: the entries after its CALL, CREATE or reference and its operands
/// satisfy the conditions of `give_actuals`, and what each of them names satisfies those of `passed`.
pub fn callers_can_pass()
    ensures frame { (c : CallerOf) → IsCaller c → IsMemory c.program c.state c.layout c.arena.contents c.arena.holes
        → length c.arena.contents ≤ most_cells → HasFrame c.arena (frame_in_arena c.frame) }
    ensures variable { (c : CallerOf) (x : Name) (vs : List Value) → IsCaller c
        → IsMemory c.program c.state c.layout c.arena.contents c.arena.holes → ArePlacedArrays c.program (unit_calling c)
        → IsPassable c.arena (arrays_calling c) (frame_in_arena c.frame) (variables_calling c x) vs }
    ensures actuals { (c : CallerOf) (actuals : List Actual) (more : List Instruction) → IsCaller c
        → IsMemory c.program c.state c.layout c.arena.contents c.arena.holes → ArePlacedArrays c.program (unit_calling c)
        → ArePassable c.arena (arrays_calling c) (frame_in_arena c.frame) (passed_by_entries c actuals more) }
{}
