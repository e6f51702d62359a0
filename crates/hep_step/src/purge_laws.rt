//! Laws of PURGE: it does to the cells of the arena what the source machine does to the storage units.
ghost use Rattle.std.specs.Prelude.{◌≡◌, ◌≤◌, ◌∷◌, ℕ, true, false, List, Some, length, slice_get};
ghost use Rattle.hep_machine.specs.Words.{purged_cell};
ghost use Rattle.hep_machine.specs.declared.slot.Slot.{Slot};
ghost use Rattle.hep_code.specs.declared.instruction.Instruction.{Instruction};
ghost use Rattle.hep_code.specs.declared.instruction.Instruction.TheVariants.{Step};
ghost use Rattle.hep_code.specs.declared.instruction.Operation.TheVariants.{Purge};
ghost use Rattle.hep_code.specs.Words.{passed_from};
ghost use Rattle.hep_image.specs.Image.{most_cells};
ghost use Rattle.hep_image.specs.Arrays.{ArePlacedArrays};
ghost use Rattle.hep_step.specs.Cells.{HasFrame};
ghost use Rattle.hep_step.specs.ArgumentAgreement.{IsTopCaller};
ghost use Rattle.hep_step.specs.ReadyToPass.{ArePassable};
ghost use Rattle.hep_step.specs.StepReady.{frame_in_arena};
ghost use Rattle.hep_step.specs.Simulation.{IsRunning, RunningTop, Simulates, arrays_running, code_ahead, unit_running};
ghost use Rattle.hep_step.specs.declared.closed_range.ClosedRange.{ClosedRange};
ghost use Rattle.hep_step.specs.PlacedTargets.{AreEntriesPlaced};
ghost use Rattle.hep_step.specs.PurgeEffects.{effect_of_purge, have_cell, purged};
ghost use Rattle.hep_step.specs.PurgeReady.{AreOut};

/// Where a PURGE comes next whose targets have storage units, the source machine empties just what is kept in the
/// cells of the ranges, and the activation goes on at the next statement with no operands; or a target that doesn't
/// exist is the same fault, and nothing has changed.
pub fn purges_do_what_the_machine_does()
    ensures { (r : RunningTop) (line count next : ℕ) (behind : List Instruction) → IsRunning r → IsTopCaller r
        → AreEntriesPlaced count behind → code_ahead r ≡ Step line (Purge count next) ∷ behind
        → Simulates r (effect_of_purge (arrays_running r) r.frame.first line next (passed_from count behind r.operands) r.arena.contents) }
{}

/// A running activation can make its next PURGE: the entries after it and its operands satisfy the conditions of
/// `find_ranges`.
pub fn purges_are_ready()
    ensures frame { (r : RunningTop) → IsRunning r → IsTopCaller r → length r.arena.contents ≤ most_cells
        → HasFrame r.arena (frame_in_arena r.frame) }
    ensures passable { (r : RunningTop) (line count next : ℕ) (behind : List Instruction) → IsRunning r → IsTopCaller r
        → ArePlacedArrays r.program (unit_running r) → code_ahead r ≡ Step line (Purge count next) ∷ behind
        → ArePassable r.arena (arrays_running r) (frame_in_arena r.frame) (passed_from count behind r.operands) }
    ensures out { (r : RunningTop) (line count next : ℕ) (behind : List Instruction) → IsRunning r → IsTopCaller r
        → code_ahead r ≡ Step line (Purge count next) ∷ behind
        → AreOut r.arena (arrays_running r) (frame_in_arena r.frame) (passed_from count behind r.operands) }
{}

/// The cells of the ranges are empty, with the values that they had, and all other cells are unchanged.
pub fn ranges_are_emptied()
    ensures within { (ranges : List ClosedRange) (contents : List Slot) (p : ℕ) (slot : Slot) → have_cell ranges p ≡ true
        → slice_get contents p ≡ Some slot → slice_get (purged ranges contents) p ≡ Some (purged_cell slot) }
    ensures elsewhere { (ranges : List ClosedRange) (contents : List Slot) (p : ℕ) → have_cell ranges p ≡ false
        → slice_get (purged ranges contents) p ≡ slice_get contents p }
    ensures cells { (ranges : List ClosedRange) (contents : List Slot) → length (purged ranges contents) ≡ length contents }
{}
