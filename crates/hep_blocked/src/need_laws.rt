//! Laws of waiting: what the next step of a process needs, and how the steps of others change that.
ghost use Rattle.std.specs.Prelude.{◌≡◌, ◌≢◌, ◌≤◌, ◌++◌, ◌∷◌, ℕ, Bool, true, false, not, List, [], Some, None, length};
ghost use Rattle.std.specs.Prelude.{slice_get};
ghost use mathlib.Core.Bool.{beq};
ghost use Rattle.hep_machine.specs.Words.{Units, is_purge, Layout, is_held, layout_of, living, run, Level, Location, Process, State};
ghost use Rattle.hep_machine.specs.Words.{Wanted, is_waiting, step, wanted_by, is_owned};
ghost use Rattle.hep_machine.specs.declared.slot.Slot.{Slot};
ghost use Rattle.hep_layout.specs.Words.{Holds, address};
ghost use Rattle.hep_blocked.specs.NeededCells.{NeedsCell};
ghost use Rattle.hep_blocked.specs.Needs.{need_of, touched_by, unmet};

use hep_layout::laws::{frames_enter, layouts_have_what_is_held, references_lead_upwards};
use hep_machine::laws::{held_by_stacks_and_children, numbers_rise};

/// A step waits just where the storage unit that it needs isn't full, or isn't empty, as it needs it.
pub fn waits_are_unmet_needs()
    ensures { (program : Units) (p : ℕ) (s : State) → wanted_by program p s ≡ unmet (need_of program p s) s.store }
{}

/// What a process needs doesn't change while others make steps; and a STOP changes it for no process.
pub fn needs_stay()
    ensures step { (program : Units) (p q : ℕ) (s t : State) (top : Level × Process) → step program p s ≡ Some t → p ≢ q
        → living s q ≡ Some top → top.0.activation ≤ length s.activations → need_of program q t ≡ need_of program q s }
    ensures stop { (program : Units) (q : ℕ) (s : State) → wanted_by program q (record s { halted = true }) ≡ wanted_by program q s }
{}

/// A step that is no PURGE leaves each storage unit as full as it was, except the one that it touches.
pub fn other_units_keep_their_states()
    ensures { (program : Units) (p : ℕ) (s t : State) (at : Location) → step program p s ≡ Some t → is_purge program s p ≡ false
        → touched_by program p s ≢ Some at → (t.store at).full ≡ (s.store at).full }
{}

/// A needed storage unit belongs to COMMON or to an activation that is held.
pub fn needed_units_are_held()
    ensures { (program : Units) (choices : List ℕ) (p b : ℕ) (w : Wanted) → need_of program p (run program choices) ≡ Some w
        → is_owned b w.at ≡ true → is_held (run program choices) b ≡ true }
{
    held_by_stacks_and_children();
    references_lead_upwards();
}

/// A storage unit whose activation is held after a turn has the same cell as before the turn.
pub fn units_stay_in_their_cells()
    ensures { (program : Units) (cells : ℕ) (choices : List ℕ) (p c : ℕ) (layout after : Layout) (at : Location)
        → layout_of program cells is_held choices ≡ Some layout → layout_of program cells is_held (choices ++ p ∷ []) ≡ Some after
        → ((b : ℕ) → is_owned b at ≡ true → is_held (run program (choices ++ p ∷ [])) b ≡ true)
        → address program (run program choices) layout at ≡ Some c → address program (run program (choices ++ p ∷ [])) after at ≡ Some c }
{
    numbers_rise();
    frames_enter();
    layouts_have_what_is_held();
}

/// A process that needs a cell to be full, or to be empty, waits just where the cell isn't so.
pub fn waiting_is_read_from_cells()
    ensures { (program : Units) (cells : ℕ) (choices : List ℕ)
        (p cell : ℕ) (full : Bool) (layout : Layout) (contents : List Slot) (slot : Slot) → NeedsCell program cells choices p cell full
        → layout_of program cells is_held choices ≡ Some layout → Holds program (run program choices) layout contents
        → slice_get contents cell ≡ Some slot → is_waiting program (run program choices) p ≡ not (beq slot.full full) }
{}

/// After a step of another process, a process still needs the same of the same cell.
pub fn others_need_the_same()
    ensures { (program : Units) (cells : ℕ) (choices : List ℕ) (p q cell : ℕ) (full : Bool) (layout : Layout)
        → NeedsCell program cells choices q cell full → step program p (run program choices) ≢ None → p ≢ q
        → layout_of program cells is_held choices ≡ Some layout → NeedsCell program cells (choices ++ p ∷ []) q cell full }
{
    needed_units_are_held();
    units_stay_in_their_cells();
}

/// A process that waits needs what it waits for.
pub fn waiting_processes_need_it()
    ensures { (program : Units) (p : ℕ) (s : State) (w : Wanted) → wanted_by program p s ≡ Some w → need_of program p s ≡ Some w }
{}
