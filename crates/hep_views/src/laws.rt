//! Laws of views: the view of a machine is that of the source machine's state.
ghost use Rattle.std.specs.Prelude.{◌≡◌, ◌≤◌, ◌<◌, ◌+◌, ◌-◌, ℕ, true, List, Some, is_some};
ghost use Rattle.hep_machine.specs.Words.{Name, Units, main_among, unit_at, BlockName, Frame, Layout, common_cells, frame_of, is_held};
ghost use Rattle.hep_machine.specs.Words.{unit_of, run, Location, State, common, local, wanted_by, view_of};
ghost use Rattle.hep_arena.specs.Gaps.{frame_among};
ghost use Rattle.hep_conditions.specs.Words.{IsAccepted};
ghost use Rattle.hep_layout.specs.Words.{address};
ghost use Rattle.hep_state.specs.Words.{Snapshot, IsAfter};
ghost use Rattle.hep_views.specs.MachineViews.{machine_view};
ghost use Rattle.hep_views.specs.SeenWaits.{unit_in_common, unit_in_frame, unit_kept_at, wanted_seen};

use hep_state::{
    activations_are_bound_in_runs, calls_agree_in_runs, laws, operations_do_what_the_machine_does,
    programs_are_closed, units_are_there,
};

/// The cell of a storage unit determines the unit.
pub fn cells_tell_their_units()
    ensures common { (program : Units) (s : State) (layout : Layout) (b : BlockName) (i c : ℕ)
        → address program s layout (common b i) ≡ Some c → (c < common_cells program) × (unit_in_common program c ≡ Some (common b i)) }
    ensures frame { (program : Units) (s : State) (layout : Layout) (a i c : ℕ) (x : Name) → address program s layout (local a x i) ≡ Some c
        → (f : Frame) × (frame_among a layout ≡ Some f) × (f.first ≤ c) × (c < f.first + frame_of program s a)
        × (unit_in_frame a (unit_at program (unit_of s a)) (c - f.first) ≡ Some (local a x i)) }
    ensures kept { (program : Units) (cells : ℕ) (choices : List ℕ) (m : Snapshot) (at : Location) (c : ℕ)
        → (after : IsAfter program cells choices m) → address program (run program choices) after.layout at ≡ Some c
        → unit_kept_at program m c ≡ Some at }
{}

/// What the view says each process waits for is what the source machine's process waits for, whether a STOP was
/// executed or not.
pub fn waits_are_seen()
    ensures { (program : Units) (cells : ℕ) (choices : List ℕ) (m : Snapshot) (p : ℕ) → IsAccepted program
        → is_some (main_among program) ≡ true → IsAfter program cells choices m
        → wanted_by program p (run program choices) ≡ wanted_seen program m p }
{
    laws::turns_are_taken();
    laws::tops_are_running();
    laws::settled_machines_show_the_same();
    operations_do_what_the_machine_does();
}

/// The view of a machine is that of the state that it keeps, however many activations were made, in a run of an
/// accepted program with a main program.
pub fn views_are_of_states()
    ensures { (program : Units) (cells : ℕ) (choices : List ℕ) (m : Snapshot) → IsAccepted program → is_some (main_among program) ≡ true
        → IsAfter program cells choices m → machine_view program m ≡ view_of program is_held (run program choices) }
{
    waits_are_seen();
    programs_are_closed();
    calls_agree_in_runs();
    units_are_there();
    activations_are_bound_in_runs();
}
