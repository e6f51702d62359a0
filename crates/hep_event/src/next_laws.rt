//! Laws of the next operation.
ghost use Rattle.std.specs.Prelude.{◌≡◌, ℕ, List, Some, false, true, is_some};
ghost use Rattle.hep_code.specs.Words.{Answers, Reply as AReply, is_asynchronous};
ghost use Rattle.hep_conditions.specs.Words.{IsAccepted};
ghost use Rattle.hep_image.specs.Places.{variable_of};
ghost use Rattle.hep_layout.specs.Words.{address};
ghost use Rattle.hep_machine.specs.Words.{Level, Process, Redex, Reference, Units, answer_of, evaluating, living, location_of_name, main_among, next_of, run, scope_of, unit_at, unit_of, wants};
ghost use Rattle.hep_state.specs.declared.core_state.CoreState.{CoreState as ACoreState};
ghost use Rattle.hep_state.specs.Words.{HasLevels, IsMachineAfter, snapshot_of};
ghost use Rattle.hep_event.specs.declared.next_operation.NextOperation.{NextOperation as ANextOperation};
ghost use Rattle.hep_step.specs.Simulation.{variable_in};
ghost use Rattle.hep_event.specs.NextAccesses.{IsAccessed, IsOfLocation, replied_at};
ghost use Rattle.hep_event.specs.NextOperations.{IsNextOperationOf};

use hep_state::laws::tops_are_running;

/// Where a redex comes next of a process, the reply of its operation is the source machine's answer, in the state
/// that the core keeps.
pub fn replies_are_answers()
    ensures { (program : Units) (cells : ℕ) (choices : List ℕ) (p : ℕ) (m : ACoreState) (c : ANextOperation) (levels : HasLevels (snapshot_of m) p)
        (top : Level × Process) (q : Redex) → IsAccepted program → is_some (main_among program) ≡ true → m.halted ≡ false
        → (after : IsMachineAfter program cells choices m) → IsNextOperationOf program m p c → living (run program choices) p ≡ Some top
        → next_of (unit_at program (unit_of (run program choices) top.0.activation)) top.0.work ≡ wants (evaluating q)
        → (reply : AReply) × (replied_at program (snapshot_of m) levels.level c ≡ Some reply)
        × Answers (address program (run program choices) after.after.layout) (run program choices).store reply
        (answer_of (scope_of program (run program choices) top.0.activation) (run program choices).store q) }
{
    tops_are_running();
}

/// Where an access to a variable or an element comes next of a process, the operation names the variable, which is
/// asynchronous if its name is. Its reply is by the cell of the variable, or is the fault for which there is none.
pub fn accesses_are_found()
    ensures named { (program : Units) (cells : ℕ) (choices : List ℕ) (p : ℕ) (m : ACoreState) (c : ANextOperation) (levels : HasLevels (snapshot_of m) p)
        (top : Level × Process) (x : Reference) → IsAccepted program → is_some (main_among program) ≡ true → m.halted ≡ false
        → IsMachineAfter program cells choices m → IsNextOperationOf program m p c → living (run program choices) p ≡ Some top
        → IsAccessed (next_of (unit_at program (unit_of (run program choices) top.0.activation)) top.0.work) x
        → (variable_in c.operation ≡ Some (variable_of program (unit_at program (unit_of (run program choices) top.0.activation)) x.0))
        × (is_asynchronous (variable_of program (unit_at program (unit_of (run program choices) top.0.activation)) x.0) ≡ x.0.asynchronous) }
    ensures kept { (program : Units) (cells : ℕ) (choices : List ℕ) (p : ℕ) (m : ACoreState) (c : ANextOperation) (levels : HasLevels (snapshot_of m) p)
        (top : Level × Process) (x : Reference) → IsAccepted program → is_some (main_among program) ≡ true → m.halted ≡ false
        → (after : IsMachineAfter program cells choices m) → IsNextOperationOf program m p c → living (run program choices) p ≡ Some top
        → IsAccessed (next_of (unit_at program (unit_of (run program choices) top.0.activation)) top.0.work) x
        → (reply : AReply) × (replied_at program (snapshot_of m) levels.level c ≡ Some reply)
        × IsOfLocation (address program (run program choices) after.after.layout) reply
        (location_of_name (scope_of program (run program choices) top.0.activation) x.0 x.1) }
{
    tops_are_running();
}
