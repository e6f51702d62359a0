//! Laws of steps from where nothing is watched.
ghost use Rattle.std.specs.Prelude.{◌≡◌, ℕ, List, Some, false};
ghost use Rattle.hep_conditions.specs.Words.{IsAccepted};
ghost use Rattle.hep_machine.specs.Words.{Level, Process, State as AState, Units, living};
ghost use Rattle.hep_advance.specs.BreakpointRows.{IsUnwatched};
ghost use Rattle.hep_advance.specs.declared.breakpoints.Breakpoints.{Breakpoints as AWatch};
ghost use Rattle.hep_event.specs.Traces.{is_accessed};
ghost use Rattle.hep_event.specs.VariableBreakpoints.{AreWatchesOf};

use hep_accepted_laws::code::variables_of_the_code_are_placed;

/// Where a process is at an index from which no variable of a name may be accessed, its turn accesses none.
pub fn unwatched_turns_access_nothing()
    ensures { (program : Units) (name : List ℕ) (watches : List AWatch) (p : ℕ) (s : AState) (top : Level × Process) → IsAccepted program
        → AreWatchesOf program name watches → IsUnwatched program watches p s → living s p ≡ Some top
        → is_accessed program (Some name) (record { state = s; process = p; level = top.0; below = top.1 }) ≡ false }
{
    variables_of_the_code_are_placed();
}
