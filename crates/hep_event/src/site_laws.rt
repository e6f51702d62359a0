//! Laws of the variables that the next operation of a process names.
ghost use Rattle.std.specs.Prelude.{◌≡◌, ◌≢◌, ℕ, List, None, Some, true, is_some};
ghost use Rattle.hep_code.specs.declared.variable.Variable.TheVariants.{Absent};
ghost use Rattle.hep_code.specs.Words.{is_asynchronous};
ghost use Rattle.hep_conditions.specs.Words.{IsAccepted};
ghost use Rattle.hep_event.specs.declared.next_operation.NextOperation.{NextOperation as ANextOperation};
ghost use Rattle.hep_event.specs.NextAccesses.{IsAccessed};
ghost use Rattle.hep_event.specs.NextOperations.{IsNextOperationOf};
ghost use Rattle.hep_image.specs.Places.{variable_of};
ghost use Rattle.hep_machine.specs.Words.{Level, Process, Reference, Units, living, main_among, next_of, run, unit_at, unit_of};
ghost use Rattle.hep_state.specs.declared.core_state.CoreState.{CoreState as ACoreState};
ghost use Rattle.hep_state.specs.Words.{IsMachineAfter};
ghost use Rattle.hep_event.specs.NamedVariables.{IsNamed, named_by};
ghost use Rattle.hep_event.specs.Sites.{LivesAfter};

use hep_views::{tops_are_running, variables_of_the_code_are_placed};

/// Where an access to a variable or an element comes next of a process, whether a STOP was executed or not, its
/// operation names that variable, with the same subscripts. The variable has storage units.
pub fn accesses_name_variables()
    ensures { (program : Units) (cells : ℕ) (choices : List ℕ) (m : ACoreState) (p : ℕ) (top : Level × Process) (c : ANextOperation) (x : Reference)
        → IsAccepted program → IsMachineAfter program cells choices m → living (run program choices) p ≡ Some top → IsNextOperationOf program m p c
        → IsAccessed (next_of (unit_at program (unit_of (run program choices) top.0.activation)) top.0.work) x
        → (named_by c.operation c.operands.items ≡ Some (variable_of program (unit_at program (unit_of (run program choices) top.0.activation)) x.0, x.1))
        × (variable_of program (unit_at program (unit_of (run program choices) top.0.activation)) x.0 ≢ Absent) }
{
    variables_of_the_code_are_placed();
}

/// Where a variable or an element is named next in the source, the operation names that variable, with the same
/// subscripts; it has storage units, and is asynchronous if its name is. Where the operation names one, so does the
/// source.
pub fn operations_name_variables()
    ensures variables { (program : Units) (cells : ℕ) (choices : List ℕ) (m : ACoreState) (p : ℕ) (top : Level × Process) (c : ANextOperation) (x : Reference)
        → IsAccepted program → is_some (main_among program) ≡ true → LivesAfter program cells choices m p top → IsNextOperationOf program m p c
        → IsNamed (unit_at program (unit_of (run program choices) top.0.activation))
        (next_of (unit_at program (unit_of (run program choices) top.0.activation)) top.0.work) x
        → (named_by c.operation c.operands.items ≡ Some (variable_of program (unit_at program (unit_of (run program choices) top.0.activation)) x.0, x.1))
        × (variable_of program (unit_at program (unit_of (run program choices) top.0.activation)) x.0 ≢ Absent)
        × (is_asynchronous (variable_of program (unit_at program (unit_of (run program choices) top.0.activation)) x.0) ≡ x.0.asynchronous) }
    ensures names { (program : Units) (cells : ℕ) (choices : List ℕ) (m : ACoreState) (p : ℕ) (top : Level × Process) (c : ANextOperation)
        → IsAccepted program → is_some (main_among program) ≡ true → LivesAfter program cells choices m p top → IsNextOperationOf program m p c
        → named_by c.operation c.operands.items ≢ None → (x : Reference)
        × IsNamed (unit_at program (unit_of (run program choices) top.0.activation))
        (next_of (unit_at program (unit_of (run program choices) top.0.activation)) top.0.work) x }
{
    tops_are_running();
}
