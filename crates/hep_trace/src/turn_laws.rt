//! Laws of the next operation of a process, and of the words for its turn.
ghost use Rattle.std.specs.Prelude.{◌≡◌, ℕ, List, is_some, true};
ghost use Rattle.hep_code.specs.Words.{IsNext};
ghost use Rattle.hep_event.specs.declared.next_operation.NextOperation.{NextOperation as ANextOperation};
ghost use Rattle.hep_event.specs.NextOperations.{IsNextOperationOf};
ghost use Rattle.hep_conditions.specs.Words.{IsAccepted};
ghost use Rattle.hep_machine.specs.Words.{Level, Process, Units, main_among, next_of, run, unit_at, unit_of};
ghost use Rattle.hep_trace.specs.declared.reference.LiveProcess.{LiveProcess as AnAhead};
ghost use Rattle.hep_trace.specs.References.{IsAhead, top_after};
ghost use Rattle.hep_event.specs.Sites.{LivesAfter};
ghost use Rattle.hep_state.specs.declared.core_state.CoreState.{CoreState as ACoreState};
ghost use Rattle.hep_step.specs.Simulation.{unit_addressed};
ghost use Rattle.hep_trace.specs.Observations.{IsAheadSeen, IsLoopAhead, IsToldWith};
ghost use Rattle.hep_trace.specs.declared.observation.BeforeTurn.{BeforeTurn as ABeforeTurn};

use hep_event::line_laws::steps_are_told;
use hep_event::site_laws::operations_name_variables;
use hep_state::laws::tops_are_running;

/// The next operation of a process, with its operands and the instructions after it, is what comes next in the
/// source.
pub fn operations_come_next()
    ensures { (program : Units) (cells : ℕ) (choices : List ℕ) (m : ACoreState) (p : ℕ) (top : Level × Process) (c : ANextOperation)
        → IsAccepted program → is_some (main_among program) ≡ true → LivesAfter program cells choices m p top → IsNextOperationOf program m p c
        → (index : ℕ) × IsNext (unit_addressed program (unit_of (run program choices) top.0.activation)) top.0.statement top.0.work c.operands.items index
        (next_of (unit_at program (unit_of (run program choices) top.0.activation)) top.0.work) c.operation c.behind.now }
{
    tops_are_running();
}

/// What was observed of a turn, before and after it, determines the words for it, if it is a step and no fault. Where
/// an iteration of a DO ends next, the operation names the variable of the DO.
pub fn turns_are_told()
    ensures { (cells : ℕ) (choices : List ℕ) (ahead : AnAhead) (top : Level × Process) (b : ABeforeTurn)
        → IsAccepted ahead.image.now → is_some (main_among ahead.image.now) ≡ true → IsAhead cells choices ahead top
        → IsAheadSeen cells choices ahead top b
        → IsToldWith ahead.image.now (top_after ahead.image.now choices ahead.process top) b
        × IsLoopAhead ahead.image.now (top_after ahead.image.now choices ahead.process top) b.operation }
{
    operations_come_next();
    operations_name_variables();
    steps_are_told();
}
