//! Laws of the words for steps: they say what the step does.
ghost use Rattle.std.specs.Prelude.{◌≡◌, ℕ, ◌+◌, ◌++◌, ◌∷◌, [], List, None, Some, true, length, nat_eq};
ghost use Rattle.hep_code.specs.declared.instruction.Evaluation.{Evaluation};
ghost use Rattle.hep_code.specs.declared.instruction.Instruction.{Instruction};
ghost use Rattle.hep_code.specs.declared.instruction.Operation.{Operation};
ghost use Rattle.hep_code.specs.declared.variable.Variable.{Variable};
ghost use Rattle.hep_code.specs.Words.{Addresses, IsNext, addressed_unit, evaluation_of, operands_of_redex};
ghost use Rattle.hep_machine.specs.declared.record.Item.{Item};
ghost use Rattle.hep_machine.specs.Words.{Level, Name, Process, Redex, State, Top, Units, Value, does, evaluating, living, next_of, printing, step_result_of, stepped, unit_at, unit_of, unit_on_top, wants};
ghost use Rattle.hep_event.specs.StepTexts.{deed_text, fault_added};
ghost use Rattle.hep_event.specs.PlainTexts.{IsNameOfCalled, is_plain, plain_text};
ghost use Rattle.hep_event.specs.ReductionTexts.{is_pure, pure_text};
ghost use Rattle.hep_event.specs.StepObservations.{IsSeen};
ghost use Rattle.hep_event.specs.OperationTexts.{told_text};
ghost use Rattle.hep_event.specs.declared.operation_text.StepObservation.{StepObservation};

/// The step of a process at a redex of values alone does what the words for the redex's operation and operands say.
pub fn pure_steps_are_told()
    ensures { (program : Units) (s : State) (p : ℕ) (top : Level × Process) (r : Redex) (variables : Name → Variable) (e : Evaluation)
        → living s p ≡ Some top
        → next_of (unit_at program (unit_of s top.0.activation)) top.0.work ≡ wants (evaluating r)
        → e ≡ evaluation_of variables r → is_pure e ≡ true
        → deed_text program (record { state = s; process = p; level = top.0; below = top.1 }) (step_result_of program p s)
        ≡ pure_text e (operands_of_redex r) }
{}

/// A step that is no fault, and whose operation names no variable and prints nothing, does what the words for the
/// operation and its operands say.
pub fn plain_steps_are_told()
    ensures { (program : Units) (t : Top) (addresses : Addresses) (after : State) (called : List ℕ) (operands : List Value) (index : ℕ)
        (o : Operation) (behind : List Instruction)
        → living t.state t.process ≡ Some (t.level, t.below) → step_result_of program t.process t.state ≡ stepped after
        → fault_added t.state.faults after.faults ≡ None → is_plain o ≡ true → IsNameOfCalled program o called
        → IsNext (addressed_unit program addresses (unit_of t.state t.level.activation)) t.level.statement t.level.work operands index
        (next_of (unit_on_top program t) t.level.work) o behind
        → deed_text program t (step_result_of program t.process t.state)
        ≡ plain_text called (record { activation = length t.state.activations + 1; process = length t.state.processes + 1; alone = nat_eq (length t.below) 0 })
        o operands }
{}

/// A step that is no fault does what the words for its operation, its operands and its observed results say.
pub fn steps_are_told()
    ensures { (program : Units) (t : Top) (addresses : Addresses) (after : State) (seen : StepObservation) (operands : List Value) (index : ℕ)
        (o : Operation) (behind : List Instruction)
        → living t.state t.process ≡ Some (t.level, t.below) → step_result_of program t.process t.state ≡ stepped after
        → fault_added t.state.faults after.faults ≡ None
        → IsSeen program t (addresses.variables (unit_of t.state t.level.activation)) after seen (next_of (unit_on_top program t) t.level.work)
        → IsNext (addressed_unit program addresses (unit_of t.state t.level.activation)) t.level.statement t.level.work operands index
        (next_of (unit_on_top program t) t.level.work) o behind
        → deed_text program t (step_result_of program t.process t.state) ≡ told_text seen o operands }
{}

/// The record that a step printed is the last one after it.
pub fn prints_are_last_records()
    ensures { (program : Units) (t : Top) (after : State) (items : List Item)
        → living t.state t.process ≡ Some (t.level, t.below) → step_result_of program t.process t.state ≡ stepped after
        → next_of (unit_on_top program t) t.level.work ≡ does (printing items)
        → after.records ≡ t.state.records ++ items ∷ [] }
{}
