//! Laws of steps: an operation does to the arena and to the operands what the source machine does.
ghost use Rattle.std.specs.Prelude.{◌≡◌, ◌≤◌, ◌∷◌, ℕ, List, [], Err, length};
ghost use Rattle.std.specs.List.{flat_map};
ghost use Rattle.hep_machine.specs.Words.{Top, Units, Value, binding_of};
ghost use Rattle.hep_machine.specs.declared.event.Kind.{Kind};
ghost use Rattle.hep_code.specs.declared.instruction.Evaluation.{Evaluation};
ghost use Rattle.hep_code.specs.declared.instruction.Instruction.{Instruction};
ghost use Rattle.hep_code.specs.declared.instruction.Instruction.TheVariants.{Step};
ghost use Rattle.hep_code.specs.declared.instruction.Operation.TheVariants.{Evaluate, Store, Jump, Choose, BySign, Condition, Branch};
ghost use Rattle.hep_code.specs.declared.instruction.Operation.TheVariants.{EnterLoop, EndLoop, Print, Resume, Return, Answer, Stop};
ghost use Rattle.hep_code.specs.declared.variable.Variable.{Variable};
ghost use Rattle.hep_code.specs.Words.{IsPastPushes, deepest, operands_of_actual};
ghost use Rattle.hep_image.specs.Image.{most_cells};
ghost use Rattle.hep_image.specs.Arrays.{ArePlacedArrays};
ghost use Rattle.hep_step.specs.declared.call_kind.CallKind.{CallKind};
ghost use Rattle.hep_step.specs.NextCalls.{IsBehindEntries, IsCallAhead, last_operands, making};
ghost use Rattle.hep_step.specs.Effects.{effect_at, fails, moves};
ghost use Rattle.hep_step.specs.StepReady.{IsReady, frame_in_arena};
ghost use Rattle.hep_step.specs.Resume.{IsResumeAhead};
ghost use Rattle.hep_step.specs.Simulation.{IsNotLeftOut, IsRunning, IsSimulated, RunningTop, Simulates, arrays_running, code_ahead};
ghost use Rattle.hep_step.specs.Simulation.{code_running, unit_running};

/// An operation that gives a value does what the source machine does with the next redex. The value takes the place
/// of the operands, a cell that the source machine empties is emptied in the arena, and a fault or a wait is the
/// same.
pub fn values_are_evaluated()
    ensures { (e : Evaluation) → IsSimulated (Evaluate e) }
{}

/// An operation that stores a value does what the source machine does with the assignment. The value is in the cell,
/// and the activation goes on at the next statement with no operands.
pub fn values_are_stored()
    ensures { (x : Variable) (n next : ℕ) → IsSimulated (Store x n next) }
{}

/// GO TO and each statement that only goes on, a computed GO TO, an arithmetic IF, the condition of a logical IF, and
/// that of an IF THEN or ELSE IF (X3.9-1978, 11.1 to 11.11): the activation goes on at the same statement as in the
/// source machine, and the arena doesn't change.
pub fn jumps_are_made()
    ensures jump { (next : ℕ) → IsSimulated (Jump next) }
    ensures choose { (count next : ℕ) → IsSimulated (Choose count next) }
    ensures by_sign { (negative equal positive : ℕ) → IsSimulated (BySign negative equal positive) }
    ensures condition { (otherwise : ℕ) → IsSimulated (Condition otherwise) }
    ensures branch { (inside otherwise : ℕ) → IsSimulated (Branch inside otherwise) }
{}

/// DO (11.10.3): its variable gets the initial value, and its two cells get the iteration count and the increment; an
/// overflow, or an increment of 0, is the same fault.
pub fn loops_are_entered()
    ensures { (x : Variable) (cells inside behind : ℕ) → IsSimulated (EnterLoop x cells inside behind) }
{}

/// The end of a DO (11.10.6 and 11.10.7): its variable is raised by the increment, and one iteration less is left.
pub fn loops_are_ended()
    ensures { (x : Variable) (cells inside behind : ℕ) → IsSimulated (EndLoop x cells inside behind) }
{}

/// PRINT (12.8): the record has the source machine's items.
pub fn records_are_printed()
    ensures { (count next : ℕ) → IsSimulated (Print count next) }
{}

/// RETURN, and END of a unit (15.8 and 11.14): a function ends with the value of its result, which takes the place of
/// its reference (15.5.3).
pub fn activations_end()
    ensures subroutine { IsSimulated Return }
    ensures function { (x : Variable) → IsSimulated (Answer x) }
{}

/// STOP (11.12).
pub fn runs_stop()
    ensures { IsSimulated Stop }
{}

/// CALL (15.6.2), CREATE, and a reference of a function (15.5.2): where one comes next, the source machine calls or
/// creates its subroutine, or refers to its function, with the actual arguments that the last operands and the
/// entries after it pass; and where these can't be associated with the dummy arguments, there is the same fault.
pub fn calls_are_ahead()
    ensures ahead { (way : CallKind) (r : RunningTop) (line u count next : ℕ) (behind : List Instruction)
        → IsRunning r → code_ahead r ≡ Step line (making way u count next) ∷ behind → IsBehindEntries way r.index count next
        → IsCallAhead way r.program r.top r.operands u count next behind }
    ensures fails { (way : CallKind) (r : RunningTop) (line u count next : ℕ) (behind : List Instruction)
        → IsRunning r → code_ahead r ≡ Step line (making way u count next) ∷ behind
        → (calls : IsCallAhead way r.program r.top r.operands u count next behind) (k : Kind)
        → binding_of r.program r.top u calls.actuals ≡ Err k → Simulates r (fails line k) }
    ensures last { (way : CallKind) (program : Units) (t : Top) (operands : List Value) (u count next : ℕ) (behind : List Instruction)
        → (calls : IsCallAhead way program t operands u count next behind)
        → last_operands count behind operands ≡ flat_map operands_of_actual calls.actuals }
{}

/// RESUME (`docs/MACHINE.md`): where it comes next, the source machine lets the activation below go on, and the top
/// one goes on at its index as a process of its own; where none is below, the top one only goes on.
pub fn resumes_are_ahead()
    ensures ahead { (r : RunningTop) (line next : ℕ) (behind : List Instruction) → IsRunning r
        → code_ahead r ≡ Step line (Resume next) ∷ behind → IsResumeAhead r next }
    ensures lowest { (r : RunningTop) (line next : ℕ) (behind : List Instruction) → IsRunning r
        → code_ahead r ≡ Step line (Resume next) ∷ behind → r.top.below ≡ [] → Simulates r (moves r.arena.contents [] next) }
{}

/// Where no constant is left to be pushed, the next operation does what the source machine does, if it isn't CALL,
/// CREATE, a reference, PURGE or RESUME.
pub fn operations_do_what_the_machine_does()
    ensures { (r : RunningTop) → IsRunning r → IsPastPushes (code_running r) r.index → IsNotLeftOut (code_running r) r.index
        → Simulates r (effect_at (code_running r) (arrays_running r) r.frame.first r.arena.contents r.operands r.index) }
{}

/// A running activation can make its next operation, if each array of its unit has a first storage unit and its
/// operands have room for the unit's deepest stack.
pub fn activations_are_ready()
    ensures { (r : RunningTop) (capacity : ℕ) → IsRunning r → ArePlacedArrays r.program (unit_running r)
        → length r.arena.contents ≤ most_cells → deepest (code_running r) ≤ capacity
        → IsReady (code_running r) (arrays_running r) r.arena (frame_in_arena r.frame) r.operands capacity r.index }
{}
