//! Laws of private steps in a run.
ghost use Rattle.std.specs.Prelude.{◌≡◌, ◌≢◌, ◌≤◌, ◌++◌, ℕ, false, true, List, Option, Some, drop, is_some, length, replicate};
ghost use Rattle.hep_machine.specs.Words.{Level, Name, Process, Progress, State, Units, activation_of, dummy_at, is_number_among, living, local};
ghost use Rattle.hep_machine.specs.Words.{main_among, numbered, progress_after_steps, run, step, unit_at, unit_of};
ghost use Rattle.hep_machine.specs.declared.slot.Slot.{Slot as ASlot};
ghost use Rattle.hep_conditions.specs.Words.{IsAccepted};
ghost use Rattle.hep_cells.specs.declared.want.Want.{Want as AWant};
ghost use Rattle.hep_code.specs.declared.instruction.Instruction.{Instruction as AnInstruction};
ghost use Rattle.hep_code.specs.Words.{deepest, most_operands};
ghost use Rattle.hep_image.specs.Image.{most_cells};
ghost use Rattle.hep_image.specs.Private.{private_cells};
ghost use Rattle.hep_step.specs.Simulation.{unit_code};
ghost use Rattle.hep_blocked.specs.RosterUpdates.{AreListed};
ghost use Rattle.hep_state.specs.Words.{IsTurning, Snapshot, TurnOf};
ghost use Rattle.hep_private.specs.declared.record.Record.{Record as ARecord};
ghost use Rattle.hep_private.specs.OwnState.{OwnState, settled};
ghost use Rattle.hep_private.specs.FirstReads.{HaveRead};
ghost use Rattle.hep_private.specs.StepRecords.{made_ahead, next_made, recorded};
ghost use Rattle.hep_commit.specs.UndoneStores.{AreOf, HasLoopAhead, put_back};
ghost use Rattle.hep_commit.specs.OtherTurns.{IsBeside, values_beside};
ghost use Rattle.hep_commit.specs.PrivateTurns.{HaveGone, own_of};
ghost use Rattle.hep_commit.specs.PrivateScalars.{is_private_at, is_private_scalar};
ghost use Rattle.hep_private.specs.InPlace.{stored_with};

/// In a run no dummy argument is associated with a private scalar (X3.9-1978, 15.9.3).
pub fn private_scalars_are_unshared()
    ensures { (program : Units) (choices : List ℕ) (a k : ℕ)
        → is_private_at program (run program choices) (dummy_at (activation_of (run program choices) a).dummies k).start ≡ false }
{
    hep_advance::calls_come_from_statements();
    hep_advance::references_come_from_statements();
}

/// A step changes no private scalar of any activation but its own. So the top activation of every other living
/// process keeps its private scalars, and the process keeps its stack.
pub fn others_leave_private_scalars()
    ensures scalars { (program : Units) (choices : List ℕ) (p : ℕ) (top : Level × Process) (t : State) (a : ℕ) (x : Name) (i : ℕ)
        → step program p (run program choices) ≡ Some t → living (run program choices) p ≡ Some top
        → a ≤ length (run program choices).activations → a ≢ top.0.activation
        → is_private_scalar (unit_at program (unit_of (run program choices) a)) x ≡ true
        → t.store (local a x i) ≡ (run program choices).store (local a x i) }
    ensures processes { (program : Units) (choices : List ℕ) (p q : ℕ) (top : Level × Process) (t : State) (x : Name) (i : ℕ)
        → step program p (run program choices) ≡ Some t → p ≢ q → living (run program choices) q ≡ Some top
        → is_private_scalar (unit_at program (unit_of (run program choices) top.0.activation)) x ≡ true
        → (t.store (local top.0.activation x i) ≡ (run program choices).store (local top.0.activation x i))
        × (numbered t.processes q ≡ numbered (run program choices).processes q) }
{
    hep_advance::calls_come_from_statements();
    hep_advance::references_come_from_statements();
}

/// After turns of other processes the frame of a process still has what its next private steps read, if the process
/// hasn't moved.
pub fn others_leave_what_is_read()
    ensures { (t : TurnOf) (others : List ℕ) (m : Snapshot) (n : ℕ) (records : List ARecord) (end : OwnState) → IsTurning t
        → IsBeside t others m
        → recorded (private_cells (unit_at t.program t.level.unit)) (unit_code t.program t.level.unit) n (own_of t) ≡ Some (records, end)
        → HaveRead (values_beside t m) records }
{
    hep_advance::calls_come_from_statements();
    hep_advance::references_come_from_statements();
    hep_private::step_laws::private_steps_depend_on_reads();
}

/// n private steps in a row are n turns of the process. Each is a step of the source machine that fills and empties
/// no storage unit, and makes and ends no process or activation.
pub fn private_steps_are_turns()
    ensures { (t : TurnOf) (n : ℕ) (records : List ARecord) (end : OwnState) → IsAccepted t.program → is_some (main_among t.program) ≡ true
        → t.cells ≤ most_cells → IsTurning t
        → recorded (private_cells (unit_at t.program t.level.unit)) (unit_code t.program t.level.unit) n (own_of t) ≡ Some (records, end)
        → HaveGone t n records end }
{
    hep_advance::tops_are_running();
}

/// No private step fails for want of room. Where the code of a unit needs no more operands than an image has, the
/// next step is that of the next operation, after the leading constants are pushed.
pub fn private_steps_have_room()
    ensures { (t : TurnOf) → IsAccepted t.program → is_some (main_among t.program) ≡ true → t.cells ≤ most_cells → IsTurning t
        → deepest (unit_code t.program t.level.unit) ≤ most_operands
        → next_made (private_cells (unit_at t.program t.level.unit)) (unit_code t.program t.level.unit) (own_of t)
        ≡ made_ahead (private_cells (unit_at t.program t.level.unit)) (settled (unit_code t.program t.level.unit) (own_of t))
        (drop (settled (unit_code t.program t.level.unit) (own_of t)).index (unit_code t.program t.level.unit)) }
{
    hep_advance::tops_are_running();
}

/// Private steps leave the lists of waiting and of ready processes as they were.
pub fn private_steps_leave_lists()
    ensures { (t : TurnOf) (n : ℕ) (records : List ARecord) (end : OwnState) (x : Progress) (waits : ℕ → Option AWant) (ready : List ℕ)
        → IsAccepted t.program → is_some (main_among t.program) ≡ true → t.cells ≤ most_cells → IsTurning t
        → recorded (private_cells (unit_at t.program t.level.unit)) (unit_code t.program t.level.unit) n (own_of t) ≡ Some (records, end)
        → AreListed t.program t.cells t.choices x waits ready
        → AreListed t.program t.cells (t.choices ++ replicate n t.process) (progress_after_steps t.program x t.process n) waits ready }
{
    hep_advance::tops_are_running();
    hep_advance::lists_go_along_with_steps();
}

/// Private steps store only in the private scalars of the unit and in the cells of its DOs.
pub fn private_steps_store_in_own_cells()
    ensures { (cells all : List ℕ) (code : List AnInstruction) (n : ℕ) (own : OwnState) (records : List ARecord) (end : OwnState)
        → ((c : ℕ) → is_number_among c cells ≡ true → is_number_among c all ≡ true) → ((i : ℕ) → HasLoopAhead all (drop i code))
        → recorded cells code n own ≡ Some (records, end) → AreOf all records }
{}

/// Cells that are put back undo all stores that were made in them alone.
pub fn saved_cells_undo_stores()
    ensures { (first : ℕ) (contents : List ASlot) (cells : List ℕ) (records : List ARecord) → AreOf cells records
        → put_back first cells contents (stored_with first contents records) ≡ contents }
{}
