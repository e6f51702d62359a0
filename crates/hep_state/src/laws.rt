//! Laws of a core's machine: a turn changes in it what the source machine's step changes in the state.
ghost use Rattle.std.specs.Prelude.{◌≡◌, ◌<◌, ◌≤◌, ◌+◌, ◌∷◌, ℕ, Bool, true, false, List, Option, Some, None, Ok, Err, IsSome, []};
ghost use Rattle.std.specs.Prelude.{◌-◌, is_some, length, nat_eq, take};
ghost use Rattle.hep_machine.specs.Words.{Value, Units, dummies_of, main_among, main_unit, unit_at, Binding, Layout, activations_on};
ghost use Rattle.hep_machine.specs.Words.{opening_layout, numbered, Work, Actual, Bounds};
ghost use Rattle.hep_machine.specs.declared.event.Kind.{Kind};
ghost use Rattle.hep_machine.specs.declared.record.Item.{Item};
ghost use Rattle.hep_machine.specs.declared.slot.Slot.{Slot};
ghost use Rattle.hep_machine.specs.State.{Level as SourceLevel, Process as SourceProcess};
ghost use Rattle.hep_machine.specs.declared.event.Kind.TheVariants.{Shape};
ghost use Rattle.hep_conditions.specs.Words.{IsAccepted};
ghost use Rattle.hep_arena.specs.Space.{Space};
ghost use Rattle.hep_code.specs.Words.{deepest, entry_index, operands_of_entries, Stands, passed_from};
ghost use Rattle.hep_layout.specs.Words.{descriptor_slots, FrameNode, Nodes, but, is_stacked};
ghost use Rattle.hep_image.specs.Arrays.{ArePlacedArrays};
ghost use Rattle.hep_image.specs.declared.data.DataRow.{DataRow};
ghost use Rattle.hep_image.specs.Data.{AreInitial, AreOfUnits, first_frames};
ghost use Rattle.hep_proc.specs.FrameTable.{AreOfSomeState, CanAllLeave, CanLeave, IsEnded, IsOpening, Keeps, LeadUpwards, all_but};
ghost use Rattle.hep_arena.specs.Holes.{first_fit};
ghost use Rattle.hep_image.specs.Dummies.{dummy_arguments};
ghost use Rattle.hep_image.specs.Image.{most_cells};
ghost use Rattle.hep_step.specs.declared.dummy_storage.DummyStorage.{DummyStorage};
ghost use Rattle.hep_step.specs.ReadyToPass.{ArePassable};
ghost use Rattle.hep_step.specs.declared.closed_range.ClosedRange.{ClosedRange};
ghost use Rattle.hep_step.specs.PurgeEffects.{purged};
ghost use Rattle.hep_step.specs.PurgeReady.{AreOut};
ghost use Rattle.hep_binding.specs.DummyShapes.{AreShapable, are_fitting, longest_code, shapes_of};
ghost use Rattle.hep_step.specs.declared.call_kind.CallKind.{CallKind};
ghost use Rattle.hep_step.specs.NextCalls.{is_creation, last_operands};
ghost use Rattle.hep_step.specs.Cells.{HasFrame};
ghost use Rattle.hep_step.specs.StepReady.{frame_in_arena};
ghost use Rattle.hep_step.specs.Effects.{answers, fails, moves, prints, returns, stops, waits};
ghost use Rattle.hep_step.specs.Simulation.{unit_addressed, unit_arrays, unit_code};
ghost use Rattle.hep_binding.specs.Calling.{state_made_by};
ghost use Rattle.hep_proc.specs.declared.process.Local.{Local};
ghost use Rattle.hep_state.specs.Words.{AreAlike, AreRenamed};
ghost use Rattle.hep_state.specs.Words.{Changes, HasEntered, HasGaps, HasLevels, HasMadeTurn, HasNoGap, HasPurged, HasWaited, HaveLeft, IsAbsent};
ghost use Rattle.hep_state.specs.Words.{IsAfter, IsAfterCall, IsAtCall, IsAtPurge, IsAtResume, IsEffectOf, IsEnding, IsEntered, IsGiven, IsKnown};
ghost use Rattle.hep_state.specs.Words.{IsMaking, IsTopRunning, IsTurning, IsUnit, IsWithoutCall, Snapshot, TurnOf, given_of};
ghost use Rattle.hep_state.specs.Words.{call_in, node_under, ranges_ahead, snapshot_answered, snapshot_failed, snapshot_made_by};
ghost use Rattle.hep_state.specs.Words.{snapshot_moved, snapshot_opened, snapshot_printed, snapshot_resumed, snapshot_returned, snapshot_stopped};
ghost use Rattle.hep_state.specs.Words.{state_answered, state_before, state_failed, state_returned, top_frame, turn_settled, turn_with, unset_opening};
ghost use Rattle.hep_state.specs.declared.next_step.NextCall.{NextCall};
ghost use Rattle.hep_state.specs.declared.next_step.NextPurge.{NextPurge};
ghost use Rattle.hep_proc.specs.FrameTable.{frames_in};
ghost use Rattle.hep_proc.specs.Stacks.{keys_of};

/// A process that has levels lives, and it is its turn unless a STOP has ended all processes. A process that has no
/// levels, or isn't kept, doesn't live.
pub fn turns_are_taken()
    ensures turning { (program : Units) (cells : ℕ) (choices : List ℕ) (m : Snapshot) (p : ℕ) (levels : HasLevels m p)
        → IsAfter program cells choices m → m.halted ≡ false
        → (top : SourceLevel × SourceProcess) × IsTurning (turn_with program cells choices levels top) }
    ensures halted { (program : Units) (cells : ℕ) (choices : List ℕ) (m : Snapshot) (p : ℕ) → IsAfter program cells choices m
        → m.halted ≡ true → IsAbsent program cells choices p m }
    ensures ended { (program : Units) (cells : ℕ) (choices : List ℕ) (m : Snapshot) (p : ℕ) (operands pending : List Value)
        → IsAfter program cells choices m
        → numbered m.processes p ≡ Some (record { levels = []; operands = operands; pending = pending })
        → IsAbsent program cells choices p m }
    ensures none { (program : Units) (cells : ℕ) (choices : List ℕ) (m : Snapshot) (p : ℕ) → IsAfter program cells choices m
        → numbered m.processes p ≡ None → IsAbsent program cells choices p m }
{}

/// The top activation of a process whose turn it is satisfies what the laws of steps require, and each array of its
/// unit has a first storage unit, in each accepted program with a main program.
pub fn tops_are_running()
    ensures running { (t : TurnOf) → IsAccepted t.program → is_some (main_among t.program) ≡ true → (turning : IsTurning t)
        → IsTopRunning t turning }
    ensures arrays { (t : TurnOf) → IsAccepted t.program → is_some (main_among t.program) ≡ true → IsTurning t
        → ArePlacedArrays t.program (unit_at t.program t.level.unit) }
{
    hep_binding::variables_of_the_code_are_placed();
    hep_binding::arrays_are_there();
    hep_binding::programs_are_closed();
    hep_binding::activations_are_bound_in_runs();
}

/// A turn makes one activation and one process at most, and the opening has one of each.
pub fn activations_are_few()
    ensures activations { (program : Units) (cells : ℕ) (choices : List ℕ) (m : Snapshot) → IsAfter program cells choices m
        → m.activations ≤ 1 + length choices }
    ensures processes { (program : Units) (cells : ℕ) (choices : List ℕ) (m : Snapshot) → IsAfter program cells choices m
        → length m.processes ≤ 1 + length choices }
{}

/// Two machines that are alike keep the same states: neither what a hole's cells hold nor the key of a node tells them apart.
pub fn alike_machines_keep_the_same_states()
    ensures { (program : Units) (cells : ℕ) (choices : List ℕ) (old new : Snapshot) → AreAlike old new
        → IsAfter program cells choices old → IsAfter program cells choices new }
{}

/// Two machines that keep states of a program in arenas of the same size have the same holes, if they have the same nodes.
pub fn machines_with_the_same_nodes_have_the_same_holes()
    ensures { (program : Units) (cells : ℕ) (choices turns : List ℕ) (m n : Snapshot) (rename : ℕ → ℕ) → AreRenamed rename m.nodes n.nodes
        → IsAfter program cells choices m → IsAfter program cells turns n → n.arena.holes ≡ m.arena.holes }
{}

/// After the leading constants are pushed the machine shows the same state.
pub fn settled_machines_show_the_same()
    ensures { (t : TurnOf) (operands : List Value) (index : ℕ) → IsTurning t
        → ((k : ℕ) (work : Work) → Stands (unit_addressed t.program t.level.unit) k work t.operands t.level.index
        → Stands (unit_addressed t.program t.level.unit) k work operands index) → IsTurning (turn_settled t operands index) }
{}

/// Where an operation moves the top activation, the machine shows the state after the turn as soon as its cells, and
/// the activation's index and operands, are changed.
pub fn moves_are_shown()
    ensures { (t : TurnOf) (contents : List Slot) (operands : List Value) (index : ℕ) → (turning : IsTurning t)
        → length contents ≡ length t.machine.arena.contents → IsEffectOf t turning (moves contents operands index)
        → HasMadeTurn t (snapshot_moved t contents operands index) }
{}

/// Where the operation prints, the record is appended to the others.
pub fn records_are_shown()
    ensures { (t : TurnOf) (items : List Item) (index : ℕ) → (turning : IsTurning t) → IsEffectOf t turning (prints items index)
        → HasMadeTurn t (snapshot_printed t items index) }
{}

/// Where the operation is a STOP, the machine is halted.
pub fn stops_are_shown()
    ensures { (t : TurnOf) → (turning : IsTurning t) → IsEffectOf t turning stops → HasMadeTurn t (snapshot_stopped t.machine) }
{}

/// Where the operation waits, nothing has changed.
pub fn waiting_is_shown()
    ensures { (t : TurnOf) (cell : ℕ) (full : Bool) → (turning : IsTurning t) → IsEffectOf t turning (waits cell full)
        → HasWaited t.program t.cells t.choices t.process cell full t.machine }
{}

/// The frames of the top activation, or of all activations of a process, can leave the arena.
pub fn frames_can_leave()
    ensures kept { (t : TurnOf) → IsTurning t → AreOfSomeState t.machine.arena t.machine.nodes }
    ensures there { (t : TurnOf) → IsTurning t → t.machine.nodes t.level.key ≡ Some (node_under t.machine.nodes t.level.key) }
    ensures returned { (t : TurnOf) → (turning : IsTurning t)
        → IsEnded t.program turning.after.layout (but (top_frame t).activation (is_stacked (state_before t)))
        (state_before t) (state_returned t) × LeadUpwards (state_returned t) }
    ensures answered { (t : TurnOf) (v : Value) → (turning : IsTurning t)
        → IsEnded t.program turning.after.layout (but (top_frame t).activation (is_stacked (state_before t)))
        (state_before t) (state_answered t v) × LeadUpwards (state_answered t v) }
    ensures all { (t : TurnOf) → IsTurning t → CanAllLeave t.machine.arena t.machine.nodes (keys_of (t.level ∷ t.below))
        × CanLeave t.machine.nodes (is_stacked (state_before t)) (keys_of (t.level ∷ t.below)) (activations_on (t.top.0 ∷ t.top.1)) }
    ensures failed { (t : TurnOf) (kind : Kind) → (turning : IsTurning t)
        → IsEnded t.program turning.after.layout (all_but (activations_on (t.top.0 ∷ t.top.1)) (is_stacked (state_before t)))
        (state_before t) (state_failed t kind) × LeadUpwards (state_failed t kind) }
{}

/// After the top activation has ended and its frame has left, its caller goes on, or the process has ended.
pub fn ends_are_shown()
    ensures { (t : TurnOf) (arena : Space) (nodes : Nodes) → (turning : IsTurning t) → HaveLeft t turning (state_returned t) arena nodes
        → length arena.contents ≡ length t.machine.arena.contents → IsEffectOf t turning returns
        → HasMadeTurn t (snapshot_returned t arena nodes) }
{}

/// After a function on top has ended with a value and its frame has left, the activation below goes on with the
/// operands that it kept, and the value after them.
pub fn answers_are_shown()
    ensures { (t : TurnOf) (v : Value) (arena : Space) (nodes : Nodes) → (turning : IsTurning t)
        → HaveLeft t turning (state_answered t v) arena nodes → length arena.contents ≡ length t.machine.arena.contents
        → IsEffectOf t turning (answers v) → HasMadeTurn t (snapshot_answered t v arena nodes) }
{}

/// After a fault has ended the process and the frames of all its activations have left, the fault is appended to the
/// others.
pub fn faults_are_shown()
    ensures { (t : TurnOf) (arena : Space) (nodes : Nodes) (line : ℕ) (kind : Kind) → (turning : IsTurning t)
        → HaveLeft t turning (state_failed t kind) arena nodes → length arena.contents ≡ length t.machine.arena.contents
        → IsEffectOf t turning (fails line kind) → HasMadeTurn t (snapshot_failed t line kind arena nodes) }
{}

// The laws of other crates about an accepted program with a main program, in one place.
fn programs_are_known()
    ensures { (program : Units) → IsAccepted program → is_some (main_among program) ≡ true → IsKnown program }
{
    hep_binding::works_come_from_statements();
    hep_binding::calls_come_from_statements();
    hep_binding::references_come_from_statements();
    hep_binding::subroutines_are_called();
    hep_binding::functions_are_referred_to();
    hep_binding::programs_are_closed();
    hep_binding::units_are_there();
    hep_binding::activations_are_bound_in_runs();
    hep_step::laws::calls_are_ahead();
    tops_are_running();
}

/// A process at a CALL, CREATE or reference makes an activation of a unit of the program. The unit has as many dummy
/// arguments as there are actual arguments, and what its last operands and the entries after the operation name can
/// be passed. The other operands stay with the process, no more than its unit's deepest stack; a CALL and a CREATE
/// leave none.
pub fn calls_can_be_made()
    ensures inside { (t : TurnOf) (call : NextCall) → IsAccepted t.program → is_some (main_among t.program) ≡ true → IsAtCall t call
        → call.unit < length t.program }
    ensures counted { (t : TurnOf) (call : NextCall) → IsAccepted t.program → is_some (main_among t.program) ≡ true → IsAtCall t call
        → call.count ≡ length (dummies_of (unit_at t.program call.unit)) }
    ensures framed { (t : TurnOf) (call : NextCall) → IsAccepted t.program → is_some (main_among t.program) ≡ true
        → length t.machine.arena.contents ≤ most_cells → IsAtCall t call → HasFrame t.machine.arena (frame_in_arena (top_frame t)) }
    ensures passable { (t : TurnOf) (call : NextCall) → IsAccepted t.program → is_some (main_among t.program) ≡ true
        → (at : IsAtCall t call) → ArePassable t.machine.arena (unit_arrays t.program t.level.unit) (frame_in_arena (top_frame t))
        (passed_from call.count at.step.behind (last_operands call.count at.step.behind t.operands)) }
    ensures few { (t : TurnOf) (call : NextCall) → IsAccepted t.program → is_some (main_among t.program) ≡ true
        → (at : IsAtCall t call) → length t.operands ≤ deepest (unit_code t.program t.level.unit) }
{
    hep_step::passing_laws::callers_can_pass();
    programs_are_known();
    tops_are_running();
}

/// Where a PURGE comes next, the frame of the process is in the arena, and the cells that its targets name can be
/// found and are taken.
pub fn purges_can_be_made()
    ensures framed { (t : TurnOf) (purge : NextPurge) → IsAccepted t.program → is_some (main_among t.program) ≡ true
        → length t.machine.arena.contents ≤ most_cells → IsAtPurge t purge → HasFrame t.machine.arena (frame_in_arena (top_frame t)) }
    ensures passable { (t : TurnOf) (purge : NextPurge) → IsAccepted t.program → is_some (main_among t.program) ≡ true
        → (at : IsAtPurge t purge) → ArePassable t.machine.arena (unit_arrays t.program t.level.unit) (frame_in_arena (top_frame t))
        (passed_from purge.count at.behind t.operands) }
    ensures out { (t : TurnOf) (purge : NextPurge) → IsAccepted t.program → is_some (main_among t.program) ≡ true
        → (at : IsAtPurge t purge) → AreOut t.machine.arena (unit_arrays t.program t.level.unit) (frame_in_arena (top_frame t))
        (passed_from purge.count at.behind t.operands) }
{
    hep_step::purge_laws::purges_are_ready();
    programs_are_known();
    tops_are_running();
}

/// After the cells of its targets are emptied and the process is moved after the statement, the step of a PURGE was
/// made: just the storage units in these cells are empty, and the others are as full as before. Where a target
/// doesn't exist, a fault ends the process, and nothing is emptied. In both cases each frame has its gap.
pub fn purges_are_shown()
    ensures stepped { (t : TurnOf) (purge : NextPurge) (ranges : List ClosedRange) → IsAccepted t.program
        → is_some (main_among t.program) ≡ true → (at : IsAtPurge t purge) → ranges_ahead purge at ≡ Ok ranges
        → HasMadeTurn t (snapshot_moved t (purged ranges t.machine.arena.contents) [] purge.next) }
    ensures purged { (t : TurnOf) (purge : NextPurge) (ranges : List ClosedRange) → IsAccepted t.program
        → is_some (main_among t.program) ≡ true → (at : IsAtPurge t purge) → ranges_ahead purge at ≡ Ok ranges
        → HasPurged t.program t.cells t.choices t.process ranges }
    ensures range { (t : TurnOf) (purge : NextPurge) (kind : Kind) → IsAccepted t.program → is_some (main_among t.program) ≡ true
        → (at : IsAtPurge t purge) → ranges_ahead purge at ≡ Err kind → IsEnding t (fails purge.line kind) }
    ensures nothing { (t : TurnOf) (line : ℕ) (kind : Kind) → IsEnding t (fails line kind)
        → HasPurged t.program t.cells t.choices t.process [] }
    ensures gaps { (t : TurnOf) (purge : NextPurge) → IsAccepted t.program → is_some (main_among t.program) ≡ true → IsAtPurge t purge
        → HasGaps t.program t.cells t.choices t.process }
{
    hep_binding::variables_of_the_code_are_placed();
    hep_step::purge_laws::purges_do_what_the_machine_does();
    hep_step::purge_laws::ranges_are_emptied();
    gaps_are_told();
    programs_are_known();
}

/// RESUME: an activation with another one below becomes a process of its own, and the one below goes on. One with
/// none below only goes on. Nothing is filled or emptied, and no frame enters or leaves.
pub fn resumes_are_shown()
    ensures apart { (t : TurnOf) (next : ℕ) (l : Local) (ls : List Local) → IsAccepted t.program
        → is_some (main_among t.program) ≡ true → (at : IsAtResume t next) → t.below ≡ l ∷ ls → HasMadeTurn t (snapshot_resumed t at.1.turning next) }
    ensures lowest { (t : TurnOf) (next : ℕ) → IsAccepted t.program → is_some (main_among t.program) ≡ true → IsAtResume t next
        → t.below ≡ [] → HasMadeTurn t (snapshot_moved t t.machine.arena.contents t.operands next) }
    ensures nothing { (t : TurnOf) (next : ℕ) → IsAccepted t.program → is_some (main_among t.program) ≡ true → IsAtResume t next
        → Changes t.program t.cells t.choices t.process None }
    ensures gaps { (t : TurnOf) (next : ℕ) → IsAccepted t.program → is_some (main_among t.program) ≡ true → IsAtResume t next
        → HasGaps t.program t.cells t.choices t.process }
{
    hep_binding::works_come_from_statements();
    hep_step::laws::resumes_are_ahead();
    tops_are_running();
}

/// CALL, CREATE and references fill and empty nothing.
pub fn calls_touch_nothing()
    ensures { (t : TurnOf) (call : NextCall) → IsAccepted t.program → is_some (main_among t.program) ≡ true → IsAtCall t call
        → Changes t.program t.cells t.choices t.process None }
{
    tops_are_running();
}

/// The actual arguments give what the dummy arguments of the new activation are associated with. What the bounds of
/// its arrays name can be read, and the arrays have the shapes that are computed. Where an actual argument is no
/// element, or a dummy argument has no shape or more elements than it is given, a fault ends the process (X3.9-1978,
/// 5.5.1 and 15.9.3).
pub fn calls_give_what_is_bound()
    ensures shapable { (t : TurnOf) (call : NextCall) (given : List DummyStorage) (room : ℕ) → IsAccepted t.program
        → is_some (main_among t.program) ≡ true → (at : IsAtCall t call) → given_of call at ≡ Ok given
        → longest_code (dummy_arguments t.program (unit_at t.program call.unit)) ≤ room
        → AreShapable t.machine.arena given room (dummy_arguments t.program (unit_at t.program call.unit)) }
    ensures making { (t : TurnOf) (call : NextCall) (given : List DummyStorage) → IsAccepted t.program → is_some (main_among t.program) ≡ true
        → (at : IsAtCall t call) → given_of call at ≡ Ok given
        → are_fitting t.machine.arena.contents given (dummy_arguments t.program (unit_at t.program call.unit)) ≡ true
        → IsMaking call.way t call.unit (length t.operands - operands_of_entries (take call.count at.step.behind)) call.next given
        (shapes_of t.machine.arena.contents given (dummy_arguments t.program (unit_at t.program call.unit))) }
    ensures range { (t : TurnOf) (call : NextCall) (kind : Kind) → IsAccepted t.program → is_some (main_among t.program) ≡ true
        → (at : IsAtCall t call) → given_of call at ≡ Err kind → IsEnding t (fails call.line kind) }
    ensures shape { (t : TurnOf) (call : NextCall) (given : List DummyStorage) → IsAccepted t.program → is_some (main_among t.program) ≡ true
        → (at : IsAtCall t call) → given_of call at ≡ Ok given
        → are_fitting t.machine.arena.contents given (dummy_arguments t.program (unit_at t.program call.unit)) ≡ false
        → IsEnding t (fails call.line Shape) }
{
    hep_binding::calls_come_from_statements();
    hep_binding::references_come_from_statements();
    hep_binding::actual_arguments_fit();
    hep_binding::variables_are_placed();
    hep_binding::names_are_given_once();
    hep_step::passing_laws::all_actuals_are_passed();
    hep_binding::shape_laws::calls_are_shapable();
    hep_binding::shape_laws::shapes_decide_bindings();
    hep_binding::laws::calls_make_activations();
    hep_step::laws::calls_are_ahead();
    programs_are_known();
}

/// Where the arena has no gap as long as the frame of the called unit, the step's frame has none. Where it has one,
/// or a fault ends the process, each frame has its gap.
pub fn gaps_are_told()
    ensures none { (way : CallKind) (t : TurnOf) (u n entry kept index : ℕ) (given : List DummyStorage) (shapes : List (Option Bounds))
        → IsMaking way t u kept index given shapes → IsUnit t.program u n entry → first_fit n t.machine.arena.holes ≡ None
        → HasNoGap t.program t.cells t.choices t.process }
    ensures some { (way : CallKind) (t : TurnOf) (u n entry kept index : ℕ) (given : List DummyStorage) (shapes : List (Option Bounds))
        → IsMaking way t u kept index given shapes → IsUnit t.program u n entry → IsSome (first_fit n t.machine.arena.holes)
        → HasGaps t.program t.cells t.choices t.process }
    ensures fault { (t : TurnOf) (line : ℕ) (kind : Kind) → IsEnding t (fails line kind)
        → HasGaps t.program t.cells t.choices t.process }
{}

/// Where the next operation is no CALL, CREATE, reference or PURGE, the step makes no activation, and so each frame
/// has its gap.
pub fn other_steps_find_gaps()
    ensures { (program : Units) (cells : ℕ) (choices : List ℕ) (m : Snapshot) (p : ℕ) → IsAccepted program
        → is_some (main_among program) ≡ true → IsAfter program cells choices m → m.halted ≡ false → IsWithoutCall program p m
        → HasGaps program cells choices p }
{
    hep_step::laws::operations_do_what_the_machine_does();
    turns_are_taken();
    tops_are_running();
}

/// After the frame of the activation that a CALL, CREATE or reference makes has entered and its cells are written, a
/// step was made. The new activation is on top of the one that makes it, which keeps some operands, or in a process
/// of its own. The one that makes it goes on at an index.
pub fn calls_are_shown()
    ensures { (way : CallKind) (t : TurnOf) (u key kept index : ℕ) (actuals : List Actual) (b : Binding) (arena : Space) (nodes : Nodes)
        → (turning : IsTurning t) → HasEntered t turning u key (state_made_by (is_creation way) (call_in t u actuals b)) arena nodes
        → IsAfterCall way t u kept index → HasMadeTurn t (snapshot_made_by (is_creation way) t u key kept index arena nodes) }
{}

/// After the frame of the main program has entered and DATA has given the cells their values, the machine shows the
/// opening, with process 1 at the main program's first executable statement.
pub fn openings_are_shown()
    ensures opening { (program : Units) → IsOpening program (unset_opening program) }
    ensures entered { (program : Units) (cells key : ℕ) (layout : Layout) (arena : Space) (nodes : Nodes) (node : FrameNode)
        → opening_layout program cells ≡ Some layout → length arena.contents ≡ cells
        → Keeps (record (frames_in program (unset_opening program) (λ a. nat_eq a 1) layout) {
          wanted = descriptor_slots program (unset_opening program) (first_frames program);
        }) arena nodes → nodes key ≡ Some node → node.activation ≡ 1
        → IsEntered program cells key arena nodes }
    ensures shown { (program : Units) (cells key entry : ℕ) (rows : List DataRow) (before after : Space) (nodes : Nodes)
        → IsEntered program cells key before nodes → IsGiven rows before after → AreInitial program rows → AreOfUnits program rows
        → main_unit program < length program → entry ≡ entry_index (unit_addressed program (main_unit program))
        → IsAfter program cells [] (snapshot_opened program key entry after nodes) }
{}
