//! Laws of new activations: nothing is stored in them at first, and after their dummy arguments are written the
//! machine keeps the state that a CALL, CREATE or reference leads to.
ghost use Rattle.std.specs.Prelude.{◌≡◌, ◌+◌, ◌*◌, ℕ, Bool, false, List, Some, length, slice_get};
ghost use Rattle.hep_machine.specs.Words.{Name, Statement, index_among, dummies_of, adjustable_dimensions, next_of, Frame, Layout};
ghost use Rattle.hep_machine.specs.Words.{dummy_at, activation_of, living, Bounds, Dummy, State, Store, local, step};
ghost use Rattle.hep_machine.specs.Words.{unit_on_top, adjustable_dimensions_of_all, frame_cells};
ghost use Rattle.hep_machine.specs.declared.shape.Bound.{Bound};
ghost use Rattle.hep_arena.specs.Gaps.{frame_among};
ghost use Rattle.hep_arena.specs.Space.{Space};
ghost use Rattle.hep_layout.specs.Words.{IsLaid, Nodes};
ghost use Rattle.hep_proc.specs.FrameTable.{FramesOf, IsBegun, Keeps};
ghost use Rattle.hep_step.specs.declared.dummy_storage.DummyStorage.{DummyStorage};
ghost use Rattle.hep_step.specs.declared.call_kind.CallKind.{CallKind};
ghost use Rattle.hep_step.specs.NextCalls.{comes_by, is_creation, unit_by};
ghost use Rattle.hep_binding.specs.Calling.{AreAllKept, ArePassed, CallOf, IsAllWritten, IsKeptIn, IsPassing, IsWritten};
ghost use Rattle.hep_binding.specs.Calling.{called_activation, caller, frames_before_call, layout_with, state_before_call, state_begun};
ghost use Rattle.hep_binding.specs.Calling.{state_made_by, unit_begun};
ghost use Rattle.hep_binding.specs.ActualArguments.{IsGiven, with_given, with_one_given};
ghost use Rattle.hep_binding.specs.AdjustableBounds.{IsBoundPut, IsShaping, cells_to_bounds_of, cells_to_locals};
ghost use Rattle.hep_binding.specs.FrameWriting.{IsBinding, IsPut, stored_in, unit_framed, unwritten, written_up_to};

/// The cells of a new frame are written one after another, each by one write of a storage unit or of another cell.
/// Before the first write all are unset; afterwards the two cells of each dummy argument, and of each dimension of an
/// adjustable array, have the required values.
pub fn cells_are_written_in_order()
    ensures none { (f : FramesOf) (s : State) (a : ℕ) (arena : Space) (nodes : Nodes) → f.state.activations ≡ s.activations
        → Keeps (unwritten f s a) arena nodes → Keeps (stored_in (written_up_to f a 1) s.store) arena nodes }
    ensures dummy { (f : FramesOf) (a : ℕ) (nodes : Nodes) (frame : Frame) (k : ℕ) (x : Name) (d : Dummy) (store : Store)
        (before after : Space) (given : DummyStorage) → frame_among a f.layout ≡ Some frame
        → index_among x (dummies_of (unit_framed f a)) ≡ Some k → dummy_at (activation_of f.state a).dummies k ≡ d
        → IsGiven f.program f.state f.layout a x d given → (store (local a x 1)).full ≡ false
        → IsPut (frame.first + (1 + 2 * k)) given before after
        → Keeps (stored_in (written_up_to f a (1 + 2 * k)) store) before nodes
        → Keeps (stored_in (written_up_to f a (1 + 2 * (k + 1))) (with_one_given store a x given)) after nodes }
    ensures dimension { (f : FramesOf) (a k at j : ℕ) (shape : Bounds) (nodes : Nodes) (b : Bound) (before after : Space)
        → IsShaping f.program f.state f.layout a k at shape → slice_get shape j ≡ Some b
        → IsBoundPut (at + 2 * j) b.lower b.upper before after
        → Keeps (written_up_to f a (cells_to_bounds_of (unit_framed f a) k + 2 * j)) before nodes
        → Keeps (written_up_to f a (cells_to_bounds_of (unit_framed f a) k + 2 * (j + 1))) after nodes }
{}

/// Nothing is stored at first in the activation that a CALL, a CREATE or a reference makes. Its dummy arguments are
/// associated with what the actual arguments give, in the layout with its frame, and the values among them are what
/// the binding stores.
pub fn dummies_are_bound()
    ensures begun { (call : CallOf) → IsBegun (state_before_call call) (state_begun call) (called_activation call) }
    ensures stored { (call : CallOf) (t : State) (layout : Layout) (given : List DummyStorage) → IsPassing call → ArePassed call layout given
        → t.activations ≡ (state_begun call).activations → t.store ≡ call.binding.store
        → t.store ≡ with_given (state_before_call call).store (length t.activations) (dummies_of (unit_begun call.program t)) given }
    ensures binding { (call : CallOf) (t : State) (layout : Layout) (first cells : ℕ) (given : List DummyStorage) → IsPassing call
        → ArePassed call layout given → t.activations ≡ (state_begun call).activations
        → IsLaid call.program (state_before_call call) cells layout
        → IsBinding call.program t (layout_with call.program t layout first) (length t.activations) first given }
{}

/// The step of a process at a CALL, CREATE or reference whose actual arguments are bound without a fault leads to the
/// state with the new activation, on top of its caller or in a process of its own.
pub fn calls_make_activations()
    ensures { (way : CallKind) (call : CallOf) (x : Name) → (state_before_call call).halted ≡ false
        → call.unit ≡ unit_by way call.program x → IsPassing call
        → next_of (unit_on_top call.program (caller call)) call.top.0.work ≡ comes_by way x call.actuals
        → step call.program call.process (state_before_call call) ≡ Some (state_made_by (is_creation way) call) }
{}

/// After the cells of the dummy arguments are written, all others are unset, up to the bounds of adjustable arrays.
/// After these are written, one dummy argument after another, all cells have their values.
pub fn other_cells_are_unset()
    ensures made { (creates : Bool) (call : CallOf) (layout : Layout) (first : ℕ) (out : ℕ → Bool) (arena : Space) (nodes : Nodes)
        → living (state_before_call call) call.process ≡ Some call.top
        → step call.program call.process (state_before_call call) ≡ Some (state_made_by creates call)
        → IsWritten (frames_before_call call out layout) (state_made_by creates call) first
        (cells_to_locals (unit_begun call.program (state_made_by creates call))) arena nodes
        → IsWritten (frames_before_call call out layout) (state_made_by creates call) first
        (cells_to_bounds_of (unit_begun call.program (state_made_by creates call)) 0) arena nodes }
    ensures next { (unit : List Statement) (k : ℕ) (x : Name) → slice_get (dummies_of unit) k ≡ Some x
        → cells_to_bounds_of unit (k + 1) ≡ cells_to_bounds_of unit k + 2 * adjustable_dimensions unit x }
    ensures plain { (unit : List Statement) → adjustable_dimensions_of_all unit (dummies_of unit) ≡ 0
        → cells_to_bounds_of unit 0 ≡ frame_cells unit }
    ensures all { (unit : List Statement) → cells_to_bounds_of unit (length (dummies_of unit)) ≡ frame_cells unit }
{}

/// After all cells of the new activation's frame are written, the arena keeps the frames of the state with it.
pub fn frames_are_entered()
    ensures { (creates : Bool) (call : CallOf) (layout : Layout) (first cells : ℕ) (out : ℕ → Bool) (arena : Space) (nodes : Nodes)
        → living (state_before_call call) call.process ≡ Some call.top → IsLaid call.program (state_before_call call) cells layout
        → IsAllWritten (frames_before_call call out layout) (state_made_by creates call) first arena nodes
        → IsKeptIn (frames_before_call call out layout) (state_made_by creates call) first arena nodes }
{}

/// What dummy arguments of activations on stacks are associated with, if it isn't their own, is in consecutive cells,
/// also after the new activation is made.
pub fn references_are_kept()
    ensures { (creates : Bool) (call : CallOf) (layout : Layout) (first cells : ℕ) (given : List DummyStorage) → IsPassing call
        → ArePassed call layout given → IsLaid call.program (state_before_call call) cells layout
        → AreAllKept call.program (state_before_call call) layout
        → AreAllKept call.program (state_made_by creates call) (layout_with call.program (state_made_by creates call) layout first) }
{}
