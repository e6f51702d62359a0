//! A new activation's frame enters the arena, with its dummy arguments.
ghost use Rattle.std.specs.Prelude.{◌≡◌, ℕ, Bool, Some, None, length};
ghost use Rattle.hep_machine.specs.Words.{Layout, common_cells, frame_of, lowest_gap, State};
ghost use Rattle.hep_arena.specs.Holes.{first_fit};
ghost use Rattle.hep_layout.specs.Words.{new_node, with_node, FrameNode};
ghost use Rattle.hep_proc.specs.FrameTable.{Keeps};
ghost use Rattle.hep_proc.specs.Nodes.{nodes_of};
ghost use Rattle.hep_binding.specs.Calling.{ArePassed, CallOf, CanBeginWith, IsPassing, IsWritten, frames_before_call, state_begun, unit_begun};
ghost use Rattle.hep_binding.specs.AdjustableBounds.{cells_to_locals};

use crate::binding::bind;
use hep_proc::{Frames, NewFrame};
use hep_step::DummyStorage;

/// Enters the frame of a new activation, and writes what is given to the cells of its dummy arguments. Returns the
/// key of its node.
///
/// There is room for a node, and a gap for the frame, which has room for a header and the dummy arguments.
#[inline(always)]
pub fn begin(frames: &mut Frames, entrant: NewFrame, given: &[DummyStorage]) -> usize
    requires { CanBeginWith frames.old entrant given.now }
    ensures vacant { nodes_of frames.old.nodes result ≡ None }
    ensures nodes { (first : ℕ) → first_fit entrant.cells frames.old.arena.holes ≡ Some first
        → nodes_of frames.new.nodes ≡ with_node (nodes_of frames.old.nodes) result
        (new_node entrant.activation entrant.unit first entrant.cells entrant.parent) entrant.parent }
    ensures cells { length frames.new.arena.contents ≡ length frames.old.arena.contents }
    ensures written { (call : CallOf) (t : State) (layout : Layout) (out : ℕ → Bool) (n : FrameNode)
        → Keeps (frames_before_call call out layout) frames.old.arena (nodes_of frames.old.nodes)
        → nodes_of frames.old.nodes entrant.parent ≡ Some n → n.activation ≡ call.top.0.activation → IsPassing call
        → ArePassed call layout given.now → t.activations ≡ (state_begun call).activations → t.store ≡ call.binding.store
        → entrant.activation ≡ length t.activations → entrant.unit ≡ call.unit
        → entrant.cells ≡ frame_of call.program t (length t.activations)
        → (first : ℕ) × (first_fit entrant.cells frames.old.arena.holes ≡ Some first)
        × (lowest_gap (length frames.old.arena.contents) entrant.cells (common_cells call.program) layout ≡ Some first)
        × IsWritten (frames_before_call call out layout) t first (cells_to_locals (unit_begun call.program t)) frames.new.arena
        (nodes_of frames.new.nodes) }
{
    let key = frames.enter(entrant);
    let first = frames.first(key);
    bind(frames, first, given);
    key
}
