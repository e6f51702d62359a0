//! Laws of the frames of states.
ghost use Rattle.std.specs.Prelude.{◌≡◌, ◌+◌, ◌<◌, ◌^◌, [], ℕ, Bool, List, Some, length};
ghost use Rattle.hep_machine.specs.Words.{Units, dummies_of, main_unit, unit_at, unset_cell, Layout, is_held};
ghost use Rattle.hep_machine.specs.Words.{remaining_layout, run, State};
ghost use Rattle.hep_machine.specs.declared.slot.Slot.{Slot};
ghost use Rattle.hep_arena.specs.Space.{Space};
ghost use Rattle.hep_layout.specs.Words.{DescriptorSlots, descriptor_slots, FramePart, Nodes};
ghost use Rattle.hep_proc.specs.Nodes.{CanCount};
ghost use Rattle.hep_proc.specs.FrameTable.{FramesOf, IsOpening, Keeps, frames_in, frames_of};

/// The frames of a state are also those of another state with the same activations, the same store and the same
/// stacks, if that requires no more of the cells that keep no storage unit.
pub fn frames_are_of_states_alike()
    ensures { (f : FramesOf) (t : State) (now : ℕ → Bool) (after : DescriptorSlots) (arena : Space) (nodes : Nodes)
        → Keeps f arena nodes → t.activations ≡ f.state.activations → t.store ≡ f.state.store → ((a : ℕ) → now a ≡ f.on a)
        → ((a : ℕ) (c : FramePart × ℕ) (v : Slot) → after a c ≡ Some v → f.wanted a c ≡ Some v)
        → Keeps (record f { state = t; on = now; wanted = after }) arena nodes }
{}

/// A node has no more children than there are activations, so that one more can be counted.
pub fn children_are_activations()
    ensures { (f : FramesOf) (arena : Space) (nodes : Nodes) (key : ℕ) → Keeps f arena nodes
        → length f.state.activations + 1 < 2 ^ 64 → CanCount nodes key }
{}

/// At the opening of a program whose main program has no dummy arguments, the cells of its frame only have to be
/// unset.
pub fn openings_want_unset_cells()
    ensures { (program : Units) (s : State) (layout : Layout) (c : FramePart × ℕ) (v : Slot) → IsOpening program s
        → dummies_of (unit_at program (main_unit program)) ≡ [] → descriptor_slots program s layout 1 c ≡ Some v → v ≡ unset_cell }
{}

/// After a run the frames are those of the held activations alone. So the frames left in a layout are those that the
/// source machine leaves.
pub fn frames_are_of_held_activations()
    ensures out { (program : Units) (processes : List ℕ) (out : ℕ → Bool) (layout : Layout) (wanted : DescriptorSlots) (arena : Space)
        (nodes : Nodes) (a : ℕ) → Keeps (record (frames_in program (run program processes) out layout) { wanted = wanted }) arena nodes
        → out a ≡ is_held (run program processes) a }
    ensures layout { (program : Units) (processes : List ℕ) (out : ℕ → Bool) (layout before : Layout) (wanted : DescriptorSlots)
        (arena : Space) (nodes : Nodes)
        → Keeps (record (frames_in program (run program processes) out layout) { wanted = wanted }) arena nodes
        → frames_of out before ≡ remaining_layout is_held (run program processes) before }
{}
