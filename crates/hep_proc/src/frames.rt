//! The table of frames.
ghost use Rattle.std.specs.Prelude.{◌≡◌, ◌+◌, ◌<◌, ◌≤◌, [], ℕ, nat_eq, Bool, List, Some, None, IfOk, IsOk, IsSome, OnOk, length};
ghost use Rattle.std.specs.Prelude.{slice_get, slice_set, true, false};
ghost use Rattle.std.specs.Option.{is_some};
ghost use Rattle.slab.specs.Slab.{ContainsKey, HasRoomFor, slab_len};
ghost use Rattle.hep_machine.specs.Words.{Units, main_unit, unset_cell, Layout, common_cells, frame_of, lowest_gap, opening_layout};
ghost use Rattle.hep_machine.specs.Words.{run, Activation, Location, State, with_cell};
ghost use Rattle.hep_machine.specs.declared.slot.Slot.{Slot};
ghost use Rattle.hep_arena.specs.Gaps.{framed_cells};
ghost use Rattle.hep_arena.specs.Holes.{IsOut, first_fit, free_cells};
ghost use Rattle.hep_layout.specs.Words.{address, frame_address, DescriptorSlots, is_descriptor, FramePart, FrameNode};
ghost use Rattle.hep_layout.specs.Words.{but, first_nodes, is_stacked, new_node, with_node, without_node};
ghost use Rattle.hep_proc.specs.Nodes.{nodes_of};
ghost use Rattle.hep_proc.specs.FrameTable.{AreOfSomeState, CanAllLeave, CanLeave, HasLeft, IsBegun, IsEnded, IsOpening, IsTaken, IsUnused};
ghost use Rattle.hep_proc.specs.FrameEntry.{CanEnter, CanGoBack, HasPlaceFor, IsCellOut, IsGivenBack};
ghost use Rattle.hep_proc.specs.FrameTable.{FramesOf, Keeps, LeadUpwards, all_but, as_wanted, frames_begun, frames_in};

use crate::nodes::{self, Node};
use hep_arena::Arena;
use hep_machine::Slot;
use slab::Slab;
use std::alloc::{AllocError, Global};

/// An activation whose frame enters the arena: its number, the index of its unit, the number of cells of its frame,
/// and the key of its parent's node.
#[derive(Clone, Copy)]
pub struct NewFrame {
    pub activation: u64,
    pub unit: u32,
    pub cells: u32,
    pub parent: usize,
}

/// The arena, and a node for each frame in it, under a key of its own.
#[derive(Drop)]
pub struct Frames {
    nodes: Slab<Node>,
    /// The cells. Frames are entered and given back by calls of this type alone.
    pub arena: Arena,
}

impl Frames {
    /// An arena of `cells` cells, of which the first `common` are COMMON's. These are taken and have no value, and
    /// there is no frame.
    ///
    /// `cells` is 1 to 16,777,216. Fails where memory was refused.
    pub fn new(alloc: Global, cells: u32, common: u32) -> Result<Frames, AllocError>
        requires some { 1 ≤ cells }
        requires few { cells ≤ 16777216 }
        requires fits { common ≤ cells }
        ensures cells { IfOk result (λ frames. length frames.arena.contents ≡ cells) }
        ensures unused { IfOk result (λ frames. IsUnused common frames.arena (nodes_of frames.nodes)) }
    {
        let mut arena = Arena::new(alloc, cells)?;
        if common > 0 {
            // COMMON is never given back.
            let _common = arena.take(common);
        }
        Ok(Frames {
            nodes: Slab::new(alloc),
            arena,
        })
    }

    /// The same frames under the same keys, in memory of their own.
    ///
    /// Fails only where memory was refused.
    pub fn copy(&self, alloc: Global) -> Result<Frames, AllocError>
        ensures arena { IfOk result (λ copy. copy.arena ≡ self.now.arena) }
        ensures nodes { IfOk result (λ copy. nodes_of copy.nodes ≡ nodes_of self.now.nodes) }
    {
        let nodes = self.nodes.clone()?;
        let arena = self.arena.copy(alloc)?;
        Ok(Frames { nodes, arena })
    }

    /// The number of taken cells.
    pub fn used(&self) -> u32
        ensures cells { result + free_cells self.now.arena.holes ≡ length self.now.arena.contents }
        ensures used { (f : FramesOf) → Keeps f self.now.arena (nodes_of self.now.nodes)
            → result ≡ common_cells f.program + framed_cells f.layout }
    {
        self.arena.used()
    }

    /// Whether there is a gap of `cells` cells.
    #[inline(always)]
    pub fn fits(&self, cells: u32) -> bool
        ensures fit { result ≡ is_some (first_fit cells self.now.arena.holes) }
        ensures opening { (program : Units) → IsUnused (common_cells program) self.now.arena (nodes_of self.now.nodes)
            → cells ≡ frame_of program (run program []) 1 → result ≡ is_some (opening_layout program (length self.now.arena.contents)) }
        ensures gap { (f : FramesOf) → Keeps f self.now.arena (nodes_of self.now.nodes) → 1 ≤ cells
            → result ≡ is_some (lowest_gap (length self.now.arena.contents) cells (common_cells f.program) f.layout) }
    {
        self.arena.fits(cells)
    }

    /// Makes room for one more node.
    ///
    /// Fails where memory was refused; nothing has changed then.
    #[inline(always)]
    pub fn reserve(&mut self) -> Result<(), AllocError>
        ensures room { OnOk result (HasRoomFor self.new.nodes 1) }
        ensures made { HasRoomFor self.old.nodes 1 → IsOk result }
        ensures nodes { nodes_of self.new.nodes ≡ nodes_of self.old.nodes }
        ensures arena { self.new.arena ≡ self.old.arena }
    {
        self.nodes.reserve(1)
    }

    /// Enters the frame of the main program's activation, which runs the unit of this index. Returns the key of its
    /// node.
    ///
    /// There is no frame yet, there is room for a node, and there is a gap of `cells` cells, one at least.
    pub fn open(&mut self, unit: u32, cells: u32) -> usize
        requires room { HasRoomFor self.old.nodes 1 }
        requires some { 1 ≤ cells }
        requires gap { IsSome (first_fit cells self.old.arena.holes) }
        ensures taken { (first : ℕ) → first_fit cells self.old.arena.holes ≡ Some first
            → IsTaken cells first self.old.arena self.new.arena }
        ensures nodes { (first : ℕ) → first_fit cells self.old.arena.holes ≡ Some first → ((key : ℕ) → nodes_of self.old.nodes key ≡ None)
            → nodes_of self.new.nodes ≡ first_nodes result unit first cells }
        ensures opened { (program : Units) (s : State) (wanted : DescriptorSlots)
            → IsUnused (common_cells program) self.old.arena (nodes_of self.old.nodes) → IsOpening program s → unit ≡ main_unit program
            → cells ≡ frame_of program s 1 → ((c : FramePart × ℕ) (v : Slot) → wanted 1 c ≡ Some v → v ≡ unset_cell) → (layout : Layout)
            × (opening_layout program (length self.old.arena.contents) ≡ Some layout)
            × Keeps (record (frames_in program s (λ a. nat_eq a 1) layout) { wanted = wanted }) self.new.arena (nodes_of self.new.nodes) }
    {
        self.add(1, unit, cells, None)
    }

    /// Enters the frame of a new activation. Returns the key of its node.
    ///
    /// There is room for a node, and a gap for the cells of the frame, one at least.
    #[inline(always)]
    pub fn enter(&mut self, entrant: NewFrame) -> usize
        requires { CanEnter entrant self.old }
        ensures vacant { nodes_of self.old.nodes result ≡ None }
        ensures taken { (first : ℕ) → first_fit entrant.cells self.old.arena.holes ≡ Some first
            → IsTaken entrant.cells first self.old.arena self.new.arena }
        ensures nodes { (first : ℕ) → first_fit entrant.cells self.old.arena.holes ≡ Some first
            → nodes_of self.new.nodes ≡ with_node (nodes_of self.old.nodes) result
            (new_node entrant.activation entrant.unit first entrant.cells entrant.parent) entrant.parent }
        ensures begun { (f : FramesOf) (t : State) (x : Activation) (n : FrameNode) → Keeps f self.old.arena (nodes_of self.old.nodes)
            → nodes_of self.old.nodes entrant.parent ≡ Some n → IsBegun f.state t x → x.parent ≡ Some n.activation
            → entrant.activation ≡ length t.activations → entrant.unit ≡ x.unit
            → entrant.cells ≡ frame_of f.program t (length t.activations) → (first : ℕ)
            × (lowest_gap (length self.old.arena.contents) entrant.cells (common_cells f.program) f.layout ≡ Some first)
            × Keeps (frames_begun f t first) self.new.arena (nodes_of self.new.nodes) }
    {
        let NewFrame {
            activation,
            unit,
            cells,
            parent,
        } = entrant;
        let key = self.add(activation, unit, cells, Some(parent));
        nodes::gain_child(&mut self.nodes, parent);
        key
    }

    // Adds a node without children, and its block.
    #[inline(always)]
    fn add(&mut self, activation: u64, unit: u32, cells: u32, parent: Option<usize>) -> usize
        requires { HasPlaceFor cells self.old }
        ensures vacant { nodes_of self.old.nodes result ≡ None }
        ensures node { (first : ℕ) → first_fit cells self.old.arena.holes ≡ Some first
            → nodes_of self.new.nodes result ≡ Some (record {
              activation = activation;
              unit = unit;
              first = first;
              cells = cells;
              parent = parent;
              children = 0;
              finished = false;
            }) }
        ensures others { (k : ℕ) → nat_eq k result ≡ false → nodes_of self.new.nodes k ≡ nodes_of self.old.nodes k }
        ensures taken { (first : ℕ) → first_fit cells self.old.arena.holes ≡ Some first
            → IsTaken cells first self.old.arena self.new.arena }
    {
        let block = self.arena.take(cells).unwrap();
        self.nodes.insert_reserved(Node {
            activation,
            unit,
            block,
            parent,
            children: 0,
            finished: false,
        })
    }

    /// Notes that the activation under a key has ended. Its frame is given back if no child of it is in the arena;
    /// and then its parent's, if that has ended and has no other child, and so on upwards.
    #[inline(always)]
    pub fn leave(&mut self, key: usize)
        requires there { ContainsKey self.old.nodes key }
        requires kept { AreOfSomeState self.old.arena (nodes_of self.old.nodes) }
        ensures left { (f : FramesOf) (n : FrameNode) → Keeps (as_wanted f) self.old.arena (nodes_of self.old.nodes)
            → nodes_of self.old.nodes key ≡ Some n → LeadUpwards f.state
            → HasLeft (record f { on = but n.activation f.on }) self.old.arena self.new.arena (nodes_of self.old.nodes)
            (nodes_of self.new.nodes) }
        ensures ended { (program : Units) (s t : State) (out : ℕ → Bool) (layout : Layout) (n : FrameNode)
            → Keeps (frames_in program s out layout) self.old.arena (nodes_of self.old.nodes) → nodes_of self.old.nodes key ≡ Some n
            → IsEnded program layout (but n.activation (is_stacked s)) s t → LeadUpwards t
            → HasLeft (frames_in program t out layout) self.old.arena self.new.arena (nodes_of self.old.nodes) (nodes_of self.new.nodes) }
        ensures cells { length self.new.arena.contents ≡ length self.old.arena.contents }
    {
        nodes::end(&mut self.nodes, key);
        let mut next = Some(key);
        while let Some(at) = next {
            let node = &self.nodes[at];
            if !node.finished || node.children > 0 {
                return;
            }
            next = self.give(at);
        }
    }

    /// Notes that several activations have ended, one after another, as a fault ends those of a process from the top
    /// of its stack on. Their frames are given back as by [`Frames::leave`].
    pub fn leave_all(&mut self, keys: &[usize])
        requires { CanAllLeave self.old.arena (nodes_of self.old.nodes) keys.now }
        ensures left { (f : FramesOf) (ends : List ℕ) → Keeps (as_wanted f) self.old.arena (nodes_of self.old.nodes)
            → CanLeave (nodes_of self.old.nodes) f.on keys.now ends → LeadUpwards f.state
            → HasLeft (record f { on = all_but ends f.on }) self.old.arena self.new.arena (nodes_of self.old.nodes)
            (nodes_of self.new.nodes) }
        ensures ended { (program : Units) (s t : State) (out : ℕ → Bool) (layout : Layout) (ends : List ℕ)
            → Keeps (frames_in program s out layout) self.old.arena (nodes_of self.old.nodes)
            → CanLeave (nodes_of self.old.nodes) (is_stacked s) keys.now ends
            → IsEnded program layout (all_but ends (is_stacked s)) s t → LeadUpwards t
            → HasLeft (frames_in program t out layout) self.old.arena self.new.arena (nodes_of self.old.nodes) (nodes_of self.new.nodes) }
        ensures cells { length self.new.arena.contents ≡ length self.old.arena.contents }
    {
        for key in keys {
            self.leave(*key);
        }
    }

    // Gives the frame under a key back, and returns its parent's key.
    #[inline(always)]
    fn give(&mut self, key: usize) -> Option<usize>
        requires { CanGoBack key self.old }
        ensures parent { (n : FrameNode) → nodes_of self.old.nodes key ≡ Some n → result ≡ n.parent }
        ensures nodes { (n : FrameNode) → nodes_of self.old.nodes key ≡ Some n → (k : ℕ)
            → nodes_of self.new.nodes k ≡ without_node (nodes_of self.old.nodes) key n k }
        ensures len { slab_len self.new.nodes + 1 ≡ slab_len self.old.nodes }
        ensures back { (n : FrameNode) → nodes_of self.old.nodes key ≡ Some n → IsGivenBack n self.old.arena self.new.arena }
        ensures cells { length self.new.arena.contents ≡ length self.old.arena.contents }
    {
        let node = self.nodes.remove(key);
        let above = node.parent;
        self.arena.give(node.block);
        if let Some(parent) = above {
            nodes::lose_child(&mut self.nodes, parent);
        }
        above
    }

    /// The first cell of the frame under a key.
    #[inline(always)]
    pub fn first(&self, key: usize) -> u32
        requires { ContainsKey self.now.nodes key }
        ensures { (n : FrameNode) → nodes_of self.now.nodes key ≡ Some n → result ≡ n.first }
    {
        self.nodes[key].block.at()
    }

    /// The number of cells of the frame under a key.
    #[inline(always)]
    pub fn cells(&self, key: usize) -> u32
        requires { ContainsKey self.now.nodes key }
        ensures { (n : FrameNode) → nodes_of self.now.nodes key ≡ Some n → result ≡ n.cells }
    {
        self.nodes[key].block.len()
    }

    /// The number of the activation whose frame is under a key.
    pub fn activation(&self, key: usize) -> u64
        requires { ContainsKey self.now.nodes key }
        ensures { (n : FrameNode) → nodes_of self.now.nodes key ≡ Some n → result ≡ n.activation }
    {
        self.nodes[key].activation
    }

    /// The index of the unit of the activation whose frame is under a key.
    pub fn unit(&self, key: usize) -> u32
        requires { ContainsKey self.now.nodes key }
        ensures { (n : FrameNode) → nodes_of self.now.nodes key ≡ Some n → result ≡ n.unit }
    {
        self.nodes[key].unit
    }

    /// The key of the parent's frame of the frame under a key. `None` for the main program's.
    pub fn parent(&self, key: usize) -> Option<usize>
        requires { ContainsKey self.now.nodes key }
        ensures { (n : FrameNode) → nodes_of self.now.nodes key ≡ Some n → result ≡ n.parent }
    {
        self.nodes[key].parent
    }

    /// The slot of a taken cell.
    pub fn get(&self, at: u32) -> Slot
        requires inside { at < length self.now.arena.contents }
        requires out { IsOut at self.now.arena.holes }
        ensures slot { slice_get self.now.arena.contents at ≡ Some result }
        ensures unit { (f : FramesOf) (place : Location) → Keeps f self.now.arena (nodes_of self.now.nodes)
            → address f.program f.state f.layout place ≡ Some at → result ≡ f.state.store place }
    {
        self.arena.get(at)
    }

    /// Writes the slot of a taken cell.
    pub fn set(&mut self, at: u32, slot: Slot)
        requires { IsCellOut at self.old.arena }
        ensures contents { self.new.arena.contents ≡ slice_set self.old.arena.contents at slot }
        ensures holes { self.new.arena.holes ≡ self.old.arena.holes }
        ensures nodes { nodes_of self.new.nodes ≡ nodes_of self.old.nodes }
        ensures unit { (f : FramesOf) (t : State) (place : Location) → Keeps f self.old.arena (nodes_of self.old.nodes)
            → address f.program f.state f.layout place ≡ Some at → t.activations ≡ f.state.activations
            → t.store ≡ with_cell f.state.store place slot → Keeps (record f { state = t }) self.new.arena (nodes_of self.new.nodes) }
        ensures descriptor { (f : FramesOf) (after : DescriptorSlots) (a : ℕ) (c : FramePart × ℕ)
            → Keeps f self.old.arena (nodes_of self.old.nodes) → is_descriptor f.program f.state a c ≡ true
            → frame_address f.program f.state f.layout a c ≡ Some at → after a c ≡ Some slot
            → ((b : ℕ) (d : FramePart × ℕ) (v : Slot) → ((a ≡ b) × (c ≡ d) → ⊥) → after b d ≡ Some v → f.wanted b d ≡ Some v)
            → Keeps (record f { wanted = after }) self.new.arena (nodes_of self.new.nodes) }
    {
        self.arena.set(at, slot);
    }
}
