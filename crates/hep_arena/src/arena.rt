//! The arena.
ghost use Rattle.std.specs.Prelude.{◌≡◌, ◌⊎◌, ◌∷◌, [], ℕ, ◌+◌, ◌<◌, ◌≤◌, length, slice_get, slice_range, slice_set, Some, None, IfOk};
ghost use Rattle.std.specs.Prelude.{IfSome, MatchOption};
ghost use Rattle.std.specs.Borrow.{sem};
ghost use Rattle.std.specs.Option.{is_some};
ghost use Rattle.hep_machine.specs.Words.{unset_cell};
ghost use Rattle.hep_arena.specs.Holes.{AreHoles, IsOut, first_fit, free_cells, given, taken};

use crate::block::Block;
use crate::cell::Cell;
use crate::holes::Holes;
use crate::region::{Lease, Region, parted, rejoined};
use hep_machine::Slot;
use std::alloc::{AllocError, Global};
use std::marker::Model;

/// An arena of cells, from which blocks are allocated and freed. Contracts see the slots of the cells, and the
/// holes: the maximal runs of free cells, in rising order. A cell is allocated while it is in no hole, and a block is
/// allocated while all its cells are.
pub struct Arena {
    region: Region,
    lease: Lease,
    holes: Holes,
    used: u32,
}

impl Model for Arena {
    ghost use Rattle.std.specs.Prelude.{◌≡◌, ◌<◌};
    ghost use Rattle.std_alloc.specs.Vec.{vec_ptr, vec_len, vec_capacity};
    ghost use Rattle.hep_arena.specs.Lengths.{IsArena, space_of};
    ghost use Rattle.hep_arena.specs.Space.{Space};

    ghost Value = { Space };

    ghost view = { λ a. space_of a.region.slots a.holes };

    ghost invariant = { λ a. IsArena a.region.slots a.holes a.used × (a.region.memory ≡ vec_ptr a.lease)
        × (a.region.cells ≡ vec_len a.lease) × (0 < vec_capacity a.lease) };
}

impl Drop for Arena {
    fn drop(self) {
        let Arena {
            region,
            lease,
            holes,
            used: _,
        } = self;
        drop(holes);
        drop(rejoined(region, lease));
    }
}

// A cell without a value.
const UNSET: Slot = Slot {
    value: None,
    full: false,
};

// Empties n cells from an index on and removes their values.
#[inline(always)]
fn clear(slots: &mut [Cell], at: u32, n: u32)
    requires { at + n ≤ length slots.old }
    ensures cleared { (k : ℕ) → at ≤ k → k < at + n → slice_get slots.new k ≡ Some unset_cell }
    ensures kept { (k : ℕ) → (k < at) ⊎ (at + n ≤ k) → slice_get slots.new k ≡ slice_get slots.old k }
{
    for place in at as usize..at as usize + n as usize {
        slots[place] = Cell::new(UNSET);
    }
}

// The same value. The bound says that it may go to another thread.
fn sendable<T: Send>(value: T) -> T
    ensures { result ≡ value }
{
    value
}

impl Arena {
    ghost use Rattle.hep_arena.specs.Lent.{LendsAll, LendsBlock};

    /// Makes an arena of `cells` cells, all of them free.
    ///
    /// There is at least one cell, and at most 16,777,216. The call takes time linear in the number of cells. Only
    /// this call and `copy` allocate memory.
    ///
    /// # Errors
    ///
    /// `AllocError` where memory was refused.
    pub fn new(alloc: Global, cells: u32) -> Result<Arena, AllocError>
        requires some { 1 ≤ cells }
        requires few { cells ≤ 16777216 }
        ensures cells { IfOk result (λ arena. length arena.contents ≡ cells) }
        ensures holes { IfOk result (λ arena. arena.holes ≡ (0, cells) ∷ []) }
    {
        let holes = Holes::new(alloc, cells)?;
        let mut vec = Vec::from_elem(alloc, Cell::new(UNSET), cells as usize)?;
        let memory = vec.as_mut_ptr();
        let len = vec.len();
        let (region, lease) = parted(vec, memory, len);
        Ok(Arena {
            region,
            lease,
            holes,
            used: 0,
        })
    }

    /// The same arena, in memory of its own. The call takes time linear in the number of cells.
    ///
    /// # Errors
    ///
    /// `AllocError` where memory was refused.
    pub fn copy(&self, alloc: Global) -> Result<Arena, AllocError>
        ensures { IfOk result (λ copy. copy ≡ self.now) }
    {
        let holes = self.holes.copy(alloc)?;
        let slots = self.region.slots();
        let mut vec = Vec::with_capacity(alloc, slots.len().max(1))?;
        vec.extend_from_slice(slots)?;
        let memory = vec.as_mut_ptr();
        let len = vec.len();
        let (region, lease) = parted(vec, memory, len);
        Ok(Arena {
            region,
            lease,
            holes,
            used: self.used,
        })
    }

    /// The same arena. An arena may go to another thread.
    pub fn sent(self) -> Arena
        ensures { result ≡ self }
    {
        sendable(self)
    }

    /// The number of allocated cells, in constant time.
    pub fn used(&self) -> u32
        ensures used { result + free_cells self.now.holes ≡ length self.now.contents }
        ensures holes { AreHoles 0 (length self.now.contents) self.now.holes }
    {
        self.used
    }

    /// Whether some hole has n cells, so that a block of n cells can be taken. The call takes time logarithmic in
    /// the number of cells.
    #[inline(always)]
    pub fn fits(&self, n: u32) -> bool
        ensures { result ≡ is_some (first_fit n self.now.holes) }
    {
        self.holes.fits(n)
    }

    /// Takes a block of n cells, at least one, from the front of the lowest hole that has n cells. The
    /// hole keeps its other cells. The block's cells are empty and have no values.
    ///
    /// None where no hole has n cells. The call takes time logarithmic in the number of cells of the arena, and linear
    /// in that of the block.
    #[inline(always)]
    pub fn take(&mut self, n: u32) -> Option<Block>
        requires { 1 ≤ n }
        ensures block { MatchOption result (first_fit n self.old.holes ≡ None) (λ b. (first_fit n self.old.holes ≡ Some b.at)
            × (b.len ≡ n)) }
        ensures holes { MatchOption result (self.new ≡ self.old) (λ _. self.new.holes ≡ taken n self.old.holes) }
        ensures cleared { IfSome result (λ b. (k : ℕ) → b.at ≤ k → k < b.at + n → slice_get self.new.contents k ≡ Some unset_cell) }
        ensures kept { (k : ℕ) → IsOut k self.old.holes → slice_get self.new.contents k ≡ slice_get self.old.contents k }
        ensures cells { length self.new.contents ≡ length self.old.contents }
    {
        let at = self.holes.take(n)?;
        clear(self.region.slots_mut(), at, n);
        self.used += n;
        Some(Block::new(at, n))
    }

    /// Frees a block. Its cells and the adjacent holes become one hole.
    ///
    /// The block must be allocated. The call takes time logarithmic in the number of cells.
    #[inline(always)]
    pub fn give(&mut self, block: Block)
        requires inside { block.at + block.len ≤ length self.old.contents }
        requires out { (k : ℕ) → block.at ≤ k → k < block.at + block.len → IsOut k self.old.holes }
        ensures holes { self.new.holes ≡ given (block.at, block.len) self.old.holes }
        ensures kept { (k : ℕ) → IsOut k self.new.holes → slice_get self.new.contents k ≡ slice_get self.old.contents k }
        ensures cells { length self.new.contents ≡ length self.old.contents }
    {
        let (at, len) = (block.at(), block.len());
        self.holes.give(at, len);
        self.used -= len;
    }

    /// The slot of a cell.
    ///
    /// The cell must be allocated.
    #[inline(always)]
    pub fn get(&self, at: u32) -> Slot
        requires inside { at < length self.now.contents }
        requires out { IsOut at self.now.holes }
        ensures { slice_get self.now.contents at ≡ Some result }
    {
        self.region.slots()[at as usize].slot()
    }

    /// Writes the slot of a cell.
    ///
    /// The cell must be allocated.
    pub fn set(&mut self, at: u32, slot: Slot)
        requires inside { at < length self.old.contents }
        requires out { IsOut at self.old.holes }
        ensures contents { self.new.contents ≡ slice_set self.old.contents at slot }
        ensures holes { self.new.holes ≡ self.old.holes }
    {
        self.region.slots_mut()[at as usize].set(slot);
    }

    /// Borrows the slots of all cells for reading and writing.
    pub fn slots_mut(&mut self) -> &mut [Cell]
        ensures* writes_back { sem 𝓛 (LendsAll self.entry result) }
        ensures value { result.now ≡ self.old.contents }
    {
        let cells = self.region.slots().len();
        self.region.lend(0, cells)
    }

    /// Borrows the slots of a block for reading and writing.
    ///
    /// The block must be allocated.
    pub fn lend(&mut self, block: &Block) -> &mut [Cell]
        requires inside { block.now.at + block.now.len ≤ length self.old.contents }
        requires out { (k : ℕ) → block.now.at ≤ k → k < block.now.at + block.now.len → IsOut k self.old.holes }
        ensures* writes_back { sem 𝓛 (LendsBlock self.entry block.now.at block.now.len result) }
        ensures value { result.now ≡ slice_range self.old.contents block.now.at (block.now.at + block.now.len) }
    {
        self.region.lend(block.at() as usize, block.len() as usize)
    }

    /// Borrows the slots of one block for reading and those of another for writing.
    ///
    /// Both blocks must be allocated and have no common cell.
    pub fn lend_two(&mut self, from: &Block, to: &Block) -> (&[Cell], &mut [Cell])
        requires from_inside { from.now.at + from.now.len ≤ length self.old.contents }
        requires from_out { (k : ℕ) → from.now.at ≤ k → k < from.now.at + from.now.len → IsOut k self.old.holes }
        requires to_inside { to.now.at + to.now.len ≤ length self.old.contents }
        requires to_out { (k : ℕ) → to.now.at ≤ k → k < to.now.at + to.now.len → IsOut k self.old.holes }
        requires apart { (from.now.at + from.now.len ≤ to.now.at) ⊎ (to.now.at + to.now.len ≤ from.now.at) }
        ensures* writes_back { sem 𝓛 (LendsBlock self.entry to.now.at to.now.len result.1) }
        ensures value { (result.0.now ≡ slice_range self.old.contents from.now.at (from.now.at + from.now.len))
            × (result.1.now ≡ slice_range self.old.contents to.now.at (to.now.at + to.now.len)) }
    {
        self.region.lend_two(
            from.at() as usize,
            from.len() as usize,
            to.at() as usize,
            to.len() as usize,
        )
    }
}
