//! A region: consecutive slots in memory of their own, which are borrowed as a whole or in parts.
//!
//! Only this file dereferences the pointer, in short functions. Everything beyond such a loan is safe code in other
//! files.
ghost use Rattle.std.specs.Prelude.{◌≡◌, ◌<◌, length, List};
ghost use Rattle.std_alloc.specs.Vec.{vec_ptr, vec_len, vec_capacity};
ghost use Rattle.hep_machine.specs.declared.slot.Slot.{Slot as SlotValue};

use crate::cell::Cell;
use std::alloc::Global;
use std::marker::{Model, Move, Owns};

/// `cells` slots from the one at the pointer on. A region owns the slots, but not the right to free
/// their memory.
pub struct Region {
    memory: *mut Cell,
    cells: usize,
    pub ghost slots: { List SlotValue },
}

impl Model for Region {
    ghost use Rattle.std_alloc.specs.Vec.Ownership.{vec_shares};
    ghost use Rattle.hep_arena.specs.Ownership.{region_owns};
    ghost use Rattle.hep_arena.specs.contracts.cell.Cell.{the_row as cell_row};

    ghost also_owns = { λ r. region_owns cell_row r.memory r.cells r.slots };

    ghost also_shares = { λ r _ κ. vec_shares cell_row r.memory r.cells r.cells r.slots κ };
}

unsafe impl Send for Region {}

impl Region {
    ghost use Rattle.std.specs.Borrow.{sem};
    ghost use Rattle.std.specs.Prelude.{◌+◌, ◌≤◌, ◌⊎◌, length, slice_range};
    ghost use Rattle.hep_arena.specs.Lending.{LendsAll, LendsRun};

    /// Borrows all slots for reading.
    pub fn slots(&self) -> &[Cell]
        ensures { result.now ≡ self.now.slots }
    {
        unsafe { std::slice::from_raw_parts(self.memory, self.cells) }
    }

    /// Borrows all slots for writing.
    pub fn slots_mut(&mut self) -> &mut [Cell]
        ensures* writes_back { sem 𝓛 (LendsAll self.entry result) }
        ensures value { result.now ≡ self.old.slots }
    {
        unsafe { std::slice::from_raw_parts_mut(self.memory, self.cells) }
    }

    /// Borrows `len` slots from an index on for writing.
    pub fn lend(&mut self, at: usize, len: usize) -> &mut [Cell]
        requires { at + len ≤ length self.old.slots }
        ensures* writes_back { sem 𝓛 (LendsRun self.entry at len result) }
        ensures value { result.now ≡ slice_range self.old.slots at (at + len) }
    {
        unsafe { std::slice::from_raw_parts_mut(self.memory.add(at), len) }
    }

    /// Borrows the slots of one run for reading and those of another for writing.
    pub fn lend_two(
        &mut self,
        from: usize,
        from_len: usize,
        to: usize,
        to_len: usize,
    ) -> (&[Cell], &mut [Cell])
        requires from { from + from_len ≤ length self.old.slots }
        requires to { to + to_len ≤ length self.old.slots }
        requires apart { (from + from_len ≤ to) ⊎ (to + to_len ≤ from) }
        ensures* writes_back { sem 𝓛 (LendsRun self.entry to to_len result.1) }
        ensures value { (result.0.now ≡ slice_range self.old.slots from (from + from_len))
            × (result.1.now ≡ slice_range self.old.slots to (to + to_len)) }
    {
        unsafe {
            (
                std::slice::from_raw_parts(self.memory.add(from), from_len),
                std::slice::from_raw_parts_mut(self.memory.add(to), to_len),
            )
        }
    }
}

/// The rest of a vector whose items are a region: the right to free its memory.
pub struct Lease {
    vec: Vec<Cell, Global>,
}

impl Owns for Lease {
    ghost use base.Fml.{ftrue};
    ghost use Rattle.hep_arena.specs.Leases.{SlotVec};

    ghost Value = { SlotVec };

    ghost shr_at = { λ _ _ _. ftrue };
}

impl Move for Lease {
    ghost use Rattle.hep_arena.specs.Leases.{lease_owns};

    ghost own_val = { lease_owns };
}

unsafe impl Send for Lease {}

// Splits a vector into the region of its items and the lease. This moves nothing.
pub(crate) fn parted(vec: Vec<Cell, Global>, memory: *mut Cell, cells: usize) -> (Region, Lease)
    requires parts { (memory ≡ vec_ptr vec) × (cells ≡ vec_len vec) × (0 < vec_capacity vec) }
    ensures { (result.0.slots ≡ vec.items) × (result.0.memory ≡ vec_ptr vec) × (result.0.cells ≡ vec_len vec) × (result.1 ≡ vec) }
{
    (Region { memory, cells }, Lease { vec })
}

// Joins a region and its lease to the vector, which can be dropped.
pub(crate) fn rejoined(region: Region, lease: Lease) -> Vec<Cell, Global>
    requires parts { (region.memory ≡ vec_ptr lease) × (region.cells ≡ vec_len lease) × (0 < vec_capacity lease) }
    ensures { result.items ≡ region.slots }
{
    let Region {
        memory: _,
        cells: _,
    } = region;
    let Lease { vec } = lease;
    vec
}
