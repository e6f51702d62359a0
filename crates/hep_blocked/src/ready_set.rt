//! The ready processes.
ghost use Rattle.std.specs.Int.{bit_at};
ghost use Rattle.std.specs.Prelude.{◌≡◌, ◌==◌, ◌<◌, ◌≤◌, ℕ, [], None, IfErr, IsOk, OnOk, if◌then◌else◌, length, nat_eq};
ghost use Rattle.hep_machine.specs.Words.{first_above, is_number_among, next_of_ready, without};
ghost use Rattle.hep_blocked.specs.Numbers.{AreRising, IsNextBit, with_number};

use hep_arena::Tree;
use std::alloc::{AllocError, Global};
use std::marker::Model;

/// The ready processes, by their numbers. Contracts see the greatest number that has room, and the numbers of the
/// ready processes, which rise.
#[derive(Drop)]
pub struct ReadySet {
    alloc: Global,
    // The leaf of the number p is at p - 1: 1 where the process is ready, 0 where it isn't.
    tree: Tree,
    // The first 64 leaves again, as bits: a search among few processes uses only these.
    first: u64,
}

// The number of leaves that have a bit.
const FEW: u64 = 64;

// The bits, with the one at a place set. There is none past the 64th.
fn with_bit(bits: u64, at: u64) -> u64
    ensures { (k : ℕ) → k < 64 → bit_at result k ≡ (if nat_eq k at then 1 else bit_at bits k) }
{
    if at < FEW { bits | 1 << at } else { bits }
}

// The bits, with the one at a place cleared. There is none past the 64th.
fn without_bit(bits: u64, at: u64) -> u64
    ensures { (k : ℕ) → k < 64 → bit_at result k ≡ (if nat_eq k at then 0 else bit_at bits k) }
{
    if at < FEW { bits & !(1 << at) } else { bits }
}

// The first bit that is set, from a place on, if there is one.
fn first_bit(bits: u64, from: u64) -> Option<u64>
    requires few { from < 64 }
    ensures { IsNextBit bits from result }
{
    let above = bits >> from;
    if above == 0 {
        return None;
    }
    Some(from + above.trailing_zeros() as u64)
}

impl Model for ReadySet {
    ghost use Rattle.hep_blocked.specs.Numbers.{Numbers};

    ghost Value = { Numbers };

    ghost use Rattle.hep_blocked.specs.Numbers.{IsMarked, numbers_of};

    ghost view = { λ r. numbers_of r.tree };

    ghost invariant = { λ r. IsMarked r.tree r.first };
}

impl ReadySet {
    /// No process is ready, and there is room for no number. This takes no memory.
    pub fn new(alloc: Global) -> ReadySet
        ensures room { result.room ≡ 0 }
        ensures ready { result.ready ≡ [] }
    {
        ReadySet {
            alloc,
            tree: Tree::new(alloc),
            first: 0,
        }
    }

    /// Makes room for the numbers up to `numbers`. It takes no room away, and the ready processes don't change. No
    /// other call takes memory.
    ///
    /// Where there is too little room, it is at least doubled, in linear time. So rising numbers cost a constant time
    /// each on average.
    ///
    /// # Errors
    ///
    /// `AllocError` where memory was refused; nothing has changed then.
    pub fn reserve(&mut self, numbers: u64) -> Result<(), AllocError>
        ensures room { OnOk result (numbers ≤ self.new.room) }
        ensures grows { self.old.room ≤ self.new.room }
        ensures ready { self.new.ready ≡ self.old.ready }
        ensures refused { IfErr result (λ _. self.new ≡ self.old) }
        ensures made { numbers ≤ self.old.room → IsOk result × (self.new ≡ self.old) }
    {
        self.tree.reserve(self.alloc, numbers as usize)
    }

    /// Makes a process ready, whether it was or not. There has to be room for its number.
    ///
    /// This costs the logarithm of the room.
    pub fn add(&mut self, p: u64)
        requires some { 1 ≤ p }
        requires room { p ≤ self.old.room }
        ensures ready { self.new.ready ≡ with_number p self.old.ready }
        ensures room { self.new.room ≡ self.old.room }
    {
        self.tree.put(p as usize - 1, 1);
        self.first = with_bit(self.first, p - 1);
    }

    /// Makes a process not ready, whether it was or not. There need not be room for its number.
    ///
    /// This costs the logarithm of the room.
    pub fn remove(&mut self, p: u64)
        ensures ready { self.new.ready ≡ without p self.old.ready }
        ensures room { self.new.room ≡ self.old.room }
    {
        if p > 0 && p <= self.tree.size() as u64 {
            self.tree.put(p as usize - 1, 0);
            self.first = without_bit(self.first, p - 1);
        }
    }

    /// The next ready process after `last`: the one with the least number above it, or else the one with the least
    /// number. `None` where none is ready.
    ///
    /// This costs the logarithm of the room, and a constant time where that is at most 64.
    pub fn next(&self, last: u64) -> Option<u64>
        ensures next { result ≡ next_of_ready last self.now.ready }
        ensures rising { AreRising 1 self.now.room self.now.ready }
    {
        match self.first_above(last) {
            Some(p) => Some(p),
            None => self.first_above(0),
        }
    }

    /// The ready process with the least number above p. `None` where there is none: unlike `next`, this doesn't start
    /// again with the least number.
    ///
    /// This costs the logarithm of the room, and a constant time where that is at most 64.
    #[inline(always)]
    pub fn first_above(&self, p: u64) -> Option<u64>
        ensures next { result ≡ first_above p self.now.ready None }
        ensures rising { AreRising 1 self.now.room self.now.ready }
    {
        if p >= self.tree.size() as u64 {
            return None;
        }
        if p < FEW {
            if let Some(at) = first_bit(self.first, p) {
                return Some(at + 1);
            }
            if self.tree.size() as u64 <= FEW {
                return None;
            }
        }
        let at = self.tree.first_after(p as usize)?;
        Some(at as u64 + 1)
    }

    /// Whether a process is ready. This costs a constant time.
    pub fn has(&self, p: u64) -> bool
        ensures { result ≡ is_number_among p self.now.ready }
    {
        let size = self.tree.size() as u64;
        if p == 0 {
            return false;
        }
        if p > size {
            return false;
        }
        self.tree.get(p as usize - 1) > 0
    }

    /// Whether no process is ready. This costs a constant time.
    pub fn is_empty(&self) -> bool
        ensures { result ≡ (length self.now.ready == 0) }
    {
        !self.tree.has(1)
    }
}
