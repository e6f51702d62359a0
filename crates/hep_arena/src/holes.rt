//! The holes of an arena. There is a number for each cell: the length of the hole that begins there, or 0.
//! The hole at the end of the arena is kept apart.
ghost use Rattle.std.specs.Prelude.{◌≡◌, ℕ, ◌+◌, ◌-◌, ◌<◌, ◌≤◌, [], ◌∷◌, length, Some, IfOk, MatchOption};
ghost use Rattle.std.specs.Option.{is_some};
ghost use Rattle.hep_arena.specs.Holes.{IsOut, first_fit, given, taken};
ghost use Rattle.hep_arena.specs.Lengths.{IsLimited, holes_of, lower_holes, start_at};

use crate::lengths::Lengths;
use std::alloc::{AllocError, Global};

/// The holes of an arena. A search and a change take time logarithmic in the number of cells at most,
/// and constant time where blocks are taken and freed as on a stack.
#[derive(Drop)]
pub(crate) struct Holes {
    // The lengths of the holes below the limit.
    lengths: Lengths,
    // All cells from this index on are free. They are the last hole, which has no number.
    limit: u32,
}

impl Holes {
    /// Makes one hole of all cells.
    pub(crate) fn new(alloc: Global, cells: u32) -> Result<Holes, AllocError>
        requires some { 1 ≤ cells }
        requires few { cells ≤ 16777216 }
        ensures limited { IfOk result (λ made. IsLimited made) }
        ensures holes { IfOk result (λ made. holes_of made ≡ (0, cells) ∷ []) }
        ensures cells { IfOk result (λ made. length made.lengths ≡ cells) }
    {
        let lengths = Lengths::new(alloc, cells)?;
        Ok(Holes { lengths, limit: 0 })
    }

    /// The same holes, in memory of their own. Fails only where memory was refused.
    pub(crate) fn copy(&self, alloc: Global) -> Result<Holes, AllocError>
        ensures { IfOk result (λ copy. copy ≡ self.now) }
    {
        let lengths = self.lengths.copy(alloc)?;
        Ok(Holes {
            lengths,
            limit: self.limit,
        })
    }

    /// Whether some hole has n cells.
    pub(crate) fn fits(&self, n: u32) -> bool
        requires limited { IsLimited self.now }
        ensures { result ≡ is_some (first_fit n (holes_of self.now)) }
    {
        // Each hole has at least one cell.
        let least = n.max(1);
        if least <= self.lengths.len() - self.limit {
            return true;
        }
        self.lengths.first_of(least).is_some()
    }

    /// Takes n cells from the front of the lowest hole that has n cells. None where no hole has.
    pub(crate) fn take(&mut self, n: u32) -> Option<u32>
        requires some { 1 ≤ n }
        requires limited { IsLimited self.old }
        requires few { length self.old.lengths ≤ 16777216 }
        ensures place { result ≡ first_fit n (holes_of self.old) }
        ensures holes { MatchOption result (self.new ≡ self.old) (λ _. holes_of self.new ≡ taken n (holes_of self.old)) }
        ensures limited { IsLimited self.new }
        ensures cells { length self.new.lengths ≡ length self.old.lengths }
    {
        if let Some(at) = self.lengths.first_of(n) {
            self.shorten(at, n);
            return Some(at);
        }
        if self.lengths.len() - self.limit < n {
            return None;
        }
        let at = self.limit;
        self.limit += n;
        Some(at)
    }

    // Takes n cells from the front of the first hole below the limit that has n cells.
    fn shorten(&mut self, at: u32, n: u32)
        requires some { 1 ≤ n }
        requires limited { IsLimited self.old }
        requires few { length self.old.lengths ≤ 16777216 }
        requires fit { first_fit n (lower_holes self.old) ≡ Some at }
        ensures holes { lower_holes self.new ≡ taken n (lower_holes self.old) }
        ensures limit { self.new.limit ≡ self.old.limit }
        ensures cells { length self.new.lengths ≡ length self.old.lengths }
    {
        let length = self.lengths.get(at);
        // The rest of the hole is written first, while the greater number is still there. So fewer nodes above them change.
        if n < length {
            self.lengths.set(at + n, length - n);
        }
        self.lengths.set(at, 0);
    }

    /// Frees n cells from an index on. They and the adjacent holes become one hole.
    pub(crate) fn give(&mut self, at: u32, n: u32)
        requires some { 1 ≤ n }
        requires limited { IsLimited self.old }
        requires inside { at + n ≤ length self.old.lengths }
        requires few { length self.old.lengths ≤ 16777216 }
        requires out { (k : ℕ) → at ≤ k → k < at + n → IsOut k (holes_of self.old) }
        ensures holes { holes_of self.new ≡ given (at, n) (holes_of self.old) }
        ensures limited { IsLimited self.new }
        ensures cells { length self.new.lengths ≡ length self.old.lengths }
    {
        if at + n < self.limit {
            self.lengthen(at, n);
        } else {
            self.give_last(at);
        }
    }

    // Frees n cells below the limit. They and the adjacent holes become one hole.
    fn lengthen(&mut self, at: u32, n: u32)
        requires some { 1 ≤ n }
        requires limited { IsLimited self.old }
        requires below { at + n < self.old.limit }
        requires few { length self.old.lengths ≤ 16777216 }
        requires out { (k : ℕ) → at ≤ k → k < at + n → IsOut k (lower_holes self.old) }
        ensures holes { lower_holes self.new ≡ given (at, n) (lower_holes self.old) }
        ensures limit { self.new.limit ≡ self.old.limit }
        ensures cells { length self.new.lengths ≡ length self.old.lengths }
    {
        let end = at + n;
        let start = self.start_at(at);
        let behind = self.lengths.get(end);
        // The greater number is written first here, for the same reason.
        self.lengths.set(start, end - start + behind);
        if behind > 0 {
            self.lengths.set(end, 0);
        }
    }

    // Adds all cells from an index up to the limit to the last hole, with the hole that ends at that index.
    fn give_last(&mut self, at: u32)
        requires limited { IsLimited self.old }
        requires below { at < self.old.limit }
        requires few { length self.old.lengths ≤ 16777216 }
        requires out { (k : ℕ) → at ≤ k → k < self.old.limit → IsOut k (lower_holes self.old) }
        ensures holes { holes_of self.new ≡ given (at, self.old.limit - at) (holes_of self.old) }
        ensures limited { IsLimited self.new }
        ensures cells { length self.new.lengths ≡ length self.old.lengths }
    {
        let start = self.start_at(at);
        if start < at {
            self.lengths.set(start, 0);
        }
        self.limit = start;
    }

    // The first cell of the hole below the limit that ends at an index; the index itself where no hole ends there.
    fn start_at(&self, at: u32) -> u32
        requires limited { IsLimited self.now }
        requires inside { at ≤ length self.now.lengths }
        requires few { length self.now.lengths ≤ 16777216 }
        ensures { result ≡ start_at at (lower_holes self.now) }
    {
        if let Some(last) = self.lengths.last_before(at) {
            if last + self.lengths.get(last) == at {
                return last;
            }
        }
        at
    }
}
