//! A list of numbers with fast searches.
ghost use Rattle.std.specs.Prelude.{◌≡◌, ◌<◌, ◌≤◌, None, Some, IfOk, drop, length, replicate, slice_get, slice_set, take};
ghost use Rattle.hep_arena.specs.Places.{first_from, last_from};

use crate::tree::Tree;
use std::alloc::{AllocError, Global};
use std::marker::Model;

/// A list of numbers, one for each place. Contracts see it as the list of the numbers.
///
/// `Holes` finds free cells with it: the number at a place is the length of the hole that begins there, or
/// 0 where none begins.
#[derive(Drop)]
pub struct Lengths {
    tree: Tree,
    // The number of leaves that are places. The other leaves are 0.
    places: u32,
}

impl Model for Lengths {
    ghost use Rattle.std.specs.Prelude.{ℕ, List, take};

    ghost Value = { List ℕ };

    ghost use Rattle.hep_arena.specs.Trees.{IsPadded, leaves_of};

    ghost view = { λ l. take l.places (leaves_of l.tree) };

    ghost invariant = { λ l. IsPadded l.tree l.places };
}

impl Lengths {
    /// Makes a list of `places` places, all with the number 0, in linear time. Only this call and `copy`
    /// allocate memory.
    ///
    /// # Errors
    ///
    /// `AllocError` where memory was refused.
    pub fn new(alloc: Global, places: u32) -> Result<Lengths, AllocError>
        requires few { places ≤ 16777216 }
        ensures zeros { IfOk result (λ made. made ≡ replicate places 0) }
    {
        let mut tree = Tree::new(alloc);
        tree.reserve(alloc, places as usize)?;
        Ok(Lengths { tree, places })
    }

    /// The same list, in memory of its own.
    ///
    /// # Errors
    ///
    /// Only where memory was refused.
    pub fn copy(&self, alloc: Global) -> Result<Lengths, AllocError>
        ensures { IfOk result (λ copy. copy ≡ self.now) }
    {
        let tree = self.tree.copy(alloc)?;
        Ok(Lengths {
            tree,
            places: self.places,
        })
    }

    /// The number of places, in constant time.
    pub fn len(&self) -> u32
        ensures places { result ≡ length self.now }
    {
        self.places
    }

    /// The number at a place, in constant time.
    pub fn get(&self, at: u32) -> u32
        requires inside { at < length self.now }
        ensures number { slice_get self.now at ≡ Some result }
    {
        self.tree.get(at as usize)
    }

    /// Replaces the number at a place. The call takes time logarithmic in the number of places at most: it ends at the
    /// first node whose number doesn't change.
    pub fn set(&mut self, at: u32, number: u32)
        requires inside { at < length self.old }
        ensures numbers { self.new ≡ slice_set self.old at number }
    {
        self.tree.put(at as usize, number);
    }

    /// The first place with at least this number; none where there is no such place.
    ///
    /// The call takes time logarithmic in the number of places, and constant time where there is no such place.
    pub fn first_of(&self, least: u32) -> Option<u32>
        requires some { 1 ≤ least }
        ensures first { result ≡ first_from 0 least self.now }
    {
        let at = self.tree.first_of(least)?;
        Some(at as u32)
    }

    /// The last place before this one whose number isn't 0; none where there is no such place.
    ///
    /// The call takes time logarithmic in the number of places, and constant time where all numbers are 0.
    pub fn last_before(&self, at: u32) -> Option<u32>
        requires inside { at ≤ length self.now }
        ensures last { result ≡ last_from 0 (take at self.now) None }
    {
        let found = self.tree.last_before(at as usize)?;
        Some(found as u32)
    }

    /// The first place from this one on whose number isn't 0; none where there is no such place.
    ///
    /// The call takes time logarithmic in the number of places.
    pub fn first_after(&self, at: u32) -> Option<u32>
        requires inside { at ≤ length self.now }
        ensures first { result ≡ first_from at 1 (drop at self.now) }
    {
        let found = self.tree.first_after(at as usize)?;
        Some(found as u32)
    }
}
