//! A tree of numbers.
ghost use Rattle.std.specs.Prelude.{◌≡◌, ◌⊎◌, ℕ, ◌+◌, ◌-◌, ◌*◌, ◌/◌, ◌^◌, ◌<◌, ◌≤◌, ◌++◌, [], length, drop, replicate, slice_set};
ghost use Rattle.std.specs.Prelude.{true, false, IfErr, IfOk, IsOk, OnOk};
ghost use Rattle.hep_arena.specs.Trees.{IsFirst, IsLast, IsNext, IsTop, IsTree, leaves_of, leftmost, number};

use std::alloc::{AllocError, Global};

/// A full binary tree in one list, whose leaves are numbers. Each inner node has the greater of the two numbers
/// below it, so that a search skips the parts whose numbers are too small.
///
/// A tree can grow, as for the ready processes. A `Lengths` has a fixed number of places. `leaves_of` is the
/// list of the leaves, and all calls require and keep `IsTree`.
#[derive(Drop)]
pub struct Tree {
    greatest: Vec<u32>,
    // The number of leaves: none, or 2 to the power of `levels`.
    size: usize,
    levels: usize,
}

// The greatest number of leaves. No address space has a byte for each node of a larger tree.
const MOST_LEAVES: usize = 0x2000_0000_0000_0000;

// The number of leaves of a tree with room for `leaves` leaves, and the number of levels below its root.
fn full_size(leaves: usize) -> (usize, usize)
    requires { leaves ≤ MOST_LEAVES }
    ensures size { result.0 ≡ leftmost result.1 1 }
    ensures room { leaves ≤ result.0 }
    ensures few { result.0 < 2 ^ 62 }
{
    let mut size = 1;
    let mut levels = 0;
    while size < leaves {
        size = 2 * size;
        levels += 1;
    }
    (size, levels)
}

// Writes to each inner node the greater of the two numbers below it.
fn fill_tops(greatest: &mut Vec<u32>, size: usize)
    requires nodes { length greatest.old.items ≡ 2 * size }
    requires few { size < 2 ^ 62 }
    ensures tops { (i : ℕ) → 1 ≤ i → i < size → IsTop greatest.new.items i }
    ensures leaves { drop size greatest.new.items ≡ drop size greatest.old.items }
    ensures nodes { length greatest.new.items ≡ 2 * size }
{
    for node in (1..size).rev() {
        greatest[node] = greatest[2 * node].max(greatest[2 * node + 1]);
    }
}

// The sibling of a node.
fn other_side(node: usize) -> usize
    requires some { 2 ≤ node }
    requires few { node < 2 ^ 63 }
    ensures { ((2 * (node / 2) ≡ node) × (2 * (node / 2) + 1 ≡ result)) ⊎ ((2 * (node / 2) ≡ result) × (2 * (node / 2) + 1 ≡ node)) }
{
    if node % 2 == 0 { node + 1 } else { node - 1 }
}

impl Tree {
    /// Makes a tree without leaves. This allocates no memory.
    pub fn new(alloc: Global) -> Tree
        ensures tree { IsTree result }
        ensures leaves { leaves_of result ≡ [] }
        ensures size { result.size ≡ 0 }
    {
        Tree {
            greatest: Vec::new(alloc),
            size: 0,
            levels: 0,
        }
    }

    /// Makes room for `leaves` leaves. The added leaves are 0. Only this call and `copy` allocate memory.
    ///
    /// Where there is too little room, the number of leaves at least doubles, in linear time.
    ///
    /// # Errors
    ///
    /// `AllocError` where memory was refused. The tree is then unchanged.
    pub fn reserve(&mut self, alloc: Global, leaves: usize) -> Result<(), AllocError>
        requires { IsTree self.old }
        ensures tree { IsTree self.new }
        ensures room { OnOk result (leaves ≤ self.new.size) }
        ensures grows { self.old.size ≤ self.new.size }
        ensures leaves { (added : ℕ) × (leaves_of self.new ≡ leaves_of self.old ++ replicate added 0) }
        ensures refused { IfErr result (λ _. self.new ≡ self.old) }
        ensures made { leaves ≤ self.old.size → IsOk result × (self.new ≡ self.old) }
    {
        if leaves <= self.size {
            return Ok(());
        }
        *self = self.grown(alloc, leaves)?;
        Ok(())
    }

    // A tree with the same numbers and with room for `leaves` leaves, which are more than there are.
    fn grown(&self, alloc: Global, leaves: usize) -> Result<Tree, AllocError>
        requires tree { IsTree self.now }
        requires more { self.now.size < leaves }
        ensures tree { IfOk result (λ tree. IsTree tree) }
        ensures room { IfOk result (λ tree. leaves ≤ tree.size) }
        ensures leaves { IfOk result (λ tree. leaves_of tree ≡ leaves_of self.now ++ replicate (tree.size - self.now.size) 0) }
    {
        if leaves > MOST_LEAVES {
            return Err(AllocError);
        }
        let (size, levels) = full_size(leaves);
        let mut greatest = Vec::with_capacity(alloc, 2 * size)?;
        greatest.resize(size, 0)?;
        greatest.extend_from_slice(&self.greatest[self.size..])?;
        greatest.resize(2 * size, 0)?;
        fill_tops(&mut greatest, size);
        Ok(Tree {
            greatest,
            size,
            levels,
        })
    }

    /// The same tree, in memory of its own.
    ///
    /// # Errors
    ///
    /// Only where memory was refused.
    pub fn copy(&self, alloc: Global) -> Result<Tree, AllocError>
        requires { IsTree self.now }
        ensures tree { IfOk result (λ copy. IsTree copy) }
        ensures leaves { IfOk result (λ copy. leaves_of copy ≡ leaves_of self.now) }
        ensures size { IfOk result (λ copy. copy.size ≡ self.now.size) }
    {
        let greatest = self.greatest.as_slice().to_vec(alloc)?;
        Ok(Tree {
            greatest,
            size: self.size,
            levels: self.levels,
        })
    }

    /// The number of leaves, in constant time.
    pub fn size(&self) -> usize
        ensures { result ≡ self.now.size }
    {
        self.size
    }

    /// The number of a leaf, in constant time.
    pub fn get(&self, at: usize) -> u32
        requires tree { IsTree self.now }
        requires inside { at < self.now.size }
        ensures { result ≡ number (leaves_of self.now) at }
    {
        self.greatest[self.size + at]
    }

    /// Replaces the number of a leaf. The call takes time logarithmic in the number of leaves at most: it ends at the
    /// first node whose number doesn't change.
    pub fn put(&mut self, at: usize, number: u32)
        requires tree { IsTree self.old }
        requires inside { at < self.old.size }
        ensures tree { IsTree self.new }
        ensures leaves { leaves_of self.new ≡ slice_set (leaves_of self.old) at number }
        ensures size { self.new.size ≡ self.old.size }
    {
        let mut node = self.size + at;
        let mut top = number;
        self.greatest[node] = top;
        while node > 1 {
            top = top.max(self.greatest[other_side(node)]);
            node /= 2;
            if self.greatest[node] == top {
                // The nodes above it don't change either.
                return;
            }
            self.greatest[node] = top;
        }
    }

    // The greatest number; 0 where there are no leaves.
    fn root(&self) -> u32
        requires { IsTree self.now }
        ensures { result ≡ number self.now.greatest.items 1 }
    {
        if self.size == 0 { 0 } else { self.greatest[1] }
    }

    /// Whether some leaf has at least this number, in constant time.
    pub fn has(&self, least: u32) -> bool
        requires tree { IsTree self.now }
        requires some { 1 ≤ least }
        ensures some { result ≡ true → (k : ℕ) × (least ≤ number (leaves_of self.now) k) }
        ensures none { result ≡ false → (k : ℕ) → number (leaves_of self.now) k < least }
    {
        self.root() >= least
    }

    /// The first leaf with at least this number; none where there is no such leaf.
    ///
    /// The call takes time logarithmic in the number of leaves, and constant time where there is no such leaf.
    pub fn first_of(&self, least: u32) -> Option<usize>
        requires tree { IsTree self.now }
        requires some { 1 ≤ least }
        ensures { IsFirst (leaves_of self.now) least result }
    {
        if self.root() < least {
            return None;
        }
        Some(self.first_below(least, 1, self.levels) - self.size)
    }

    // The index of the first leaf with at least this number, among those `levels` levels below a node.
    fn first_below(&self, least: u32, top: usize, levels: usize) -> usize
        requires tree { IsTree self.now }
        requires great { least ≤ number self.now.greatest.items top }
        requires some { 1 ≤ top }
        requires inside { leftmost levels (top + 1) ≤ 2 * self.now.size }
        ensures great { least ≤ number self.now.greatest.items result }
        ensures from { leftmost levels top ≤ result }
        ensures to { result < leftmost levels (top + 1) }
        ensures first { (k : ℕ) → leftmost levels top ≤ k → k < result → number self.now.greatest.items k < least }
    {
        let mut node = top;
        for _ in 0..levels {
            node = 2 * node;
            if self.greatest[node] < least {
                node += 1;
            }
        }
        node
    }

    /// The last leaf before a place whose number isn't 0; none where there is no such leaf.
    ///
    /// The call takes time logarithmic in the number of leaves, and constant time where all numbers are 0.
    pub fn last_before(&self, at: usize) -> Option<usize>
        requires tree { IsTree self.now }
        requires inside { at ≤ self.now.size }
        ensures { IsLast (leaves_of self.now) at result }
    {
        if at == 0 {
            return None;
        }
        if self.root() == 0 {
            return None;
        }
        let mut node = self.size + at - 1;
        if self.greatest[node] > 0 {
            return Some(at - 1);
        }
        for level in 0..self.levels {
            if node % 2 == 1 && self.greatest[node - 1] > 0 {
                return Some(self.last_below(node - 1, level) - self.size);
            }
            node /= 2;
        }
        None
    }

    // The index of the last leaf whose number isn't 0, among those `levels` levels below a node.
    fn last_below(&self, top: usize, levels: usize) -> usize
        requires tree { IsTree self.now }
        requires great { 1 ≤ number self.now.greatest.items top }
        requires some { 1 ≤ top }
        requires inside { leftmost levels (top + 1) ≤ 2 * self.now.size }
        ensures great { 1 ≤ number self.now.greatest.items result }
        ensures from { leftmost levels top ≤ result }
        ensures to { result < leftmost levels (top + 1) }
        ensures last { (k : ℕ) → result < k → k < leftmost levels (top + 1) → number self.now.greatest.items k < 1 }
    {
        let mut node = top;
        for _ in 0..levels {
            node = 2 * node + 1;
            if self.greatest[node] == 0 {
                node -= 1;
            }
        }
        node
    }

    /// The first leaf from a place on whose number isn't 0; none where there is no such leaf.
    ///
    /// The call takes time logarithmic in the number of leaves.
    pub fn first_after(&self, at: usize) -> Option<usize>
        requires tree { IsTree self.now }
        requires inside { at ≤ self.now.size }
        ensures { IsNext (leaves_of self.now) at result }
    {
        if at == self.size {
            return None;
        }
        let mut node = self.size + at;
        if self.greatest[node] > 0 {
            return Some(at);
        }
        for level in 0..self.levels {
            if node % 2 == 0 && self.greatest[node + 1] > 0 {
                return Some(self.first_below(1, node + 1, level) - self.size);
            }
            node /= 2;
        }
        None
    }
}
