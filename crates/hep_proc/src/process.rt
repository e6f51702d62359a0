//! Processes: the activations on a stack, each with its place in the code, and their operands (docs/MACHINE.md, "Steps").
ghost use Rattle.std.specs.Prelude.{◌≡◌, ◌+◌, ◌<◌, ◌≤◌, ◌++◌, ◌∷◌, [], IfOk, OnOk, vec_len, vec_capacity};
ghost use Rattle.hep_proc.specs.Stacks.{EndsTop, GoesOnAt, HasTop, PutsAbove, PutsTop, StandsAt, is_left};

use crate::pending_operands::keep_back;
use hep_source::Value;
use std::alloc::{AllocError, Global};

/// An activation on a stack: the key of its node, the index of its unit in the program, and its index in the unit's
/// code, both counted from 0.
#[derive(Clone, Copy)]
pub struct Local {
    pub key: usize,
    pub unit: u32,
    /// The number of operands that it keeps among the pending ones, while another activation is above it.
    pub kept: u32,
    pub index: usize,
}

/// A process: its number, its activations, the top one last, and their operands. It has ended if it has no
/// activations.
#[derive(Drop)]
pub struct Process {
    /// Counted from 1, in the order in which processes are made.
    pub number: u64,
    pub levels: Vec<Local>,
    /// The operands of the top activation.
    pub operands: Vec<Value>,
    /// The operands of all other activations, the lowest one's first. A CALL leaves none, so that it asks for no
    /// memory here.
    pub pending: Vec<Value>,
}

impl Process {
    /// Whether it has an activation or operands left.
    pub fn is_left(&self) -> bool
        ensures { result ≡ is_left self.now }
    {
        !(self.levels.is_empty() && self.operands.is_empty() && self.pending.is_empty())
    }

    /// The same process, in memory of its own, with as much room for operands.
    ///
    /// Fails only where memory was refused.
    pub fn copy(&self, alloc: Global) -> Result<Process, AllocError>
        ensures number { IfOk result (λ copy. copy.number ≡ self.now.number) }
        ensures same { IfOk result (λ copy. (copy.levels.items ≡ self.now.levels.items) × (copy.operands.items ≡ self.now.operands.items)
            × (copy.pending.items ≡ self.now.pending.items)) }
        ensures room { IfOk result (λ copy. vec_capacity self.now.operands ≤ vec_capacity copy.operands) }
    {
        let levels = self.levels.as_slice().to_vec(alloc)?;
        let mut operands = Vec::with_capacity(alloc, self.operands.capacity())?;
        operands.extend_from_slice(&self.operands)?;
        let pending = self.pending.as_slice().to_vec(alloc)?;
        Ok(Process {
            number: self.number,
            levels,
            operands,
            pending,
        })
    }

    /// The level of its top activation.
    #[inline(always)]
    pub fn top(&self) -> Local
        requires { 0 < vec_len self.now.levels }
        ensures { HasTop self.now result }
    {
        self.levels[self.levels.len() - 1]
    }

    /// Moves its top activation to an index.
    #[inline(always)]
    pub fn stand_at(&mut self, index: usize)
        requires { 0 < vec_len self.old.levels }
        ensures stack { StandsAt self.old index self.new }
        ensures number { self.new.number ≡ self.old.number }
        ensures count { vec_len self.new.levels ≡ vec_len self.old.levels }
        ensures capacity { vec_capacity self.new.levels ≡ vec_capacity self.old.levels }
        ensures operands { self.new.operands ≡ self.old.operands }
    {
        let top = self.levels.len() - 1;
        self.levels[top].index = index;
    }

    // Replaces the level of its top activation.
    #[inline(always)]
    fn put_top(&mut self, level: Local)
        requires { 0 < vec_len self.old.levels }
        ensures stack { PutsTop self.old level self.new }
        ensures count { vec_len self.new.levels ≡ vec_len self.old.levels }
        ensures capacity { vec_capacity self.new.levels ≡ vec_capacity self.old.levels }
        ensures others { self.new ≡ record self.old { levels = self.new.levels } }
    {
        let top = self.levels.len() - 1;
        self.levels[top] = level;
    }

    /// Moves its top activation to an index, without operands.
    #[inline(always)]
    pub fn go_on(&mut self, index: usize)
        requires { 0 < vec_len self.old.levels }
        ensures stack { GoesOnAt self.old index self.new }
        ensures number { self.new.number ≡ self.old.number }
        ensures count { vec_len self.new.levels ≡ vec_len self.old.levels }
        ensures capacity { vec_capacity self.new.levels ≡ vec_capacity self.old.levels }
        ensures operands { vec_capacity self.new.operands ≡ vec_capacity self.old.operands }
    {
        self.stand_at(index);
        self.operands.clear();
    }

    /// Puts a new activation above its top one, which keeps its first `kept` operands and goes on at an index.
    #[inline(always)]
    pub fn put_above(&mut self, kept: u32, index: usize, level: Local)
        requires levels { (0 < vec_len self.old.levels) × (vec_len self.old.levels < vec_capacity self.old.levels) }
        requires few { kept ≤ vec_len self.old.operands }
        requires pending { vec_len self.old.pending + kept ≤ vec_capacity self.old.pending }
        ensures stack { PutsAbove self.old kept index level self.new }
        ensures number { self.new.number ≡ self.old.number }
        ensures operands { vec_capacity self.new.operands ≡ vec_capacity self.old.operands }
    {
        let below = Local {
            kept,
            index,
            ..self.top()
        };
        self.put_top(below);
        keep_back(&mut self.operands, &mut self.pending, kept as usize);
        self.levels.push_reserved(level);
    }

    /// Ends its top activation: takes the level off the stack and returns it. The one below has no operands.
    #[inline(always)]
    pub fn end_top(&mut self) -> Local
        requires { 0 < vec_len self.old.levels }
        ensures level { HasTop self.old result }
        ensures stack { EndsTop self.old self.new }
        ensures number { self.new.number ≡ self.old.number }
        ensures fewer { self.old.levels.items ≡ self.new.levels.items ++ result ∷ [] }
        ensures capacity { vec_capacity self.new.operands ≡ vec_capacity self.old.operands }
    {
        self.operands.clear();
        self.levels.pop().unwrap()
    }

    /// Makes room for one more level, for `operands` operands, and for `kept` more pending ones.
    #[inline(always)]
    pub fn reserve(&mut self, operands: u32, kept: u32) -> Result<(), AllocError>
        ensures level { OnOk result (vec_len self.new.levels < vec_capacity self.new.levels) }
        ensures operands { OnOk result (operands ≤ vec_capacity self.new.operands) }
        ensures pending { OnOk result (vec_len self.new.pending + kept ≤ vec_capacity self.new.pending) }
        ensures same { (self.new.levels.items ≡ self.old.levels.items) × (self.new.operands.items ≡ self.old.operands.items)
            × (self.new.pending.items ≡ self.old.pending.items) }
        ensures number { self.new.number ≡ self.old.number }
        ensures capacity { vec_capacity self.old.operands ≤ vec_capacity self.new.operands }
    {
        self.levels.reserve(1)?;
        self.operands.reserve(operands as usize)?;
        self.pending.reserve(kept as usize)
    }
}
