//! The variables and blocks of the cells of a frame and of COMMON.

use hep_code::Duplicate;
use std::alloc::{AllocError, Global};

/// A variable with storage units in a frame: a local variable, or a dummy argument, whose first cell has the value of
/// an expression that it is associated with (X3.9-1978, 15.9.3).
#[derive(Clone, Copy, PartialEq, Eq)]
pub struct FrameVariable {
    /// The index of its name among the names of its unit, in order of first appearance.
    pub index: usize,
    /// Its first cell, counted from the frame's first one.
    pub first: u32,
    pub is_array: bool,
}

/// A common block.
#[derive(Clone, Copy, PartialEq, Eq)]
pub struct BlockStart {
    /// Its index among the common blocks of the program, in order of first appearance.
    pub index: usize,
    /// Its first cell, counted from that of the arena, which begins with COMMON.
    pub first: u32,
}

impl Duplicate for FrameVariable {
    fn copy(&self, _alloc: Global) -> Result<FrameVariable, AllocError> {
        Ok(*self)
    }
}

impl Duplicate for BlockStart {
    fn copy(&self, _alloc: Global) -> Result<BlockStart, AllocError> {
        Ok(*self)
    }
}
