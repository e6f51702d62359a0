//! Blocks of cells.
ghost use Rattle.std.specs.Prelude.{◌≡◌, ◌<◌};

use std::alloc::AllocError;

/// A block of cells that was taken from an arena. A clone of it is for a copy of the arena. Dropping it doesn't free its
/// cells.
#[derive(Drop)]
pub struct Block {
    at: u32,
    len: u32,
    ghost some: { 0 < len },
}

impl Clone for Block {
    ghost use Rattle.std.specs.Prelude.{◌≡◌};

    ghost is_clone = { λ block clone. clone ≡ block };

    fn clone(&self) -> Result<Block, AllocError> {
        Ok(Block {
            at: self.at,
            len: self.len,
        })
    }
}

impl Block {
    // The block of `len` cells from an index on.
    pub(crate) fn new(at: u32, len: u32) -> Block
        requires { 0 < len }
        ensures { (result.at ≡ at) × (result.len ≡ len) }
    {
        Block { at, len }
    }

    /// The index of the first cell.
    pub fn at(&self) -> u32
        ensures { result ≡ self.now.at }
    {
        self.at
    }

    /// The number of cells, at least one.
    pub fn len(&self) -> u32
        ensures len { result ≡ self.now.len }
        ensures some { 0 < result }
    {
        self.len
    }
}
