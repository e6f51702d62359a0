//! The first cells of common blocks (docs/MACHINE.md, "Layout").
ghost use Rattle.std.specs.Prelude.{◌≡◌, ◌+◌, ◌<◌, ◌^◌, if◌then◌else◌, IfOk, OnOk};
ghost use Rattle.hep_machine.specs.Words.{Units, BlockName, same_block, common_cells};
ghost use Rattle.hep_storage.specs.Starts.{AreBlocks, AreStarts, narrowed, start_in};

use crate::common::CommonBlocks;
use hep_source::Name;
use indexmap::IndexMap;
use std::alloc::{AllocError, Global};

/// The first cell of each common block of a program, counted from 0 at the front of the arena. The blocks follow one
/// another in order of first appearance, each with its greatest length (X3.9-1978, 8.3.3).
pub struct CommonStarts {
    // The first cell of each block by its name; blank COMMON has no name.
    starts: IndexMap<Option<Name>, u32>,
    // The number of cells of all blocks together.
    cells: u128,
}

impl Drop for CommonStarts {
    fn drop(self) {
        let CommonStarts { starts, cells } = self;
    }
}

// A number of cells in 32 bits, or the greatest such number. No arena has more cells.
fn in_32_bits(cells: u128) -> u32
    ensures { result ≡ narrowed cells }
{
    u32::try_from(cells).unwrap_or(u32::MAX)
}

impl CommonStarts {
    fn new(alloc: Global) -> CommonStarts
        ensures cells { result.cells ≡ 0 }
    {
        CommonStarts {
            starts: IndexMap::new(alloc),
            cells: 0,
        }
    }

    // Adds a block after the others.
    fn add(&mut self, block: Option<Name>, cells: u128) -> Result<(), AllocError>
        requires { self.old.cells + cells < 2 ^ 128 }
        ensures cells { OnOk result (self.new.cells ≡ self.old.cells + cells) }
        ensures starts { OnOk result ((b : BlockName)
            → start_in self.new b ≡ (if same_block block b then narrowed self.old.cells else start_in self.old b)) }
    {
        self.starts.insert(block, in_32_bits(self.cells))?;
        self.cells += cells;
        Ok(())
    }

    /// The first cells of these common blocks of a program.
    ///
    /// # Errors
    ///
    /// Only where memory was refused.
    pub fn of_blocks(alloc: Global, common: &CommonBlocks) -> Result<CommonStarts, AllocError>
        requires { (program : Units) × AreBlocks program common.now }
        ensures { IfOk result (λ starts. (program : Units) → AreBlocks program common.now → AreStarts program starts) }
    {
        let mut starts = CommonStarts::new(alloc);
        for block in common.blocks() {
            starts.add(*block, common.cells(*block))?;
        }
        Ok(starts)
    }

    /// The first cell of a block, or the greatest 32-bit number where the first cell is greater; 0 for a block that
    /// the program doesn't have.
    pub fn start(&self, block: Option<Name>) -> u32
        ensures { result ≡ start_in self.now block }
    {
        self.starts.get(&block).copied().unwrap_or(0)
    }

    /// The number of cells of all blocks together. Frames come after them.
    pub fn cells(&self) -> u128
        ensures kept { result ≡ self.now.cells }
        ensures common { (program : Units) → AreStarts program self.now → result ≡ common_cells program }
    {
        self.cells
    }
}
