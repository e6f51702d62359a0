//! The table of the common blocks of a program (X3.9-1978, 8.3), which is filled unit by unit.
ghost use Rattle.std.specs.Prelude.{◌≡◌, ℕ, List, [], true, false, None, Some, Option, if◌then◌else◌};
ghost use Rattle.hep_machine.specs.Words.{BlockName, same_block, Name as PureName, Statement as PureStatement};
ghost use Rattle.hep_storage.specs.Agreement.{summed, nothing_summed, with_block, line_after};
ghost use Rattle.hep_storage.specs.BlockContents.{HasContents, Holds, block};
ghost use Rattle.hep_storage.specs.BlockTable.{contents_in, summed_in, block_at, entry_at};

use crate::block_contents::BlockContents;
use crate::block_summary::BlockSummary;
use hep_conditions::reported::line_when;
use hep_source::Name;
use indexmap::IndexMap;
use std::alloc::Global;

/// The entry of a common block: the summary of the units before, and its contents in the current unit.
pub(crate) struct BlockEntry {
    pub(crate) summary: BlockSummary,
    // The contents in an earlier unit, where the current unit doesn't name the block.
    pub(crate) contents: BlockContents,
    pub(crate) is_named: bool,
}

impl Drop for BlockEntry {
    fn drop(self) {
        let BlockEntry {
            summary,
            contents,
            is_named,
        } = self;
    }
}

/// The blocks by their names. Blank COMMON has no name.
pub(crate) type BlockTable = IndexMap<Option<Name>, BlockEntry>;

impl BlockEntry {
    /// Makes the entry of a block that no unit before has, named at a line.
    pub(crate) fn new(alloc: Global, line: u32) -> BlockEntry
        ensures summary { summed result.summary ≡ nothing_summed }
        ensures named { result.is_named ≡ true }
        ensures held { (unit : List PureStatement) (b : BlockName) → Holds unit b [] result.contents }
        ensures line { result.contents.line ≡ line }
    {
        BlockEntry {
            summary: BlockSummary::new(alloc),
            contents: BlockContents::new(alloc, line),
            is_named: true,
        }
    }

    /// Records that the current unit names the block at a line. The contents in an earlier unit are cleared.
    pub(crate) fn name(&mut self, line: u32)
        ensures summary { self.new.summary ≡ self.old.summary }
        ensures named { self.new.is_named ≡ true }
        ensures held { (unit : List PureStatement) (b : BlockName) (xs : List PureName) (before : Option ℕ)
            → HasContents unit b xs before (contents_in (Some self.old)) → Holds unit b xs self.new.contents }
        ensures line { self.new.contents.line ≡ line }
    {
        if !self.is_named {
            self.contents.clear();
            self.is_named = true;
        }
        self.contents.line = line;
    }

    // Adds the contents in the current unit to the summary. The result is the line of the block, where the contents differ.
    fn settle(&mut self, block: Option<Name>) -> Option<u32>
        ensures line { result ≡ line_after block (summed self.old.summary) (block_at (Some self.old)) }
        ensures added { summed self.new.summary ≡ with_block (block_at (Some self.old)) (summed self.old.summary) }
        ensures left { self.new.is_named ≡ false }
    {
        if !self.is_named {
            return None;
        }
        self.is_named = false;
        let differs = self.summary.add(block, &mut self.contents.known);
        line_when(differs, self.contents.line)
    }
}

/// Adds the contents of a block in the current unit to the summary. The result is the line of the block, where the contents differ.
pub(crate) fn settle(table: &mut BlockTable, block: Option<Name>) -> Option<u32>
    ensures line { result ≡ line_after block (summed_in (entry_at table.old block)) (block_at (entry_at table.old block)) }
    ensures added { (b : BlockName) → summed_in (entry_at table.new b)
        ≡ (if same_block block b
        then with_block (block_at (entry_at table.old block)) (summed_in (entry_at table.old block))
        else summed_in (entry_at table.old b)) }
    ensures left { (b : BlockName) → block_at (entry_at table.new b)
        ≡ (if same_block block b then None else block_at (entry_at table.old b)) }
{
    match table.get_mut(&block) {
        Some(entry) => entry.settle(block),
        None => None,
    }
}
