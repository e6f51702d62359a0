//! The offsets of names in COMMON from the first cells of their blocks (X3.9-1978, 8.3.3).
ghost use Rattle.std.specs.Prelude.{◌≡◌, ◌++◌, None, map, IfOk, OnOk};
ghost use Rattle.std.specs.Option.{option_or};
ghost use Rattle.indexmap.specs.IndexMap.{get};
ghost use Rattle.hep_machine.specs.Words.{name_eq, BlockName, Name as PureName};
ghost use Rattle.hep_machine.specs.Declarations as declarations;
ghost use Rattle.hep_names.specs.Tables.{by_name};
ghost use Rattle.hep_places.specs.StorageStarts as found;

use crate::cell_numbers::further;
use hep_names::specification::{block_of, blocks_in};
use hep_names::{Symbols, cells_of, note};
use hep_source::{CommonBlock, Declarator, Name, Statement};
use indexmap::IndexMap;
use std::alloc::{AllocError, Global};
use std::mem::replace;

// A name in a common block; blank COMMON has no name.
#[derive(Clone, Copy, PartialEq, Eq)]
pub(crate) struct NameInBlock {
    pub(crate) block: Option<Name>,
    pub(crate) name: Name,
}

fn add_names(
    entries: &mut Vec<NameInBlock>,
    block: Option<Name>,
    declarators: &[Declarator],
) -> Result<(), AllocError>
    ensures { OnOk result (entries.new.items ≡ entries.old.items ++ map (found.entry_of block) declarators.now) }
{
    for declarator in declarators {
        let name = declarator.occurrence.name;
        entries.push(NameInBlock { block, name })?;
    }
    Ok(())
}

fn add_block(entries: &mut Vec<NameInBlock>, block: &CommonBlock) -> Result<(), AllocError>
    ensures { OnOk result (entries.new.items ≡ entries.old.items
        ++ map (found.entry_of (declarations.block_of block.now)) block.now.entries) }
{
    add_names(entries, block_of(block), block.entries.as_slice())?;
    Ok(())
}

fn add_blocks(entries: &mut Vec<NameInBlock>, blocks: &[CommonBlock]) -> Result<(), AllocError>
    ensures { OnOk result (entries.new.items ≡ entries.old.items ++ found.entries_in blocks.now) }
{
    for block in blocks {
        add_block(entries, block)?;
    }
    Ok(())
}

// The names in the common blocks of a unit, each with its block.
fn entries_of(alloc: Global, statements: &[Statement]) -> Result<Vec<NameInBlock>, AllocError>
    ensures { IfOk result (λ entries. entries.items ≡ found.entries_of statements.now) }
{
    let mut entries = Vec::new(alloc);
    for statement in statements {
        add_blocks(&mut entries, blocks_in(&statement.form))?;
    }
    Ok(entries)
}

// The offset of each name in its block, and the lengths of the blocks as far as they were read.
struct Offsets {
    table: IndexMap<Name, u32>,
    lengths: IndexMap<Option<Name>, u32>,
}

impl Drop for Offsets {
    fn drop(self) {
        let Offsets { table, lengths } = self;
    }
}

// Lengthens a block by `cells` cells, and returns its length before.
fn lengthen(
    lengths: &mut IndexMap<Option<Name>, u32>,
    block: Option<Name>,
    cells: u32,
) -> Result<u32, AllocError>
    ensures before { IfOk result (λ before. before ≡ found.length_in lengths.old block) }
    ensures lengthened { OnOk result ((b : BlockName)
        → found.length_in lengths.new b ≡ found.lengthened (found.length_in lengths.old) block cells b) }
{
    // One look-up is enough where the block is new.
    match lengths.insert(block, cells)? {
        Some(before) => {
            lengths.insert(block, further(before, cells))?;
            Ok(before)
        }
        None => Ok(0),
    }
}

impl Offsets {
    // No names yet, with room for `names` names.
    fn new(alloc: Global, names: usize) -> Result<Offsets, AllocError>
        ensures table { IfOk result (λ offsets. (x : PureName) → get name_eq offsets.table x ≡ None) }
        ensures lengths { IfOk result (λ offsets. (b : BlockName) → found.length_in offsets.lengths b ≡ found.no_length b) }
    {
        Ok(Offsets {
            table: IndexMap::with_capacity(alloc, names)?,
            lengths: IndexMap::with_capacity(alloc, names)?,
        })
    }

    // Adds a name with its cells at the end of its block.
    fn add(&mut self, entry: &NameInBlock, cells: u32) -> Result<(), AllocError>
        ensures table { OnOk result ((x : PureName) → get name_eq self.new.table x
            ≡ option_or (get name_eq self.old.table x) (by_name entry.now.name (found.length_in self.old.lengths entry.now.block) x)) }
        ensures lengths { OnOk result ((b : BlockName)
            → found.length_in self.new.lengths b
            ≡ found.lengthened (found.length_in self.old.lengths) entry.now.block cells b) }
    {
        let before = lengthen(&mut self.lengths, entry.block, cells)?;
        note(&mut self.table, entry.name, before)?;
        Ok(())
    }
}

// The offset in its block of each name in COMMON.
pub(crate) fn offset_table(
    alloc: Global,
    symbols: &Symbols,
) -> Result<IndexMap<Name, u32>, AllocError>
    ensures { IfOk result (λ table. (x : PureName) → get name_eq table x
        ≡ found.offset_among symbols.now found.no_length (found.entries_of symbols.now) x) }
{
    let entries = entries_of(alloc, symbols.statements())?;
    let mut offsets = Offsets::new(alloc, entries.len())?;
    for entry in &entries {
        let cells = cells_of(alloc, symbols, &entry.name)?;
        offsets.add(entry, cells)?;
    }
    Ok(replace(&mut offsets.table, IndexMap::new(alloc)))
}
