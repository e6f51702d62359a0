//! The common blocks of a program and their greatest lengths (X3.9-1978, 8.3.3).
ghost use Rattle.std.specs.Prelude.{◌≡◌, ◌+◌, ◌<◌, ◌^◌, ◌++◌, [], ◌&&◌, Some, None, is_some, max, map, if◌then◌else◌, IfOk, OnOk};
ghost use Rattle.std.specs.Option.{option_eq, unwrap_or};
ghost use Rattle.indexmap.specs.IndexMap.{get};
ghost use Rattle.hep_machine.specs.Words.{index_where, name_eq, cells_of_all, BlockName, same_block, block_cells, common_cells};
ghost use Rattle.hep_machine.specs.Declarations as declarations;
ghost use Rattle.hep_storage.specs.Lengths as reading;
ghost use Rattle.hep_storage.specs.Lengths.{AreKept, IsUnread};

use hep_names::specification::{block_of, blocks_in};
use hep_names::{ProgramSymbols, Symbols, cells_of};
use hep_source::{CommonBlock, Declarator, Name, Statement};
use indexmap::{IndexMap, IndexSet};
use std::alloc::{AllocError, Global};

// One entry of a COMMON statement: a block with a name in it, or a block without a name where its list is empty.
#[derive(Clone, Copy)]
struct CommonItem {
    block: Option<Name>,
    name: Option<Name>,
}

// The length of a common block in the units read so far.
#[derive(Clone, Copy)]
struct Length {
    greatest: u128,
    // The last unit that has the block, and the number of its cells read so far there.
    unit: usize,
    cells: u128,
}

type CommonLengths = IndexMap<Option<Name>, Length>;

/// The common blocks of the units read so far.
pub struct CommonBlocks {
    // In order of first appearance; blank COMMON has no name.
    blocks: IndexSet<Option<Name>>,
    lengths: CommonLengths,
}

impl Drop for CommonBlocks {
    fn drop(self) {
        let CommonBlocks { blocks, lengths } = self;
    }
}

fn add_names(
    entries: &mut Vec<CommonItem>,
    block: Option<Name>,
    declarators: &[Declarator],
) -> Result<(), AllocError>
    ensures { OnOk result (entries.new.items ≡ entries.old.items ++ map (reading.entry_of block) declarators.now) }
{
    for declarator in declarators {
        let name = Some(declarator.occurrence.name);
        entries.push(CommonItem { block, name })?;
    }
    Ok(())
}

fn add_list(entries: &mut Vec<CommonItem>, list: &CommonBlock) -> Result<(), AllocError>
    ensures { OnOk result (entries.new.items ≡ entries.old.items ++ reading.entries_in_list list.now) }
{
    let block = block_of(list);
    match list.entries.as_slice() {
        [] => entries.push(CommonItem { block, name: None })?,
        declarators => add_names(entries, block, declarators)?,
    }
    Ok(())
}

fn add_lists(entries: &mut Vec<CommonItem>, lists: &[CommonBlock]) -> Result<(), AllocError>
    ensures { OnOk result (entries.new.items ≡ entries.old.items ++ reading.entries_in_lists lists.now) }
{
    for list in lists {
        add_list(entries, list)?;
    }
    Ok(())
}

fn add_entries(entries: &mut Vec<CommonItem>, statements: &[Statement]) -> Result<(), AllocError>
    ensures { OnOk result (entries.new.items ≡ entries.old.items ++ reading.entries_of statements.now) }
{
    for statement in statements {
        add_lists(entries, blocks_in(&statement.form))?;
    }
    Ok(())
}

fn cells_of_entry(alloc: Global, symbols: &Symbols, entry: &CommonItem) -> Result<u32, AllocError>
    ensures { IfOk result (λ cells. cells ≡ reading.cells_of_entry symbols.now entry.now) }
{
    match &entry.name {
        Some(name) => cells_of(alloc, symbols, name),
        None => Ok(0),
    }
}

// The number of cells of a block in a unit read so far.
fn cells_so_far(length: Option<Length>, unit: usize) -> u128
    ensures { result ≡ reading.cells_so_far unit length }
{
    match length {
        Some(length) => { if length.unit == unit { length.cells } else { 0 } }
        None => 0,
    }
}

fn greatest_length(length: Option<Length>) -> u128
    ensures { result ≡ reading.greatest_length length }
{
    match length {
        Some(length) => length.greatest,
        None => 0,
    }
}

// The length of a block with `count` more cells in a unit.
fn lengthened(length: Option<Length>, unit: usize, count: u32) -> Length
    requires { reading.cells_so_far unit length < 2 ^ 96 }
    ensures { result ≡ reading.lengthened length unit count }
{
    let cells = cells_so_far(length, unit) + u128::from(count);
    Length {
        greatest: greatest_length(length).max(cells),
        unit,
        cells,
    }
}

fn add_block(blocks: &mut IndexSet<Option<Name>>, block: Option<Name>) -> Result<(), AllocError>
    ensures { OnOk result (blocks.new.keys ≡ reading.with_block blocks.old.keys block) }
{
    blocks.insert(block)?;
    Ok(())
}

fn length_of(lengths: &CommonLengths, block: Option<Name>) -> Option<Length>
    ensures { result ≡ get (option_eq name_eq) lengths.now block }
{
    lengths.get(&block).copied()
}

fn set_length(
    lengths: &mut CommonLengths,
    block: Option<Name>,
    length: Length,
) -> Result<(), AllocError>
    ensures { OnOk result ((b : BlockName) → get (option_eq name_eq) lengths.new b
        ≡ (if same_block block b then Some length else get (option_eq name_eq) lengths.old b)) }
{
    lengths.insert(block, length)?;
    Ok(())
}

// Adds `count` cells to a block in a unit, where the block has a length. The result is whether it has.
fn is_lengthened(lengths: &mut CommonLengths, block: Option<Name>, unit: usize, count: u32) -> bool
    requires { reading.cells_so_far unit (get (option_eq name_eq) lengths.old block) < 2 ^ 96 }
    ensures there { result ≡ is_some (get (option_eq name_eq) lengths.old block) }
    ensures lengths { (b : BlockName) → get (option_eq name_eq) lengths.new b
        ≡ (if result && same_block block b then Some (reading.lengthened (get (option_eq name_eq) lengths.old block) unit count)
        else get (option_eq name_eq) lengths.old b) }
{
    match lengths.get_mut(&block) {
        Some(length) => {
            *length = lengthened(Some(*length), unit, count);
            true
        }
        None => false,
    }
}

impl CommonBlocks {
    fn new(alloc: Global) -> CommonBlocks
        ensures blocks { result.blocks.keys ≡ [] }
        ensures lengths { (b : BlockName) → get (option_eq name_eq) result.lengths b ≡ None }
        ensures kept { AreKept result.blocks.keys (get (option_eq name_eq) result.lengths) }
    {
        CommonBlocks {
            blocks: IndexSet::new(alloc),
            lengths: IndexMap::new(alloc),
        }
    }

    // Adds `count` cells to a block in a unit.
    fn lengthen(&mut self, block: Option<Name>, unit: usize, count: u32) -> Result<(), AllocError>
        requires few { reading.cells_so_far unit (get (option_eq name_eq) self.old.lengths block) < 2 ^ 96 }
        requires kept { AreKept self.old.blocks.keys (get (option_eq name_eq) self.old.lengths) }
        ensures kept { OnOk result (AreKept self.new.blocks.keys (get (option_eq name_eq) self.new.lengths)) }
        ensures blocks { OnOk result (self.new.blocks.keys ≡ reading.with_block self.old.blocks.keys block) }
        ensures lengths { OnOk result ((b : BlockName) → get (option_eq name_eq) self.new.lengths b
            ≡ (if same_block block b then Some (reading.lengthened (get (option_eq name_eq) self.old.lengths block) unit count)
            else get (option_eq name_eq) self.old.lengths b)) }
    {
        if !is_lengthened(&mut self.lengths, block, unit, count) {
            add_block(&mut self.blocks, block)?;
            set_length(&mut self.lengths, block, lengthened(None, unit, count))?;
        }
        Ok(())
    }

    // Reads the entries of the COMMON statements of the unit with this index, of which nothing was read before.
    fn read_unit(
        &mut self,
        alloc: Global,
        symbols: &Symbols,
        unit: usize,
        entries: &[CommonItem],
    ) -> Result<(), AllocError>
        requires unread { IsUnread unit (get (option_eq name_eq) self.old.lengths) }
        requires entries { entries.now ≡ reading.entries_of symbols.now }
        requires kept { AreKept self.old.blocks.keys (get (option_eq name_eq) self.old.lengths) }
        ensures kept { OnOk result (AreKept self.new.blocks.keys (get (option_eq name_eq) self.new.lengths)) }
        ensures blocks { OnOk result (self.new.blocks.keys
            ≡ declarations.with_blocks self.old.blocks.keys (declarations.blocks_of_unit symbols.now)) }
        ensures lengths { OnOk result ((b : BlockName) → reading.greatest_length (get (option_eq name_eq) self.new.lengths b)
            ≡ max (reading.greatest_length (get (option_eq name_eq) self.old.lengths b))
            (cells_of_all symbols.now (declarations.names_in_block symbols.now b))) }
        ensures unread { OnOk result (IsUnread (unit + 1) (get (option_eq name_eq) self.new.lengths)) }
    {
        if entries.is_empty() {
            return Ok(());
        }
        for entry in entries {
            let count = cells_of_entry(alloc, symbols, entry)?;
            self.lengthen(entry.block, unit, count)?;
        }
        Ok(())
    }

    /// The common blocks of a program. Their number of cells is below 2^96, because all entries of COMMON statements fit in memory.
    ///
    /// # Errors
    ///
    /// Only where memory was refused.
    pub fn of_program(alloc: Global, program: &ProgramSymbols) -> Result<CommonBlocks, AllocError>
        ensures blocks { IfOk result (λ common. common.blocks.keys ≡ declarations.blocks_of program.now) }
        ensures lengths { IfOk result (λ common. (b : BlockName)
            → reading.greatest_length (get (option_eq name_eq) common.lengths b) ≡ block_cells program.now b) }
        ensures bounded { IfOk result (λ common. common_cells program.now < 2 ^ 96) }
    {
        let mut common = CommonBlocks::new(alloc);
        // The entries of all units stay in one vector. Each has at most 2^20 cells, so the cells of all blocks fit in 128 bits.
        let mut entries = Vec::new(alloc);
        for (number, symbols) in program.units().iter().enumerate() {
            let read = entries.len();
            add_entries(&mut entries, symbols.statements())?;
            common.read_unit(alloc, symbols, number, &entries[read..])?;
        }
        Ok(common)
    }

    /// The blocks, in order of first appearance; blank COMMON has no name.
    pub fn blocks(&self) -> &[Option<Name>]
        ensures { result.now ≡ self.now.blocks.keys }
    {
        self.blocks.as_slice()
    }

    /// The index of a block among the blocks; 0 for a block that the program doesn't have.
    pub fn index(&self, block: Option<Name>) -> usize
        ensures { result ≡ unwrap_or (index_where (same_block block) self.now.blocks.keys) 0 }
    {
        self.blocks.get_index_of(&block).unwrap_or(0)
    }

    /// The greatest number of cells of a block in any unit.
    pub fn cells(&self, block: Option<Name>) -> u128
        ensures { result ≡ reading.greatest_length (get (option_eq name_eq) self.now.lengths block) }
    {
        greatest_length(length_of(&self.lengths, block))
    }
}
