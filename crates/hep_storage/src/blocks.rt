//! The common blocks of a unit, statement by statement (X3.9-1978, 8.3).
ghost use Rattle.std.specs.Prelude.{◌≡◌, ◌∷◌, [], None, false, OnOk};
ghost use Rattle.indexmap.specs.IndexSet.{contains};
ghost use Rattle.hep_machine.specs.Words.{name_eq, BlockName, Name as PureName};
ghost use Rattle.hep_storage.specs.Agreement.{AreAmong};
ghost use Rattle.hep_storage.specs.BlockContents as blocks;
ghost use Rattle.hep_storage.specs.BlockTable.{block_at, summed_in, AreRead, AreListed, entry_at};

use crate::block_contents::NamesInBlocks;
use crate::block_table::{BlockEntry, BlockTable};
use hep_names::Symbols;
use hep_names::specification::{block_of, blocks_in};
use hep_source::{CommonBlock, Name};
use hep_types::Shapes;
use std::alloc::{AllocError, Global};

// Adds the names of a list of COMMON at a line to its block.
fn note_block(
    alloc: Global,
    symbols: &Symbols,
    shapes: &Shapes,
    table: &mut BlockTable,
    named: &mut Vec<Option<Name>>,
    noted: &mut NamesInBlocks,
    line: u32,
    list: &CommonBlock,
) -> Result<(), AllocError>
    requires { shapes.now ≡ symbols.now }
    ensures has { OnOk result (AreListed symbols.now (contains name_eq noted.old) (contains name_eq noted.new)
        (entry_at table.old) (entry_at table.new) line (list.now ∷ [])) }
    ensures read { OnOk result (AreRead (entry_at table.old) (entry_at table.new) named.old.items named.new.items) }
{
    let block = block_of(list);
    named.push(block)?;
    let entries = list.entries.as_slice();
    match table.get_mut(&block) {
        Some(entry) => {
            entry.name(line);
            entry
                .contents
                .add_names(noted, symbols, shapes, block, entries)?;
        }
        None => {
            let mut entry = BlockEntry::new(alloc, line);
            entry
                .contents
                .add_names(noted, symbols, shapes, block, entries)?;
            table.insert(block, entry)?;
        }
    }
    Ok(())
}

fn note_blocks(
    alloc: Global,
    symbols: &Symbols,
    shapes: &Shapes,
    table: &mut BlockTable,
    named: &mut Vec<Option<Name>>,
    noted: &mut NamesInBlocks,
    line: u32,
    lists: &[CommonBlock],
) -> Result<(), AllocError>
    requires { shapes.now ≡ symbols.now }
    ensures has { OnOk result (AreListed symbols.now (contains name_eq noted.old) (contains name_eq noted.new)
        (entry_at table.old) (entry_at table.new) line lists.now) }
    ensures read { OnOk result (AreRead (entry_at table.old) (entry_at table.new) named.old.items named.new.items) }
{
    for list in lists {
        note_block(alloc, symbols, shapes, table, named, noted, line, list)?;
    }
    Ok(())
}

/// Reads the contents of the blocks of a unit. `named` gets the names of the blocks.
///
/// # Errors
///
/// Only where memory was refused.
pub(crate) fn read_blocks(
    alloc: Global,
    symbols: &Symbols,
    table: &mut BlockTable,
    named: &mut Vec<Option<Name>>,
    noted: &mut NamesInBlocks,
) -> Result<(), AllocError>
    requires none { (b : BlockName) → block_at (entry_at table.old b) ≡ None }
    requires unread { (x : PureName) → contains name_eq noted.old x ≡ false }
    ensures blocks { OnOk result ((b : BlockName) → block_at (entry_at table.new b) ≡ blocks.block_in symbols.now b) }
    ensures summaries { OnOk result ((b : BlockName) → summed_in (entry_at table.new b) ≡ summed_in (entry_at table.old b)) }
    ensures named { OnOk result (AreAmong named.new.items (λ b. block_at (entry_at table.new b))) }
{
    let shapes = Shapes::new(alloc, symbols)?;
    for statement in symbols.statements() {
        let (line, lists) = (statement.line, blocks_in(&statement.form));
        note_blocks(alloc, symbols, &shapes, table, named, noted, line, lists)?;
    }
    Ok(())
}
