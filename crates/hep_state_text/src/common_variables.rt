//! The variables in COMMON (X3.9-1978, 8.3).
ghost use Rattle.std.specs.Prelude.{◌≡◌, ◌++◌, ℕ, List, OnOk};
ghost use Rattle.std.specs.List.{flat_map};
ghost use Rattle.hep_state_text.specs.Blocks.{IsBlockAt, IsBlockSomewhere, IsExtentOf};
ghost use Rattle.hep_state_text.specs.Storage.{IsStorageOf};
ghost use Rattle.hep_machine.specs.Words.{Layout, State, Units, blocks_of, run};
ghost use Rattle.hep_state.specs.Words.{IsMachineAfter};
ghost use Rattle.hep_state_text.specs.States as words;

use crate::block_names::{longest, names_in_block};
use crate::cell_slots::slots;
use crate::storage::StateStorage;
use crate::variable::append_variable;
use crate::variables::own_variable;
use hep_names::{Symbols, cells_of};
use hep_proc::Frames;
use hep_source::{Name, block_spelling};
use hep_storage::laws::starts_are_first_cells;
use hep_storage::{CommonBlocks, CommonStarts};
use hep_views::CoreState;
use std::alloc::{AllocError, Global};

/// A common block in a unit: the unit's names, those in the block, in order, and the block's first cell.
#[derive(Clone, Copy)]
pub(crate) struct NamedBlock<'a> {
    pub(crate) symbols: &'a Symbols<'a>,
    pub(crate) list: &'a [Name],
    pub(crate) first: u32,
}

/// A common block of a program: its name, its greatest length, and its first cell.
#[derive(Clone, Copy)]
pub(crate) struct Extent {
    pub(crate) block: Option<Name>,
    pub(crate) cells: u128,
    pub(crate) first: u32,
}

// The lines of the variables that a unit has in a block.
fn append_variables(
    alloc: Global,
    text: &mut Vec<u8>,
    frames: &Frames,
    block: &NamedBlock,
) -> Result<(), AllocError>
    requires { IsBlockSomewhere block.now frames.now.arena }
    ensures { OnOk result ((program : Units) (s : State) (layout : Layout)
        → IsBlockAt program s layout block.now frames.now.arena
        → text.new.items
        ≡ text.old.items ++ flat_map (words.own_text program s (words.common_scope program s block.now.symbols.now)) block.now.list.now) }
{
    let symbols = block.symbols;
    let mut at = block.first;
    for name in block.list {
        let variable = own_variable(alloc, symbols, name)?;
        let cells = cells_of(alloc, symbols, name)?;
        let slots = slots(alloc, frames, at, cells)?;
        append_variable(text, &variable, &slots)?;
        at += cells;
    }
    Ok(())
}

// The lines of a block.
fn append_block(
    alloc: Global,
    text: &mut Vec<u8>,
    machine: &CoreState,
    storage: &StateStorage,
    extent: Extent,
) -> Result<(), AllocError>
    requires storage { IsStorageOf storage.now machine.now }
    requires extent { IsExtentOf storage.now.image.now extent }
    requires after { (cells : ℕ) × (choices : List ℕ) × IsMachineAfter storage.now.image.now cells choices machine.now }
    ensures { OnOk result ((cells : ℕ) (choices : List ℕ) → IsMachineAfter storage.now.image.now cells choices machine.now
        → text.new.items ≡ text.old.items ++ words.block_text storage.now.image.now (run storage.now.image.now choices) extent.block) }
{
    storage.image.is_runnable();
    let number = longest(alloc, storage.symbols, extent.block, extent.cells)?;
    let symbols = &storage.symbols.units()[number];
    let list = names_in_block(alloc, symbols.statements(), extent.block)?;
    let name = block_spelling(alloc, extent.block)?;
    let unit = storage.image.program().as_slice()[number].name(alloc)?;
    crate::lines::append_block(text, name.as_slice(), unit.as_slice())?;
    let block = NamedBlock {
        symbols,
        list: &list,
        first: extent.first,
    };
    append_variables(alloc, text, storage.frames, &block)?;
    Ok(())
}

/// Appends the lines of all common blocks, in order of first appearance.
///
/// # Errors
///
/// Only where memory was refused.
pub fn append_common(
    alloc: Global,
    text: &mut Vec<u8>,
    machine: &CoreState,
    storage: &StateStorage,
) -> Result<(), AllocError>
    requires storage { IsStorageOf storage.now machine.now }
    requires after { (cells : ℕ) × (choices : List ℕ) × IsMachineAfter storage.now.image.now cells choices machine.now }
    ensures { OnOk result ((cells : ℕ) (choices : List ℕ) → IsMachineAfter storage.now.image.now cells choices machine.now
        → text.new.items ≡ text.old.items ++ flat_map (words.block_text storage.now.image.now (run storage.now.image.now choices))
        (blocks_of storage.now.image.now)) }
{
    starts_are_first_cells();
    let _common = storage.image.common();
    let blocks = CommonBlocks::of_program(alloc, storage.symbols)?;
    let starts = CommonStarts::of_blocks(alloc, &blocks)?;
    for block in blocks.blocks() {
        let extent = Extent {
            block: *block,
            cells: blocks.cells(*block),
            first: starts.start(*block),
        };
        append_block(alloc, text, machine, storage, extent)?;
    }
    Ok(())
}
