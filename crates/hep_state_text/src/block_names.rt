//! The names of a common block in a unit, and the unit in which the block is longest (X3.9-1978, 8.3).
ghost use Rattle.std.specs.Prelude.{◌≡◌, ◌++◌, ◌<◌, ◌≤◌, nat_eq, IfOk, OnOk, length};
ghost use Rattle.hep_state_text.specs.BlockNames.{names_in_list, names_in_statement};
ghost use Rattle.hep_machine.specs.Declarations as declarations;
ghost use Rattle.hep_machine.specs.Words.{block_cells, cells_of_all, unit_at};
ghost use Rattle.hep_state_text.specs.States as words;

use hep_names::specification::{add_declared, block_of, blocks_in};
use hep_names::{ProgramSymbols, Symbols, cells_of};
use hep_source::{CommonBlock, Name, Statement};
use std::alloc::{AllocError, Global};

// ---- names

// The names that a list of a COMMON statement has in a block.
fn add_list(
    names: &mut Vec<Name>,
    block: Option<Name>,
    list: &CommonBlock,
) -> Result<(), AllocError>
    ensures { OnOk result (names.new.items ≡ names.old.items ++ names_in_list block list.now) }
{
    if block_of(list) == block {
        add_declared(names, list.entries.as_slice())?;
    }
    Ok(())
}

fn add_statement(
    names: &mut Vec<Name>,
    block: Option<Name>,
    statement: &Statement,
) -> Result<(), AllocError>
    ensures { OnOk result (names.new.items ≡ names.old.items ++ names_in_statement block statement.now) }
{
    for list in blocks_in(&statement.form) {
        add_list(names, block, list)?;
    }
    Ok(())
}

/// The names that a unit has in a block, in order.
///
/// # Errors
///
/// Only where memory was refused.
pub fn names_in_block(
    alloc: Global,
    unit: &[Statement],
    block: Option<Name>,
) -> Result<Vec<Name>, AllocError>
    ensures { IfOk result (λ names. names.items ≡ declarations.names_in_block unit.now block) }
{
    let mut names = Vec::new(alloc);
    for statement in unit {
        add_statement(&mut names, block, statement)?;
    }
    Ok(names)
}

// ---- the unit in which a block is longest

fn cells_of_all(alloc: Global, symbols: &Symbols, list: &[Name]) -> Result<u128, AllocError>
    ensures { IfOk result (λ cells. cells ≡ cells_of_all symbols.now list.now) }
{
    let mut sum: u128 = 0;
    for name in list {
        sum += u128::from(cells_of(alloc, symbols, name)?);
    }
    Ok(sum)
}

// Whether a unit has `cells` cells in a block.
fn has_length(
    alloc: Global,
    symbols: &Symbols,
    block: Option<Name>,
    cells: u128,
) -> Result<bool, AllocError>
    ensures { IfOk result (λ is. is ≡ nat_eq (cells_of_all symbols.now (declarations.names_in_block symbols.now block)) cells) }
{
    let list = names_in_block(alloc, symbols.statements(), block)?;
    Ok(cells_of_all(alloc, symbols, &list)? == cells)
}

/// The index of the first unit in which a block has `cells` cells, its greatest length.
///
/// # Errors
///
/// Only where memory was refused.
pub fn longest(
    alloc: Global,
    program: &ProgramSymbols,
    block: Option<Name>,
    cells: u128,
) -> Result<usize, AllocError>
    requires cells { cells ≡ block_cells program.now block }
    requires some { 1 ≤ length program.now }
    ensures inside { IfOk result (λ unit. unit < length program.now) }
    ensures unit { IfOk result (λ unit. unit_at program.now unit ≡ words.unit_of_block program.now block) }
{
    for (number, symbols) in program.units().iter().enumerate() {
        if has_length(alloc, symbols, block, cells)? {
            return Ok(number);
        }
    }
    unreachable!()
}
