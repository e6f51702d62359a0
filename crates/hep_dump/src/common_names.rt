//! The name that a unit has for a position of a common block (X3.9-1978, 8.3).
ghost use Rattle.std.specs.Prelude.{◌≡◌, ◌++◌, [], IfOk, OnOk};
ghost use Rattle.std.specs.Option.{option_map_or};
ghost use Rattle.hep_machine.specs.Declarations as declarations;
ghost use Rattle.hep_machine.specs.Words.{spelling};
ghost use Rattle.hep_dump.specs.CommonNames as words;

use crate::elements::append_subscripts;
use hep_base::Text;
use hep_names::specification::{add_declared, block_of, blocks_in};
use hep_names::{Symbols, bounds_of, cells_of};
use hep_source::{CommonBlock, Name, Statement};
use std::alloc::{AllocError, Global};

// The name of a block in lines. That of blank COMMON is empty.
fn block_text(alloc: Global, list: &CommonBlock) -> Result<Text, AllocError>
    ensures { IfOk result (λ text. text ≡ option_map_or spelling (declarations.block_of list.now) []) }
{
    match block_of(list) {
        Some(name) => name.spelling(alloc),
        None => Ok(Text::from(Vec::new(alloc))),
    }
}

fn is_written(alloc: Global, block: &[u8], list: &CommonBlock) -> Result<bool, AllocError>
    ensures { IfOk result (λ is. is ≡ words.is_written block.now list.now) }
{
    let text = block_text(alloc, list)?;
    Ok(text.as_slice() == block)
}

fn add_list(
    alloc: Global,
    names: &mut Vec<Name>,
    block: &[u8],
    list: &CommonBlock,
) -> Result<(), AllocError>
    ensures { OnOk result (names.new.items ≡ names.old.items ++ words.names_in_list block.now list.now) }
{
    if is_written(alloc, block, list)? {
        add_declared(names, list.entries.as_slice())?;
    }
    Ok(())
}

fn add_statement(
    alloc: Global,
    names: &mut Vec<Name>,
    block: &[u8],
    statement: &Statement,
) -> Result<(), AllocError>
    ensures { OnOk result (names.new.items ≡ names.old.items ++ words.names_in_statement block.now statement.now) }
{
    for list in blocks_in(&statement.form) {
        add_list(alloc, names, block, list)?;
    }
    Ok(())
}

// The names that a unit has in the block of this name, in order.
fn names_under(alloc: Global, block: &[u8], unit: &[Statement]) -> Result<Vec<Name>, AllocError>
    ensures { IfOk result (λ names. names.items ≡ words.names_under block.now unit.now) }
{
    let mut names = Vec::new(alloc);
    for statement in unit {
        add_statement(alloc, &mut names, block, statement)?;
    }
    Ok(names)
}

// The variable of these names that has a cell, and which of its cells it is.
fn owner_among(
    alloc: Global,
    symbols: &Symbols,
    names: &[Name],
    cell: u32,
) -> Result<Option<(Name, u32)>, AllocError>
    ensures { IfOk result (λ owner. owner ≡ words.owner_among symbols.now names.now cell) }
{
    let mut left = cell;
    for name in names {
        let cells = cells_of(alloc, symbols, name)?;
        if left < cells {
            return Ok(Some((*name, left)));
        }
        left -= cells;
    }
    Ok(None)
}

// A variable, or the element of an array after the first ones, with its subscripts.
fn element_text(
    alloc: Global,
    symbols: &Symbols,
    name: &Name,
    before: u32,
) -> Result<Text, AllocError>
    ensures { IfOk result (λ text. text ≡ words.element_text symbols.now name.now before) }
{
    let mut text = name.spelling(alloc)?.into_vec();
    if let Some(bounds) = bounds_of(
        alloc,
        symbols,
        symbols.constants(),
        symbols.dimensions(name),
    )? {
        append_subscripts(&mut text, &bounds, before)?;
    }
    Ok(Text::from(text))
}

/// A unit's name for a position, counted from 1, of the common block of this name: a variable, or an element with its
/// subscripts. `None` where the unit has no such position.
///
/// # Errors
///
/// Only where memory was refused.
pub fn own_name(
    alloc: Global,
    unit: &[Statement],
    block: &[u8],
    position: u32,
) -> Result<Option<Text>, AllocError>
    ensures { IfOk result (λ name. name ≡ words.own_name unit.now block.now position) }
{
    let symbols = Symbols::new(alloc, unit)?;
    let names = names_under(alloc, block, unit)?;
    let cell = position.saturating_sub(1);
    match owner_among(alloc, &symbols, &names, cell)? {
        Some((name, before)) => {
            let text = element_text(alloc, &symbols, &name, before)?;
            Ok(Some(text))
        }
        None => Ok(None),
    }
}
