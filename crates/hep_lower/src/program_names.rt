//! The names of a program, in the order of an image.
ghost use Rattle.std.specs.Prelude.{◌≡◌, ◌<◌, ◌^◌, ◌++◌, map, length, IfOk, OnOk};
ghost use Rattle.std.specs.List.{flat_map};
ghost use Rattle.hep_machine.specs.Words.{spelling, blocks_of, block_spelling};
ghost use Rattle.hep_source.specs.Units as units;
ghost use Rattle.hep_image.specs.Names as words;
ghost use Rattle.hep_lower.specs.Numbers.{numbers_from};

use hep_base::Sequence;
use hep_image::ProgramNames;
use hep_names::{ProgramSymbols, Symbols};
use hep_source::{Name, Text, Unit, block_spelling};
use std::alloc::{AllocError, Global};

// The names of these units.
fn add_unit_names(alloc: Global, names: &mut Vec<Text>, list: &[Unit]) -> Result<(), AllocError>
    ensures { OnOk result (names.new.items ≡ names.old.items ++ map units.unit_name list.now) }
{
    for unit in list {
        names.push(unit.name(alloc)?)?;
    }
    Ok(())
}

fn add_spellings(alloc: Global, names: &mut Vec<Text>, list: &[Name]) -> Result<(), AllocError>
    ensures { OnOk result (names.new.items ≡ names.old.items ++ map spelling list.now) }
{
    for name in list {
        names.push(name.spelling(alloc)?)?;
    }
    Ok(())
}

// The number of the next name, in 32 bits. There is no memory for more names.
fn next_number(names: &Vec<Text>) -> Result<u32, AllocError>
    ensures number { IfOk result (λ number. number ≡ length names.now.items) }
    ensures few { IfOk result (λ number. length names.now.items < 2 ^ 32) }
{
    match u32::try_from(names.len()) {
        Ok(number) => Ok(number),
        Err(_) => Err(AllocError),
    }
}

// The names of the variables of these units, and for each unit the number of the first one.
fn add_variables(
    alloc: Global,
    names: &mut Vec<Text>,
    list: &[Symbols],
) -> Result<Vec<u32>, AllocError>
    ensures names { OnOk result (names.new.items ≡ names.old.items ++ flat_map words.spellings_of list.now) }
    ensures numbers { IfOk result (λ numbers. numbers.items ≡ numbers_from (length names.old.items) list.now) }
{
    let mut numbers = Vec::new(alloc);
    for symbols in list {
        numbers.push(next_number(names)?)?;
        add_spellings(alloc, names, symbols.names().as_slice())?;
    }
    Ok(numbers)
}

fn add_blocks(alloc: Global, names: &mut Vec<Text>, list: &[Option<Name>]) -> Result<(), AllocError>
    ensures { OnOk result (names.new.items ≡ names.old.items ++ map block_spelling list.now) }
{
    for block in list {
        names.push(block_spelling(alloc, *block)?)?;
    }
    Ok(())
}

/// The names of the units, of the variables of each unit, and of the common blocks, which are these.
///
/// # Errors
///
/// Only where memory was refused, as it is for more than 4,294,967,295 names.
pub(crate) fn names_in_order(
    alloc: Global,
    list: &[Unit],
    program: &ProgramSymbols,
    blocks: &[Option<Name>],
) -> Result<ProgramNames, AllocError>
    requires program { program.now ≡ list.now }
    requires blocks { blocks.now ≡ blocks_of list.now }
    ensures { IfOk result (words.AreNames list.now) }
{
    let mut names = Vec::with_capacity(alloc, list.len())?;
    add_unit_names(alloc, &mut names, list)?;
    let variables = add_variables(alloc, &mut names, program.units())?;
    let first_block = next_number(&names)?;
    add_blocks(alloc, &mut names, blocks)?;
    next_number(&names)?;
    Ok(ProgramNames {
        spelled: Sequence::from(names),
        variables: Sequence::from(variables),
        blocks: first_block,
    })
}
