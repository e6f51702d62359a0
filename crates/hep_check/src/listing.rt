//! The lines of units and common blocks, with their numbers of cells (docs/MACHINE.md, "Variables and frames" and
//! "Layout").
ghost use Rattle.std.specs.Prelude.{◌≡◌, ◌++◌, IfOk, OnOk};
ghost use Rattle.std.specs.List.{flat_map};
ghost use Rattle.hep_machine.specs.Words.{blocks_of};
ghost use Rattle.hep_check.specs.Listing as words;

use hep_base::append_number;
use hep_conditions::Checked;
use hep_names::ProgramSymbols;
use hep_source::{Text, block_spelling};
use hep_storage::CommonBlocks;
use std::alloc::{AllocError, Global};

// The line of a unit of this name: `UNIT name CELLS n`.
fn append_unit(text: &mut Vec<u8>, name: &[u8], cells: u128) -> Result<(), AllocError>
    ensures { OnOk result (text.new.items ≡ text.old.items ++ words.unit_text name.now cells) }
{
    text.extend_from_slice(b"UNIT ")?;
    text.extend_from_slice(name)?;
    text.extend_from_slice(b" CELLS ")?;
    append_number(text, cells)?;
    text.extend_from_slice(b"\n")?;
    Ok(())
}

// The line of a common block of this name: `BLOCK /name/ CELLS n`.
fn append_block(text: &mut Vec<u8>, name: &[u8], cells: u128) -> Result<(), AllocError>
    ensures { OnOk result (text.new.items ≡ text.old.items ++ words.block_text name.now cells) }
{
    text.extend_from_slice(b"BLOCK /")?;
    text.extend_from_slice(name)?;
    text.extend_from_slice(b"/ CELLS ")?;
    append_number(text, cells)?;
    text.extend_from_slice(b"\n")?;
    Ok(())
}

fn append_units(alloc: Global, text: &mut Vec<u8>, checked: &Checked) -> Result<(), AllocError>
    ensures { OnOk result (text.new.items ≡ text.old.items ++ flat_map words.unit_line checked.now) }
{
    for (number, unit) in checked.program().as_slice().iter().enumerate() {
        let name = unit.name(alloc)?;
        append_unit(text, name.as_slice(), checked.frame_cells(number))?;
    }
    Ok(())
}

fn append_blocks(alloc: Global, text: &mut Vec<u8>, checked: &Checked) -> Result<(), AllocError>
    ensures { OnOk result (text.new.items ≡ text.old.items ++ flat_map (words.block_line checked.now) (blocks_of checked.now)) }
{
    let program = ProgramSymbols::new(alloc, checked.program().as_slice())?;
    let common = CommonBlocks::of_program(alloc, &program)?;
    for block in common.blocks() {
        let name = block_spelling(alloc, *block)?;
        append_block(text, name.as_slice(), common.cells(*block))?;
    }
    Ok(())
}

/// The lines of a checked program. First there is `UNIT name CELLS n` for each unit, with the number of cells of its frame, in the order
/// of the source. Then there is `BLOCK /name/ CELLS n` for each common block, with its greatest length (X3.9-1978, 8.3.3), in the order
/// of first appearance. A main program without a PROGRAM statement is `MAIN`, and blank COMMON has no name.
///
/// # Errors
///
/// Only where memory was refused.
pub fn list_text(alloc: Global, checked: &Checked) -> Result<Text, AllocError>
    ensures { IfOk result (λ text. text ≡ words.listing checked.now) }
{
    let mut text = Vec::new(alloc);
    append_units(alloc, &mut text, checked)?;
    append_blocks(alloc, &mut text, checked)?;
    Ok(Text::from(text))
}
