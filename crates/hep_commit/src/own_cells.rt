//! Own cells of an activation: those of its unit's private scalars, and of its DOs.
ghost use Rattle.std.specs.Prelude.{◌≡◌, ◌<◌, ◌++◌, IfOk, None, Some, OnOk, length};
ghost use Rattle.hep_commit.specs.OwnCells as spec;
ghost use Rattle.hep_commit.specs.OwnCells.{AreOwnCells, cells_of_loop, last_loop, loop_cells_behind, own_cells_in};
ghost use Rattle.hep_private.specs.PrivateCode.{loop_at};

use hep_code::Instruction;
use hep_private::{Image, UnitCode, loop_at};
use std::alloc::{AllocError, Global};

/// The own cells of one unit, counted from the first one of its frame.
#[derive(Drop)]
pub struct OwnCells {
    pub cells: Vec<usize>,
}

/// An image, and the own cells of each of its units.
#[derive(Clone, Copy)]
pub struct OwnCellTable<'a> {
    pub image: &'a Image,
    pub tables: &'a [OwnCells],
}

impl OwnCellTable<'_> {
    /// The own cells of a unit. Units are counted from 0 in the order of the source.
    pub fn cells(&self, unit: usize) -> &[usize]
        requires tables { AreOwnCells self.now.image.now self.now.tables.now }
        requires inside { unit < length self.now.image.now }
        ensures { result.now ≡ spec.own_cells_of self.now.image.now unit }
    {
        &self.tables[unit].cells
    }
}

// The two cells of a DO, unless it is this one.
fn add_loop(cells: &mut Vec<usize>, last: Option<u32>, found: u32) -> Result<(), AllocError>
    ensures { OnOk result (cells.new.items ≡ cells.old.items ++ cells_of_loop last (Some found)) }
{
    if last == Some(found) {
        return Ok(());
    }
    let first = found as usize;
    cells.push(first)?;
    cells.push(first + 1)?;
    Ok(())
}

// Appends the cells of the DO that an instruction enters or ends an iteration of, unless it is the last one that was
// appended. Returns the last one then.
fn add_instruction(
    cells: &mut Vec<usize>,
    last: Option<u32>,
    instruction: &Instruction,
) -> Result<Option<u32>, AllocError>
    ensures cells { OnOk result (cells.new.items ≡ cells.old.items ++ cells_of_loop last (loop_at instruction.now)) }
    ensures last { IfOk result (λ after. after ≡ last_loop last (loop_at instruction.now)) }
{
    match loop_at(instruction) {
        Some(found) => {
            add_loop(cells, last, found)?;
            Ok(Some(found))
        }
        None => Ok(last),
    }
}

fn add_loops(cells: &mut Vec<usize>, code: &[Instruction]) -> Result<(), AllocError>
    ensures { OnOk result (cells.new.items ≡ cells.old.items ++ loop_cells_behind None code.now) }
{
    let mut last = None;
    for instruction in code {
        last = add_instruction(cells, last, instruction)?;
    }
    Ok(())
}

fn add_private(cells: &mut Vec<usize>, private: &[u32]) -> Result<(), AllocError>
    ensures { OnOk result (cells.new.items ≡ cells.old.items ++ private.now) }
{
    for cell in private {
        cells.push(*cell as usize)?;
    }
    Ok(())
}

fn cells_of(alloc: Global, unit: &UnitCode) -> Result<OwnCells, AllocError>
    ensures { IfOk result (λ own. own.cells.items ≡ own_cells_in unit.now.private unit.now.code) }
{
    let mut cells = Vec::new(alloc);
    add_private(&mut cells, unit.private.as_slice())?;
    add_loops(&mut cells, unit.code.as_slice())?;
    Ok(OwnCells { cells })
}

/// The own cells of each unit of an image, in the order of the source.
///
/// # Errors
///
/// Only where memory was refused.
pub fn own_cells_of(alloc: Global, image: &Image) -> Result<Vec<OwnCells>, AllocError>
    ensures { IfOk result (λ tables. AreOwnCells image.now tables.items) }
{
    let count = image.program().as_slice().len();
    let mut tables = Vec::with_capacity(alloc, count)?;
    for unit in 0..count {
        let cells = cells_of(alloc, image.unit(unit))?;
        tables.push(cells)?;
    }
    Ok(tables)
}
