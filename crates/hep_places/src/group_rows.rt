//! The rows of cells that a group of DATA gives values (X3.9-1978, 9.2).
ghost use Rattle.std.specs.Prelude.{◌≡◌, ◌+◌, ◌<◌, ◌≤◌, [], ◌∷◌, IfOk, IfSome, OnOk, ℕ, option_to_list};
ghost use Rattle.std.specs.Option.{option_or};
ghost use Rattle.indexmap.specs.IndexMap.{get};
ghost use Rattle.hep_machine.specs.Words.{name_eq};
ghost use Rattle.hep_image.specs.Data.{value_in_rows};
ghost use Rattle.hep_places.specs.CellRows.{Gives, GivesSome};
ghost use Rattle.hep_places.specs.InitialValues as given;
ghost use Rattle.hep_places.specs.GroupValues.{left};

use crate::data_cells::{CellRange, cells_named};
use crate::group_values::GroupValues;
use crate::main_frame::MainFrame;
use hep_image::DataRow;
use hep_source::{DataGroup, Target};
use std::alloc::{AllocError, Global};

// Adds a row for the first of these cells, all that get the next value, and returns the cells that are left. None are
// left where there was no further value.
fn add_row(
    rows: &mut Vec<DataRow>,
    cells: CellRange,
    values: &mut GroupValues,
) -> Result<CellRange, AllocError>
    requires some { 1 ≤ cells.count }
    requires within { cells.first + cells.count < 4294967296 }
    ensures fewer { IfOk result (λ rest. rest.count < cells.count) }
    ensures gives { IfOk result (λ rest. GivesSome cells rows.old.items (left values.old) rest rows.new.items (left values.new)) }
{
    let Some((value, count)) = values.take(cells.count) else {
        return Ok(CellRange {
            first: cells.first,
            count: 0,
        });
    };
    let first = cells.first;
    rows.push(DataRow {
        first,
        count,
        value,
    })?;
    Ok(CellRange {
        first: first + count,
        count: cells.count - count,
    })
}

// Gives cells the next values.
fn add_rows(
    rows: &mut Vec<DataRow>,
    cells: CellRange,
    values: &mut GroupValues,
) -> Result<(), AllocError>
    requires { cells.first + cells.count < 4294967296 }
    ensures { OnOk result (Gives (cells ∷ []) rows.old.items (left values.old) rows.new.items (left values.new)) }
{
    let mut rest = cells;
    while rest.count > 0 {
        rest = add_row(rows, rest, values)?;
    }
    Ok(())
}

// Gives the cells of a name the next values.
fn add_named(
    rows: &mut Vec<DataRow>,
    cells: Option<CellRange>,
    values: &mut GroupValues,
) -> Result<(), AllocError>
    requires { IfSome cells (λ c. c.first + c.count < 4294967296) }
    ensures { OnOk result (Gives (option_to_list cells) rows.old.items (left values.old) rows.new.items (left values.new)) }
{
    match cells {
        Some(cells) => add_rows(rows, cells, values),
        None => Ok(()),
    }
}

fn add_target(
    alloc: Global,
    frame: &MainFrame,
    rows: &mut Vec<DataRow>,
    values: &mut GroupValues,
    target: &Target,
) -> Result<(), AllocError>
    ensures { OnOk result (Gives (option_to_list
        (given.cells_named frame.now.symbols.now
        (get name_eq frame.now.variables.now) frame.now.arrays.now frame.now.common target.now)) rows.old.items
        (left values.old) rows.new.items (left values.new)) }
{
    let cells = cells_named(alloc, frame, target)?;
    add_named(rows, cells, values)
}

// Gives the cells of the names the values, in their order.
fn add_targets(
    alloc: Global,
    frame: &MainFrame,
    rows: &mut Vec<DataRow>,
    values: &mut GroupValues,
    targets: &[Target],
) -> Result<(), AllocError>
    ensures { OnOk result (Gives (given.all_cells_named frame.now.symbols.now
        (get name_eq frame.now.variables.now) frame.now.arrays.now frame.now.common targets.now) rows.old.items
        (left values.old) rows.new.items (left values.new)) }
{
    for target in targets {
        add_target(alloc, frame, rows, values, target)?;
    }
    Ok(())
}

/// Adds the rows of a group.
pub(crate) fn add_group(
    alloc: Global,
    frame: &MainFrame,
    rows: &mut Vec<DataRow>,
    group: &DataGroup,
) -> Result<(), AllocError>
    ensures { OnOk result ((p : ℕ) → value_in_rows rows.new.items p
        ≡ option_or (value_in_rows rows.old.items p)
        (given.value_by_group frame.now.symbols.now
        (get name_eq frame.now.variables.now) frame.now.arrays.now frame.now.common group.now p)) }
{
    let mut values = GroupValues::new(frame.symbols.constants(), group.values.as_slice());
    add_targets(alloc, frame, rows, &mut values, group.targets.as_slice())
}
