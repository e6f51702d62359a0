//! The cells of a name in DATA (X3.9-1978, 9.2).
ghost use Rattle.std.specs.Prelude.{◌≡◌, IfOk, slice_get};
ghost use Rattle.std.specs.Option.{option_map, unwrap_or};
ghost use Rattle.indexmap.specs.IndexMap.{get};
ghost use Rattle.hep_machine.specs.Words.{name_eq, is_nonempty};
ghost use Rattle.hep_places.specs.InitialValues as given;

use crate::main_frame::MainFrame;
use hep_code::Variable;
use hep_image::{Array, Extents, Start};
use hep_names::integers;
use hep_shape::Shape;
use hep_source::Target;
use std::alloc::{AllocError, Global};

/// Cells of the arena in a row.
#[derive(Clone, Copy, PartialEq, Eq)]
pub(crate) struct CellRange {
    /// The first one, counted from that of the arena.
    pub(crate) first: u32,
    pub(crate) count: u32,
}

// `count` cells of a local variable after its first `before` ones. The frame follows COMMON.
fn cells_from(common: u32, cell: u32, before: u32, count: u32) -> Option<CellRange>
    ensures { result ≡ given.cells_from common cell before count }
{
    let end = u64::from(common) + (u64::from(cell) + (u64::from(before) + u64::from(count)));
    if end < 4_294_967_296 {
        Some(CellRange {
            first: common + (cell + before),
            count,
        })
    } else {
        None
    }
}

fn has_subscripts(target: &Target) -> bool
    ensures { result ≡ is_nonempty target.now.subscripts }
{
    !target.subscripts.as_slice().is_empty()
}

fn cells_of_scalar(common: u32, cell: u32, target: &Target) -> Option<CellRange>
    ensures { result ≡ given.cells_of_scalar common cell target.now }
{
    if has_subscripts(target) {
        None
    } else {
        cells_from(common, cell, 0, 1)
    }
}

// The cell of the element that has this number; elements are counted from 1.
fn cell_of_element(common: u32, cell: u32, number: Option<u32>) -> Option<CellRange>
    ensures { result ≡ given.cell_of_element common cell number }
{
    match number {
        Some(number) => cells_from(common, cell, number.saturating_sub(1), 1),
        None => None,
    }
}

fn cells_of_all_elements(common: u32, cell: u32, count: Option<u32>) -> Option<CellRange>
    ensures { result ≡ given.cells_of_all_elements common cell count }
{
    match count {
        Some(count) => cells_from(common, cell, 0, count),
        None => None,
    }
}

fn number_by(shape: &Shape, subscripts: Option<Vec<i64>>) -> Option<u32>
    ensures { result ≡ given.number_by shape.now (option_map (λ v. v.items) subscripts) }
{
    match subscripts {
        Some(subscripts) => shape.element(&subscripts),
        None => None,
    }
}

fn cells_of_array(
    alloc: Global,
    frame: &MainFrame,
    cell: u32,
    shape: &Shape,
    target: &Target,
) -> Result<Option<CellRange>, AllocError>
    ensures { IfOk result (λ cells. cells ≡ given.cells_of_array frame.now.symbols.now frame.now.common cell shape.now target.now) }
{
    if has_subscripts(target) {
        let subscripts = target.subscripts.as_slice();
        let integers = integers(alloc, frame.symbols, frame.symbols.constants(), subscripts)?;
        Ok(cell_of_element(frame.common, cell, number_by(shape, integers)))
    } else {
        Ok(cells_of_all_elements(frame.common, cell, shape.cells()))
    }
}

// The same of the array at an index, if it is a local one with constant bounds.
fn cells_by_array(
    alloc: Global,
    frame: &MainFrame,
    index: u32,
    target: &Target,
) -> Result<Option<CellRange>, AllocError>
    ensures { IfOk result (λ cells. cells
        ≡ given.cells_by_array frame.now.symbols.now frame.now.common (slice_get frame.now.arrays.now index) target.now) }
{
    match frame.arrays.get(index as usize) {
        Some(
            Array {
                start: Start::Local(cell),
                extents: Extents::Constant(shape),
            },
        ) => cells_of_array(alloc, frame, *cell, shape, target),
        _ => Ok(None),
    }
}

// The place of a variable, or `Absent` where none was entered.
fn variable(frame: &MainFrame, target: &Target) -> Variable
    ensures { result ≡ unwrap_or (get name_eq frame.now.variables.now target.now.occurrence.name) Variable.Absent }
{
    frame
        .variables
        .get(&target.occurrence.name)
        .copied()
        .unwrap_or(Variable::Absent)
}

// The cells of a name in DATA: of a local variable, or of elements of one.
pub(crate) fn cells_named(
    alloc: Global,
    frame: &MainFrame,
    target: &Target,
) -> Result<Option<CellRange>, AllocError>
    ensures { IfOk result (λ cells. cells
        ≡ given.cells_named frame.now.symbols.now (get name_eq frame.now.variables.now) frame.now.arrays.now frame.now.common target.now) }
{
    match variable(frame, target) {
        Variable::Local { cell, .. } => Ok(cells_of_scalar(frame.common, cell, target)),
        Variable::Array { array, .. } => { cells_by_array(alloc, frame, array, target) }
        _ => Ok(None),
    }
}
