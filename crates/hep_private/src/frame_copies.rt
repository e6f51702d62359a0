//! Copies of cells, each at its index among the cells of a frame.
ghost use Rattle.std.specs.Prelude.{◌≡◌, true, false, length, nat_lt, None, if◌then◌else◌, slice_set, replicate};
ghost use Rattle.hep_machine.specs.Words.{unset_cell};
ghost use Rattle.hep_private.specs.OwnState.{values_at};
ghost use Rattle.hep_private.specs.BaseValues.{value_copied};

use crate::cell_copy::CellCopy;
use hep_arena::Cell;
use hep_machine::Slot;
use hep_source::Value;

// Replaces the cells by `count` ones without a value. False where memory was refused.
#[inline(always)]
fn unset(cells: &mut Vec<Cell>, count: u32) -> bool
    ensures { result ≡ true → cells.new.items ≡ replicate count unset_cell }
{
    cells.clear();
    let cell = Cell::new(Slot {
        value: None,
        full: false,
    });
    cells.resize(count as usize, cell).is_ok()
}

// Gives a cell a value. False where there is no such cell.
#[inline(always)]
fn put(cells: &mut [Cell], at: usize, value: Option<Value>) -> bool
    ensures inside { result ≡ nat_lt at (length cells.old) }
    ensures cells { cells.new ≡ (if result then slice_set cells.old at (record { value = value; full = false }) else cells.old) }
{
    if at >= cells.len() {
        return false;
    }
    cells[at] = Cell::new(Slot { value, full: false });
    true
}

// Gives the copies' values to cells that have none. Where a cell has two copies, the first one counts. False where a
// copy is of a cell past these.
#[inline(always)]
fn put_copies(cells: &mut [Cell], copies: &[CellCopy]) -> bool
    requires blank { values_at cells.old 0 ≡ (λ c. None) }
    ensures values { result ≡ true → values_at cells.new 0 ≡ value_copied copies.now }
    ensures count { length cells.new ≡ length cells.old }
{
    let mut left = copies.len();
    while left > 0 {
        left -= 1;
        let copy = copies[left];
        if !put(cells, copy.cell, copy.value) {
            return false;
        }
    }
    true
}

/// Replaces the cells by `count` ones with the values of copies. False where a copy is of a cell past them, or memory
/// was refused.
#[inline(always)]
pub(crate) fn fill(cells: &mut Vec<Cell>, count: u32, copies: &[CellCopy]) -> bool
    ensures values { result ≡ true → values_at cells.new.items 0 ≡ value_copied copies.now }
    ensures count { result ≡ true → length cells.new.items ≡ count }
{
    unset(cells, count) && put_copies(cells, copies)
}

/// Replaces the cells by others. False where memory was refused.
#[inline(always)]
pub(crate) fn copy_cells(cells: &mut Vec<Cell>, others: &[Cell]) -> bool
    ensures { result ≡ true → cells.new.items ≡ others.now }
{
    cells.clear();
    cells.extend_from_slice(others).is_ok()
}
