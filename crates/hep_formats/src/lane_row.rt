//! Rows of cells of one width.
ghost use Rattle.std.specs.Prelude.{◌≡◌, [], OnOk};
ghost use Rattle.hep_formats.specs.LaneRows as words;

use std::alloc::AllocError;

/// How many lanes are shown at most, and how many columns each has.
#[derive(Clone, Copy)]
pub struct LaneFrame {
    pub few: usize,
    pub width: usize,
}

// Appends blanks up to a column.
fn pad(row: &mut Vec<u8>, column: usize) -> Result<(), AllocError>
    ensures { OnOk result (row.new.items ≡ words.padded column row.old.items) }
{
    let count = column.saturating_sub(row.len());
    for _ in 0..count {
        row.push(b' ')?;
    }
    Ok(())
}

/// Appends an entry at the right of six columns to a row that is empty.
///
/// # Errors
///
/// Only where memory was refused.
pub(crate) fn append_entry(row: &mut Vec<u8>, entry: &[u8]) -> Result<(), AllocError>
    requires { row.old.items ≡ [] }
    ensures { OnOk result (row.new.items ≡ words.right entry.now) }
{
    pad(row, 6usize.saturating_sub(entry.len()))?;
    row.extend_from_slice(entry)
}

/// Appends a cell from a column on, after one blank at least; nothing where it is empty.
///
/// # Errors
///
/// Only where memory was refused.
pub(crate) fn append_cell(row: &mut Vec<u8>, column: usize, cell: &[u8]) -> Result<(), AllocError>
    ensures { OnOk result (row.new.items ≡ words.with_cell column row.old.items cell.now) }
{
    if cell.is_empty() {
        return Ok(());
    }
    row.push(b' ')?;
    pad(row, column)?;
    row.extend_from_slice(cell)
}

/// Cuts a text to the width of a cell.
///
/// # Errors
///
/// Only where memory was refused.
pub(crate) fn cut(text: &mut Vec<u8>, width: usize) -> Result<(), AllocError>
    ensures { OnOk result (text.new.items ≡ words.cut width text.old.items) }
{
    if width <= text.len() {
        text.truncate(width.saturating_sub(2));
        text.push(b'~')?;
    }
    Ok(())
}
