//! Copies of cells.

use hep_source::Value;

/// The copy of a cell of a frame.
#[derive(Clone, Copy, Debug, PartialEq, Eq)]
pub struct CellCopy {
    /// The cell, counted from the first one of the frame.
    pub cell: usize,
    /// Its value, if it has one.
    pub value: Option<Value>,
}
