//! The values of DATA.

use hep_code::Duplicate;
use hep_source::Value;
use std::alloc::{AllocError, Global};

/// Cells of the arena in a row that have a value before the first step (X3.9-1978, section 9).
#[derive(Clone, Copy, PartialEq, Eq)]
pub struct DataRow {
    /// The first cell, counted from that of the arena.
    pub first: u32,
    pub count: u32,
    pub value: Value,
}

impl Duplicate for DataRow {
    fn copy(&self, _alloc: Global) -> Result<DataRow, AllocError> {
        Ok(*self)
    }
}
