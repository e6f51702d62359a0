//! The cells of a run.
use hep_source::Value;

/// A cell, the content of a storage unit (X3.9-1978, 2.13): the value that was stored last, if there is one,
/// and whether the cell is full.
#[derive(Clone, Copy, Debug, PartialEq, Eq)]
pub struct Slot {
    pub value: Option<Value>,
    pub full: bool,
}
