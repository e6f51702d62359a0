//! The values that a step of a process reads.

use hep_outcome::Place;
use hep_source::Value;

/// A storage unit that a step has read, and what it has read: the value, if there is one, or by FULL and EMPTY
/// whether it is full.
#[derive(Clone, Copy)]
pub struct CellReading {
    pub place: Place,
    pub value: Option<Value>,
}

/// A step of a process: the number of its entry, counted from 1, the place of the process before it, and what it has
/// read.
#[derive(Clone, Copy)]
pub struct ProcessStep {
    pub entry: u64,
    /// The number of the unit's name, which is its index in the source, counted from 0.
    pub unit: u32,
    /// The initial line of the statement, counted from 1.
    pub line: u32,
    /// `None` where the step reads nothing, or an element that doesn't exist.
    pub found: Option<CellReading>,
}
