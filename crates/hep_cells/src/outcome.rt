//! The outcome of an access to a cell.
use hep_machine::{Slot, Value};

/// The outcome of an access to a cell. The access isn't made yet.
#[derive(Clone, Copy, PartialEq, Eq)]
pub enum AccessOutcome {
    /// It gives a value, and the cell doesn't change.
    Gives(Value),
    /// It gives a value, and the cell has this slot then.
    Makes { value: Value, slot: Slot },
    /// It gives nothing yet: the process waits until the cell is full, or until it is empty.
    Waits { full: bool },
    /// It gives nothing: no value was ever stored in the cell.
    Undefined,
}
