//! What an actual argument gives its dummy argument.

use hep_source::Value;

/// What a dummy argument is given, by the cells of the arena (X3.9-1978, 15.9.3).
#[derive(Clone, Copy, PartialEq, Eq)]
pub enum DummyStorage {
    /// The value of an expression. It is kept in the dummy argument's own cells.
    Value(Value),
    /// Storage units in cells that follow one another: the first cell, counted from that of the arena, and the number
    /// of cells.
    Units { first: u32, count: u32 },
}
