//! Ranges of cells that a PURGE empties.

/// Cells of the arena that follow one another.
#[derive(Clone, Copy, PartialEq, Eq)]
pub struct ClosedRange {
    /// The first one, counted from that of the arena.
    pub first: u32,
    /// The number of cells.
    pub cells: u32,
}
