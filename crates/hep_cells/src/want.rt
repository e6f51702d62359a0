//! A cell that is full or empty: what a process waits for, and what a step has changed.

/// A cell of the arena that is full, or one that is empty. A process waits for it, or a step has left the cell so.
#[derive(Clone, Copy, PartialEq, Eq, Hash)]
pub struct Want {
    pub cell: u32,
    pub full: bool,
}
