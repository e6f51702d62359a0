//! Why the choices of a run weren't all made.

/// Why the choices weren't all made.
#[derive(Clone, Copy, Debug, PartialEq, Eq)]
pub enum Halt {
    /// Memory was refused.
    NoMemory,
    /// This choice, counted from 1, names no living process.
    NoSuchProcess(usize),
}
