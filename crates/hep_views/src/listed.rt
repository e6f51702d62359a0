//! Processes that wait.

/// A waiting process: where it is, and what it waits for. `Image::name` of hep_image gives the names of these
/// numbers.
#[derive(Clone, Copy, PartialEq, Eq)]
pub struct Listed {
    pub process: u64,
    /// The number of the unit's name, which is its index in the source, counted from 0.
    pub unit: u32,
    /// The initial line of the statement, counted from 1.
    pub line: u32,
    /// True where it waits until the place is full, false where it waits until it is empty.
    pub full: bool,
    /// The activation whose variable it waits for, counted from 1; 0 where it waits for a position of a common block.
    pub owner: u64,
    /// The number of the name of that variable, or of the common block; that of blank COMMON is empty (X3.9-1978, 8.3).
    pub name: u32,
    /// The element of the variable, or the position in the common block, counted from 1; 0 for a variable that is no array.
    pub element: u32,
}
