//! The storage units of a run.

/// A storage unit of a run: a variable of an activation or its element, or a position of a common block.
#[derive(Clone, Copy, Debug, PartialEq, Eq, Hash)]
pub struct StorageUnit {
    /// The activation whose variable it is, counted from 1, and 0 for COMMON.
    pub owner: u64,
    /// The number of the name of the variable or of the common block.
    pub name: u32,
    /// The element or the position, counted from 1, and 0 for a variable that is no array.
    pub element: u32,
}
