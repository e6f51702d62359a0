//! The places of processes.

/// The place of a process. `Image::name` of hep_image gives the name of the unit.
#[derive(Clone, Copy, PartialEq, Eq)]
pub struct Whereabouts {
    pub process: u64,
    /// The number of the unit's name, which is its index in the source, counted from 0.
    pub unit: u32,
    /// The initial line of the statement, counted from 1.
    pub line: u32,
}
