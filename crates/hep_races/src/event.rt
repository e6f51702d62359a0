//! The steps of a run, as the detector of races reads them.

use crate::storage_unit::StorageUnit;

/// An access to a plain storage unit.
#[derive(Clone, Copy, Debug, PartialEq, Eq)]
pub struct Access {
    /// The storage unit.
    pub at: StorageUnit,
    /// Whether it stores there; if not, it reads.
    pub stores: bool,
    /// The number of the place in the program from where it is made.
    pub site: u32,
}

/// An access with its step.
#[derive(Clone, Copy, Debug, PartialEq, Eq)]
pub struct StepAccess {
    /// The number of the step, counted from 0 over the whole run.
    pub step: u64,
    /// The process of the step.
    pub process: u64,
    /// The access.
    pub access: Access,
}

/// A step of a run.
#[derive(Clone, Copy)]
pub struct StepEvent<'a> {
    /// The process of the step.
    pub process: u64,
    /// The process that the step makes, if it makes one.
    pub makes: Option<u64>,
    /// The full/empty storage unit whose state the step needs, if it needs one.
    pub needs: Option<StorageUnit>,
    /// The full/empty storage units whose state the step changes.
    pub changes: &'a [StorageUnit],
    /// The accesses of the step to plain storage units, in the order in which it makes them.
    pub accesses: &'a [Access],
}
