//! Arrays without their names.

use hep_code::Duplicate;
use hep_shape::Shape;
use std::alloc::{AllocError, Global};

/// The first storage unit of a variable (X3.9-1978, 2.13, 8.3.2 and 15.9.3).
#[derive(Clone, Copy, PartialEq, Eq)]
pub enum Start {
    /// A local variable, by its first cell, counted from that of the frame.
    Local(u32),
    /// A variable in COMMON, by its first cell, counted from that of the arena, which begins with COMMON.
    Common(u32),
    /// A dummy argument, by the first of two cells, counted from that of the frame. They have the first storage unit
    /// that it is associated with, and the number of storage units from there on. For an expression, the first cell
    /// has its value and the second has none.
    Dummy(u32),
}

/// The bounds of an array (5.1 and 5.5).
#[derive(Drop)]
pub enum Extents {
    /// All of them are constant, and the last one may be open.
    Constant(Shape),
    /// They are fixed at each call: two cells of the frame for each dimension, from this one on.
    Adjustable { cells: u32, dimensions: u32 },
}

/// The first storage unit of an array, and its bounds.
#[derive(Drop)]
pub struct Array {
    pub start: Start,
    pub extents: Extents,
}

impl Duplicate for Extents {
    fn copy(&self, _alloc: Global) -> Result<Extents, AllocError> {
        match self {
            Extents::Constant(shape) => Ok(Extents::Constant(shape.copy())),
            Extents::Adjustable { cells, dimensions } => Ok(Extents::Adjustable {
                cells: *cells,
                dimensions: *dimensions,
            }),
        }
    }
}

impl Duplicate for Array {
    fn copy(&self, alloc: Global) -> Result<Array, AllocError> {
        Ok(Array {
            start: self.start,
            extents: self.extents.copy(alloc)?,
        })
    }
}
