//! A unit of an image.
ghost use Rattle.std.specs.Prelude.{◌≡◌};
ghost use Rattle.hep_image.specs.Owners.{AreInOrder, variable_before};

use crate::array::Array;
use crate::dummy::DummyArgument;
use crate::owners::FrameVariable;
use hep_base::Sequence;
use hep_code::{Duplicate, Instruction};
use std::alloc::{AllocError, Global};

/// A unit as a core runs it.
#[derive(Drop)]
pub struct UnitCode {
    pub code: Sequence<Instruction>,
    /// The index of the first instruction of its first executable statement.
    pub entry: u32,
    /// Its arrays, in order of first appearance.
    pub arrays: Sequence<Array>,
    /// Its dummy arguments, in order.
    pub dummies: Sequence<DummyArgument>,
    /// The greatest number of operands at once.
    pub operands: u32,
    /// The number of cells of its frame.
    pub cells: u32,
    /// The cells of its private scalars, counted from the first one of its frame, in rising order: plain local
    /// scalars that are nowhere an actual argument by themselves.
    pub private: Sequence<u32>,
    /// The variables with cells in its frame, in the order of their cells.
    pub variables: Sequence<FrameVariable>,
}

impl UnitCode {
    /// The last of its variables that begins at this cell or before it, counted from the frame's first one. It is the
    /// variable of the cell, if the cell has one.
    pub fn variable_at(&self, cell: u32) -> Option<FrameVariable>
        requires { AreInOrder self.now.variables }
        ensures { result ≡ variable_before self.now.variables cell }
    {
        let variables = self.variables.as_slice();
        let begun = variables.partition_point(|variable| variable.first <= cell);
        if begun == 0 {
            None
        } else {
            Some(variables[begun - 1])
        }
    }
}

impl Duplicate for UnitCode {
    fn copy(&self, alloc: Global) -> Result<UnitCode, AllocError> {
        Ok(UnitCode {
            code: self.code.copy(alloc)?,
            entry: self.entry,
            arrays: self.arrays.copy(alloc)?,
            dummies: self.dummies.copy(alloc)?,
            operands: self.operands,
            cells: self.cells,
            private: self.private.copy(alloc)?,
            variables: self.variables.copy(alloc)?,
        })
    }
}
