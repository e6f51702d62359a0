//! Program units and programs.

use crate::syntax::{Syntax, copy_all, same_all};
use hep_source::{Program, Unit};
use std::alloc::{AllocError, Global};

impl Syntax for Unit {
    fn copy(&self, alloc: Global) -> Result<Unit, AllocError> {
        Ok(Unit::from(copy_all(alloc, self.as_slice())?))
    }

    fn same(&self, other: &Unit) -> bool {
        same_all(self.as_slice(), other.as_slice())
    }
}

impl Syntax for Program {
    fn copy(&self, alloc: Global) -> Result<Program, AllocError> {
        Ok(Program::from(copy_all(alloc, self.as_slice())?))
    }

    fn same(&self, other: &Program) -> bool {
        same_all(self.as_slice(), other.as_slice())
    }
}
