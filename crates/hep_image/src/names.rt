//! The names of a program.

use hep_base::Sequence;
use hep_code::Duplicate;
use hep_source::Text;
use std::alloc::{AllocError, Global};

/// The names of the units, of the variables of each unit, and of the common blocks, and the first number of each
/// kind.
#[derive(Drop)]
pub struct ProgramNames {
    /// All of them: the number of a name is its index.
    pub spelled: Sequence<Text>,
    /// For each unit, the number of the first name of a variable.
    pub variables: Sequence<u32>,
    /// The number of the first block's name.
    pub blocks: u32,
}

impl Duplicate for ProgramNames {
    fn copy(&self, alloc: Global) -> Result<ProgramNames, AllocError> {
        Ok(ProgramNames {
            spelled: self.spelled.copy(alloc)?,
            variables: self.variables.copy(alloc)?,
            blocks: self.blocks,
        })
    }
}
