//! Why a source isn't run.

use hep_base::Text;
use std::alloc::AllocError;
use thiserror::Error;

/// Why a source isn't run, with the notes about it.
#[derive(Debug, Drop, Error)]
pub enum SourceFault {
    /// Memory was refused, which says nothing of the source.
    #[error("no memory")]
    NoMemory,
    /// The source is refused.
    #[error("{number} at line {line}")]
    Refused {
        /// The number of the rule.
        number: u16,
        /// The line at fault; 0 where the whole text is.
        line: u32,
        /// The name that the rule is about, empty where it is about none.
        name: Text,
        /// The notes after the line of the refusal; or, for editors, its lines.
        notes: Text,
    },
}

impl From<AllocError> for SourceFault {
    ghost use Rattle.std.specs.Prelude.{◌≡◌};
    ghost use Rattle.hep_run.specs.declared.refusal.SourceFault.TheVariants.{NoMemory};

    ghost from_gives = { λ _ fault. fault ≡ NoMemory };

    fn from(_refused: AllocError) -> SourceFault {
        SourceFault::NoMemory
    }
}
