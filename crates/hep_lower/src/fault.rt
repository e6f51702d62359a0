//! The errors of emitting code.

use std::alloc::{AllocError, AllocFailed};
use thiserror::Error;

/// Why a unit has no code.
#[derive(Clone, Copy, Debug, PartialEq, Eq, Error)]
pub enum EmitFault {
    /// Memory was refused.
    #[error("no memory")]
    NoMemory,
    /// There would be more instructions than a unit may have.
    #[error("too many instructions")]
    TooLong,
}

impl From<AllocError> for EmitFault {
    ghost use Rattle.std.specs.Prelude.{◌≡◌};
    ghost use Rattle.hep_lower.specs.declared.fault.EmitFault.TheVariants.{NoMemory};

    ghost from_gives = { λ _ fault. fault ≡ NoMemory };

    fn from(_refused: AllocError) -> EmitFault {
        EmitFault::NoMemory
    }
}

impl<T: Drop> From<AllocFailed<T>> for EmitFault {
    ghost use Rattle.std.specs.Prelude.{◌≡◌};
    ghost use Rattle.hep_lower.specs.declared.fault.EmitFault.TheVariants.{NoMemory};

    ghost from_gives = { λ _ fault. fault ≡ NoMemory };

    fn from(_refused: AllocFailed<T>) -> EmitFault {
        EmitFault::NoMemory
    }
}
