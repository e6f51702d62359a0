//! The reason why a text isn't read.
ghost use Rattle.std.specs.Prelude.{◌≡◌};

use std::alloc::{AllocError, AllocFailed};
use thiserror::Error;

/// The reason why a text isn't read as an expression or a form of statement.
#[derive(Clone, Copy, Debug, PartialEq, Eq, Error)]
pub enum ReadFailure {
    /// Memory was refused.
    #[error("no memory")]
    NoMemory,
    /// The grammar has no reading of the text.
    #[error("no reading")]
    NoReading,
}

impl From<AllocError> for ReadFailure {
    ghost use Rattle.std.specs.Prelude.{◌≡◌};
    ghost use Rattle.hep_expression.specs.declared.read_failure.ReadFailure.TheVariants.{NoMemory};

    ghost from_gives = { λ _ why. why ≡ NoMemory };

    fn from(_refused: AllocError) -> ReadFailure {
        ReadFailure::NoMemory
    }
}

impl<T: Drop> From<AllocFailed<T>> for ReadFailure {
    ghost use Rattle.std.specs.Prelude.{◌≡◌};
    ghost use Rattle.hep_expression.specs.declared.read_failure.ReadFailure.TheVariants.{NoMemory};

    ghost from_gives = { λ _ why. why ≡ NoMemory };

    fn from(_refused: AllocFailed<T>) -> ReadFailure {
        ReadFailure::NoMemory
    }
}
