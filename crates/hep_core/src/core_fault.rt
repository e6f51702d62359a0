//! The errors of calls of this crate.

use crate::stop::ChoiceStop;
use std::alloc::{AllocError, AllocFailed};
use thiserror::Error;

/// Why no core is made.
#[derive(Clone, Copy, Debug, PartialEq, Eq, Error)]
pub enum NewFault {
    /// Memory was refused.
    #[error("no memory")]
    NoMemory,
    /// The main program's frame doesn't fit the arena.
    #[error("arena full")]
    ArenaFull,
}

impl From<AllocError> for NewFault {
    ghost use Rattle.std.specs.Prelude.{◌≡◌};
    ghost use Rattle.hep_core.specs.declared.core_fault.NewFault.TheVariants.{NoMemory};

    ghost from_gives = { λ _ e. e ≡ NoMemory };

    fn from(_refused: AllocError) -> NewFault {
        NewFault::NoMemory
    }
}

impl<T: Drop> From<AllocFailed<T>> for NewFault {
    ghost use Rattle.std.specs.Prelude.{◌≡◌};
    ghost use Rattle.hep_core.specs.declared.core_fault.NewFault.TheVariants.{NoMemory};

    ghost from_gives = { λ _ e. e ≡ NoMemory };

    fn from(_refused: AllocFailed<T>) -> NewFault {
        NewFault::NoMemory
    }
}

/// Why a process isn't chosen or checked out. A refused call changes nothing, except that it may set a stop.
#[derive(Clone, Copy, Debug, PartialEq, Eq, Error)]
pub enum ChooseFault {
    /// The core has stopped, now or before, for this reason.
    #[error("stopped")]
    Stopped(ChoiceStop),
    /// The process was never made or has ended. A choice that the user made is refused as 501 then (docs/MACHINE.md,
    /// "The program").
    #[error("no such process")]
    NoSuchProcess,
    /// The process is out.
    #[error("the process is out")]
    IsOut,
    /// All 2^64 - 1 tickets were given. Only a check-out is refused so.
    #[error("no ticket is left")]
    NoTicket,
    /// Memory was refused; nothing has changed.
    #[error("no memory")]
    NoMemory,
}

impl From<AllocError> for ChooseFault {
    ghost use Rattle.std.specs.Prelude.{◌≡◌};
    ghost use Rattle.hep_core.specs.declared.core_fault.ChooseFault.TheVariants.{NoMemory};

    ghost from_gives = { λ _ e. e ≡ NoMemory };

    fn from(_refused: AllocError) -> ChooseFault {
        ChooseFault::NoMemory
    }
}

/// Why a segment isn't committed, or a ticket isn't cancelled. The ticket is out as before.
#[derive(Clone, Copy, Debug, PartialEq, Eq, Error)]
pub enum CommitFault {
    /// The core has stopped, now or before, for this reason.
    #[error("stopped")]
    Stopped(ChoiceStop),
    /// The ticket isn't the one that is out for its process, or the steps of the segment aren't the next ones of that
    /// process.
    #[error("stale")]
    Stale,
    /// Memory was refused; nothing has changed.
    #[error("no memory")]
    NoMemory,
}

impl From<AllocError> for CommitFault {
    ghost use Rattle.std.specs.Prelude.{◌≡◌};
    ghost use Rattle.hep_core.specs.declared.core_fault.CommitFault.TheVariants.{NoMemory};

    ghost from_gives = { λ _ e. e ≡ NoMemory };

    fn from(_refused: AllocError) -> CommitFault {
        CommitFault::NoMemory
    }
}
