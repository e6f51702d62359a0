//! The errors of a run by workers.
ghost use Rattle.std.specs.Prelude.{◌≡◌};
ghost use Rattle.hep_workers.specs.Faults.{number_of};

use crate::close_fault::CloseFault;
use hep_core::NewFault;
use std::alloc::AllocError;
use thiserror::Error;

// Why the workers gave up: memory was refused to one of them, or not all were started.
#[derive(Clone, Copy, Debug, PartialEq, Eq)]
pub enum CrewFault {
    NoMemory,
    NoThread,
}

impl From<AllocError> for CrewFault {
    ghost use Rattle.std.specs.Prelude.{◌≡◌};
    ghost use Rattle.hep_workers.specs.declared.work_fault.CrewFault.TheVariants.{NoMemory};

    ghost from_gives = { λ _ e. e ≡ NoMemory };

    fn from(_refused: AllocError) -> CrewFault {
        CrewFault::NoMemory
    }
}

/// Why a run by workers leaves no report.
#[derive(Clone, Copy, Debug, PartialEq, Eq, Error)]
pub enum WorkFault {
    /// Memory was refused.
    #[error("no memory")]
    NoMemory,
    /// The main program's frame doesn't fit the arena.
    #[error("arena full")]
    ArenaFull,
    /// All tickets were given. No run by workers ends with it.
    #[error("506: no ticket is left")]
    NoTicket,
    /// A thread couldn't be started, which may be for want of memory.
    #[error("704: a thread could not be started")]
    NoThread,
    /// `close` has refused what the workers left, which happens only where memory was refused.
    #[error("there is no report")]
    Close(CloseFault),
}

impl WorkFault {
    /// The number in the line `WORKERS REFUSED`. `None` where memory was refused or the arena is full.
    pub fn number(self) -> Option<u16>
        ensures { result ≡ number_of self }
    {
        match self {
            WorkFault::NoMemory | WorkFault::ArenaFull | WorkFault::Close(CloseFault::NoMemory) =>
                None,
            WorkFault::NoTicket => Some(506),
            WorkFault::NoThread => Some(704),
            WorkFault::Close(CloseFault::NotTheEntries) => Some(701),
            WorkFault::Close(CloseFault::NotRising) => Some(702),
            WorkFault::Close(CloseFault::NotTheRun) => Some(703),
            WorkFault::Close(CloseFault::StillRunning) => Some(705),
        }
    }
}

impl From<AllocError> for WorkFault {
    ghost use Rattle.std.specs.Prelude.{◌≡◌};
    ghost use Rattle.hep_workers.specs.declared.work_fault.WorkFault.TheVariants.{NoMemory};

    ghost from_gives = { λ _ e. e ≡ NoMemory };

    fn from(_refused: AllocError) -> WorkFault {
        WorkFault::NoMemory
    }
}

impl From<NewFault> for WorkFault {
    ghost use Rattle.std.specs.Prelude.{◌≡◌};
    ghost use Rattle.hep_workers.specs.Faults.{of_new};

    ghost from_gives = { λ fault e. e ≡ of_new fault };

    fn from(fault: NewFault) -> WorkFault {
        match fault {
            NewFault::NoMemory => WorkFault::NoMemory,
            NewFault::ArenaFull => WorkFault::ArenaFull,
        }
    }
}

impl From<CrewFault> for WorkFault {
    ghost use Rattle.std.specs.Prelude.{◌≡◌};
    ghost use Rattle.hep_workers.specs.Faults.{of_crew};

    ghost from_gives = { λ fault e. e ≡ of_crew fault };

    fn from(fault: CrewFault) -> WorkFault {
        match fault {
            CrewFault::NoMemory => WorkFault::NoMemory,
            CrewFault::NoThread => WorkFault::NoThread,
        }
    }
}

impl From<CloseFault> for WorkFault {
    ghost use Rattle.std.specs.Prelude.{◌≡◌};
    ghost use Rattle.hep_workers.specs.declared.work_fault.WorkFault.TheVariants.{Close};

    ghost from_gives = { λ fault e. e ≡ Close fault };

    fn from(fault: CloseFault) -> WorkFault {
        WorkFault::Close(fault)
    }
}
