//! Why a call of this crate is refused.

ghost use Rattle.std.specs.Prelude.{◌≡◌};

use hep_core::NewFault;
use thiserror::Error;

/// Why a history isn't made again.
#[derive(Clone, Copy, Debug, PartialEq, Eq, Error)]
pub enum ReplayFault {
    /// Memory was refused, which says nothing of the history.
    #[error("no memory")]
    NoMemory,
    /// The main program's frame doesn't fit the arena.
    #[error("arena full")]
    ArenaFull,
    /// The history isn't possible.
    #[error("{number} at entry {entry}")]
    Refused {
        /// Always 603.
        number: u16,
        /// The first entry that isn't possible, counted from 1.
        entry: u64,
    },
}

impl From<NewFault> for ReplayFault {
    ghost use Rattle.hep_replay.specs.Replays.{of_new};

    ghost from_gives = { λ fault refusal. refusal ≡ of_new fault };

    fn from(fault: NewFault) -> ReplayFault {
        match fault {
            NewFault::NoMemory => ReplayFault::NoMemory,
            NewFault::ArenaFull => ReplayFault::ArenaFull,
        }
    }
}
