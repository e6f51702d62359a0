//! Why a process waits.

use hep_base::Text;
use hep_event::{Listed, Whereabouts};

/// A step that filled or emptied a storage unit: the number of its entry, counted from 1, and the place of its
/// process before it.
#[derive(Clone, Copy)]
pub struct Change {
    pub entry: u64,
    pub place: Whereabouts,
}

/// The latest two changes of a storage unit, as far as there were any. One filled it, and the other one emptied it.
#[derive(Clone, Copy)]
pub struct LatestChanges {
    pub last: Option<Change>,
    pub before: Option<Change>,
}

/// A waiting process, with its unit's name for what it waits for; the latest change of that, which took it away, and the
/// one before, which brought it, where there were any; and whether the processes that made them live.
#[derive(Drop)]
pub struct Reason {
    pub listed: Listed,
    pub called: Text,
    pub latest: Option<Change>,
    pub lives: bool,
    pub brought: Option<Change>,
    pub bringer_lives: bool,
}

/// Whether the processes that made the two changes of a reason wait themselves.
#[derive(Clone, Copy)]
pub struct MakersWait {
    pub latest: bool,
    pub brought: bool,
}
