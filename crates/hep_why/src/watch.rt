//! Watches: waiting processes, for which the latest changes are looked for.

use crate::reason::{Change, LatestChanges};
use hep_event::Listed;

/// A waiting process: the cell of what it waits for, whether that was full at the last look, and its latest changes so
/// far.
#[derive(Clone, Copy)]
pub(crate) struct Watch {
    pub(crate) listed: Listed,
    pub(crate) cell: u32,
    pub(crate) full: bool,
    pub(crate) latest: LatestChanges,
}

/// The number of activations that were made before a turn, and the turn as a change.
#[derive(Clone, Copy)]
pub(crate) struct ChangeAhead {
    pub(crate) activations: u64,
    pub(crate) change: Change,
}
