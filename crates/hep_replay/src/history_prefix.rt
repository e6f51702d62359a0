//! The first entries of a history.
ghost use Rattle.std.specs.Prelude.{◌≡◌, ◌≤◌, ◌^◌, length};
ghost use Rattle.hep_replay.specs.HistoryPrefix.{first_of};

use hep_history::History;

/// The first `count` entries of a history, or all where there are fewer. No entry is copied.
#[derive(Clone, Copy)]
pub struct HistoryPrefix<'a> {
    pub history: &'a History,
    pub count: u64,
}

impl HistoryPrefix<'_> {
    /// The number of these entries.
    pub fn len(&self) -> u64
        ensures count { result ≡ length (first_of self.now) }
        ensures few { result ≤ 2 ^ 63 }
    {
        self.count.min(self.history.len())
    }
}
