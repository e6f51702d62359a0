//! Some of the entries of a history.

use hep_history::History;

/// The entries of a history from index `start` to before index `end`. No entry is copied.
#[derive(Clone, Copy)]
pub struct HistoryRange<'a> {
    pub history: &'a History,
    pub start: u64,
    pub end: u64,
}
