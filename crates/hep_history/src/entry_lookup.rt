//! The entry at an index.
ghost use Rattle.std.specs.Prelude.{◌≡◌, slice_get};
ghost use Rattle.hep_history.specs.Runs.{AreRising, end_of_shorts, entries_of, runs_of_shorts};

use crate::run::{Run, ShortRun};
use hep_machine::Entry;

// The number of entries up to the end of the last run.
pub(crate) fn end_of(shorts: &[ShortRun]) -> u32
    ensures { result ≡ end_of_shorts 0 shorts.now }
{
    match shorts.last() {
        Some(short) => short.end,
        None => 0,
    }
}

// The entry at an index of runs in eight bytes, by binary search: it is in no run before `low`, and before the end of
// the one at `high`.
pub(crate) fn short_at(shorts: &[ShortRun], index: u64) -> Option<Entry>
    requires { AreRising 0 shorts.now }
    ensures { result ≡ slice_get (entries_of (runs_of_shorts 0 shorts.now)) index }
{
    let mut low = 0;
    let mut high = shorts.len();
    while low < high {
        let middle = low + (high - low) / 2;
        if shorts[middle].end as u64 <= index {
            low = middle + 1;
        } else {
            high = middle;
        }
    }
    if low == shorts.len() {
        return None;
    }
    Some(shorts[low].entry())
}

// The entry at an index of runs, by going over them.
pub(crate) fn long_at(longs: &[Run], index: u64) -> Option<Entry>
    ensures { result ≡ slice_get (entries_of longs.now) index }
{
    let mut left = index;
    for run in longs {
        if left < run.count as u64 {
            return Some(run.entry());
        }
        left -= run.count as u64;
    }
    None
}
