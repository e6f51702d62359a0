//! The entry that a step is of.
ghost use Rattle.std.specs.Prelude.{◌≡◌, take};
ghost use Rattle.hep_races.specs.EntryNumbers.{entry_of};

use hep_history::History;

/// The number of the entry that a step is of, counted from 1, of the first `count` entries of a history. The number
/// of the step is counted from 0. It takes a step for each run of equal entries up to the one.
pub(crate) fn entry_number(history: &History, count: u64, step: u64) -> u64
    ensures { result ≡ entry_of (take count history.now.items) step }
{
    let entries = count.min(history.len());
    let mut before = 0;
    let mut left = step;
    for run in history.runs() {
        let some = u64::from(run.count).min(entries - before);
        let steps = u64::from(run.steps) * some;
        if left < steps {
            return before + left / u64::from(run.steps) + 1;
        }
        before += some;
        left -= steps;
    }
    before + 1
}
