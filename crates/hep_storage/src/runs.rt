//! Run-length encoded lists.
ghost use Rattle.std.specs.Prelude.{◌≡◌, ◌+◌, ◌<◌, ◌≤◌, ◌||◌, ◌&&◌, not, true, nat_lt, nat_eq, length};
ghost use Rattle.hep_storage.specs.RunItems.{agree_as_far};
ghost use Rattle.hep_storage.specs.Runs as places;
ghost use Rattle.hep_storage.specs.Runs.{positions_in, alike};

use hep_conditions::types::same_declared;
use hep_source::ValueType;

/// A position of a list: whether its name is asynchronous, and its type (none for real).
#[derive(Clone, Copy, PartialEq, Eq)]
pub struct Position {
    pub asynchronous: bool,
    pub value_type: Option<ValueType>,
}

/// A run: a number of consecutive equal positions of a list.
#[derive(Clone, Copy, PartialEq, Eq)]
pub struct PositionRun {
    pub position: Position,
    pub count: u64,
}

/// A run-length encoded list, as far as it is known.
#[derive(Drop)]
pub struct KnownRuns {
    pub runs: Vec<PositionRun>,
    /// Whether these runs are the whole list.
    pub is_whole: bool,
}

/// A place in a run-length encoded list: the index of its run, and the number of positions of that run before it.
#[derive(Clone, Copy, PartialEq, Eq)]
pub struct RunPlace {
    pub run: usize,
    pub before: u64,
}

/// The places up to which two lists are the same.
#[derive(Clone, Copy, PartialEq, Eq)]
pub struct MatchedPrefix {
    pub first: RunPlace,
    pub second: RunPlace,
}

impl Position {
    /// Whether two positions have the same type, and both or neither are asynchronous.
    pub fn is_same(self, other: Position) -> bool
        ensures { result ≡ alike self other }
    {
        self.asynchronous == other.asynchronous && same_declared(self.value_type, other.value_type)
    }
}

impl RunPlace {
    // The place `step` positions further, in a run of `count` positions.
    fn after(self, step: u64, count: u64) -> RunPlace
        requires within { self.before + step ≤ count }
        requires room { self.run < 18446744073709551615 }
        ensures { result ≡ places.after self step count }
    {
        if self.before + step == count {
            RunPlace {
                run: self.run + 1,
                before: 0,
            }
        } else {
            RunPlace {
                run: self.run,
                before: self.before + step,
            }
        }
    }
}

// Whether two runs differ in the next `step` positions.
fn differ(first: PositionRun, second: PositionRun, step: u64) -> bool
    ensures { result ≡ nat_lt 0 step && not (alike first.position second.position) }
{
    0 < step && !first.position.is_same(second.position)
}

/// Finds the places up to which two lists are the same. If both lists continue there, they differ there.
pub fn meet(first: &[PositionRun], second: &[PositionRun]) -> MatchedPrefix
    ensures first_place { places.IsPlace result.first first.now }
    ensures second_place { places.IsPlace result.second second.now }
    ensures same { places.front result.first first.now ≡ places.front result.second second.now }
    ensures parted { result.first.run < length first.now → result.second.run < length second.now
        → places.heads_differ (places.rest result.first first.now) (places.rest result.second second.now) ≡ true }
{
    let mut at = RunPlace { run: 0, before: 0 };
    let mut to = RunPlace { run: 0, before: 0 };
    while at.run < first.len() && to.run < second.len() {
        let one = first[at.run];
        let other = second[to.run];
        let step = (one.count - at.before).min(other.count - to.before);
        if differ(one, other, step) {
            return MatchedPrefix {
                first: at,
                second: to,
            };
        }
        at = at.after(step, one.count);
        to = to.after(step, other.count);
    }
    MatchedPrefix {
        first: at,
        second: to,
    }
}

/// Whether two lists are the same at each index that both have.
pub fn agree(first: &[PositionRun], second: &[PositionRun]) -> bool
    ensures { result ≡ agree_as_far alike (positions_in first.now) (positions_in second.now) }
{
    let meeting = meet(first, second);
    meeting.first.run == first.len() || meeting.second.run == second.len()
}

/// The number of positions of a list.
pub fn place_count(runs: &[PositionRun]) -> u128
    ensures { result ≡ length (positions_in runs.now) }
{
    let mut count = 0;
    for run in runs {
        count += u128::from(run.count);
    }
    count
}

impl KnownRuns {
    /// Whether two lists have the same length, where both are known as a whole.
    pub fn is_same_length(&self, other: &KnownRuns) -> bool
        ensures { result ≡ not (self.now.is_whole && other.now.is_whole)
            || nat_eq (length (positions_in self.now.runs.items)) (length (positions_in other.now.runs.items)) }
    {
        !(self.is_whole && other.is_whole) || place_count(&self.runs) == place_count(&other.runs)
    }
}
