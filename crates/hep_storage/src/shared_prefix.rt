//! The common beginning of the lists of a common block in several units (X3.9-1978, 8.3).
ghost use Rattle.std.specs.Prelude.{◌≡◌, false, []};
ghost use Rattle.hep_machine.specs.Words.{is_nonempty};
ghost use Rattle.hep_storage.specs.Runs.{positions_in, IsPlace, front, rest};
ghost use Rattle.hep_storage.specs.SharedPrefix.{departs, in_common, Compares};

use crate::runs::{PositionRun, RunPlace, meet};
use std::alloc::Global;
use std::mem::swap;

/// The longest list up to which several lists agree. Where it is cut, two of the lists differ after
/// it.
#[derive(Drop)]
pub struct SharedPrefix {
    runs: Vec<PositionRun>,
    is_cut: bool,
}

// Whether the list has a position from this place on.
fn has_more(runs: &[PositionRun], place: RunPlace) -> bool
    requires { IsPlace place runs.now }
    ensures { result ≡ is_nonempty (rest place runs.now) }
{
    if place.run == runs.len() {
        return false;
    }
    place.before < runs[place.run].count || has_some(&runs[place.run + 1..])
}

// Whether some run has a position.
fn has_some(runs: &[PositionRun]) -> bool
    ensures { result ≡ is_nonempty (positions_in runs.now) }
{
    for run in runs {
        if 0 < run.count {
            return true;
        }
    }
    false
}

// The comparison of a list with another one.
enum Comparison {
    // The lists differ at this place of the other one.
    Parted(RunPlace),
    // The list is no longer than the other one, and agrees with it.
    Within,
    // The list agrees with the whole other one, and continues at this place of its own.
    Beyond(RunPlace),
}

fn compare(runs: &[PositionRun], list: &[PositionRun]) -> Comparison
    ensures { Compares runs.now list.now result }
{
    let at = meet(runs, list);
    if at.first.run == runs.len() {
        Comparison::Beyond(at.second)
    } else if at.second.run == list.len() {
        Comparison::Within
    } else {
        Comparison::Parted(at.first)
    }
}

// Removes everything from a place on.
fn cut(runs: &mut Vec<PositionRun>, place: RunPlace)
    requires { IsPlace place runs.old.items }
    ensures { positions_in runs.new.items ≡ front place runs.old.items }
{
    if place.run == runs.len() {
        return;
    }
    let run = PositionRun {
        position: runs[place.run].position,
        count: place.before,
    };
    runs[place.run] = run;
    runs.truncate(place.run + 1);
}

impl SharedPrefix {
    /// Makes the beginning of no lists.
    pub fn new(alloc: Global) -> SharedPrefix
        ensures places { positions_in result.runs.items ≡ [] }
        ensures cut { result.is_cut ≡ false }
    {
        SharedPrefix {
            runs: Vec::new(alloc),
            is_cut: false,
        }
    }

    /// Adds a list. The result is whether it differs from one of the lists before at some position that both have. The call may swap the
    /// list with an unused one, so that nothing is copied.
    pub fn add(&mut self, list: &mut Vec<PositionRun>) -> bool
        ensures departs { result ≡ departs self.old.is_cut (positions_in self.old.runs.items) (positions_in list.old.items) }
        ensures places { positions_in self.new.runs.items
            ≡ (in_common self.old.is_cut (positions_in self.old.runs.items) (positions_in list.old.items)).positions }
        ensures cut { self.new.is_cut
            ≡ (in_common self.old.is_cut (positions_in self.old.runs.items) (positions_in list.old.items)).is_cut }
    {
        match compare(&self.runs, list) {
            Comparison::Parted(place) => {
                cut(&mut self.runs, place);
                self.is_cut = true;
                true
            }
            Comparison::Within => false,
            Comparison::Beyond(place) => {
                if self.is_cut {
                    return has_more(list, place);
                }
                swap(&mut self.runs, list);
                false
            }
        }
    }
}
