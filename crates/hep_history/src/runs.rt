//! The runs of a history, one after another.
ghost use Rattle.std.specs.Prelude.{◌≡◌, ◌<◌, ◌++◌, [], ◌∷◌, IfSome, MatchOption};
ghost use Rattle.std.specs.Iterator.{YieldsFirst, item_count};
ghost use Rattle.hep_history.specs.Runs.{AreFilled, AreRising, last_run, runs_of_shorts};

use crate::run::{Run, ShortRun};
use std::marker::Model;

/// An iterator over the runs of a history. Contracts see the list of those that are left.
#[derive(Drop)]
pub struct Runs<'a> {
    // The start of the first run in eight bytes.
    from: u32,
    shorts: &'a [ShortRun],
    longs: &'a [Run],
    last: Option<Run>,
}

impl<'a> Model for Runs<'a> {
    ghost use Rattle.std.specs.Prelude.{◌++◌, List};
    ghost use Rattle.hep_history.specs.declared.run.Run.{Run};
    ghost use Rattle.hep_history.specs.Runs.{AreFilled, AreRising, last_run, runs_of_shorts};

    ghost Value = { List Run };

    ghost view = { λ r. (runs_of_shorts r.from r.shorts.now ++ r.longs.now) ++ last_run r.last };

    ghost invariant = { λ r. AreRising r.from r.shorts.now × AreFilled r.longs.now × AreFilled (last_run r.last) };
}

impl<'a> Runs<'a> {
    pub(crate) fn new(shorts: &'a [ShortRun], longs: &'a [Run], last: Option<Run>) -> Runs<'a>
        requires rising { AreRising 0 shorts.now }
        requires filled { AreFilled longs.now × AreFilled (last_run last) }
        ensures filled { AreFilled result }
        ensures runs { result ≡ (runs_of_shorts 0 shorts.now ++ longs.now) ++ last_run last }
    {
        Runs {
            from: 0,
            shorts,
            longs,
            last,
        }
    }

    // The next run, which isn't empty.
    pub(crate) fn next_run(&mut self) -> Option<Run>
        ensures some { IfSome result (λ run. 0 < run.count) }
        ensures next { MatchOption result ((self.old ≡ []) × (self.new ≡ [])) (λ run. self.old ≡ run ∷ self.new) }
    {
        if let Some((short, rest)) = self.shorts.split_first() {
            let run = short.run(self.from);
            self.from = short.end;
            self.shorts = rest;
            return Some(run);
        }
        if let Some((run, rest)) = self.longs.split_first() {
            self.longs = rest;
            return Some(*run);
        }
        self.last.take()
    }
}

impl<'a> Iterator for Runs<'a> {
    type Item = Run;

    ghost next_gives = { YieldsFirst (λ rest. rest) };

    ghost remaining = { item_count (λ rest. rest) };

    fn next(&mut self) -> Option<Run> {
        self.next_run()
    }
}
