//! The entries of a history, one after another.
ghost use Rattle.std.specs.Prelude.{◌≡◌, drop};
ghost use Rattle.std.specs.Iterator.{YieldsFirst, item_count};
ghost use Rattle.hep_history.specs.Runs.{entries_of};

use crate::run::Run;
use crate::runs::Runs;
use hep_machine::Entry;
use std::marker::Model;

/// An iterator over the entries of a history. Contracts see the list of those that are left.
#[derive(Drop)]
pub struct Entries<'a> {
    // The run of the next entry, unless it has none left.
    run: Run,
    runs: Runs<'a>,
}

impl<'a> Model for Entries<'a> {
    ghost use Rattle.std.specs.Prelude.{◌∷◌, List};
    ghost use Rattle.hep_machine.specs.declared.event.Entry.{Entry};
    ghost use Rattle.hep_history.specs.Runs.{entries_of};

    ghost Value = { List Entry };

    ghost view = { λ e. entries_of (e.run ∷ e.runs) };
}

impl<'a> Entries<'a> {
    pub(crate) fn new(runs: Runs<'a>) -> Entries<'a>
        ensures { result ≡ entries_of runs.entry }
    {
        Entries {
            run: Run {
                process: 0,
                steps: 0,
                count: 0,
            },
            runs,
        }
    }

    /// Skips `count` entries, or all where fewer are left. It takes a step for each run whose last entry it skips.
    pub fn pass(&mut self, count: u64)
        ensures { self.new ≡ drop count self.old }
    {
        let mut left = count;
        let mut here = self.run.count;
        while here as u64 <= left {
            left -= here as u64;
            match self.runs.next_run() {
                Some(run) => {
                    self.run = run;
                    here = run.count;
                }
                None => {
                    self.run.count = 0;
                    return;
                }
            }
        }
        self.run.count = here - left as u32;
    }
}

impl<'a> Iterator for Entries<'a> {
    type Item = Entry;

    ghost next_gives = { YieldsFirst (λ rest. rest) };

    ghost remaining = { item_count (λ rest. rest) };

    // It takes a constant time.
    fn next(&mut self) -> Option<Entry> {
        if self.run.count == 0 {
            self.run = self.runs.next_run()?;
        }
        self.run.count -= 1;
        Some(self.run.entry())
    }
}
