//! Entries of a history by their indexes.
ghost use Rattle.std.specs.Prelude.{◌≡◌, ◌≤◌, ◌^◌, length, slice_get};

use hep_history::{Entries, History};
use hep_machine::Entry;
use std::marker::Model;

/// A history whose entries are looked up by index. Look-ups at rising indexes go over its runs once. Contracts see
/// the list of all entries.
#[derive(Drop)]
pub struct Finder<'a> {
    history: &'a History,
    // The entries after the first `passed` ones.
    left: Entries<'a>,
    passed: u64,
}

impl<'a> Model for Finder<'a> {
    ghost use Rattle.std.specs.Prelude.{◌≡◌, List, drop};
    ghost use Rattle.hep_machine.specs.declared.event.Entry.{Entry};

    ghost Value = { List Entry };

    ghost view = { λ f. f.history.now.items };

    ghost invariant = { λ f. f.left ≡ drop f.passed f.history.now.items };
}

impl<'a> Finder<'a> {
    /// The entries of a history.
    pub fn new(history: &'a History) -> Finder<'a>
        ensures { result ≡ history.now.items }
    {
        Finder {
            history,
            left: history.iter(),
            passed: 0,
        }
    }

    /// The number of entries.
    pub fn len(&self) -> u64
        ensures count { result ≡ length self.now }
        ensures few { result ≤ 2 ^ 63 }
    {
        self.history.len()
    }

    /// The entry at an index. It takes a step for each run between the one looked up last and this one. Where the
    /// index isn't greater than the last one, it counts from the first run.
    pub fn entry_at(&mut self, index: u64) -> Option<Entry>
        ensures entry { result ≡ slice_get self.old index }
        ensures same { self.new ≡ self.old }
    {
        if index >= self.history.len() {
            return None;
        }
        if index < self.passed {
            self.left = self.history.iter();
            self.passed = 0;
        }
        self.left.pass(index - self.passed);
        self.passed = index + 1;
        self.left.next()
    }
}
