//! The history of a run.
ghost use Rattle.std.specs.Prelude.{◌≡◌, ◌+◌, ◌-◌, ◌≤◌, ◌<◌, ◌^◌, ◌↔◌, ◌++◌, [], ◌∷◌, IfOk, IsOk, IsTrue, MatchOption, OnOk, OnErr, length, replicate, slice_get, vec_len, vec_capacity};
ghost use Rattle.hep_history.specs.Runs.{AreFilled, AreRising, entries_of, last_run, runs_in};

use crate::entries::Entries;
use crate::entry_lookup::{end_of, long_at, short_at};
use crate::run::{Run, ShortRun, shortened};
use crate::runs::Runs;
use hep_machine::Entry;
use std::alloc::{AllocError, Global};
use std::marker::Model;

/// The entries of a run in order. Contracts see the list of them, and the number of further ones that there is room
/// for.
///
/// They are kept in runs of equal entries. A run takes eight bytes. From the first one on that is of a process above
/// 2,097,151, or of more than 2,047 steps, or ends after the entry 4,294,967,295, runs take sixteen bytes. The last
/// run takes none. There are 9,223,372,036,854,775,808 entries at most.
#[derive(Debug)]
pub struct History {
    shorts: Vec<ShortRun>,
    longs: Vec<Run>,
    // The number of entries of these runs.
    closed: u64,
    // The last run, to which entries are added.
    last: Run,
}

// Written out, so that a caller's proof has one call of it at each exit.
impl Drop for History {
    fn drop(self) {
        let History {
            shorts,
            longs,
            closed,
            last,
        } = self;
    }
}

impl Model for History {
    ghost use Rattle.hep_history.specs.Entries.{EntriesLeft};

    ghost Value = { EntriesLeft };

    ghost use Rattle.hep_history.specs.StoredRuns.{IsCounted, kept_of};

    ghost view = { kept_of };

    ghost invariant = { IsCounted };
}

// The greatest number of entries.
const MOST: u64 = 0x8000_0000_0000_0000;

// Adds an item, for which there is room.
#[inline(always)]
fn put<T: Copy>(items: &mut Vec<T>, item: T)
    requires { vec_len items.old < vec_capacity items.old }
    ensures items { items.new.items ≡ items.old.items ++ item ∷ [] }
    ensures len { vec_len items.new ≡ vec_len items.old + 1 }
    ensures capacity { vec_capacity items.old ≤ vec_capacity items.new }
{
    items.push_reserved(item);
}

// Adds a run in sixteen bytes, for which there is room. It is a function of its own, so that a run in eight bytes
// needs no stack space for it.
#[cold]
#[inline(never)]
fn put_long(longs: &mut Vec<Run>, run: Run)
    requires { vec_len longs.old < vec_capacity longs.old }
    ensures items { longs.new.items ≡ longs.old.items ++ run ∷ [] }
    ensures len { vec_len longs.new ≡ vec_len longs.old + 1 }
    ensures capacity { vec_capacity longs.old ≤ vec_capacity longs.new }
{
    longs.push_reserved(run);
}

// Adds a run after the others, which have `closed` entries. This takes no memory.
#[inline(always)]
fn close(shorts: &mut Vec<ShortRun>, longs: &mut Vec<Run>, closed: u64, run: Run)
    requires rising { AreRising 0 shorts.old.items }
    requires closed { closed ≡ length (entries_of (runs_in shorts.old.items longs.old.items)) }
    requires few { closed + run.count ≤ 2 ^ 63 }
    requires some { 0 < run.count }
    requires filled { AreFilled longs.old.items }
    requires room { (vec_len shorts.old < vec_capacity shorts.old) × (vec_len longs.old < vec_capacity longs.old) }
    ensures runs { runs_in shorts.new.items longs.new.items ≡ runs_in shorts.old.items longs.old.items ++ run ∷ [] }
    ensures rising { AreRising 0 shorts.new.items }
    ensures filled { AreFilled longs.new.items }
    ensures shorts_room { (vec_capacity shorts.old ≤ vec_capacity shorts.new) × (vec_len shorts.new ≤ vec_len shorts.old + 1) }
    ensures longs_room { (vec_capacity longs.old ≤ vec_capacity longs.new) × (vec_len longs.new ≤ vec_len longs.old + 1) }
{
    if longs.as_slice().is_empty() {
        if let Some(short) = shortened(closed, run) {
            put(shorts, short);
            return;
        }
    }
    put_long(longs, run);
}

// Removes the last of the runs and returns it, if there is one. It has an entry.
fn open(shorts: &mut Vec<ShortRun>, longs: &mut Vec<Run>) -> Option<Run>
    requires rising { AreRising 0 shorts.old.items }
    requires filled { AreFilled longs.old.items }
    ensures runs { MatchOption result (runs_in shorts.new.items longs.new.items ≡ []) (λ run. 0 < run.count) }
    ensures taken { runs_in shorts.old.items longs.old.items ≡ runs_in shorts.new.items longs.new.items ++ last_run result }
    ensures rising { AreRising 0 shorts.new.items }
    ensures filled { AreFilled longs.new.items }
    ensures shorts_room { (vec_capacity shorts.old ≤ vec_capacity shorts.new) × (vec_len shorts.new ≤ vec_len shorts.old) }
    ensures longs_room { (vec_capacity longs.old ≤ vec_capacity longs.new) × (vec_len longs.new ≤ vec_len longs.old) }
{
    if let Some(run) = longs.pop() {
        return Some(run);
    }
    let short = shorts.pop()?;
    Some(short.run(end_of(shorts)))
}

impl History {
    /// An empty history. This takes no memory.
    pub fn new(alloc: Global) -> History
        ensures items { result.items ≡ [] }
    {
        History {
            shorts: Vec::new(alloc),
            longs: Vec::new(alloc),
            closed: 0,
            last: Run {
                process: 0,
                steps: 0,
                count: 0,
            },
        }
    }

    /// Makes room to add one entry `count` times, if there is none.
    ///
    /// # Errors
    ///
    /// Only where memory was refused, or where there would be more than 9,223,372,036,854,775,808 entries.
    #[inline(always)]
    pub fn reserve(&mut self, count: u32) -> Result<(), AllocError>
        ensures room { OnOk result (0 < self.new.room) }
        ensures few { OnOk result (length self.new.items + count ≤ 2 ^ 63) }
        ensures items { self.new.items ≡ self.old.items }
        ensures grows { self.old.room ≤ self.new.room }
        ensures made { 0 < self.old.room → length self.old.items + count ≤ 2 ^ 63 → IsOk result }
    {
        if self.len() > MOST - count as u64 {
            return Err(AllocError);
        }
        if self.shorts.len() == self.shorts.capacity()
            || self.longs.len() == self.longs.capacity()
        {
            return self.grow();
        }
        Ok(())
    }

    // Makes room to add one entry any number of times, where there may be none. It is a function of its own, so that
    // the fast case needs no stack space for it.
    #[cold]
    #[inline(never)]
    fn grow(&mut self) -> Result<(), AllocError>
        ensures room { OnOk result (0 < self.new.room) }
        ensures items { self.new.items ≡ self.old.items }
        ensures grows { self.old.room ≤ self.new.room }
        ensures made { 0 < self.old.room → IsOk result }
    {
        self.longs.reserve(1)?;
        self.shorts.reserve(1)
    }

    // Begins a run of `count` entries after the last one. This takes no memory.
    #[inline(always)]
    fn begin(&mut self, entry: Entry, count: u32)
        requires room { 0 < self.old.room }
        requires few { length self.old.items + count ≤ 2 ^ 63 }
        requires some { 0 < count }
        ensures items { self.new.items ≡ self.old.items ++ replicate count entry }
        ensures room { self.old.room ≤ self.new.room + 1 }
    {
        if self.last.count > 0 {
            close(&mut self.shorts, &mut self.longs, self.closed, self.last);
            self.closed += self.last.count as u64;
        }
        self.last = Run {
            process: entry.process,
            steps: entry.steps,
            count,
        };
    }

    /// Adds an entry `count` times. It takes a constant time, and no memory.
    #[inline(always)]
    pub fn push_many(&mut self, entry: Entry, count: u32)
        requires room { 0 < self.old.room }
        requires few { length self.old.items + count ≤ 2 ^ 63 }
        ensures items { self.new.items ≡ self.old.items ++ replicate count entry }
        ensures room { self.old.room ≤ self.new.room + 1 }
    {
        if self.last.has(entry) && count <= u32::MAX - self.last.count {
            self.last.count += count;
        } else if count > 0 {
            self.begin(entry, count);
        }
    }

    /// Adds an entry. It takes a constant time, and no memory.
    #[inline(always)]
    pub fn push(&mut self, entry: Entry)
        requires room { 0 < self.old.room }
        requires few { length self.old.items < 2 ^ 63 }
        ensures items { self.new.items ≡ self.old.items ++ entry ∷ [] }
        ensures room { self.old.room ≤ self.new.room + 1 }
    {
        self.push_many(entry, 1);
    }

    /// Removes the last entry and returns it, if there is one. It takes a constant time, and no memory.
    pub fn pop(&mut self) -> Option<Entry>
        ensures items { MatchOption result ((self.old.items ≡ []) × (self.new.items ≡ [])) (λ entry. self.old.items ≡ self.new.items ++ entry ∷ []) }
        ensures room { self.old.room ≤ self.new.room }
    {
        if self.last.count == 0 {
            return None;
        }
        let entry = self.last.entry();
        if self.last.count > 1 {
            self.last.count -= 1;
            return Some(entry);
        }
        match open(&mut self.shorts, &mut self.longs) {
            Some(run) => {
                self.closed -= run.count as u64;
                self.last = run;
            }
            None => self.last.count = 0,
        }
        Some(entry)
    }

    /// Adds an entry `count` times, and makes room for it.
    ///
    /// # Errors
    ///
    /// Only where memory was refused, or where there would be more than 9,223,372,036,854,775,808 entries.
    pub fn append(&mut self, entry: Entry, count: u32) -> Result<(), AllocError>
        ensures items { OnOk result (self.new.items ≡ self.old.items ++ replicate count entry) }
        ensures refused { OnErr result (self.new.items ≡ self.old.items) }
    {
        self.reserve(count)?;
        self.push_many(entry, count);
        Ok(())
    }

    /// The number of entries.
    #[inline(always)]
    pub fn len(&self) -> u64
        ensures count { result ≡ length self.now.items }
        ensures few { result ≤ 2 ^ 63 }
    {
        self.closed + self.last.count as u64
    }

    /// The entry at an index. It takes the logarithm of the number of runs in eight bytes, and a step for each longer
    /// run.
    pub fn get(&self, index: u64) -> Option<Entry>
        ensures { result ≡ slice_get self.now.items index }
    {
        let end = end_of(&self.shorts) as u64;
        if index < end {
            return short_at(&self.shorts, index);
        }
        if index < self.closed {
            return long_at(&self.longs, index - end);
        }
        if index - self.closed < self.last.count as u64 {
            return Some(self.last.entry());
        }
        None
    }

    /// The last entry. It takes a constant time.
    #[inline(always)]
    pub fn last(&self) -> Option<Entry>
        ensures { result ≡ slice_get self.now.items (length self.now.items - 1) }
    {
        if self.last.count == 0 {
            return None;
        }
        Some(self.last.entry())
    }

    /// The runs, in order. None is empty. Neighbouring runs have the same entry only where they have more than
    /// 4,294,967,295 entries together.
    pub fn runs(&self) -> Runs<'_>
        ensures filled { AreFilled result }
        ensures entries { entries_of result ≡ self.now.items }
    {
        let last = if self.last.count > 0 {
            Some(self.last)
        } else {
            None
        };
        Runs::new(&self.shorts, &self.longs, last)
    }

    /// The entries, in order.
    pub fn iter(&self) -> Entries<'_>
        ensures { result ≡ self.now.items }
    {
        Entries::new(self.runs())
    }

    /// Whether another history has the same entries. It takes a step for each of them.
    pub fn same(&self, other: &History) -> bool
        ensures { IsTrue result ↔ (self.now.items ≡ other.now.items) }
    {
        let len = self.len();
        if other.len() != len {
            return false;
        }
        let mut entries = self.iter();
        let mut others = other.iter();
        for _index in 0..len {
            if entries.next() != others.next() {
                return false;
            }
        }
        true
    }

    /// A copy of the history.
    ///
    /// # Errors
    ///
    /// Only where memory was refused.
    pub fn copy(&self, alloc: Global) -> Result<History, AllocError>
        ensures { IfOk result (λ copy. copy.items ≡ self.now.items) }
    {
        let shorts = self.shorts.as_slice().to_vec(alloc)?;
        let longs = self.longs.as_slice().to_vec(alloc)?;
        Ok(History {
            shorts,
            longs,
            closed: self.closed,
            last: self.last,
        })
    }
}
