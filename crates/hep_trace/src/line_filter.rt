//! The lines that are shown.
ghost use Rattle.std.specs.Prelude.{◌≡◌, ◌+◌, ◌<◌, ◌≤◌, false, ℕ};
ghost use Rattle.hep_event.specs.Traces.{is_of, is_shown};
ghost use Rattle.hep_trace.specs.LineFilters.{shown_on};

/// The lines that are shown: of entries from one number to another, counted from 1, of one process or of all; and of
/// these the steps that access a variable of one name, or all.
#[derive(Clone, Copy)]
pub struct LineFilter<'a> {
    pub first: u64,
    pub last: u64,
    pub process: Option<u64>,
    pub cell: Option<&'a [u8]>,
}

impl<'a> LineFilter<'a> {
    fn is_of(&self, process: u64) -> bool
        ensures { result ≡ is_of self.now.process process }
    {
        match self.process {
            Some(shown) => shown == process,
            None => true,
        }
    }

    // The number of entries of this process in a row that aren't shown, from the entry with this number on, `most` at
    // most: 0 where that one is shown.
    pub(crate) fn hidden(&self, entry: u64, process: u64, most: u32) -> u32
        ensures hidden { (k : ℕ) → k < result → is_shown (shown_on self.now) (entry + k) process ≡ false }
        ensures few { result ≤ most }
    {
        if !self.is_of(process) {
            return most;
        }
        if self.last < entry {
            return most;
        }
        if self.first <= entry {
            return 0;
        }
        (self.first - entry).min(u64::from(most)) as u32
    }

    // Whether the lines of the entry with this number, of this process, are shown.
    pub(crate) fn shows(&self, entry: u64, process: u64) -> bool
        ensures { result ≡ is_shown (shown_on self.now) entry process }
    {
        self.first <= entry && entry <= self.last && self.is_of(process)
    }
}
