//! Runs of equal entries, in sixteen bytes and in eight.
ghost use Rattle.std.specs.Prelude.{◌≡◌, ◌+◌, ◌-◌, ◌≤◌, ◌<◌, ◌^◌, ◌↔◌, IfSome, IsTrue};
ghost use Rattle.hep_history.specs.Runs.{entry_of, run_of_short};

use hep_machine::Entry;

/// An entry, by its process and its steps, and the number of times that it is repeated.
#[derive(Clone, Copy, Debug, PartialEq, Eq)]
pub struct Run {
    pub process: u64,
    pub steps: u32,
    pub count: u32,
}

impl Run {
    /// The entry.
    pub fn entry(self) -> Entry
        ensures { result ≡ entry_of self }
    {
        Entry {
            process: self.process,
            steps: self.steps,
        }
    }

    // Whether this is the entry.
    #[inline(always)]
    pub(crate) fn has(self, entry: Entry) -> bool
        ensures { IsTrue result ↔ (entry_of self ≡ entry) }
    {
        self.process == entry.process && self.steps == entry.steps
    }
}

// A run of a process below 2^21 with steps below 2^11, which ends before the entry 2^32.
#[derive(Clone, Copy, Debug)]
pub(crate) struct ShortRun {
    // 2,048 times the process, and the steps.
    pub(crate) who: u32,
    // The number of entries up to its end.
    pub(crate) end: u32,
}

impl ShortRun {
    // The entry.
    pub(crate) fn entry(self) -> Entry
        ensures { result ≡ entry_of (run_of_short 0 self) }
    {
        self.run(0).entry()
    }

    // The run, which begins after `from` entries.
    pub(crate) fn run(self, from: u32) -> Run
        requires { from ≤ self.end }
        ensures { result ≡ run_of_short from self }
    {
        Run {
            process: (self.who / 2048) as u64,
            steps: self.who % 2048,
            count: self.end - from,
        }
    }
}

// A run that begins after `from` entries, in eight bytes, if they are enough.
#[inline(always)]
pub(crate) fn shortened(from: u64, run: Run) -> Option<ShortRun>
    requires few { from + run.count < 2 ^ 64 }
    ensures same { IfSome result (λ short. run_of_short from short ≡ run) }
    ensures end { IfSome result (λ short. short.end ≡ from + run.count) }
{
    let end = from + run.count as u64;
    if run.process < 0x20_0000 && run.steps < 2048 && end <= u32::MAX as u64 {
        let who = run.process as u32 * 2048 + run.steps;
        return Some(ShortRun {
            who,
            end: end as u32,
        });
    }
    None
}
