//! The detector of races.
ghost use Rattle.std.specs.Prelude.{◌≡◌, ◌+◌, ◌<◌, ◌^◌, ℕ, [], ◌∷◌, ◌++◌, OnOk, map, nat_eq};
ghost use Rattle.hep_races.specs.Detectors.{IsDetectorOf, NumberedEvents, rows_along};
ghost use Rattle.hep_races.specs.Observed.{event_in, row_in, unit_eq};

use crate::clock::tick;
use crate::clocks::Clocks;
use crate::event::StepEvent;
use crate::numbers::successor;
use crate::rows::Row;
use crate::table::RaceTable;
use std::alloc::{AllocError, Global};

/// Finds the races of a run as its steps are observed, each in a time that doesn't grow with the run: in the number of processes, and
/// for each access in that of the latest accesses of each process from each site at its storage unit.
pub struct Detector {
    // The number of steps so far.
    steps: u64,
    clocks: Clocks,
    table: RaceTable,
}

impl Drop for Detector {
    fn drop(self) {
        let Detector {
            steps,
            clocks,
            table,
        } = self;
    }
}

impl Detector {
    /// No step is observed yet. This takes no memory.
    pub fn new(alloc: Global) -> Detector
        ensures { IsDetectorOf 0 [] result }
    {
        Detector {
            steps: 0,
            clocks: Clocks::new(alloc),
            table: RaceTable::new(alloc),
        }
    }

    /// Passes over the next steps of the run, so many: they are counted, and not observed.
    pub fn pass(&mut self, count: u64)
        requires few { self.old.steps + count < 2 ^ 64 }
        ensures { (n : ℕ) (es : NumberedEvents) → IsDetectorOf n es self.old → IsDetectorOf (n + count) es self.new }
    {
        self.steps += count;
    }

    /// Observes the next step of the run.
    ///
    /// # Errors
    ///
    /// Where memory was refused, and where a number would pass 2^64 - 1. The detector is of no more use then.
    pub fn observe(&mut self, event: &StepEvent) -> Result<(), AllocError>
        ensures { OnOk result ((n : ℕ) (es : NumberedEvents) → IsDetectorOf n es self.old
            → IsDetectorOf (n + 1) (es ++ (n, event_in event.now) ∷ []) self.new) }
    {
        let step = self.steps;
        self.steps = successor(step)?;
        let mut clock = self.clocks.take_before(event)?;
        self.table.note_accesses(&clock, step, event)?;
        tick(&mut clock, event.process, step)?;
        self.clocks.put_after(event, clock)?;
        Ok(())
    }

    /// The rows of the races so far, in the order in which they came up.
    pub fn rows(&self) -> &[Row]
        ensures { (n : ℕ) (es : NumberedEvents) → IsDetectorOf n es self.now → map row_in result.now ≡ rows_along unit_eq nat_eq es }
    {
        self.table.rows()
    }
}
