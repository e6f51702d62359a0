//! The latest accesses at each storage unit, and the rows of races.
ghost use Rattle.std.specs.Prelude.{◌≡◌, ◌<◌, [], OnOk, map, nat_eq};
ghost use Rattle.hep_accesses.specs.Clocks.{Clocks as AllClocks};
ghost use Rattle.hep_accesses.specs.Detector.{detector_after_accesses, racing_by_clock, with_access};
ghost use Rattle.hep_accesses.specs.Races.{with_pairs};
ghost use Rattle.hep_races.specs.declared.storage_unit.StorageUnit.{StorageUnit as PureUnit};
ghost use Rattle.hep_races.specs.Observed.{event_in, row_in, step_access_in, unit_eq};
ghost use Rattle.hep_races.specs.Tables.{accesses_at, detector_with};
ghost use Rattle.hep_races.specs.Vectors.{clock_in};

use crate::event::{StepAccess, StepEvent};
use crate::races::{note_races, put_first};
use crate::rows::{Row, RowTable};
use crate::storage_unit::StorageUnit;
use indexmap::IndexMap;
use std::alloc::{AllocError, Global};

/// What the detector keeps of the accesses so far.
pub(crate) struct RaceTable {
    alloc: Global,
    // For each storage unit the latest access of each process from each site, the latest first.
    pub(crate) latest: IndexMap<StorageUnit, Vec<StepAccess>>,
    // The rows of the races so far.
    pub(crate) rows: RowTable,
}

impl Drop for RaceTable {
    fn drop(self) {
        let RaceTable {
            alloc,
            latest,
            rows,
        } = self;
    }
}

impl RaceTable {
    /// No accesses. This takes no memory.
    pub(crate) fn new(alloc: Global) -> RaceTable
        ensures latest { (at : PureUnit) → accesses_at result.latest at ≡ [] }
        ensures rows { result.rows ≡ [] }
    {
        RaceTable {
            alloc,
            latest: IndexMap::new(alloc),
            rows: RowTable::new(alloc),
        }
    }

    // Notes an access, and its races with earlier ones by the clock before its step.
    fn note_access(&mut self, clock: &[u64], y: &StepAccess) -> Result<(), AllocError>
        ensures rows { OnOk result (map row_in self.new.rows ≡ with_pairs nat_eq (step_access_in y.now)
            (racing_by_clock unit_eq nat_eq (clock_in clock.now) (step_access_in y.now) (accesses_at self.old.latest y.now.access.at))
            (map row_in self.old.rows)) }
        ensures latest { OnOk result ((at : PureUnit) → accesses_at self.new.latest at
            ≡ with_access unit_eq nat_eq (step_access_in y.now) (accesses_at self.old.latest) at) }
    {
        if let Some(list) = self.latest.get_mut(&y.access.at) {
            note_races(&mut self.rows, list, clock, y)?;
            return put_first(list, y);
        }
        let mut list = Vec::new(self.alloc);
        put_first(&mut list, y)?;
        self.latest.insert(y.access.at, list)?;
        Ok(())
    }

    /// Notes the accesses of a step, and their races with earlier ones by the clock before the step.
    ///
    /// # Errors
    ///
    /// Where memory was refused, and where a count would pass 2^64 - 1.
    pub(crate) fn note_accesses(
        &mut self,
        clock: &[u64],
        step: u64,
        event: &StepEvent,
    ) -> Result<(), AllocError>
        ensures { OnOk result ((x : AllClocks PureUnit) → detector_with x self.new
            ≡ detector_after_accesses unit_eq nat_eq (clock_in clock.now) step event.now.process (event_in event.now).accesses (
            detector_with x self.old)) }
    {
        let process = event.process;
        let accesses = event.accesses;
        for access in accesses {
            let y = StepAccess {
                step,
                process,
                access: *access,
            };
            self.note_access(clock, &y)?;
        }
        Ok(())
    }

    /// The rows of the races so far, in the order in which they came up.
    pub(crate) fn rows(&self) -> &[Row]
        ensures { result.now ≡ self.now.rows }
    {
        self.rows.rows()
    }
}
