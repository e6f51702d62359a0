//! The clocks of processes, and those that changes of full/empty storage units left.
ghost use Rattle.std.specs.Prelude.{◌≡◌, ℕ, ◌<◌, length, OnOk, IfOk, if◌then◌else◌, nat_eq, false};
ghost use Rattle.std.specs.List.{list_any};
ghost use Rattle.hep_accesses.specs.Clocks.{clock_before, clock_of_need, joined};
ghost use Rattle.hep_accesses.specs.Events.{is_made};
ghost use Rattle.hep_races.specs.declared.storage_unit.StorageUnit.{StorageUnit as PureUnit};
ghost use Rattle.hep_races.specs.Observed.{event_in, unit_eq};
ghost use Rattle.hep_races.specs.Vectors.{clock_in, clock_of_process, clock_of_unit, clocks_in};

use crate::clock::{join, tick};
use crate::event::StepEvent;
use crate::numbers::successor;
use crate::storage_unit::StorageUnit;
use indexmap::IndexMap;
use std::alloc::{AllocError, Global};
use std::mem::replace;

// The clock that the latest change of each full/empty storage unit left.
type UnitClocks = IndexMap<StorageUnit, Vec<u64>>;

// The clock of each process, and the one that the latest change of each full/empty storage unit left.
pub(crate) struct Clocks {
    alloc: Global,
    // The clock of process p is at p. It is empty where the process has no step yet.
    pub(crate) processes: Vec<Vec<u64>>,
    pub(crate) units: UnitClocks,
}

impl Drop for Clocks {
    fn drop(self) {
        let Clocks {
            alloc,
            processes,
            units,
        } = self;
    }
}

// Makes room for the clock of a process.
fn open(alloc: Global, processes: &mut Vec<Vec<u64>>, process: u64) -> Result<(), AllocError>
    ensures same { (p q : ℕ) → clock_of_process processes.new.items p q ≡ clock_of_process processes.old.items p q }
    ensures long { OnOk result (process < length processes.new.items) }
{
    let count = successor(process)?;
    for _index in processes.len()..count as usize {
        processes.push(Vec::new(alloc))?;
    }
    Ok(())
}

// Takes the clock of a process out of the table.
fn take_out(
    alloc: Global,
    processes: &mut Vec<Vec<u64>>,
    process: u64,
) -> Result<Vec<u64>, AllocError>
    ensures taken { IfOk result (λ clock. (q : ℕ) → clock_in clock.items q ≡ clock_of_process processes.old.items process q) }
    ensures others { OnOk result ((p q : ℕ) → nat_eq process p ≡ false
        → clock_of_process processes.new.items p q ≡ clock_of_process processes.old.items p q) }
{
    open(alloc, processes, process)?;
    Ok(replace(&mut processes[process as usize], Vec::new(alloc)))
}

// Puts the clock of a process into the table.
fn put_in(
    alloc: Global,
    processes: &mut Vec<Vec<u64>>,
    process: u64,
    clock: Vec<u64>,
) -> Result<(), AllocError>
    ensures { OnOk result ((p q : ℕ) → clock_of_process processes.new.items p q
        ≡ (if nat_eq process p then clock_in clock.items q else clock_of_process processes.old.items p q)) }
{
    open(alloc, processes, process)?;
    processes[process as usize] = clock;
    Ok(())
}

// A process that was made joins the clock of the step that made it.
fn join_made(
    alloc: Global,
    processes: &mut Vec<Vec<u64>>,
    makes: Option<u64>,
    clock: &[u64],
) -> Result<(), AllocError>
    ensures { OnOk result ((p q : ℕ) → clock_of_process processes.new.items p q
        ≡ (if is_made makes p
        then joined (clock_in clock.now) (clock_of_process processes.old.items p) q
        else clock_of_process processes.old.items p q)) }
{
    let Some(made) = makes else {
        return Ok(());
    };
    open(alloc, processes, made)?;
    join(&mut processes[made as usize], clock)
}

// A change of a storage unit leaves a clock.
fn leave(
    alloc: Global,
    units: &mut UnitClocks,
    unit: StorageUnit,
    clock: &[u64],
) -> Result<(), AllocError>
    ensures { OnOk result ((at : PureUnit) (q : ℕ) → clock_of_unit units.new at q
        ≡ (if unit_eq unit at then clock_in clock.now q else clock_of_unit units.old at q)) }
{
    let copy = clock.to_vec(alloc)?;
    units.insert(unit, copy)?;
    Ok(())
}

// Several changes leave a clock.
fn leave_all(
    alloc: Global,
    units: &mut UnitClocks,
    changes: &[StorageUnit],
    clock: &[u64],
) -> Result<(), AllocError>
    ensures { OnOk result ((at : PureUnit) (q : ℕ) → clock_of_unit units.new at q
        ≡ (if list_any (λ u. unit_eq u at) changes.now then clock_in clock.now q else clock_of_unit units.old at q)) }
{
    for unit in changes {
        leave(alloc, units, *unit, clock)?;
    }
    Ok(())
}

impl Clocks {
    /// No clock knows a step. This takes no memory.
    pub(crate) fn new(alloc: Global) -> Clocks
        ensures processes { (p q : ℕ) → (clocks_in result).of_process p q ≡ 0 }
        ensures units { (at : PureUnit) (q : ℕ) → (clocks_in result).of_location at q ≡ 0 }
    {
        Clocks {
            alloc,
            processes: Vec::new(alloc),
            units: IndexMap::new(alloc),
        }
    }

    // The join of a clock with the one that the latest change of a storage unit left.
    fn join_need(&self, needs: Option<StorageUnit>, clock: &mut Vec<u64>) -> Result<(), AllocError>
        ensures { OnOk result ((q : ℕ) → clock_in clock.new.items q
            ≡ joined (clock_in clock.old.items) (clock_of_need (clocks_in self.now) needs) q) }
    {
        let Some(unit) = needs else {
            return Ok(());
        };
        let Some(left) = self.units.get(&unit) else {
            return Ok(());
        };
        join(clock, left)
    }

    /// Takes out the clock before a step, which is to be put back by `put_after`.
    ///
    /// # Errors
    ///
    /// Where memory was refused.
    pub(crate) fn take_before(&mut self, event: &StepEvent) -> Result<Vec<u64>, AllocError>
        ensures taken { IfOk result (λ clock. (q : ℕ) → clock_in clock.items q ≡ clock_before (clocks_in self.old) (event_in event.now) q) }
        ensures others { OnOk result ((p q : ℕ) → nat_eq event.now.process p ≡ false
            → (clocks_in self.new).of_process p q ≡ (clocks_in self.old).of_process p q) }
        ensures units { OnOk result ((at : PureUnit) (q : ℕ)
            → (clocks_in self.new).of_location at q ≡ (clocks_in self.old).of_location at q) }
    {
        let mut clock = take_out(self.alloc, &mut self.processes, event.process)?;
        self.join_need(event.needs, &mut clock)?;
        Ok(clock)
    }

    /// Puts back the clock of a process after its step: the step leaves it at the storage units that it changes, and the process
    /// that it makes joins it.
    ///
    /// # Errors
    ///
    /// Where memory was refused.
    pub(crate) fn put_after(&mut self, event: &StepEvent, clock: Vec<u64>) -> Result<(), AllocError>
        ensures processes { OnOk result ((p q : ℕ) → (clocks_in self.new).of_process p q
            ≡ (if nat_eq event.now.process p then clock_in clock.items q
            else if is_made event.now.makes p then joined (clock_in clock.items) ((clocks_in self.old).of_process p) q
            else (clocks_in self.old).of_process p q)) }
        ensures units { OnOk result ((at : PureUnit) (q : ℕ) → (clocks_in self.new).of_location at q
            ≡ (if (event_in event.now).changes at then clock_in clock.items q else (clocks_in self.old).of_location at q)) }
    {
        leave_all(self.alloc, &mut self.units, event.changes, &clock)?;
        join_made(self.alloc, &mut self.processes, event.makes, &clock)?;
        put_in(self.alloc, &mut self.processes, event.process, clock)
    }
}
