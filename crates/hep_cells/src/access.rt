//! The accesses to a cell.
ghost use Rattle.std.specs.Prelude.{◌≡◌};
ghost use Rattle.hep_machine.specs.Access.{reading};
ghost use Rattle.hep_machine.specs.Words.{purged_cell, reading_asynchronous, setting_empty, waiting_full, writing, writing_asynchronous};
ghost use Rattle.hep_cells.specs.Outcomes.{outcome_meant};
ghost use Rattle.hep_cells.specs.Changes.{changed_cell};

use crate::outcome::AccessOutcome;
use crate::want::Want;
use hep_machine::{Slot, Value};

/// Reads a variable without `$`, also by VALUE: gives what was stored last, whether the cell is full or not.
pub fn read(slot: Slot) -> AccessOutcome
    ensures { outcome_meant result ≡ reading slot }
{
    match slot.value {
        Some(value) => AccessOutcome::Gives(value),
        None => AccessOutcome::Undefined,
    }
}

/// Assigns to a variable without `$`. Whether the cell is full doesn't change.
pub fn write(slot: Slot, value: Value) -> AccessOutcome
    ensures { outcome_meant result ≡ writing value slot }
{
    AccessOutcome::Makes {
        value,
        slot: Slot {
            value: Some(value),
            full: slot.full,
        },
    }
}

/// Reads a variable with `$`: waits until the cell is full, and empties it.
pub fn async_read(slot: Slot) -> AccessOutcome
    ensures { outcome_meant result ≡ reading_asynchronous slot }
{
    if slot.full {
        set_empty(slot)
    } else {
        AccessOutcome::Waits { full: true }
    }
}

/// Assigns to a variable with `$`: waits until the cell is empty, and fills it.
pub fn async_write(slot: Slot, value: Value) -> AccessOutcome
    ensures { outcome_meant result ≡ writing_asynchronous value slot }
{
    if slot.full {
        return AccessOutcome::Waits { full: false };
    }
    AccessOutcome::Makes {
        value,
        slot: Slot {
            value: Some(value),
            full: true,
        },
    }
}

/// WAITF: waits until the cell is full, and gives its value. The cell stays full.
pub fn wait_read(slot: Slot) -> AccessOutcome
    ensures { outcome_meant result ≡ waiting_full slot }
{
    if slot.full {
        read(slot)
    } else {
        AccessOutcome::Waits { full: true }
    }
}

/// SETE: gives what was stored last, whether the cell is full or not, and empties the cell.
pub fn set_empty(slot: Slot) -> AccessOutcome
    ensures { outcome_meant result ≡ setting_empty slot }
{
    match slot.value {
        Some(value) => AccessOutcome::Makes {
            value,
            slot: purged(slot),
        },
        None => AccessOutcome::Undefined,
    }
}

/// PURGE: empties the cell, and keeps its value.
pub fn purged(slot: Slot) -> Slot
    ensures { result ≡ purged_cell slot }
{
    Slot {
        value: slot.value,
        full: false,
    }
}

/// The cell at an address, as it is now, if this access filled or emptied it.
pub fn changed(at: u32, before: Slot, now: Slot) -> Option<Want>
    ensures { result ≡ changed_cell at before now }
{
    if before.full == now.full {
        return None;
    }
    Some(Want {
        cell: at,
        full: now.full,
    })
}
