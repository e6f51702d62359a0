//! One vector clock.
ghost use Rattle.std.specs.Prelude.{◌≡◌, ◌≤◌, ℕ, suc, length, nat_le, OnOk};
ghost use Rattle.hep_races.specs.Vectors.{clock_in};
ghost use Rattle.hep_accesses.specs.Clocks.{joined, ticked};

use crate::numbers::successor;
use std::alloc::AllocError;

// Makes room for this many processes. Those that are new have 0, as they had without room, also where memory was refused.
fn grow(clock: &mut Vec<u64>, processes: usize) -> Result<(), AllocError>
    ensures same { (p : ℕ) → clock_in clock.new.items p ≡ clock_in clock.old.items p }
    ensures long { OnOk result (processes ≤ length clock.new.items) }
{
    for _index in clock.len()..processes {
        clock.push(0)?;
    }
    Ok(())
}

/// The join with another clock.
///
/// # Errors
///
/// Where memory was refused.
pub(crate) fn join(clock: &mut Vec<u64>, other: &[u64]) -> Result<(), AllocError>
    ensures { OnOk result ((p : ℕ) → clock_in clock.new.items p ≡ joined (clock_in clock.old.items) (clock_in other.now) p) }
{
    grow(clock, other.len())?;
    raise(clock, other);
    Ok(())
}

// The join with another clock, which has no more processes.
fn raise(clock: &mut Vec<u64>, other: &[u64])
    requires { length other.now ≤ length clock.old.items }
    ensures { (p : ℕ) → clock_in clock.new.items p ≡ joined (clock_in clock.old.items) (clock_in other.now) p }
{
    for index in 0..other.len() {
        if clock[index] < other[index] {
            clock[index] = other[index];
        }
    }
}

/// A step of a process: the one with this number, counted from 0 over the whole run.
///
/// # Errors
///
/// Where memory was refused, and where a number would pass 2^64 - 1.
pub(crate) fn tick(clock: &mut Vec<u64>, process: u64, step: u64) -> Result<(), AllocError>
    ensures { OnOk result ((q : ℕ) → clock_in clock.new.items q ≡ ticked step process (clock_in clock.old.items) q) }
{
    let next = successor(step)?;
    let processes = successor(process)?;
    grow(clock, processes as usize)?;
    clock[process as usize] = next;
    Ok(())
}

/// Whether the clock knows this step of a process, counted from 0.
pub(crate) fn knows(clock: &[u64], process: u64, step: u64) -> bool
    ensures { result ≡ nat_le (suc step) (clock_in clock.now process) }
{
    let index = process as usize;
    index < clock.len() && step < clock[index]
}
