//! What is written about the lines of a trace: lanes, and the events of a timeline.
ghost use Rattle.std.specs.Prelude.{◌≡◌, IfErr, IfOk};
ghost use Rattle.hep_replay.specs.declared.replay_fault.ReplayFault.TheVariants.{NoMemory};
ghost use Rattle.hep_formats.specs.Lanes as lanes;
ghost use Rattle.hep_formats.specs.TraceEvents as events;

use hep_cover::ReplayFault;
use hep_formats::{events_of, lanes_of};
use std::alloc::Global;

/// The lanes of the lines of a trace, in rows of so many columns.
///
/// # Errors
///
/// `NoMemory`, where memory was refused.
pub(crate) fn lanes_told(alloc: Global, columns: u32, trace: &[u8]) -> Result<Vec<u8>, ReplayFault>
    ensures told { IfOk result (λ text. text.items ≡ lanes.lanes_of columns trace.now) }
    ensures refused { IfErr result (λ fault. fault ≡ NoMemory) }
{
    match lanes_of(alloc, columns, trace) {
        Ok(text) => Ok(text),
        Err(_) => Err(ReplayFault::NoMemory),
    }
}

/// The events of the lines of a trace.
///
/// # Errors
///
/// `NoMemory`, where memory was refused.
pub(crate) fn events_told(alloc: Global, trace: &[u8]) -> Result<Vec<u8>, ReplayFault>
    ensures told { IfOk result (λ text. text.items ≡ events.events_of trace.now) }
    ensures refused { IfErr result (λ fault. fault ≡ NoMemory) }
{
    match events_of(alloc, trace) {
        Ok(text) => Ok(text),
        Err(_) => Err(ReplayFault::NoMemory),
    }
}
