//! The steps of each process, in order.
ghost use Rattle.std.specs.Prelude.{◌≡◌, ◌++◌, ◌<◌, ℕ, IfOk, OnOk, Some, length};
ghost use Rattle.hep_diff.specs.StepLogs.{kept_of};
ghost use Rattle.hep_diff.specs.ProcessSteps.{of_process};

use crate::process_step::ProcessStep;
use std::alloc::{AllocError, Global};

/// The steps of a process.
pub(crate) fn deeds_of(logs: &[Vec<ProcessStep>], p: u64) -> &[ProcessStep]
    ensures { result.now ≡ kept_of logs.now p }
{
    match logs.get(p as usize) {
        Some(deeds) => deeds.as_slice(),
        None => &[],
    }
}

// Makes room for the steps of a process.
#[tactic(auto, using(crate::proofs::LogRows::kept_empty))]
fn make_room(alloc: Global, logs: &mut Vec<Vec<ProcessStep>>, p: usize) -> Result<(), AllocError>
    ensures same { OnOk result ((q : ℕ) → kept_of logs.new.items q ≡ kept_of logs.old.items q) }
    ensures there { OnOk result (p < length logs.new.items) }
{
    while logs.len() <= p {
        logs.push(Vec::new(alloc))?;
    }
    Ok(())
}

/// Appends a step of process p to its others.
///
/// # Errors
///
/// Only where memory was refused.
pub(crate) fn note(
    alloc: Global,
    logs: &mut Vec<Vec<ProcessStep>>,
    p: u64,
    deed: ProcessStep,
) -> Result<(), AllocError>
    ensures { OnOk result ((q : ℕ) → kept_of logs.new.items q ≡ kept_of logs.old.items q ++ of_process q p (Some deed)) }
{
    let index = p as usize;
    make_room(alloc, logs, index)?;
    logs[index].push(deed)?;
    Ok(())
}
