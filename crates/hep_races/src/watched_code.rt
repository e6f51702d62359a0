//! The indexes of the code from which a step is observed.
ghost use Rattle.std.specs.Prelude.{◌≡◌, drop, IfOk};
ghost use Rattle.hep_races.specs.WatchedCode as words;
ghost use Rattle.hep_races.specs.WatchedCode.{AreWatchesFor, IsWatchFor};

use hep_advance::Breakpoints;
use hep_code::{Evaluation, Instruction, Operation};
use hep_image::Image;
use std::alloc::{AllocError, Global};

// Whether an operation may access, need or change a storage unit, or make or end a process. Operators, functions of integers and jumps
// don't.
fn is_observed(operation: Operation) -> bool
    ensures { result ≡ words.is_observed operation }
{
    match operation {
        Operation::Evaluate(Evaluation::Load { .. } | Evaluation::Test { .. }) => true,
        Operation::Evaluate(_)
        | Operation::Jump { .. }
        | Operation::Choose { .. }
        | Operation::BySign { .. }
        | Operation::Condition { .. }
        | Operation::Branch { .. } => false,
        _ => true,
    }
}

// Whether the next operation from an index on is one. Where there is none, the answer is yes.
fn is_observed_ahead(code: &[Instruction], index: usize) -> bool
    ensures { result ≡ words.is_observed_ahead (drop index code.now) }
{
    let mut at = index;
    while let Some(instruction) = code.get(at) {
        match instruction {
            Instruction::Push(_) => at += 1,
            Instruction::Step { operation, .. } => return is_observed(*operation),
            _ => return true,
        }
    }
    true
}

// The indexes of a unit's code from which a step is observed.
fn watch_for(alloc: Global, code: &[Instruction]) -> Result<Breakpoints, AllocError>
    ensures { IfOk result (IsWatchFor code.now) }
{
    let mut watched = Vec::with_capacity(alloc, code.len())?;
    for index in 0..code.len() {
        watched.push(is_observed_ahead(code, index))?;
    }
    Ok(Breakpoints { watched })
}

/// The indexes of each unit's code from which a step is observed, by unit in the order of the source.
///
/// # Errors
///
/// Only where memory was refused.
pub(crate) fn watches_for(alloc: Global, image: &Image) -> Result<Vec<Breakpoints>, AllocError>
    ensures { IfOk result (λ watches. AreWatchesFor image.now watches.items) }
{
    let count = image.program().as_slice().len();
    let mut watches = Vec::with_capacity(alloc, count)?;
    for unit in 0..count {
        let watch = watch_for(alloc, image.unit(unit).code.as_slice())?;
        watches.push(watch)?;
    }
    Ok(watches)
}
