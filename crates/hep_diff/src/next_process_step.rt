//! A step of a process, before it is made.
ghost use Rattle.std.specs.Prelude.{◌≡◌, ℕ, List, IfOk};
ghost use Rattle.hep_diff.specs.ProcessSteps as words;
ghost use Rattle.hep_machine.specs.Words.{Level, Process, run};
ghost use Rattle.hep_event.specs.Sites.{LivesAfter};

use crate::cell_reading::found;
use crate::process_step::ProcessStep;
use hep_image::Image;
use hep_state::CoreState;
use hep_why::{coming_of, whereabouts};
use std::alloc::{AllocError, Global};

/// The next step of process p, which lives, as part of an entry.
///
/// # Errors
///
/// Only where memory was refused.
pub(crate) fn deed_by(
    alloc: Global,
    machine: &CoreState,
    image: &Image,
    p: u64,
    entry: u64,
) -> Result<ProcessStep, AllocError>
    requires { (cells : ℕ) × (choices : List ℕ) × (top : Level × Process) × LivesAfter image.now cells choices machine.now p top }
    ensures { IfOk result (λ deed. (cells : ℕ) (choices : List ℕ) (top : Level × Process) → LivesAfter image.now cells choices machine.now p top
        → deed ≡ words.deed_at image.now (run image.now choices) entry top.0) }
{
    let place = whereabouts(machine, image, p);
    let coming = coming_of(alloc, machine, image, p)?;
    Ok(ProcessStep {
        entry,
        unit: place.unit,
        line: place.line,
        found: found(machine, image, p, &coming),
    })
}
