//! Cells of the arena in a row.
ghost use Rattle.std.specs.Prelude.{◌≡◌, IfOk};
ghost use Rattle.hep_machine.specs.Words.{Units, Layout, Location, State};
ghost use Rattle.hep_state_text.specs.States.{slots_at};
ghost use Rattle.hep_state_text.specs.StoredVariables.{AreKeptFrom, AreKeptSomewhere};

use hep_machine::Slot;
use hep_proc::Frames;
use std::alloc::{AllocError, Global};

/// The slots of `count` cells, from `first` on.
///
/// # Errors
///
/// Only where memory was refused.
pub(crate) fn slots(
    alloc: Global,
    frames: &Frames,
    first: u32,
    count: u32,
) -> Result<Vec<Slot>, AllocError>
    requires { AreKeptSomewhere count first frames.now.arena }
    ensures { IfOk result (λ slots. (program : Units) (s : State) (layout : Layout) (start : Location)
        → AreKeptFrom program s layout start count first frames.now.arena → slots.items ≡ slots_at s.store start count) }
{
    let mut slots = Vec::new(alloc);
    for index in 0..count {
        slots.push(frames.get(first + index))?;
    }
    Ok(slots)
}
