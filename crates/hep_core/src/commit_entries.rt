//! The entry and the turn of a commit with private steps.
ghost use Rattle.std.specs.Prelude.{◌≡◌, ◌<◌, ◌≤◌, ◌^◌, None, Some, false, if◌then◌else◌, length};
ghost use Rattle.hep_core.specs.Commits.{HasMore};
ghost use Rattle.hep_core.specs.declared.stop.ChoiceStop.TheVariants.{Halted};

use crate::stop::{ChoiceStop, Turn};
use hep_history::History;
use hep_machine::Entry;

/// Replaces the last entry, which is of process p, by one with this number of steps.
pub(crate) fn note_more(history: &mut History, p: u64, steps: u32)
    requires room { 0 < history.old.room }
    requires few { length history.old.items ≤ 2 ^ 63 }
    requires some { 0 < length history.old.items }
    ensures { HasMore p steps history.old.items history.new.items }
{
    history.pop();
    history.push(Entry { process: p, steps });
}

/// A turn that made this number of steps.
pub(crate) fn made_steps(steps: u32) -> Turn
    ensures { result ≡ record { steps = steps; blocked = false } }
{
    Turn {
        steps,
        blocked: false,
    }
}

/// The stop after a step: `Halted` where the step was a STOP.
pub(crate) fn stop_where(halted: bool) -> Option<ChoiceStop>
    ensures { result ≡ (if halted then Some Halted else None) }
{
    if halted {
        Some(ChoiceStop::Halted)
    } else {
        None
    }
}
