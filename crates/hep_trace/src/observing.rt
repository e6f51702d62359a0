//! The observation of a process before its turn.
ghost use Rattle.std.specs.Prelude.{◌≡◌, ◌<◌, ◌^◌, false, length, IfOk};
ghost use Rattle.hep_core.specs.CoreValues.{state_of};
ghost use Rattle.hep_machine.specs.Words.{Level, Process as SourceProcess, schedule_of};
ghost use Rattle.hep_event.specs.Variables.{AreVariablesOf};
ghost use Rattle.hep_event.specs.Traces.{is_accessed};
ghost use Rattle.hep_trace.specs.Observations.{IsAheadOf, IsBefore, IsShownBy, IsObservation, name_sought};
ghost use Rattle.hep_trace.specs.FreedFrames.{top_in};

use crate::before_turn::numbers_before;
use crate::freed_frames::ancestry;
use crate::next_operation::{is_shown, targets, value_before};
use crate::observation::{BeforeTurn, Observation};
use crate::reference::{LiveProcess, reference_ahead};
use crate::turn_laws::turns_are_told;
use crate::woken_processes::waiting_numbers;
use hep_event::{Core, Variables, coming_of};
use hep_state::laws::activations_are_few;
use std::alloc::{AllocError, Global};

// What the line of the next turn of a living process needs. It is a function of its own, so that a turn without a
// line prepares nothing for it.
#[inline(never)]
fn look_at(alloc: Global, core: &Core, ahead: &LiveProcess<'_>) -> Result<BeforeTurn, AllocError>
    requires ahead { (top : Level × SourceProcess) × IsAheadOf core.now.core ahead.now top }
    requires few { length (schedule_of core.now.core.history) < 2 ^ 63 }
    ensures { IfOk result (λ before. (top : Level × SourceProcess) → IsAheadOf core.now.core ahead.now top
        → IsBefore core.now.core (top_in core.now.core ahead.now.process top) before) }
{
    ahead.image.is_runnable();
    turns_are_told();
    activations_are_few();
    let Some(place) = core.whereabouts(ahead.process) else {
        unreachable!()
    };
    let reference = reference_ahead(alloc, ahead)?;
    let operands = ahead.coming.operands.as_slice().to_vec(alloc)?;
    let list = targets(alloc, ahead)?;
    let waiting = waiting_numbers(alloc, core)?;
    let ancestry = ancestry(alloc, ahead)?;
    let value = value_before(ahead, &reference);
    Ok(BeforeTurn {
        unit: place.unit,
        line: place.line,
        operation: ahead.coming.operation,
        operands,
        reference,
        value,
        list,
        numbers: numbers_before(ahead),
        waiting,
        ancestry,
        faults: core.faults().len(),
    })
}

// The same, or `None` where the turn has no line.
fn look_ahead(
    alloc: Global,
    core: &Core,
    ahead: &LiveProcess<'_>,
    cell: Option<&[u8]>,
) -> Result<Option<BeforeTurn>, AllocError>
    requires ahead { (top : Level × SourceProcess) × IsAheadOf core.now.core ahead.now top }
    requires few { length (schedule_of core.now.core.history) < 2 ^ 63 }
    ensures { IfOk result (λ before. (top : Level × SourceProcess) → IsAheadOf core.now.core ahead.now top
        → IsShownBy core.now.core (top_in core.now.core ahead.now.process top) before
        (is_accessed core.now.core.program (name_sought cell.entry) (top_in core.now.core ahead.now.process top))) }
{
    if !is_shown(ahead, cell) {
        return Ok(None);
    }
    let before = look_at(alloc, core, ahead)?;
    Ok(Some(before))
}

/// Observes process p before its next turn, as far as the turn's line needs it, where all turns are shown or only
/// those that access a variable of one name.
///
/// # Errors
///
/// Only where memory was refused.
pub fn look(
    alloc: Global,
    core: &Core,
    variables: &Variables,
    p: u64,
    cell: Option<&[u8]>,
) -> Result<Observation, AllocError>
    requires variables { AreVariablesOf core.now.core.program variables.now }
    requires running { (state_of core.now.core).halted ≡ false }
    requires few { length (schedule_of core.now.core.history) < 2 ^ 63 }
    ensures { IfOk result (IsObservation core.now.core p (name_sought cell.entry)) }
{
    if !core.lives(p) {
        return Ok(Observation {
            process: p,
            before: None,
        });
    }
    let (machine, image) = (core.machine(), core.image());
    let coming = coming_of(alloc, machine, image, p)?;
    let ahead = LiveProcess {
        machine,
        image,
        variables,
        process: p,
        coming: &coming,
    };
    let before = look_ahead(alloc, core, &ahead, cell)?;
    Ok(Observation { process: p, before })
}
