//! Lanes of processes, and what each turn makes of them.
ghost use Rattle.std.specs.Prelude.{◌≡◌, ◌++◌, IfOk, OnOk, map};
ghost use Rattle.std.specs.List.{list_any};
ghost use Rattle.hep_formats.specs.Lanes as words;

use crate::number_row::numbers;
use crate::trace_line::{is_listed, woken_by};
use crate::turn_mark::{TurnKind, TurnMark, mark_of, processes_in};
use std::alloc::{AllocError, Global};

/// What a lane shows where its process takes no turn.
#[derive(Clone, Copy)]
pub enum LaneLook {
    /// The process isn't created yet.
    Unborn,
    Lives,
    Waits,
    Ended,
}

/// The lane of a process.
#[derive(Clone, Copy)]
pub struct Lane {
    pub process: u64,
    pub look: LaneLook,
}

/// A turn, and the processes that it woke, with commas between them.
#[derive(Clone, Copy)]
pub struct LaneTurn<'a> {
    pub mark: TurnMark,
    pub woken: &'a [u8],
}

/// The turn of a line.
pub(crate) fn turn_of(line: &[u8]) -> LaneTurn<'_>
    ensures { words.turn_shown result ≡ words.turn_of line.now }
{
    LaneTurn {
        mark: mark_of(line),
        woken: woken_by(line),
    }
}

// Whether one of some turns created process p.
fn is_created(p: u64, marks: &[TurnMark]) -> bool
    ensures { result ≡ list_any (words.creates p) marks.now }
{
    for mark in marks {
        if mark.created == p {
            return true;
        }
    }
    false
}

// Whether one of some turns is of process p.
fn takes_turn(p: u64, marks: &[TurnMark]) -> bool
    ensures { result ≡ list_any (words.is_turn_of p) marks.now }
{
    for mark in marks {
        if mark.process == p {
            return true;
        }
    }
    false
}

// Adds the lane of process p, if one of some turns is of it or created it.
fn add_lane(lanes: &mut Vec<Lane>, p: u64, marks: &[TurnMark]) -> Result<(), AllocError>
    ensures { OnOk result (lanes.new.items ≡ lanes.old.items ++ words.lane_at marks.now p) }
{
    if is_created(p, marks) {
        lanes.push(Lane {
            process: p,
            look: LaneLook::Unborn,
        })?;
    } else if takes_turn(p, marks) {
        lanes.push(Lane {
            process: p,
            look: LaneLook::Lives,
        })?;
    }
    Ok(())
}

/// The lanes before some turns, by the numbers of their processes, `most` at most.
///
/// # Errors
///
/// Only where memory was refused.
#[tactic(auto, using(crate::proofs::Fronts::is_front))]
pub(crate) fn lanes_before(
    alloc: Global,
    most: usize,
    marks: &[TurnMark],
) -> Result<Vec<Lane>, AllocError>
    ensures { IfOk result (λ lanes. lanes.items ≡ words.lanes_before most marks.now) }
{
    let numbers = numbers(alloc, 1, processes_in(marks))?;
    let mut lanes = Vec::new(alloc);
    for p in &numbers {
        if lanes.len() == most {
            return Ok(lanes);
        }
        add_lane(&mut lanes, *p, marks)?;
    }
    lanes.truncate(most);
    Ok(lanes)
}

// What the lane of a process shows after a turn of its own.
fn own_look(kind: TurnKind) -> LaneLook
    ensures { result ≡ words.own_look kind }
{
    match kind {
        TurnKind::Wait => LaneLook::Waits,
        TurnKind::End | TurnKind::Fault => LaneLook::Ended,
        _ => LaneLook::Lives,
    }
}

// What a lane shows after a turn.
fn look_after(turn: &LaneTurn<'_>, lane: Lane) -> LaneLook
    ensures { result ≡ words.look_after (words.turn_shown turn.now) lane }
{
    if turn.mark.process == lane.process {
        return own_look(turn.mark.kind);
    }
    if turn.mark.created == lane.process || is_listed(lane.process, turn.woken) {
        return LaneLook::Lives;
    }
    lane.look
}

/// The lanes after a turn.
///
/// # Errors
///
/// Only where memory was refused.
pub(crate) fn lanes_after(
    alloc: Global,
    turn: &LaneTurn<'_>,
    lanes: &[Lane],
) -> Result<Vec<Lane>, AllocError>
    ensures { IfOk result (λ after. after.items ≡ map (words.lane_after (words.turn_shown turn.now)) lanes.now) }
{
    let mut after = Vec::new(alloc);
    for lane in lanes {
        after.push(Lane {
            process: lane.process,
            look: look_after(turn, *lane),
        })?;
    }
    Ok(after)
}

// What a lane shows where its process takes no turn.
fn sign_of(look: LaneLook) -> &'static [u8]
    ensures { result.now ≡ words.sign_of look }
{
    match look {
        LaneLook::Lives => b"|",
        LaneLook::Waits => b":",
        _ => b"",
    }
}

/// What a lane shows of a turn, whose process shows `own`.
pub(crate) fn cell_of<'a>(turn: &LaneTurn<'_>, own: &'a [u8], lane: Lane) -> &'a [u8]
    ensures { result.now ≡ words.cell_of (words.turn_shown turn.now) own.now lane }
{
    if turn.mark.process == lane.process {
        own
    } else if turn.mark.created == lane.process {
        b"*"
    } else if is_listed(lane.process, turn.woken) {
        b"<"
    } else {
        sign_of(lane.look)
    }
}

/// Whether one of some lanes is that of process p.
pub(crate) fn has_lane(p: u64, lanes: &[Lane]) -> bool
    ensures { result ≡ list_any (words.is_lane_of p) lanes.now }
{
    for lane in lanes {
        if lane.process == p {
            return true;
        }
    }
    false
}

/// Whether a lane shows that its process waits.
pub(crate) fn is_waiting(lane: Lane) -> bool
    ensures { result ≡ words.is_waiting lane.look }
{
    matches!(lane.look, LaneLook::Waits)
}
