//! One turn of a process, and its end: a record, a fault, the end of an activation, or a stop.
ghost use Rattle.std.specs.Prelude.{◌≡◌, ◌<◌, ◌≤◌, ◌+◌, [], IfOk, IfErr, IfSome, MatchOption, OnErr, OnOk, length, reverse};
ghost use Rattle.std.specs.Prelude.{vec_len, vec_capacity};
ghost use Rattle.hep_proc.specs.FrameTable.{CanAllLeave};
ghost use Rattle.hep_proc.specs.Nodes.{nodes_of};
ghost use Rattle.hep_proc.specs.Stacks.{keys_of};
ghost use Rattle.hep_step.specs.declared.effect.Effect.TheVariants.{Waits};
ghost use Rattle.hep_step.specs.Effects.{answers, fails, returns};
ghost use Rattle.hep_step.specs.PerformedSteps.{changed_in};
ghost use Rattle.hep_blocked.specs.Rosters.{KeepsRoll};
ghost use Rattle.hep_state.specs.Words.{AreNumbered, CanBeMore, CanEndTurn, CanTakeCall, CanTurn, ChangesNext, EndsBy};
ghost use Rattle.hep_state.specs.Words.{HasLevels, HasRoomForCreation, HasRoomForEntry, HasRoomForLevel, HasRoomForProcess, HaveFramesLeft};
ghost use Rattle.hep_state.specs.Words.{IsAtOperation, IsEmptyProcess, IsEndingBy, IsEndingWithRoom, IsRefused, IsTurn, KeepsRollFor};
ghost use Rattle.hep_state.specs.Words.{KeepsRoom, KeepsWritten, LeavesAlone, LeavesOthers, LeavesRest, LivesOnBelow, Performs, ShowsSame};
ghost use Rattle.hep_state.specs.Words.{StepsAfter, WaitsAfter, snapshot_of};

use crate::calling::CalledUnit;
use crate::calls_and_returns::creates;
use crate::core_state::{CoreState, append};
use crate::laws;
use crate::next_step::{NextCall, NextStep};
use crate::process_places::make_room;
use crate::top_place::advance;
use hep_blocked::Roster;
use hep_cells::Want;
use hep_history::History;
use hep_machine::{Fault, Kind};
use hep_proc::{ExitReason, Frames, Local, Process, leave};
use hep_source::Value;
use hep_step::{Effect, Image};
use std::alloc::{AllocError, Global};
use thiserror::Error;

/// Why a turn was not taken. The machine shows the same state then.
#[derive(Clone, Copy, Debug, PartialEq, Eq, Error)]
pub enum TurnFault {
    /// The arena has no gap as long as the frame of the called unit.
    #[error("arena full")]
    ArenaFull,
    /// Memory was refused.
    #[error("no memory")]
    NoMemory,
}

impl From<AllocError> for TurnFault {
    ghost use Rattle.std.specs.Prelude.{◌≡◌};
    ghost use Rattle.hep_state.specs.declared.turn.TurnFault.TheVariants.{NoMemory};

    ghost from_gives = { λ _ e. e ≡ NoMemory };

    fn from(_refused: AllocError) -> TurnFault {
        TurnFault::NoMemory
    }
}

/// The result of a turn.
#[derive(Clone, Copy, PartialEq, Eq)]
pub enum TurnOutcome {
    /// A step was made. `changed` is the only cell that it filled or emptied for which others may wait, as it is now,
    /// if there is one.
    Stepped { changed: Option<Want> },
    /// A PURGE was made. It emptied the cells in the machine's `passing` and changed no others. Where it ended in a
    /// fault, `passing` has no cells.
    Purged,
    /// The process waits until a cell is full, or is empty. The machine shows the same state.
    Waits(Want),
}

// Ends several activations, the last one first: takes their frames out of the arena, and removes all levels.
fn leave_all(frames: &mut Frames, levels: &mut Vec<Local>)
    requires { CanAllLeave frames.old.arena (nodes_of frames.old.nodes) (keys_of (reverse levels.old.items)) }
    ensures ended { HaveFramesLeft (reverse levels.old.items) frames.old frames.new }
    ensures cells { length frames.new.arena.contents ≡ length frames.old.arena.contents }
    ensures none { levels.new.items ≡ [] }
{
    while let Some(level) = levels.pop() {
        frames.leave(level.key);
    }
}

impl CoreState {
    // Ends the top activation of process p, by RETURN or END of its unit.
    #[inline(always)]
    pub(crate) fn finish(&mut self, p: u64)
        requires { IsEndingBy returns p self.old }
        ensures stepped { EndsBy returns p self.old self.new }
        ensures rooms { KeepsRoom self.old self.new }
        ensures made { self.new.made ≡ self.old.made }
        ensures others { LeavesOthers p (snapshot_of self.old) (snapshot_of self.new) }
        ensures lives { LivesOnBelow p self.old self.new }
    {
        let at = self.place(p);
        let process = &mut self.processes[at];
        leave(process, &mut self.frames, ExitReason::Returned);
    }

    // Ends the function on top of process p with this value. The activation below has the operands again that it
    // kept, and the value after them, in the place of the reference. There is room for them.
    #[inline(always)]
    pub(crate) fn hand_down(&mut self, p: u64, value: Value)
        requires { IsEndingWithRoom (answers value) p self.old }
        ensures stepped { EndsBy (answers value) p self.old self.new }
        ensures rooms { KeepsRoom self.old self.new }
        ensures made { self.new.made ≡ self.old.made }
        ensures others { LeavesOthers p (snapshot_of self.old) (snapshot_of self.new) }
        ensures lives { LivesOnBelow p self.old self.new }
    {
        let at = self.place(p);
        let process = &mut self.processes[at];
        leave(process, &mut self.frames, ExitReason::Answered(value));
    }

    // Ends process p with a fault in the statement with this initial line.
    pub(crate) fn fail(&mut self, p: u64, line: u32, kind: Kind)
        requires ending { IsEndingBy (fails line kind) p self.old }
        requires room { vec_len self.old.faults < vec_capacity self.old.faults }
        ensures stepped { EndsBy (fails line kind) p self.old self.new }
        ensures rooms { KeepsRoom self.old self.new }
        ensures others { LeavesOthers p (snapshot_of self.old) (snapshot_of self.new) }
        ensures rest { self.new ≡ record self.old { frames = self.new.frames; processes = self.new.processes; faults = self.new.faults } }
    {
        let at = self.place(p);
        let process = &mut self.processes[at];
        let unit = process.top().unit;
        process.operands.clear();
        process.pending.clear();
        leave_all(&mut self.frames, &mut process.levels);
        let fault = Fault {
            process: p,
            unit,
            line,
            kind,
        };
        append(&mut self.faults, fault);
    }

    // Ends a turn of process p with the effect of its operation, or returns what the process waits for.
    pub(crate) fn end_turn(&mut self, p: u64, effect: Effect) -> Option<Want>
        requires { CanEndTurn effect p self.old }
        ensures ended { MatchOption result (StepsAfter effect p self.old self.new) (WaitsAfter effect p self.old self.new) }
        ensures waits { IfSome result (λ want. (effect ≡ Waits want) × (self.new ≡ self.old)) }
        ensures rooms { KeepsRoom self.old self.new }
        ensures made { self.new.made ≡ self.old.made }
        ensures others { LeavesOthers p (snapshot_of self.old) (snapshot_of self.new) }
    {
        match effect {
            Effect::Moved { .. } => {}
            Effect::Printed(record) => append(&mut self.records, record),
            Effect::Failed { line, kind } => self.fail(p, line, kind),
            Effect::Waits(want) => return Some(want),
            Effect::Returned => self.finish(p),
            Effect::Answered(value) => self.hand_down(p, value),
            Effect::Stopped => self.halted = true,
            // CALL, CREATE, references, PURGE and RESUME have turns of their own.
            Effect::LeftOut => unreachable!(),
        }
        None
    }

    // Makes room for what a turn may write: a record, a fault, and its entry of the history.
    fn reserve(&mut self, history: &mut History) -> Result<(), AllocError>
        ensures records { OnOk result (vec_len self.new.records < vec_capacity self.new.records) }
        ensures faults { OnOk result (vec_len self.new.faults < vec_capacity self.new.faults) }
        ensures entry { HasRoomForEntry history.old result history.new }
        ensures written { (self.new.records.items ≡ self.old.records.items) × (self.new.faults.items ≡ self.old.faults.items) }
        ensures others { self.new ≡ record self.old { records = self.new.records; faults = self.new.faults } }
    {
        self.records.reserve(1)?;
        self.faults.reserve(1)?;
        history.reserve(1)
    }

    // Makes room for one more activation of process p, with `operands` operands, and for `kept` operands of the one
    // below it.
    #[inline(always)]
    pub(crate) fn reserve_level(
        &mut self,
        p: u64,
        operands: u32,
        kept: u32,
    ) -> Result<(), AllocError>
        requires living { HasLevels (snapshot_of self.old) p }
        requires numbers { AreNumbered self.old }
        ensures level { OnOk result (HasRoomForLevel self.new p operands kept) }
        ensures same { ShowsSame self.old self.new }
    {
        self.frames.reserve()?;
        let at = self.place(p);
        self.processes[at].reserve(operands, kept)
    }

    // Makes room for one more process, and for the entry of the turn that makes it. Returns that process, empty so
    // far, with room for one level and for `operands` operands. It has the next number, and the roster has room to
    // enrol it.
    pub(crate) fn reserve_process(
        &mut self,
        operands: u32,
        history: &mut History,
        roster: &mut Roster,
    ) -> Result<Process, AllocError>
        requires { CanBeMore self.old }
        ensures made { IfOk result (IsEmptyProcess (self.old.made + 1) operands) }
        ensures process { OnOk result (HasRoomForProcess self.new roster.new) }
        ensures entry { HasRoomForEntry history.old result history.new }
        ensures roster { KeepsRoll roster.old roster.new }
        ensures same { ShowsSame self.old self.new }
    {
        let alloc = *self.processes.allocator();
        history.reserve(1)?;
        make_room(&mut self.processes)?;
        let number = self.made + 1;
        roster.reserve(number)?;
        Ok(Process {
            number,
            levels: Vec::with_capacity(alloc, 1)?,
            operands: Vec::with_capacity(alloc, operands as usize)?,
            pending: Vec::new(alloc),
        })
    }

    // The same, and room for the node of its activation.
    fn reserve_creation(
        &mut self,
        operands: u32,
        history: &mut History,
        roster: &mut Roster,
    ) -> Result<Process, AllocError>
        requires { CanBeMore self.old }
        ensures made { IfOk result (IsEmptyProcess (self.old.made + 1) operands) }
        ensures process { OnOk result (HasRoomForCreation self.new roster.new) }
        ensures entry { HasRoomForEntry history.old result history.new }
        ensures roster { KeepsRoll roster.old roster.new }
        ensures same { ShowsSame self.old self.new }
    {
        let process = self.reserve_process(operands, history, roster)?;
        self.frames.reserve()?;
        Ok(process)
    }

    // Performs the next operation of process p, which is no CALL, CREATE, reference, PURGE or RESUME.
    fn advance(&mut self, alloc: Global, image: &Image, p: u64) -> Result<Effect, AllocError>
        requires { IsAtOperation image.now p self.old }
        ensures performed { IfOk result (Performs image.now p self.old self.new) }
        ensures changed { IfOk result (λ effect. ChangesNext image.now p self.old (changed_in effect)) }
        ensures refused { OnErr result (snapshot_of self.new ≡ snapshot_of self.old) }
        ensures others { LeavesOthers p (snapshot_of self.old) (snapshot_of self.new) }
        ensures kept { KeepsWritten image.now self.old self.new }
    {
        image.is_runnable();
        laws::tops_are_running();
        let at = self.place(p);
        let process = &mut self.processes[at];
        advance(alloc, process, &mut self.frames, image)
    }

    // A turn of process p, whose next operation is no CALL, CREATE, reference, PURGE or RESUME.
    fn take_operation(
        &mut self,
        alloc: Global,
        image: &Image,
        p: u64,
        history: &mut History,
    ) -> Result<TurnOutcome, AllocError>
        requires { IsAtOperation image.now p self.old }
        ensures turned { IfOk result (λ turned. IsTurn image.now p self.old turned self.new) }
        ensures refused { OnErr result (LeavesAlone image.now p self.old self.new) }
        ensures rest { IfOk result (λ turned. LeavesRest turned image.now p (snapshot_of self.old) (snapshot_of self.new)) }
        ensures made { self.new.made ≡ self.old.made }
        ensures entry { HasRoomForEntry history.old result history.new }
    {
        // Makes room for what the turn may write before anything changes.
        self.reserve(history)?;
        let effect = self.advance(alloc, image, p)?;
        let changed = effect.changed();
        match self.end_turn(p, effect) {
            Some(want) => Ok(TurnOutcome::Waits(want)),
            None => Ok(TurnOutcome::Stepped { changed }),
        }
    }

    // A turn of process p, which is at a CALL, CREATE or reference: one more activation, or a fault.
    //
    // Whether the frame has a gap is found before memory is asked for.
    fn take_call(
        &mut self,
        image: &Image,
        p: u64,
        call: NextCall,
        history: &mut History,
        roster: &mut Roster,
    ) -> Result<TurnOutcome, TurnFault>
        requires { CanTakeCall image.now p self.old call roster.old }
        ensures turned { IfOk result (λ turned. IsTurn image.now p self.old turned self.new) }
        ensures unturned { IfErr result (IsRefused image.now p self.old self.new) }
        ensures rest { IfOk result (λ turned. LeavesRest turned image.now p (snapshot_of self.old) (snapshot_of self.new)) }
        ensures entry { HasRoomForEntry history.old result history.new }
        ensures roster { KeepsRollFor self.new roster.old roster.new }
    {
        image.is_runnable();
        laws::calls_can_be_made();
        laws::calls_touch_nothing();
        laws::gaps_are_told();
        let kept = match self.give(image, p, call) {
            Ok(kept) => kept,
            Err(kind) => {
                self.reserve(history)?;
                self.fail(p, call.line, kind);
                return Ok(TurnOutcome::Stepped { changed: None });
            }
        };
        let unit = image.unit(call.unit as usize);
        if !self.frames.fits(unit.cells) {
            return Err(TurnFault::ArenaFull);
        }
        if creates(call.way) {
            let called = CalledUnit {
                unit: call.unit,
                cells: unit.cells,
                entry: unit.entry as usize,
            };
            let process = self.reserve_creation(unit.operands, history, roster)?;
            self.create(p, called, call.next, process);
        } else {
            history.reserve(1)?;
            self.begin_call(image, p, call, kept)?;
        }
        Ok(TurnOutcome::Stepped { changed: None })
    }

    /// Makes a turn of process p, which lives. Then the machine shows the state after the source machine's step, or
    /// the same state where the process waits. The history gets room for the entry of the turn, and the roster for a
    /// process that is made; the lists of ready and waiting processes don't change.
    ///
    /// # Errors
    ///
    /// `ArenaFull` where a CALL, CREATE or reference makes an activation for whose frame there is no gap, which is
    /// found before memory is asked for; `NoMemory`. The machine shows the same state then.
    pub fn turn(
        &mut self,
        alloc: Global,
        image: &Image,
        p: u64,
        history: &mut History,
        roster: &mut Roster,
    ) -> Result<TurnOutcome, TurnFault>
        requires { CanTurn image.now p self.old roster.old }
        ensures turned { IfOk result (λ turned. IsTurn image.now p self.old turned self.new) }
        ensures unturned { IfErr result (IsRefused image.now p self.old self.new) }
        ensures rest { IfOk result (λ turned. LeavesRest turned image.now p (snapshot_of self.old) (snapshot_of self.new)) }
        ensures entry { HasRoomForEntry history.old result history.new }
        ensures roster { KeepsRollFor self.new roster.old roster.new }
    {
        image.is_runnable();
        laws::other_steps_find_gaps();
        laws::purges_are_shown();
        laws::resumes_are_shown();
        laws::tops_are_running();
        match self.step_ahead(image, p) {
            NextStep::Call(call) => self.take_call(image, p, call, history, roster),
            NextStep::Purge(purge) => {
                self.reserve(history)?;
                self.purge(image, p, purge);
                Ok(TurnOutcome::Purged)
            }
            NextStep::Resume { next } => {
                self.take_resume(image, p, next, history, roster)?;
                Ok(TurnOutcome::Stepped { changed: None })
            }
            // RETURN and END have the same result by `take_operation`, which also looks at operands and other cells.
            NextStep::Return => {
                history.reserve(1)?;
                self.finish(p);
                Ok(TurnOutcome::Stepped { changed: None })
            }
            NextStep::Answer(answer) => {
                self.reserve(history)?;
                self.take_answer(image, p, answer);
                Ok(TurnOutcome::Stepped { changed: None })
            }
            NextStep::Other => Ok(self.take_operation(alloc, image, p, history)?),
        }
    }
}
