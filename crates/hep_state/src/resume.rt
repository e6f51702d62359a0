//! RESUME: the top activation becomes a process of its own, and the one below it goes on (docs/MACHINE.md, "Steps").
ghost use Rattle.std.specs.Prelude.{◌≡◌, ◌+◌, None, OnErr, OnOk};
ghost use Rattle.hep_state.specs.declared.turn.TurnOutcome.TheVariants.{Stepped};
ghost use Rattle.hep_state.specs.Words.{CanPart, CanTakeResume, HasRoomForEntry, IsTurn, KeepsRollFor, KeepsRoomParting, LeavesAlone, LeavesOthers, PartsAt};
ghost use Rattle.hep_state.specs.Words.{snapshot_of};

use crate::core_state::{CoreState, append};
use crate::laws;
use hep_blocked::Roster;
use hep_history::History;
use hep_proc::{ExitReason, Local, Process, leave};
use hep_step::Image;
use std::alloc::AllocError;

impl CoreState {
    // Makes the top activation of process p the only level of `process`, which was empty, at an index; the one below
    // it goes on. There is room for the process and its level, and it has the next number.
    fn part(&mut self, p: u64, index: usize, mut process: Process)
        requires { CanPart p self.old process }
        ensures parted { PartsAt p index self.old self.new }
        ensures rooms { KeepsRoomParting p process self.old self.new }
        ensures made { self.new.made ≡ self.old.made + 1 }
    {
        let at = self.place(p);
        let parting = &mut self.processes[at];
        let level = leave(parting, &mut self.frames, ExitReason::Resumed);
        append(&mut process.levels, Local { index, ..level });
        self.admit(process);
    }

    // A turn of process p, which is at RESUME. Its top activation goes on at an index, as a process of its own where
    // another one is below it.
    pub(crate) fn take_resume(
        &mut self,
        image: &Image,
        p: u64,
        next: u32,
        history: &mut History,
        roster: &mut Roster,
    ) -> Result<(), AllocError>
        requires { CanTakeResume image.now p self.old next roster.old }
        ensures turned { OnOk result (IsTurn image.now p self.old (Stepped None) self.new) }
        ensures refused { OnErr result (LeavesAlone image.now p self.old self.new) }
        ensures others { LeavesOthers p (snapshot_of self.old) (snapshot_of self.new) }
        ensures entry { HasRoomForEntry history.old result history.new }
        ensures roster { KeepsRollFor self.new roster.old roster.new }
    {
        image.is_runnable();
        laws::resumes_are_shown();
        let at = self.place(p);
        if self.processes[at].levels.len() == 1 {
            history.reserve(1)?;
            self.processes[at].stand_at(next as usize);
            return Ok(());
        }
        let unit = image.unit(self.processes[at].top().unit as usize);
        let process = self.reserve_process(unit.operands, history, roster)?;
        self.part(p, next as usize, process);
        Ok(())
    }
}
