//! The machine after one step of a process, beside the machine before it, and after the pure steps that come next.
ghost use Rattle.std.specs.Prelude.{◌≡◌, ◌<◌, ◌≤◌, ◌+◌, ◌^◌, false, if◌then◌else◌, IfOk, OnOk};
ghost use Rattle.hep_state.specs.Words.{IsItsTurn, IsReached};
ghost use Rattle.hep_explore.specs.Successors.{IsPureAhead, IsSuccessor, MakesPureSteps};

use crate::pure_steps::is_next_pure;
use hep_blocked::Roster;
use hep_history::History;
use hep_image::Image;
use hep_state::{CoreState, TurnFault, TurnOutcome};
use std::alloc::{AllocError, Global};

/// The most pure steps that are made after another step of their process. A loop may have pure steps alone.
pub const MOST_PURE_STEPS: u64 = 1000;

/// What a step of a process makes of a machine.
#[derive(Drop)]
pub enum Successor {
    /// The machine after the step.
    Machine(CoreState),
    /// The step makes an activation for whose frame there is no gap.
    Full,
    /// The process has no step: it doesn't live, or it waits.
    Nothing,
}

/// What turns take besides a machine. No entry is appended and no process enrolled, so neither grows.
pub struct Turns {
    alloc: Global,
    history: History,
    roster: Roster,
}

// Written out, so that a caller's proof has one call of it at each exit.
impl Drop for Turns {
    fn drop(self) {
        let Turns {
            alloc,
            history,
            roster,
        } = self;
    }
}

impl Turns {
    pub fn new(alloc: Global) -> Turns {
        Turns {
            alloc,
            history: History::new(alloc),
            roster: Roster::new(alloc),
        }
    }

    /// What a step of process p makes of a machine in which no STOP was executed. The machine stays as it is.
    ///
    /// # Errors
    ///
    /// Only where memory was refused.
    pub fn successor(
        &mut self,
        image: &Image,
        machine: &CoreState,
        p: u64,
    ) -> Result<Successor, AllocError>
        requires reached { IsReached image.now machine.now }
        requires running { machine.now.halted ≡ false }
        requires countable { machine.now.activations + 1 < 2 ^ 64 }
        requires numerable { machine.now.made + 1 < 2 ^ 64 }
        ensures { IfOk result (IsSuccessor image.now p machine.now) }
    {
        if !machine.lives(p) {
            return Ok(Successor::Nothing);
        }
        let mut next = machine.copy(self.alloc)?;
        self.roster.reserve(next.made)?;
        match next.turn(self.alloc, image, p, &mut self.history, &mut self.roster) {
            Ok(TurnOutcome::Stepped { .. }) => Ok(Successor::Machine(next)),
            Ok(TurnOutcome::Purged) => Ok(Successor::Machine(next)),
            Ok(TurnOutcome::Waits(_)) => Ok(Successor::Nothing),
            Err(TurnFault::ArenaFull) => Ok(Successor::Full),
            Err(TurnFault::NoMemory) => Err(AllocError),
        }
    }

    // Makes the next step of process p, which is pure.
    fn make_pure_step(
        &mut self,
        image: &Image,
        machine: &mut CoreState,
        p: u64,
    ) -> Result<(), AllocError>
        requires turn { IsItsTurn image.now p machine.old }
        requires pure { IsPureAhead image.now p machine.old }
        requires countable { machine.old.activations + 1 < 2 ^ 64 }
        requires numerable { machine.old.made + 1 < 2 ^ 64 }
        ensures { OnOk result (MakesPureSteps image.now p machine.old 1 machine.new) }
    {
        self.roster.reserve(machine.made)?;
        match machine.turn(self.alloc, image, p, &mut self.history, &mut self.roster) {
            Ok(TurnOutcome::Stepped { .. }) => Ok(()),
            Ok(TurnOutcome::Purged) => Ok(()),
            Ok(TurnOutcome::Waits(_)) => unreachable!(),
            Err(TurnFault::ArenaFull) => unreachable!(),
            Err(TurnFault::NoMemory) => Err(AllocError),
        }
    }

    // Makes the next step of process p, if it is pure. Returns whether it is.
    fn try_pure_step(
        &mut self,
        image: &Image,
        machine: &mut CoreState,
        p: u64,
    ) -> Result<bool, AllocError>
        requires reached { IsReached image.now machine.old }
        requires countable { machine.old.activations + 1 < 2 ^ 64 }
        requires numerable { machine.old.made + 1 < 2 ^ 64 }
        ensures { IfOk result (λ pure. MakesPureSteps image.now p machine.old (if pure then 1 else 0) machine.new) }
    {
        if machine.halted {
            return Ok(false);
        }
        if !machine.lives(p) {
            return Ok(false);
        }
        if !is_next_pure(self.alloc, image, machine, p)? {
            return Ok(false);
        }
        self.make_pure_step(image, machine, p)?;
        Ok(true)
    }

    /// Makes the pure steps of process p that come next, but at most `MOST_PURE_STEPS`. Returns how many.
    ///
    /// # Errors
    ///
    /// Only where memory was refused.
    pub fn make_pure_steps(
        &mut self,
        image: &Image,
        machine: &mut CoreState,
        p: u64,
    ) -> Result<u64, AllocError>
        requires reached { IsReached image.now machine.old }
        requires countable { machine.old.activations + 1 < 2 ^ 64 }
        requires numerable { machine.old.made + 1 < 2 ^ 64 }
        ensures { IfOk result (λ made. MakesPureSteps image.now p machine.old made machine.new) }
    {
        for made in 0..MOST_PURE_STEPS {
            if !self.try_pure_step(image, machine, p)? {
                return Ok(made);
            }
        }
        Ok(MOST_PURE_STEPS)
    }
}
