//! A machine that makes the turns of a history again, with the history and the roster that a turn needs.
ghost use Rattle.std.specs.Prelude.{◌≡◌, ◌≤◌, [], IfOk, IsSome, OnOk};
ghost use Rattle.hep_fold.specs.ReplayMachines.{CanTurnAgain, HasGoneAgain};
ghost use Rattle.hep_machine.specs.Words.{opening_layout};
ghost use Rattle.hep_state.specs.Words.{IsMachineAfter};

use hep_advance::CoreState;
use hep_blocked::Roster;
use hep_history::History;
use hep_image::Image;
use hep_machine::Entry;
use hep_state::laws::activations_are_few;
use hep_state::{TurnFault, TurnOutcome};
use std::alloc::{AllocError, Global};

/// The greatest number of turns that one call of the interpreter makes.
pub(crate) const MOST_AT_ONCE: u64 = 0xFFFF_FFFF;

/// A machine, its turns so far, each of which is an entry of its own, and room to enroll its processes, though none is.
pub struct ReplayMachine {
    alloc: Global,
    pub machine: CoreState,
    pub history: History,
    pub roster: Roster,
}

// Written out, so that a caller's proof has one call of it at each exit.
impl Drop for ReplayMachine {
    fn drop(self) {
        let ReplayMachine {
            alloc,
            machine,
            history,
            roster,
        } = self;
    }
}

impl ReplayMachine {
    /// The machine of an image before its first turn, with an arena of so many cells.
    ///
    /// # Errors
    ///
    /// Only where memory was refused.
    pub fn open(alloc: Global, image: &Image, cells: u32) -> Result<ReplayMachine, AllocError>
        requires some { 1 ≤ cells }
        requires few { cells ≤ 16777216 }
        requires fits { IsSome (opening_layout image.now cells) }
        ensures opened { IfOk result (λ again. IsMachineAfter image.now cells [] again.machine) }
        ensures begun { IfOk result (λ again. again.history.items ≡ []) }
        ensures room { IfOk result (λ again. again.machine.made ≤ again.roster.room) }
    {
        let machine = CoreState::open(alloc, image, cells)?;
        let mut roster = Roster::new(alloc);
        roster.reserve(machine.made)?;
        Ok(ReplayMachine {
            alloc,
            machine,
            history: History::new(alloc),
            roster,
        })
    }

    /// The next turn, of process p, which has a step, whatever that does.
    ///
    /// # Errors
    ///
    /// Only where memory was refused.
    pub fn turn(&mut self, image: &Image, p: u64) -> Result<(), AllocError>
        requires { CanTurnAgain image.now p self.old }
        ensures { OnOk result (HasGoneAgain image.now p 1 self.old self.new) }
    {
        activations_are_few();
        match self
            .machine
            .turn(self.alloc, image, p, &mut self.history, &mut self.roster)
        {
            Ok(turned) => match turned {
                TurnOutcome::Waits(_) => unreachable!(),
                _ => {
                    self.history.push(Entry {
                        process: p,
                        steps: 1,
                    });
                    Ok(())
                }
            },
            Err(TurnFault::NoMemory) => Err(AllocError),
            Err(TurnFault::ArenaFull) => unreachable!(),
        }
    }
}
