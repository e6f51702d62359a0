//! The own cells, operands and index of a process, saved while private steps are made.
ghost use Rattle.std.specs.Prelude.{◌≡◌, OnOk};
ghost use Rattle.hep_state.specs.Words.{KeepsRoom};
ghost use Rattle.hep_commit.specs.UndoLogs.{nothing_saved, saved_in};
ghost use Rattle.hep_commit.specs.Application.{CanRestore, CanStart, HasRestored, IsSavedOf};

use crate::own_cells::OwnCellTable;
use crate::top_activation;
use hep_advance::CoreState;
use hep_machine::Slot;
use hep_source::Value;
use std::alloc::{AllocError, Global};

/// The slots of the own cells, the operands, and the index of a top activation.
#[derive(Drop)]
pub struct UndoLog {
    pub(crate) slots: Vec<Slot>,
    pub(crate) operands: Vec<Value>,
    pub(crate) index: usize,
}

impl UndoLog {
    /// An empty one, in which nothing is saved so far.
    pub fn new(alloc: Global) -> UndoLog
        ensures { saved_in result ≡ nothing_saved }
    {
        UndoLog {
            slots: Vec::new(alloc),
            operands: Vec::new(alloc),
            index: 0,
        }
    }

    /// Saves the own cells, the operands and the index of process p, and overwrites what was saved before. The
    /// machine doesn't change.
    ///
    /// # Errors
    ///
    /// Only where memory was refused.
    pub fn keep(
        &mut self,
        machine: &mut CoreState,
        owned: &OwnCellTable<'_>,
        p: u64,
    ) -> Result<(), AllocError>
        requires { CanStart owned.now p machine.old }
        ensures kept { OnOk result (IsSavedOf owned.now.image.now p machine.old (saved_in self.new)) }
        ensures same { machine.new ≡ machine.old }
    {
        let at = machine.place(p);
        let process = &machine.processes[at];
        top_activation::keep(self, process, &mut machine.frames, owned)
    }

    /// Restores what was saved of process p. This takes no memory.
    pub fn put_back(&self, machine: &mut CoreState, owned: &OwnCellTable<'_>, p: u64)
        requires { CanRestore owned.now p (saved_in self.now) machine.old }
        ensures restored { HasRestored owned.now.image.now p (saved_in self.now) machine.old machine.new }
        ensures rooms { KeepsRoom machine.old machine.new }
        ensures made { machine.new.made ≡ machine.old.made }
    {
        let at = machine.place(p);
        let process = &mut machine.processes[at];
        top_activation::put_back(process, &mut machine.frames, owned, self)
    }
}
