//! The cells of DOs (docs/MACHINE.md, "Variables and frames").
ghost use Rattle.std.specs.Prelude.{◌≡◌, [], ◌∷◌, ◌++◌, OnOk};
ghost use Rattle.hep_machine.specs.Variables as variables;
ghost use Rattle.hep_places.specs.StorageStarts as found;

use crate::cell_numbers::further;
use hep_source::{Form, Statement};
use std::alloc::{AllocError, Global};

// For each statement, by its index, the first of the two cells if it is a DO, and 0 if not.
#[derive(Drop)]
pub(crate) struct LoopCells {
    pub(crate) cells: Vec<u32>,
    // The cell after all of them.
    pub(crate) next: u32,
}

fn is_do(form: &Form) -> bool
    ensures { result ≡ variables.is_do form.now }
{
    match form {
        Form::Do(_) => true,
        _ => false,
    }
}

impl LoopCells {
    // No DOs yet. The first one will have its cells from `first` on.
    pub(crate) fn new(alloc: Global, first: u32) -> LoopCells
        ensures cells { result.cells.items ≡ [] }
        ensures next { result.next ≡ first }
    {
        LoopCells {
            cells: Vec::new(alloc),
            next: first,
        }
    }

    fn add_statement(&mut self, form: &Form) -> Result<(), AllocError>
        ensures cells { OnOk result (self.new.cells.items ≡ self.old.cells.items ++ found.loop_cell self.old.next form.now ∷ []) }
        ensures next { OnOk result (self.new.next ≡ found.behind_loop self.old.next form.now) }
    {
        if is_do(form) {
            self.cells.push(self.next)?;
            self.next = further(self.next, 2);
        } else {
            self.cells.push(0)?;
        }
        Ok(())
    }

    // Adds the DOs among these statements.
    pub(crate) fn add_statements(&mut self, statements: &[Statement]) -> Result<(), AllocError>
        ensures cells { OnOk result (self.new.cells.items ≡ self.old.cells.items ++ found.loops_from self.old.next statements.now) }
        ensures next { OnOk result (self.new.next ≡ found.behind_loops self.old.next statements.now) }
    {
        for statement in statements {
            self.add_statement(&statement.form)?;
        }
        Ok(())
    }
}
