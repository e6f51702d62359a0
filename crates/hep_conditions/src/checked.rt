//! Checked programs.
ghost use Rattle.std.specs.Prelude.{◌≡◌, ◌<◌, length, map};
ghost use Rattle.hep_machine.specs.Words.{unit_at};
ghost use Rattle.hep_machine.specs.Variables as variables;
ghost use Rattle.hep_conditions.specs.Words.{IsAccepted};

use hep_source::Program;
use std::marker::Model;

/// A program that violates no condition. Contracts see it as the list of its units.
#[derive(Drop)]
pub struct Checked {
    program: Program,
    // The number of cells of the frame of each unit.
    frames: Vec<u128>,
}

impl Model for Checked {
    ghost use Rattle.std.specs.Prelude.{◌≡◌, List, map};
    ghost use Rattle.std.specs.Coded.{codes};
    ghost use Rattle.hep_source.specs.declared.statement.Statement.{Statement};
    ghost use Rattle.hep_source.specs.contracts.expression.Expr as expression;
    ghost use Rattle.hep_conditions.specs.Conditions.{IsAccepted};
    ghost use Rattle.hep_machine.specs.Variables.{frame_cells};

    ghost Value = { List (List Statement) };

    ghost coded = { Prim.hlevel (codes, expression.the_row.coded) };

    ghost view = { λ a. a.program };

    ghost invariant = { λ a. IsAccepted a.program × (a.frames.items ≡ map frame_cells a.program) };
}

impl Checked {
    /// Makes a checked program from a program that violates no condition and the number of cells of each unit's
    /// frame. `hep_check` establishes both.
    pub fn new(program: Program, frames: Vec<u128>) -> Checked
        requires accepted { IsAccepted program }
        requires counted { frames.items ≡ map variables.frame_cells program }
        ensures { result ≡ program }
    {
        Checked { program, frames }
    }

    /// The program.
    pub fn program(&self) -> &Program
        ensures { result.now ≡ self.now }
    {
        &self.program
    }

    /// The program alone. This allocates no memory.
    pub fn into_program(self) -> Program
        ensures { result ≡ self }
    {
        self.program
    }

    /// The number of cells of a unit's frame (docs/MACHINE.md, "Variables and frames"), by the index of the unit in the source,
    /// counted from 0. This allocates no memory.
    pub fn frame_cells(&self, unit: usize) -> u128
        requires { unit < length self.now }
        ensures { result ≡ variables.frame_cells (unit_at self.now unit) }
    {
        self.frames[unit]
    }

    /// A checked program has no violation.
    pub fn is_accepted(&self)
        ensures { IsAccepted self.now }
    {
        let _ = &self.program;
    }
}
