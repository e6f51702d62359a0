//! The tables that a unit's code is made from, besides the unit's statements.
ghost use Rattle.std.specs.Prelude.{◌≡◌, ◌<◌, length};
ghost use Rattle.hep_source.specs.Units.{function_name};
ghost use Rattle.hep_code.specs.Words.{ending_of};
ghost use Rattle.hep_lower.specs.Destinations.{destination};
ghost use Rattle.hep_lower.specs.Tables as spec;

use crate::destinations::{Destination, aside, inward, labelled, onward, outward};
use crate::name_lookup::NameLookup;
use hep_code::{Operation, Variable};
use hep_control::control::Control;
use hep_source::{Name, Statement, function_name, line_at};

/// The first index of the code of each statement.
#[derive(Drop)]
pub struct Starts {
    pub statements: Vec<u32>,
    /// The index of the END after the last statement.
    pub end: u32,
}

/// The tables of a unit.
pub struct Tables<'a> {
    pub names: NameLookup<'a>,
    pub control: &'a Control<'a>,
    pub starts: Starts,
}

impl<'a> Drop for Tables<'a> {
    fn drop(self) {
        let Tables {
            names,
            control,
            starts,
        } = self;
    }
}

impl Starts {
    // The first index of the code of a statement.
    pub fn start(&self, index: usize) -> u32
        ensures { result ≡ spec.start_in self.now index }
    {
        self.statements.get(index).copied().unwrap_or(self.end)
    }

    #[tactic(auto, unfolding(crate::specs::Tables::index_in))]
    fn index(&self, to: Destination) -> u32
        ensures { result ≡ spec.index_in self.now (destination to) }
    {
        match to {
            Destination::Statement(index) => self.start(index),
            Destination::LoopEnd(index) => self.start(index.saturating_add(1)).saturating_sub(1),
        }
    }
}

impl<'a> Tables<'a> {
    /// The number of the subroutine with a name.
    pub fn subroutine(&self, name: &Name) -> u32
        ensures { result ≡ (spec.table_in self.now).subroutines name.now }
    {
        self.names.subroutine(name)
    }

    // The variable of a function's value.
    #[tactic(auto, unfolding(crate::specs::Names::names_in))]
    fn result(&self) -> Option<Variable>
        ensures { result ≡ (spec.table_in self.now).result }
    {
        match function_name(self.control.unit()) {
            Some(name) => Some(self.names.variable(&name)),
            None => None,
        }
    }

    /// The operation that ends an activation of the unit.
    pub fn ending(&self) -> Operation
        ensures { result ≡ ending_of (spec.table_in self.now).result }
    {
        match self.result() {
            Some(variable) => Operation::Answer { variable },
            None => Operation::Return,
        }
    }

    /// The index of a label.
    pub fn label(&self, label: u32) -> u32
        ensures { result ≡ (spec.table_in self.now).labels label }
    {
        self.starts.index(labelled(self.control, label))
    }

    /// The index after a statement.
    pub fn next(&self, index: usize) -> u32
        requires { index < length self.now.control.now }
        ensures { result ≡ ((spec.table_in self.now).flows index).next }
    {
        self.starts.index(onward(self.control, index))
    }

    /// The first index in the range of a DO, or in the block of an IF THEN or ELSE IF.
    pub fn inside(&self, index: usize) -> u32
        requires { index < length self.now.control.now }
        ensures { result ≡ ((spec.table_in self.now).flows index).inside }
    {
        self.starts.index(inward(self.control, index))
    }

    /// The index after a DO.
    pub fn behind(&self, index: usize) -> u32
        requires { index < length self.now.control.now }
        ensures { result ≡ ((spec.table_in self.now).flows index).behind }
    {
        self.starts.index(outward(self.control, index))
    }

    /// The index after a false condition of an IF THEN or ELSE IF.
    pub fn otherwise(&self, index: usize) -> u32
        requires { index < length self.now.control.now }
        ensures { result ≡ ((spec.table_in self.now).flows index).otherwise }
    {
        self.starts.index(aside(self.control, index))
    }

    /// The first of the two cells of a DO.
    pub fn cells(&self, index: usize) -> u32
        ensures { result ≡ ((spec.table_in self.now).flows index).cells }
    {
        self.names.places.cells_at(index)
    }

    /// The line of the terminal statement of a DO.
    pub fn end_line(&self, index: usize) -> u32
        ensures { result ≡ ((spec.table_in self.now).flows index).end_line }
    {
        line_at(self.control.unit(), self.control.terminal_of(index))
    }
}
