//! The context of the walk over a unit.
use crate::violation_lines::{ProgramLines, UnitLines};
use hep_names::{ProgramSymbols, Symbols};
use std::alloc::Global;

/// A unit of a program, with the tables that the walk over its statements uses.
#[derive(Clone, Copy)]
pub(crate) struct UnitContext<'a> {
    /// The allocator of the lists of violations.
    pub(crate) alloc: Global,
    /// The tables of the program.
    pub(crate) program: &'a ProgramSymbols<'a>,
    /// The table of the unit.
    pub(crate) symbols: &'a Symbols<'a>,
    /// The lines at which conditions of the program are violated.
    pub(crate) shared: &'a ProgramLines,
    /// The lines at which conditions of the unit are violated.
    pub(crate) own: &'a UnitLines,
}
