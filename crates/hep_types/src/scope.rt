//! The context in which a statement is checked.
use crate::parameters::Parameters;
use hep_names::Symbols;
use std::alloc::Global;

/// The context of a statement: the symbol table of its unit, and the constants given before.
#[derive(Clone, Copy)]
pub struct Scope<'a> {
    /// The allocator of temporary lists.
    pub alloc: Global,
    /// The table of the unit.
    pub symbols: &'a Symbols<'a>,
    /// The constants that PARAMETER gave before.
    pub parameters: &'a Parameters,
}
