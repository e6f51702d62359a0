//! The places of the main program's variables.

use hep_code::Variable;
use hep_image::Array;
use hep_names::Symbols;
use hep_source::Name;
use indexmap::IndexMap;

/// The main program's frame, as lowering has found it.
#[derive(Clone, Copy)]
pub struct MainFrame<'a> {
    pub symbols: &'a Symbols<'a>,
    /// The place of each variable of the main program.
    pub variables: &'a IndexMap<Name, Variable>,
    /// Its arrays, with their first storage units and their bounds, in the order of their first appearance.
    pub arrays: &'a [Array],
    /// The number of cells of COMMON. The frame follows it.
    pub common: u32,
}
