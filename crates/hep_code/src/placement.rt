//! The places of a unit's variables and of the cells of its DOs.
ghost use Rattle.std.specs.Prelude.{◌≡◌};
ghost use Rattle.hep_code.specs.Placements as spec;

use crate::variable::Variable;
use hep_source::Name;
use indexmap::IndexMap;

/// The place of each variable of a unit, and for each DO the first of its two cells, by the index of its statement.
pub struct Placement {
    pub variables: IndexMap<Name, Variable>,
    pub loop_cells: Vec<u32>,
}

impl Drop for Placement {
    fn drop(self) {
        let Placement {
            variables,
            loop_cells,
        } = self;
    }
}

impl Placement {
    /// The place of a variable, or `Absent` where none was entered.
    pub fn variable(&self, name: &Name) -> Variable
        ensures { result ≡ spec.variable_in self.now name.now }
    {
        self.variables
            .get(name)
            .copied()
            .unwrap_or(Variable::Absent)
    }

    /// The first of the two cells of the DO at an index, and 0 where none was entered.
    pub fn cells_at(&self, index: usize) -> u32
        ensures { result ≡ spec.cells_in self.now index }
    {
        self.loop_cells.get(index).copied().unwrap_or(0)
    }
}
