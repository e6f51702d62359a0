//! The arrays of a unit (X3.9-1978, 5.1).
ghost use Rattle.std.specs.Prelude.{◌≡◌, IfOk};
ghost use Rattle.hep_machine.specs.Declarations as declarations;

use crate::specification::arrays;
use crate::table::Table;
use hep_source::{Declarator, Dimension, Name, Statement};
use std::alloc::{AllocError, Global};
use std::marker::Model;

/// A table of the arrays of a unit and their dimensions. Contracts see
/// the statements of the unit.
pub(crate) struct Arrays<'a> {
    statements: &'a [Statement],
    declarators: Table<&'a Declarator>,
}

impl<'a> Drop for Arrays<'a> {
    fn drop(self) {
        let Arrays {
            statements,
            declarators,
        } = self;
    }
}

impl<'a> Model for Arrays<'a> {
    ghost use Rattle.std.specs.Prelude.{◌≡◌, List};
    ghost use Rattle.std.specs.Coded.{codes};
    ghost use Rattle.indexmap.specs.IndexMap.{get};
    ghost use Rattle.hep_source.specs.declared.statement.Statement.{Statement as PureStatement};
    ghost use Rattle.hep_source.specs.declared.name.Name.{Name as PureName};
    ghost use Rattle.hep_source.specs.contracts.expression.Expr as expression;
    ghost use Rattle.hep_machine.specs.Declarations.{declarator_among, declarators_of};
    ghost use Rattle.hep_source.specs.Names.{name_eq};
    ghost use Rattle.hep_names.specs.Tables.{seen};

    ghost Value = { List PureStatement };

    ghost coded = { Prim.hlevel (codes, expression.the_row.coded) };

    ghost view = { λ a. a.statements.now };

    ghost invariant = { λ a. (x : PureName) → seen (get name_eq a.declarators.map x) ≡ declarator_among x (declarators_of a.statements.now) };
}

impl<'a> Arrays<'a> {
    pub(crate) fn new(alloc: Global, statements: &'a [Statement]) -> Result<Arrays<'a>, AllocError>
        ensures { IfOk result (λ arrays. arrays ≡ statements.now) }
    {
        let declarators = arrays(alloc, statements)?;
        Ok(Arrays {
            statements,
            declarators,
        })
    }

    // The statements of the unit.
    pub(crate) fn statements(&self) -> &'a [Statement]
        ensures { result.now ≡ self.now }
    {
        self.statements
    }

    // The dimensions of a name, the first one first; a scalar has none.
    pub(crate) fn dimensions(&self, name: &Name) -> &'a [Dimension]
        ensures { result.now ≡ declarations.dimensions_of self.now name.now }
    {
        match self.declarators.map.get(name) {
            Some(declarator) => declarator.dimensions.as_slice(),
            None => &[],
        }
    }

    // Whether the name is that of an array.
    pub(crate) fn is_array(&self, name: &Name) -> bool
        ensures { result ≡ declarations.is_array self.now name.now }
    {
        !self.dimensions(name).is_empty()
    }
}
