//! Shapes of arrays that are known (docs/LANGUAGE.md, 10).
ghost use Rattle.std.specs.Prelude.{◌≡◌, IfOk, OnOk};
ghost use Rattle.std.specs.Option.{option_or};
ghost use Rattle.indexmap.specs.IndexMap.{get};
ghost use Rattle.hep_conditions.specs.Constants as conditions;
ghost use Rattle.hep_names.specs.Statements.{rest_after};
ghost use Rattle.hep_machine.specs.Words.{name_eq, Name as PureName};
ghost use Rattle.hep_types.specs.Shapes as tables;
ghost use Rattle.hep_types.specs.KnownShapes.{known};

use crate::bounds::shape_given;
use crate::parameters::Parameters;
use crate::scope::Scope;
use hep_names::named_constants::constants_in;
use hep_names::specification::array_declarators;
use hep_names::{Symbols, note};
use hep_shape::Shape;
use hep_source::{Declarator, Name, Statement};
use indexmap::IndexMap;
use std::alloc::{AllocError, Global};
use std::marker::Model;

/// The shape of a name, as far as it is known.
#[derive(Clone, Copy)]
pub enum KnownShape<'a> {
    Scalar,
    Array(&'a Shape),
    /// The bounds are refused, open or not constant.
    Unknown,
}

/// The known shapes of the names of a unit, by the first bounds of each name. Contracts see the statements of
/// the unit.
pub struct Shapes<'a> {
    statements: &'a [Statement],
    shapes: Table,
}

impl<'a> Drop for Shapes<'a> {
    fn drop(self) {
        let Shapes { statements, shapes } = self;
    }
}

impl<'a> Model for Shapes<'a> {
    ghost use Rattle.std.specs.Prelude.{◌≡◌, List};
    ghost use Rattle.std.specs.Coded.{codes};
    ghost use Rattle.indexmap.specs.IndexMap.{get};
    ghost use Rattle.hep_source.specs.declared.name.Name.{Name as PureName};
    ghost use Rattle.hep_source.specs.declared.statement.Statement.{Statement as PureStatement};
    ghost use Rattle.hep_source.specs.contracts.expression.Expr as expression;
    ghost use Rattle.hep_conditions.specs.Constants.{known_shape};
    ghost use Rattle.hep_source.specs.Names.{name_eq};
    ghost use Rattle.hep_types.specs.Shapes.{shape_by};

    ghost Value = { List PureStatement };

    ghost coded = { Prim.hlevel (codes, expression.the_row.coded) };

    ghost view = { λ a. a.statements.now };

    ghost invariant = { λ a. (x : PureName) → shape_by (get name_eq a.shapes.map x) ≡ known_shape a.statements.now x };
}

type Map = IndexMap<Name, Option<Shape>>;

// A table of shapes.
struct Table {
    map: Map,
}

// This is written out so that the proof of a caller has one call of it at each exit.
impl Drop for Table {
    fn drop(self) {
        let Table { map } = self;
    }
}

// Records the shape that a declarator gives its name, where it is the first declarator with dimensions of that name.
fn note_shape(scope: &Scope, declarator: &Declarator, shapes: &mut Map) -> Result<(), AllocError>
    ensures { OnOk result ((x : PureName) → get name_eq shapes.new x
        ≡ option_or (get name_eq shapes.old x)
        (tables.shape_by_declarator scope.now.symbols.now scope.now.parameters.now declarator.now x)) }
{
    if !declarator.dimensions.as_slice().is_empty() {
        let shape = shape_given(scope, declarator)?;
        note(shapes, declarator.occurrence.name, shape)?;
    }
    Ok(())
}

fn note_shapes(
    scope: &Scope,
    declarators: &[&Declarator],
    shapes: &mut Map,
) -> Result<(), AllocError>
    ensures { OnOk result ((x : PureName) → get name_eq shapes.new x
        ≡ option_or (get name_eq shapes.old x)
        (tables.shape_among scope.now.symbols.now scope.now.parameters.now x (rest_after declarators.now))) }
{
    for declarator in declarators {
        note_shape(scope, declarator, shapes)?;
    }
    Ok(())
}

fn shapes_of(alloc: Global, symbols: &Symbols) -> Result<Table, AllocError>
    ensures { IfOk result (λ shapes. (x : PureName) → tables.shape_by (get name_eq shapes.map x) ≡ conditions.known_shape symbols.now x) }
{
    let mut shapes = Table {
        map: IndexMap::new(alloc),
    };
    let mut parameters = Parameters::new(alloc);
    for statement in symbols.statements() {
        let declarators = array_declarators(alloc, &statement.form)?;
        let scope = Scope {
            alloc,
            symbols: &*symbols,
            parameters: &parameters,
        };
        note_shapes(&scope, &declarators, &mut shapes.map)?;
        parameters.add_all(alloc, symbols, constants_in(&statement.form))?;
    }
    Ok(shapes)
}

impl<'a> Shapes<'a> {
    /// Finds the shapes of the names of a unit.
    ///
    /// # Errors
    ///
    /// Only where memory was refused.
    pub fn new(alloc: Global, symbols: &Symbols<'a>) -> Result<Shapes<'a>, AllocError>
        ensures { IfOk result (λ shapes. shapes ≡ symbols.now) }
    {
        let shapes = shapes_of(alloc, symbols)?;
        Ok(Shapes {
            statements: symbols.statements(),
            shapes,
        })
    }

    /// The shape of a name.
    pub fn known_shape(&self, name: &Name) -> KnownShape
        ensures { known result ≡ conditions.known_shape self.now name.now }
    {
        match self.shapes.map.get(name) {
            Some(Some(shape)) => KnownShape::Array(shape),
            Some(None) => KnownShape::Unknown,
            None => KnownShape::Scalar,
        }
    }
}
