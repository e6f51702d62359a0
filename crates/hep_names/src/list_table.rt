//! The meanings of names with lists in a unit: its arrays, and the functions that it references (X3.9-1978, 5.1 and 15.5).
ghost use Rattle.std.specs.Prelude.{◌≡◌, ◌&&◌, IfOk, OnOk};
ghost use Rattle.indexmap.specs.IndexSet.{contains};
ghost use Rattle.hep_source.specs.Units as units;
ghost use Rattle.hep_machine.specs.Declarations as declarations;
ghost use Rattle.hep_machine.specs.Functions as functions;
ghost use Rattle.hep_machine.specs.Words.{is_among, is_referenced, name_eq, names_listed_by, Name as PureName};
ghost use Rattle.hep_names.specs.Meanings.{meaning};
ghost use Rattle.hep_names.specs.Tables as tables;

use crate::arrays::Arrays;
use crate::functions::{Meaning, function_named};
use crate::lists::names_with_lists;
use crate::table::{NameSet, add};
use hep_source::{Dimension, Name, Statement, function_name};
use indexmap::IndexSet;
use std::alloc::{AllocError, Global};
use std::marker::Model;

/// Tables of the arrays of a unit and of the functions that it references. Contracts see the
/// statements of the unit.
pub struct ListTable<'a> {
    arrays: Arrays<'a>,
    referenced: NameSet,
}

impl<'a> Drop for ListTable<'a> {
    fn drop(self) {
        let ListTable { arrays, referenced } = self;
    }
}

impl<'a> Model for ListTable<'a> {
    ghost use Rattle.std.specs.Prelude.{◌≡◌, List};
    ghost use Rattle.std.specs.Coded.{codes};
    ghost use Rattle.indexmap.specs.IndexSet.{contains};
    ghost use Rattle.hep_source.specs.declared.statement.Statement.{Statement as PureStatement};
    ghost use Rattle.hep_source.specs.declared.name.Name.{Name as PureName};
    ghost use Rattle.hep_source.specs.contracts.expression.Expr as expression;
    ghost use Rattle.hep_source.specs.Names.{name_eq};
    ghost use Rattle.hep_machine.specs.Listed.{is_referenced};

    ghost Value = { List PureStatement };

    ghost coded = { Prim.hlevel (codes, expression.the_row.coded) };

    ghost view = { λ a. a.arrays };

    ghost invariant = { λ a. (x : PureName) → contains name_eq a.referenced.set x ≡ is_referenced a.arrays x };
}

fn listed_meaning(arrays: &Arrays, name: &Name) -> Meaning
    ensures { meaning result ≡ functions.listed_meaning arrays.now name.now }
{
    if arrays.is_array(name) {
        Meaning::Element
    } else {
        function_named(name)
    }
}

// Whether the name is that of the function itself, which denotes its result.
fn is_own_name(unit: &[Statement], name: &Name) -> bool
    ensures { result ≡ units.is_named (units.function_name unit.now) name.now }
{
    match function_name(unit) {
        Some(own) => own == *name,
        None => false,
    }
}

// Whether a name with a list references a function of the program, if there is one.
fn may_refer(arrays: &Arrays, name: &Name) -> bool
    ensures { result ≡ tables.may_refer arrays.now name.now }
{
    match listed_meaning(arrays, name) {
        Meaning::External => !is_own_name(arrays.statements(), name),
        _ => false,
    }
}

fn add_referenced(
    alloc: Global,
    arrays: &Arrays,
    names: &mut IndexSet<Name>,
    statement: &Statement,
) -> Result<(), AllocError>
    ensures { OnOk result ((x : PureName) → contains name_eq names.new x
        ≡ tables.either (contains name_eq names.old x) (tables.may_refer arrays.now x && is_among x (names_listed_by statement.now))) }
{
    for name in &names_with_lists(alloc, statement)? {
        if may_refer(arrays, &name.occurrence.name) {
            add(names, name.occurrence.name)?;
        }
    }
    Ok(())
}

fn referenced_names(alloc: Global, arrays: &Arrays) -> Result<NameSet, AllocError>
    ensures { IfOk result (λ names. (x : PureName) → contains name_eq names.set x ≡ is_referenced arrays.now x) }
{
    let mut names = NameSet {
        set: IndexSet::new(alloc),
    };
    for statement in arrays.statements() {
        add_referenced(alloc, arrays, &mut names.set, statement)?;
    }
    Ok(names)
}

impl<'a> ListTable<'a> {
    pub(crate) fn new(
        alloc: Global,
        statements: &'a [Statement],
    ) -> Result<ListTable<'a>, AllocError>
        ensures { IfOk result (λ listed. listed ≡ statements.now) }
    {
        let arrays = Arrays::new(alloc, statements)?;
        let referenced = referenced_names(alloc, &arrays)?;
        Ok(ListTable { arrays, referenced })
    }

    // The statements of the unit.
    pub(crate) fn statements(&self) -> &'a [Statement]
        ensures { result.now ≡ self.now }
    {
        self.arrays.statements()
    }

    // The dimensions of a name, the first one first; a scalar has none.
    pub(crate) fn dimensions(&self, name: &Name) -> &'a [Dimension]
        ensures { result.now ≡ declarations.dimensions_of self.now name.now }
    {
        self.arrays.dimensions(name)
    }

    // Whether the name is that of an array.
    pub(crate) fn is_array(&self, name: &Name) -> bool
        ensures { result ≡ declarations.is_array self.now name.now }
    {
        self.arrays.is_array(name)
    }

    /// The meaning of a name with a list in the unit.
    pub fn listed_meaning(&self, name: &Name) -> Meaning
        ensures { meaning result ≡ functions.listed_meaning self.now name.now }
    {
        listed_meaning(&self.arrays, name)
    }

    // Whether the unit references the name as a function of the program, if there is one.
    pub(crate) fn is_referenced(&self, name: &Name) -> bool
        ensures { result ≡ is_referenced self.now name.now }
    {
        self.referenced.set.contains(name)
    }
}
