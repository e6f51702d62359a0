//! The symbol table of a unit.
ghost use Rattle.std.specs.Prelude.{◌≡◌, false, IfOk};
ghost use Rattle.hep_source.specs.Names as names;
ghost use Rattle.hep_source.specs.Units as units;
ghost use Rattle.hep_machine.specs.Declarations as declarations;
ghost use Rattle.hep_machine.specs.Functions as functions;
ghost use Rattle.hep_machine.specs.Variables as variables;
ghost use Rattle.hep_machine.specs.Words.{is_referenced, value_among, constant_value};
ghost use Rattle.hep_names.specs.Meanings.{meaning};
ghost use Rattle.hep_names.specs.Tables as tables;

use crate::constants::Constants;
use crate::functions::Meaning;
use crate::list_table::ListTable;
use crate::named_constants::constants;
use crate::names::{locals_among, names_of};
use crate::specification::{
    CommonNames, common_names, constant_names, declared_types, dummy_positions, letter_types,
};
use crate::table::{NameSet, Table};
use hep_source::{Dimension, Form, Name, Occurrence, Statement, ValueType};
use indexmap::IndexSet;
use std::alloc::{AllocError, Global};
use std::marker::Model;

/// The symbol table of a unit: the properties of names that its specification statements declare, and the values of its
/// constants (X3.9-1978, section 8). Contracts see the statements of the unit.
pub struct Symbols<'a> {
    statements: &'a [Statement],
    types: Table<ValueType>,
    letters: Vec<Option<ValueType>>,
    listed: ListTable<'a>,
    dummies: Table<usize>,
    blocks: Table<Option<Name>>,
    are_common_once: bool,
    constant_names: NameSet,
    constants: Constants,
    names: NameSet,
    locals: Vec<Name>,
}

impl<'a> Drop for Symbols<'a> {
    fn drop(self) {
        let Symbols {
            statements,
            types,
            letters,
            listed,
            dummies,
            blocks,
            are_common_once,
            constant_names,
            constants,
            names,
            locals,
        } = self;
    }
}

impl<'a> Model for Symbols<'a> {
    ghost use Rattle.std.specs.Prelude.{List};
    ghost use Rattle.std.specs.Coded.{codes};
    ghost use Rattle.indexmap.specs.IndexMap.{get};
    ghost use Rattle.indexmap.specs.IndexSet.{contains};
    ghost use Rattle.hep_source.specs.declared.statement.Statement.{Statement as PureStatement};
    ghost use Rattle.hep_source.specs.contracts.expression.Expr as expression;
    ghost use Rattle.hep_source.specs.Names.{name_eq};
    ghost use Rattle.hep_machine.specs.Constants.{value_among};
    ghost use Rattle.hep_names.specs.Tables.{Describes};

    ghost Value = { List PureStatement };

    ghost coded = { Prim.hlevel (codes, expression.the_row.coded) };

    ghost view = { λ a. a.statements.now };

    ghost invariant = { λ a. Describes a.statements.now (get name_eq a.types.map) a.letters.items a.listed (get name_eq a.dummies.map)
        (get name_eq a.blocks.map) a.are_common_once (contains name_eq a.constant_names.set) (value_among a.constants) a.names.set.keys a.locals.items };
}

impl<'a> Symbols<'a> {
    /// Makes the symbol table of the statements of a unit.
    ///
    /// # Errors
    ///
    /// Only where memory was refused.
    pub fn new(alloc: Global, statements: &'a [Statement]) -> Result<Symbols<'a>, AllocError>
        ensures { IfOk result (λ symbols. symbols ≡ statements.now) }
    {
        let types = declared_types(alloc, statements)?;
        let letters = letter_types(alloc, statements)?;
        let listed = ListTable::new(alloc, statements)?;
        let dummies = dummy_positions(alloc, statements)?;
        let CommonNames { blocks, are_once } = common_names(alloc, statements)?;
        let constant_names = constant_names(alloc, statements)?;
        let constants = constants(alloc, &listed)?;
        let names = names_of(alloc, &listed)?;
        let locals = locals_among(
            alloc,
            &dummies,
            &blocks,
            &constant_names,
            names.set.as_slice(),
        )?;
        Ok(Symbols {
            statements,
            types,
            letters,
            listed,
            dummies,
            blocks,
            are_common_once: are_once,
            constant_names,
            constants,
            names,
            locals,
        })
    }

    /// The statements of the unit.
    pub fn statements(&self) -> &'a [Statement]
        ensures { result.now ≡ self.now }
    {
        self.statements
    }

    /// The meanings of names with lists in the unit.
    pub fn listed(&self) -> &ListTable<'a>
        ensures { result.now ≡ self.now }
    {
        &self.listed
    }

    /// The names of variables and constants of the unit, each once, in the order of their first
    /// occurrences.
    pub fn names(&self) -> &IndexSet<Name>
        ensures { result.now.keys ≡ variables.names_of self.now }
    {
        &self.names.set
    }

    /// The local variables of the unit, in the same order: those that are neither dummy
    /// arguments nor in COMMON (2.5).
    pub fn locals(&self) -> &[Name]
        ensures { result.now ≡ variables.locals_of self.now }
    {
        &self.locals
    }

    /// The type that a type statement gives a name (8.4), or the header of the function its own (15.5.1).
    pub fn declared_type(&self, name: &Name) -> Option<ValueType>
        ensures { result ≡ declarations.declared_type name.now self.now }
    {
        self.types.map.get(name).copied()
    }

    // The type that IMPLICIT gives by a first letter (8.5).
    fn implicit_type(&self, letter: u8) -> Option<ValueType>
        ensures { result ≡ declarations.implicit_type letter self.now }
    {
        match self.letters.get(usize::from(letter)) {
            Some(given) => *given,
            None => None,
        }
    }

    /// The type of a name: by a type statement, else by an IMPLICIT, else by its first letter; none where
    /// it is real (4.1.2, 8.4 and 8.5).
    pub fn type_of(&self, name: &Name) -> Option<ValueType>
        ensures { result ≡ declarations.type_of self.now name.now }
    {
        self.declared_type(name)
            .or(self.implicit_type(name.letters[0]))
            .or(type_by_letter(name))
    }

    /// The dimensions of a name, the first one first; a scalar has none (5.1).
    pub fn dimensions(&self, name: &Name) -> &'a [Dimension]
        ensures { result.now ≡ declarations.dimensions_of self.now name.now }
    {
        self.listed.dimensions(name)
    }

    /// Whether the name is that of an array.
    pub fn is_array(&self, name: &Name) -> bool
        ensures { result ≡ declarations.is_array self.now name.now }
    {
        self.listed.is_array(name)
    }

    /// The meaning of a name with a list in the unit.
    pub fn listed_meaning(&self, name: &Name) -> Meaning
        ensures { meaning result ≡ functions.listed_meaning self.now name.now }
    {
        self.listed.listed_meaning(name)
    }

    /// Whether the unit references the name as a function of the program (15.5). The name has a list, and is
    /// no array, no function of the language, and not the name of the unit itself.
    pub fn is_referenced(&self, name: &Name) -> bool
        ensures { result ≡ is_referenced self.now name.now }
    {
        self.listed.is_referenced(name)
    }

    /// The dummy arguments of the unit, in order (15.6.1); a main program has none.
    pub fn dummies(&self) -> &'a [Occurrence]
        ensures { units.names_of_occurrences result.now ≡ units.dummies_of self.now }
    {
        match self.statements.first() {
            Some(
                Statement {
                    form: Form::Subroutine(_, dummies) | Form::Function(_, _, dummies),
                    ..
                },
            ) => dummies.as_slice(),
            _ => &[],
        }
    }

    /// The index of a dummy argument among those of the unit, counted from 0 (15.6.1); none where the
    /// name isn't one.
    pub fn dummy_position(&self, name: &Name) -> Option<usize>
        ensures { result ≡ names.index_among name.now (units.dummies_of self.now) }
    {
        self.dummies.map.get(name).copied()
    }

    /// The common block of a name (8.3): `Some(None)` for blank COMMON, and none where the name
    /// isn't in COMMON.
    pub fn common_block(&self, name: &Name) -> Option<Option<Name>>
        ensures { result ≡ declarations.common_block self.now name.now }
    {
        self.blocks.map.get(name).copied()
    }

    /// Whether no name occurs twice in COMMON (8.3).
    pub fn are_common_once(&self) -> bool
        ensures { result ≡ tables.are_new (λ x. false) (tables.names_in_common self.now) }
    {
        self.are_common_once
    }

    /// Whether the name is in COMMON (8.3).
    pub fn is_common(&self, name: &Name) -> bool
        ensures { result ≡ declarations.is_common self.now name.now }
    {
        self.common_block(name).is_some()
    }

    /// Whether the name is that of a constant (8.6).
    pub fn is_constant_name(&self, name: &Name) -> bool
        ensures { result ≡ declarations.is_constant_name self.now name.now }
    {
        self.constant_names.set.contains(name)
    }

    /// The constants of the unit, with their values (8.6).
    pub fn constants(&self) -> &Constants
        ensures { value_among result.now ≡ constant_value self.now }
    {
        &self.constants
    }
}

/// The type of a name without a declaration: integer where its first letter is I to N, and else none, for real
/// (4.1.2).
pub fn type_by_letter(name: &Name) -> Option<ValueType>
    ensures { result ≡ declarations.type_by_letter name.now }
{
    if (b'I'..=b'N').contains(&name.letters[0]) {
        Some(ValueType::Integer)
    } else {
        None
    }
}
