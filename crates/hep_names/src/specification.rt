//! The declarators and blocks of specification statements, and tables of the properties of names that they declare (X3.9-1978,
//! section 8).
ghost use Rattle.std.specs.Prelude.{◌≡◌, ◌++◌, ◌∷◌, [], IfOk, OnOk, nat_eq, ◌<◌, ℕ, None, is_some, false, get_or};
ghost use Rattle.std.specs.List.{list_any};
ghost use Rattle.std.specs.Option.{option_or};
ghost use Rattle.indexmap.specs.IndexMap.{get};
ghost use Rattle.indexmap.specs.IndexSet.{contains};
ghost use Rattle.hep_machine.specs.Declarations as declarations;
ghost use Rattle.hep_machine.specs.Words.{name_eq, is_among, Name as PureName};
ghost use Rattle.hep_names.specs.Statements.{rest_after};
ghost use Rattle.hep_names.specs.Tables.{arrays_among};
ghost use Rattle.hep_names.specs.Tables as tables;

use crate::table::{NameSet, Table, add, note, note_first};
use hep_source::{
    CommonBlock, Declarator, Form, ImplicitGroup, LetterRange, Name, NamedConstant, Occurrence,
    Statement, ValueType,
};
use indexmap::{IndexMap, IndexSet};
use std::alloc::{AllocError, Global};

/// The block that a list of COMMON names; none for blank COMMON (8.3).
pub fn block_of(list: &CommonBlock) -> Option<Name>
    ensures { result ≡ declarations.block_of list.now }
{
    match list.block {
        Some(occurrence) => Some(occurrence.name),
        None => None,
    }
}

/// The lists of a COMMON statement, each with its block; any other statement has none (8.3).
pub fn blocks_in(form: &Form) -> &[CommonBlock]
    ensures { result.now ≡ declarations.blocks_in form.now }
{
    match form {
        Form::Common(lists) => lists.as_slice(),
        _ => &[],
    }
}

/// Adds the names that declarators declare.
///
/// # Errors
///
/// Only where memory was refused.
pub fn add_declared(names: &mut Vec<Name>, declarators: &[Declarator]) -> Result<(), AllocError>
    ensures { OnOk result (names.new.items ≡ names.old.items ++ declarations.names_declared declarators.now) }
{
    for declarator in declarators {
        names.push(declarator.occurrence.name)?;
    }
    Ok(())
}

type Found<'a> = Vec<&'a Declarator>;

#[tactic(auto, using(crate::proofs::Trees::after_push, std::proofs::lemmas::Grind::common_steps))]
fn add_array<'a>(found: &mut Found<'a>, declarator: &'a Declarator) -> Result<(), AllocError>
    ensures { OnOk result (rest_after found.new.items ≡ rest_after found.old.items ++ arrays_among (declarator.now ∷ [])) }
{
    if !declarator.dimensions.as_slice().is_empty() {
        found.push(declarator)?;
    }
    Ok(())
}

fn add_each<'a>(found: &mut Found<'a>, declarators: &'a [Declarator]) -> Result<(), AllocError>
    ensures { OnOk result (rest_after found.new.items ≡ rest_after found.old.items ++ arrays_among declarators.now) }
{
    for declarator in declarators {
        add_array(found, declarator)?;
    }
    Ok(())
}

fn add_entries<'a>(found: &mut Found<'a>, blocks: &'a [CommonBlock]) -> Result<(), AllocError>
    ensures { OnOk result (rest_after found.new.items
        ≡ rest_after found.old.items ++ arrays_among (declarations.entries_of_blocks blocks.now)) }
{
    for block in blocks {
        add_each(found, block.entries.as_slice())?;
    }
    Ok(())
}

/// The declarators of a statement that give dimensions, in the order of its text.
///
/// # Errors
///
/// Only where memory was refused.
pub fn array_declarators(alloc: Global, form: &Form) -> Result<Vec<&Declarator>, AllocError>
    ensures { IfOk result (λ found. rest_after found.items ≡ arrays_among (declarations.declarators_in form.now)) }
{
    let mut found = Vec::new(alloc);
    match form {
        Form::Declare(_, declarators) => add_each(&mut found, declarators.as_slice())?,
        Form::Dimension(declarators) => add_each(&mut found, declarators.as_slice())?,
        Form::Common(blocks) => add_entries(&mut found, blocks.as_slice())?,
        _ => {}
    }
    Ok(found)
}

fn note_types(
    types: &mut IndexMap<Name, ValueType>,
    value_type: ValueType,
    declarators: &[Declarator],
) -> Result<(), AllocError>
    ensures { OnOk result ((x : PureName) → get name_eq types.new x
        ≡ option_or (get name_eq types.old x) (tables.by_declarators value_type declarators.now x)) }
{
    for declarator in declarators {
        note(types, declarator.occurrence.name, value_type)?;
    }
    Ok(())
}

// Records the type that the header of a function gives its name, if there is one.
fn note_type(
    types: &mut IndexMap<Name, ValueType>,
    name: Name,
    value_type: Option<ValueType>,
) -> Result<(), AllocError>
    ensures { OnOk result ((x : PureName) → get name_eq types.new x
        ≡ option_or (get name_eq types.old x) (tables.by_header value_type name x)) }
{
    if let Some(value_type) = value_type {
        note(types, name, value_type)?;
    }
    Ok(())
}

// Records the types that a type statement gives (8.4), or the header of a function with a type (15.5.1).
fn note_types_by(types: &mut IndexMap<Name, ValueType>, form: &Form) -> Result<(), AllocError>
    ensures { OnOk result ((x : PureName) → get name_eq types.new x
        ≡ option_or (get name_eq types.old x) (declarations.type_by_statement x form.now)) }
{
    match form {
        Form::Declare(value_type, declarators) => {
            note_types(types, *value_type, declarators.as_slice())?;
        }
        Form::Function(value_type, occurrence, _) => {
            note_type(types, occurrence.name, *value_type)?;
        }
        _ => {}
    }
    Ok(())
}

// The types that type statements and the headers of functions give (8.4 and 15.5.1).
pub(crate) fn declared_types(
    alloc: Global,
    unit: &[Statement],
) -> Result<Table<ValueType>, AllocError>
    ensures { IfOk result (λ types. (x : PureName) → get name_eq types.map x ≡ declarations.declared_type x unit.now) }
{
    let mut types = Table {
        map: IndexMap::new(alloc),
    };
    for statement in unit {
        note_types_by(&mut types.map, &statement.form)?;
    }
    Ok(types)
}

// Records the block of these names. The result is whether all names are new.
fn note_block(
    blocks: &mut IndexMap<Name, Option<Name>>,
    block: Option<Name>,
    entries: &[Declarator],
) -> Result<bool, AllocError>
    ensures noted { OnOk result ((x : PureName) → get name_eq blocks.new x
        ≡ option_or (get name_eq blocks.old x) (tables.by_declarators block entries.now x)) }
    ensures new { IfOk result (λ are_new. are_new
        ≡ tables.are_new (λ x. is_some (get name_eq blocks.old x)) (declarations.names_declared entries.now)) }
{
    let mut are_new = true;
    for entry in entries {
        let is_new = note_first(blocks, entry.occurrence.name, block)?;
        are_new &= is_new;
    }
    Ok(are_new)
}

// Records the block of these names. The result is whether all names are new.
fn note_blocks(
    blocks: &mut IndexMap<Name, Option<Name>>,
    named: &[CommonBlock],
) -> Result<bool, AllocError>
    ensures noted { OnOk result ((x : PureName) → get name_eq blocks.new x
        ≡ option_or (get name_eq blocks.old x) (declarations.block_holding x named.now)) }
    ensures new { IfOk result (λ are_new. are_new ≡ tables.are_new (λ x. is_some (get name_eq blocks.old x))
        (declarations.names_declared (declarations.entries_of_blocks named.now))) }
{
    let mut are_new = true;
    for block in named {
        let is_new = note_block(blocks, block_of(block), block.entries.as_slice())?;
        are_new &= is_new;
    }
    Ok(are_new)
}

fn entry_count(blocks: &[CommonBlock]) -> usize {
    let mut count: usize = 0;
    for block in blocks {
        count = count.saturating_add(block.entries.as_slice().len());
    }
    count
}

// The number of names in COMMON, by which the table gets its size.
fn common_count(unit: &[Statement]) -> usize {
    let mut count: usize = 0;
    for statement in unit {
        count = count.saturating_add(entry_count(blocks_in(&statement.form)));
    }
    count
}

// The block of each name in COMMON (8.3), none for blank COMMON, and whether each name occurs there once.
pub(crate) struct CommonNames {
    pub(crate) blocks: Table<Option<Name>>,
    pub(crate) are_once: bool,
}

pub(crate) fn common_names(alloc: Global, unit: &[Statement]) -> Result<CommonNames, AllocError>
    ensures blocks { IfOk result (λ names. (x : PureName)
        → get name_eq names.blocks.map x ≡ tables.first_in (tables.block_by_form x) unit.now) }
    ensures once { IfOk result (λ names. names.are_once ≡ tables.are_new (λ x. false) (tables.names_in_common unit.now)) }
{
    let mut blocks = Table {
        map: IndexMap::with_capacity(alloc, common_count(unit))?,
    };
    let mut are_once = true;
    for statement in unit {
        let are_new = note_blocks(&mut blocks.map, blocks_in(&statement.form))?;
        are_once &= are_new;
    }
    Ok(CommonNames { blocks, are_once })
}

fn add_constants(constants: &mut IndexSet<Name>, given: &[NamedConstant]) -> Result<(), AllocError>
    ensures { OnOk result ((x : PureName) → contains name_eq constants.new x
        ≡ tables.either (contains name_eq constants.old x) (is_among x (declarations.names_of_constants given.now))) }
{
    for constant in given {
        add(constants, constant.occurrence.name)?;
    }
    Ok(())
}

// The names of constants (8.6).
pub(crate) fn constant_names(alloc: Global, unit: &[Statement]) -> Result<NameSet, AllocError>
    ensures { IfOk result (λ constants. (x : PureName)
        → contains name_eq constants.set x ≡ tables.any_in (tables.constant_by_form x) unit.now) }
{
    let mut constants = NameSet {
        set: IndexSet::new(alloc),
    };
    for statement in unit {
        if let Form::Parameter(given) = &statement.form {
            add_constants(&mut constants.set, given.as_slice())?;
        }
    }
    Ok(constants)
}

// The index of each dummy argument, and the first one where the name occurs twice (15.6.1).
fn numbered(alloc: Global, dummies: &[Occurrence]) -> Result<Table<usize>, AllocError>
    ensures { IfOk result (λ table. (x : PureName) → get name_eq table.map x ≡ tables.index_from 0 x dummies.now) }
{
    let mut table = Table {
        map: IndexMap::new(alloc),
    };
    for (index, dummy) in dummies.iter().enumerate() {
        note(&mut table.map, dummy.name, index)?;
    }
    Ok(table)
}

// The dummy arguments of a unit: those of its header (15.6.1).
pub(crate) fn dummy_positions(alloc: Global, unit: &[Statement]) -> Result<Table<usize>, AllocError>
    ensures { IfOk result (λ table. (x : PureName) → get name_eq table.map x ≡ tables.index_from 0 x (tables.dummies_in unit.now)) }
{
    match unit.first() {
        Some(
            Statement {
                form: Form::Subroutine(_, dummies) | Form::Function(_, _, dummies),
                ..
            },
        ) => numbered(alloc, dummies.as_slice()),
        _ => Ok(Table {
            map: IndexMap::new(alloc),
        }),
    }
}

// Records a declarator with dimensions.
fn note_array<'a>(
    arrays: &mut IndexMap<Name, &'a Declarator>,
    declarator: &'a Declarator,
) -> Result<(), AllocError>
    ensures { OnOk result ((x : PureName) → tables.seen (get name_eq arrays.new x)
        ≡ option_or (tables.seen (get name_eq arrays.old x)) (tables.by_declarator declarator.now x)) }
{
    if !declarator.dimensions.as_slice().is_empty() {
        note(arrays, declarator.occurrence.name, declarator)?;
    }
    Ok(())
}

fn note_arrays<'a>(
    arrays: &mut IndexMap<Name, &'a Declarator>,
    declarators: &[&'a Declarator],
) -> Result<(), AllocError>
    ensures { OnOk result ((x : PureName) → tables.seen (get name_eq arrays.new x)
        ≡ option_or (tables.seen (get name_eq arrays.old x)) (declarations.declarator_among x (rest_after declarators.now))) }
{
    for declarator in declarators {
        note_array(arrays, declarator)?;
    }
    Ok(())
}

// The declarator that gives each array its dimensions (5.1, 8.1, 8.3 and 8.4).
pub(crate) fn arrays<'a>(
    alloc: Global,
    unit: &'a [Statement],
) -> Result<Table<&'a Declarator>, AllocError>
    ensures { IfOk result (λ arrays. (x : PureName) → tables.seen (get name_eq arrays.map x)
        ≡ tables.first_in (tables.declarator_by_form x) unit.now) }
{
    let mut arrays = Table {
        map: IndexMap::new(alloc),
    };
    for statement in unit {
        let declarators = array_declarators(alloc, &statement.form)?;
        note_arrays(&mut arrays.map, &declarators)?;
    }
    Ok(arrays)
}

// The type that IMPLICIT gives each first letter.
type LetterTypes = [Option<ValueType>; 256];

// Gives a letter a type, unless it has one.
fn note_letter(types: &mut LetterTypes, letter: usize, value_type: ValueType)
    requires { letter < 256 }
    ensures { (c : ℕ) → c < 256 → get_or types.new c None
        ≡ option_or (get_or types.old c None) (tables.given (nat_eq c letter) value_type) }
{
    if types[letter].is_none() {
        types[letter] = Some(value_type);
    }
}

fn note_range(types: &mut LetterTypes, range: &LetterRange, value_type: ValueType)
    ensures { (c : ℕ) → c < 256 → get_or types.new c None
        ≡ option_or (get_or types.old c None) (tables.given (declarations.is_letter_in c range.now) value_type) }
{
    for letter in usize::from(range.first)..usize::from(range.last) + 1 {
        note_letter(types, letter, value_type);
    }
}

fn note_ranges(types: &mut LetterTypes, ranges: &[LetterRange], value_type: ValueType)
    ensures { (c : ℕ) → c < 256 → get_or types.new c None
        ≡ option_or (get_or types.old c None) (tables.given (list_any (declarations.is_letter_in c) ranges.now) value_type) }
{
    for range in ranges {
        note_range(types, range, value_type);
    }
}

fn note_groups(types: &mut LetterTypes, groups: &[ImplicitGroup])
    ensures { (c : ℕ) → c < 256 → get_or types.new c None
        ≡ option_or (get_or types.old c None) (declarations.type_by_groups c groups.now) }
{
    for group in groups {
        note_ranges(types, group.letters.as_slice(), group.value_type);
    }
}

fn implicit_types(unit: &[Statement]) -> LetterTypes
    ensures { (c : ℕ) → c < 256 → get_or result c None ≡ declarations.implicit_type c unit.now }
{
    let mut types = [None; 256];
    for statement in unit {
        if let Form::Implicit(groups) = &statement.form {
            note_groups(&mut types, groups.as_slice());
        }
    }
    types
}

fn has_implicit(unit: &[Statement]) -> bool
    ensures { result ≡ false → (c : ℕ) → declarations.implicit_type c unit.now ≡ None }
{
    for statement in unit {
        if let Form::Implicit(_) = &statement.form {
            return true;
        }
    }
    false
}

// The types that IMPLICIT gives by first letters (8.5). Most units have no IMPLICIT, and so no such table.
pub(crate) fn letter_types(
    alloc: Global,
    unit: &[Statement],
) -> Result<Vec<Option<ValueType>>, AllocError>
    ensures { IfOk result (λ types. (c : ℕ) → c < 256 → get_or types.items c None ≡ declarations.implicit_type c unit.now) }
{
    if !has_implicit(unit) {
        return Ok(Vec::new(alloc));
    }
    Vec::from_slice(alloc, &implicit_types(unit))
}
