//! Warnings of names of variables and constants that the rest of their unit doesn't use.
ghost use Rattle.std.specs.Prelude.{◌≡◌, ◌++◌, Some, IfOk, OnOk};
ghost use Rattle.std.specs.List.{flat_map};
ghost use Rattle.hep_machine.specs.Words.{names_of_occurrences, with_name, with_names};
ghost use Rattle.hep_warnings.specs.Asynchronous as asynchronous;
ghost use Rattle.hep_warnings.specs.UnusedNames as spec;
ghost use Rattle.hep_warnings.specs.SingleOccurrences as once;

use crate::filled_names::{names_filled, names_read};
use crate::needed_names::names_needed;
use crate::occurrences::{FirstOccurrence, FirstOccurrences};
use crate::used_names::UsedNames;
use crate::warning::{Warning, WarningKind};
use hep_names::Symbols;
use hep_names::occurrences::occurrences;
use hep_source::{Name, Occurrence, Statement, Unit};
use indexmap::IndexSet;
use std::alloc::{AllocError, Global};
use std::marker::Model;

// A unit with tables of the uses of its names. Contracts see the statements.
struct UnitNames<'a> {
    symbols: Symbols<'a>,
    standings: FirstOccurrences,
    filled: UsedNames,
    read: UsedNames,
    needed: UsedNames,
}

impl<'a> Drop for UnitNames<'a> {
    fn drop(self) {
        let UnitNames {
            symbols,
            standings,
            filled,
            read,
            needed,
        } = self;
    }
}

impl<'a> Model for UnitNames<'a> {
    ghost use Rattle.std.specs.Prelude.{◌≡◌, List};
    ghost use Rattle.std.specs.Coded.{codes};
    ghost use Rattle.indexmap.specs.IndexMap.{get};
    ghost use Rattle.hep_source.specs.declared.statement.Statement.{Statement as PureStatement};
    ghost use Rattle.hep_source.specs.declared.name.Name.{Name as PureName};
    ghost use Rattle.hep_source.specs.contracts.expression.Expr as expression;
    ghost use Rattle.hep_source.specs.Names.{name_eq};
    ghost use Rattle.hep_warnings.specs.Asynchronous.{names_filled, names_read};
    ghost use Rattle.hep_warnings.specs.SingleOccurrences.{names_needed_in, standing};

    ghost Value = { List PureStatement };

    ghost coded = { Prim.hlevel (codes, expression.the_row.coded) };

    ghost view = { λ a. a.symbols };

    ghost invariant = { λ a. (a.filled ≡ names_filled a.symbols) × (a.read ≡ names_read a.symbols) × (a.needed ≡ names_needed_in a.symbols)
        × ((x : PureName) → get name_eq a.standings.map x ≡ standing a.symbols x) };
}

// The set of names that the statements of a unit may fill.
fn filled_by(alloc: Global, symbols: &Symbols) -> Result<UsedNames, AllocError>
    ensures { IfOk result (λ used. used ≡ asynchronous.names_filled symbols.now) }
{
    let names = names_filled(alloc, symbols)?;
    UsedNames::new(alloc, names)
}

// The set of names that the statements of a unit may read.
fn read_by(alloc: Global, symbols: &Symbols) -> Result<UsedNames, AllocError>
    ensures { IfOk result (λ used. used ≡ asynchronous.names_read symbols.now) }
{
    let names = names_read(alloc, symbols)?;
    UsedNames::new(alloc, names)
}

// The set of variables that the statements of a unit need, even if they occur once.
fn needed_by(alloc: Global, symbols: &Symbols) -> Result<UsedNames, AllocError>
    ensures { IfOk result (λ used. used ≡ once.names_needed_in symbols.now) }
{
    let names = names_needed(alloc, symbols)?;
    UsedNames::new(alloc, names)
}

impl<'a> UnitNames<'a> {
    fn new(alloc: Global, unit: &'a [Statement]) -> Result<UnitNames<'a>, AllocError>
        ensures { IfOk result (λ names. names ≡ unit.now) }
    {
        let symbols = Symbols::new(alloc, unit)?;
        let standings = FirstOccurrences::new(alloc, &symbols)?;
        let filled = filled_by(alloc, &symbols)?;
        let read = read_by(alloc, &symbols)?;
        let needed = needed_by(alloc, &symbols)?;
        Ok(UnitNames {
            symbols,
            standings,
            filled,
            read,
            needed,
        })
    }

    // The symbol table of the unit.
    fn symbols(&self) -> &Symbols<'a>
        ensures { result.now ≡ self.now }
    {
        &self.symbols
    }

    // The standing of a name in the unit: its first line, and whether it occurs once.
    fn standing(&self, name: &Name) -> Option<FirstOccurrence>
        ensures { result ≡ once.standing self.now name.now }
    {
        self.standings.map.get(name).copied()
    }

    // Whether a name is a local asynchronous variable of the unit.
    fn is_own(&self, name: &Name) -> bool
        ensures { result ≡ asynchronous.is_own self.now name.now }
    {
        name.asynchronous
            && self.symbols.dummy_position(name).is_none()
            && !self.symbols.is_common(name)
    }

    fn is_never_filled(&self, name: &Name) -> bool
        ensures { result ≡ asynchronous.is_never_filled self.now name.now }
    {
        self.is_own(name) && !self.filled.has(name)
    }

    fn is_never_read(&self, name: &Name) -> bool
        ensures { result ≡ asynchronous.is_never_read self.now name.now }
    {
        self.is_own(name) && !self.read.has(name)
    }

    // Whether a name with this standing occurs once and isn't needed.
    fn is_lonely(&self, name: &Name, standing: FirstOccurrence) -> bool
        ensures { result ≡ once.is_lonely self.now name.now standing }
    {
        standing.is_once && !self.symbols.is_common(name) && !self.needed.has(name)
    }

    // The kind of warning of a name with this standing, if there is one.
    fn kind(&self, name: &Name, standing: FirstOccurrence) -> Option<WarningKind>
        ensures { result ≡ spec.kind_of self.now name.now standing }
    {
        if self.is_never_filled(name) {
            Some(WarningKind::NeverFilled(*name))
        } else if self.is_never_read(name) {
            Some(WarningKind::NeverRead(*name))
        } else if self.is_lonely(name, standing) {
            Some(WarningKind::Once(*name))
        } else {
            None
        }
    }
}

// Adds the warning of a name with this standing at a line, if there is one.
fn add_at(
    unit: &UnitNames,
    found: &mut Vec<Warning>,
    line: u32,
    name: &Name,
    standing: FirstOccurrence,
) -> Result<(), AllocError>
    ensures { OnOk result (found.new.items
        ≡ found.old.items ++ spec.warning_at unit.now line name.now (Some standing)) }
{
    if standing.line == line {
        if let Some(kind) = unit.kind(name, standing) {
            found.push(Warning { line, kind })?;
        }
    }
    Ok(())
}

// Adds the warning of a name at a line, if there is one.
fn add_name(
    unit: &UnitNames,
    found: &mut Vec<Warning>,
    line: u32,
    name: &Name,
) -> Result<(), AllocError>
    ensures { OnOk result (found.new.items ≡ found.old.items ++ spec.name_warning unit.now line name.now) }
{
    match unit.standing(name) {
        Some(standing) => add_at(unit, found, line, name, standing),
        None => Ok(()),
    }
}

// Adds the warnings of names at a line.
fn add_names(
    unit: &UnitNames,
    found: &mut Vec<Warning>,
    line: u32,
    names: &[Name],
) -> Result<(), AllocError>
    ensures { OnOk result (found.new.items ≡ found.old.items ++ flat_map (spec.name_warning unit.now line) names.now) }
{
    for name in names {
        add_name(unit, found, line, name)?;
    }
    Ok(())
}

// Adds a name to a set.
fn add_distinct(distinct: &mut IndexSet<Name>, name: Name) -> Result<(), AllocError>
    ensures { OnOk result (distinct.new.keys ≡ with_name distinct.old.keys name) }
{
    distinct.insert(name)?;
    Ok(())
}

// Adds the names of occurrences to a set.
fn add_all_distinct(
    distinct: &mut IndexSet<Name>,
    occurrences: &[Occurrence],
) -> Result<(), AllocError>
    ensures { OnOk result (distinct.new.keys ≡ with_names distinct.old.keys (names_of_occurrences occurrences.now)) }
{
    for occurrence in occurrences {
        add_distinct(distinct, occurrence.name)?;
    }
    Ok(())
}

// Adds the warnings of the names in a statement of a unit.
fn add_statement(
    alloc: Global,
    unit: &UnitNames,
    found: &mut Vec<Warning>,
    statement: &Statement,
) -> Result<(), AllocError>
    ensures { OnOk result (found.new.items ≡ found.old.items ++ spec.name_warnings_by unit.now statement.now) }
{
    let standing = occurrences(alloc, unit.symbols(), statement)?;
    let mut distinct = IndexSet::with_capacity(alloc, standing.len())?;
    add_all_distinct(&mut distinct, &standing)?;
    add_names(unit, found, statement.line, distinct.as_slice())
}

// Adds the warnings of the names in statements of a unit.
fn add_statements(
    alloc: Global,
    unit: &UnitNames,
    found: &mut Vec<Warning>,
    statements: &[Statement],
) -> Result<(), AllocError>
    ensures { OnOk result (found.new.items ≡ found.old.items ++ flat_map (spec.name_warnings_by unit.now) statements.now) }
{
    for statement in statements {
        add_statement(alloc, unit, found, statement)?;
    }
    Ok(())
}

// Adds the warnings of the names of a unit.
fn add_unit(
    alloc: Global,
    found: &mut Vec<Warning>,
    statements: &[Statement],
) -> Result<(), AllocError>
    ensures { OnOk result (found.new.items ≡ found.old.items ++ spec.name_warnings_in statements.now) }
{
    let unit = UnitNames::new(alloc, statements)?;
    add_statements(alloc, &unit, found, statements)
}

/// The warnings of names that occur once in a unit, and of local asynchronous variables that a unit never fills or never reads. Each
/// is at the line where the name occurs first, in the order of the statements.
///
/// # Errors
///
/// Only where memory was refused.
pub fn name_warnings(alloc: Global, program: &[Unit]) -> Result<Vec<Warning>, AllocError>
    ensures { IfOk result (λ found. found.items ≡ spec.name_warnings program.now) }
{
    let mut found = Vec::new(alloc);
    for unit in program {
        add_unit(alloc, &mut found, unit.as_slice())?;
    }
    Ok(found)
}
