//! Warnings of subroutines and functions that no other unit calls, creates or references.
ghost use Rattle.std.specs.Prelude.{◌≡◌, ◌++◌, map, IfOk, OnOk};
ghost use Rattle.std.specs.List.{filter, flat_map};
ghost use Rattle.hep_machine.specs.Words.{is_referenced};
ghost use Rattle.hep_names.specs.Lists.{listed};
ghost use Rattle.hep_warnings.specs.UnusedUnits as units;
ghost use Rattle.hep_conditions.specs.Words.{names_of_lists};

use crate::used_names::UsedNames;
use crate::warning::{Warning, WarningKind};
use hep_names::lists::{NameWithList, names_with_lists};
use hep_names::program::ProgramSymbols;
use hep_names::symbols::Symbols;
use hep_source::{Form, Name, Statement, Unit};
use std::alloc::{AllocError, Global};

// Whether the unit is the subroutine with this name.
fn is_own(symbols: &Symbols, name: &Name) -> bool
    ensures { result ≡ units.is_own symbols.now name.now }
{
    match symbols.statements().first() {
        Some(
            Statement {
                form: Form::Subroutine(own, _),
                ..
            },
        ) => own.name == *name,
        _ => false,
    }
}

// Adds the subroutine that a statement of a unit calls or creates, unless it is the unit itself.
fn add_called(symbols: &Symbols, used: &mut Vec<Name>, form: &Form) -> Result<(), AllocError>
    ensures { OnOk result (used.new.items ≡ used.old.items ++ units.names_called symbols.now form.now) }
{
    if let Form::Call(subroutine, _) | Form::Create(subroutine, _) = form {
        if !is_own(symbols, &subroutine.name) {
            used.push(subroutine.name)?;
        }
    }
    Ok(())
}

// Adds those of these names by which a unit references functions.
fn add_referenced(
    symbols: &Symbols,
    used: &mut Vec<Name>,
    names: &[NameWithList],
) -> Result<(), AllocError>
    ensures { OnOk result (used.new.items
        ≡ used.old.items ++ filter (is_referenced symbols.now) (names_of_lists (map listed names.now))) }
{
    for name in names {
        if symbols.is_referenced(&name.occurrence.name) {
            used.push(name.occurrence.name)?;
        }
    }
    Ok(())
}

// Adds the units that a statement of a unit calls, creates or references, without the unit itself.
fn add_statement(
    alloc: Global,
    symbols: &Symbols,
    used: &mut Vec<Name>,
    statement: &Statement,
) -> Result<(), AllocError>
    ensures { OnOk result (used.new.items ≡ used.old.items ++ units.names_used_by symbols.now statement.now) }
{
    add_called(symbols, used, &statement.form)?;
    let names = names_with_lists(alloc, statement)?;
    add_referenced(symbols, used, &names)
}

// Adds the units that the statements of a unit call, create or reference, without the unit itself.
fn add_statements(alloc: Global, symbols: &Symbols, used: &mut Vec<Name>) -> Result<(), AllocError>
    ensures { OnOk result (used.new.items ≡ used.old.items ++ units.names_used_in symbols.now) }
{
    for statement in symbols.statements() {
        add_statement(alloc, symbols, used, statement)?;
    }
    Ok(())
}

// The names of all units that a statement of another unit uses.
fn names_used(alloc: Global, program: &ProgramSymbols) -> Result<Vec<Name>, AllocError>
    ensures { IfOk result (λ used. used.items ≡ units.names_used program.now) }
{
    let mut used = Vec::new(alloc);
    for symbols in program.units() {
        add_statements(alloc, symbols, &mut used)?;
    }
    Ok(used)
}

// Adds a warning of a unit, unless its name is used.
fn add_unit(
    used: &UsedNames,
    found: &mut Vec<Warning>,
    unit: &[Statement],
) -> Result<(), AllocError>
    ensures { OnOk result (found.new.items ≡ found.old.items ++ units.unit_warning used.now unit.now) }
{
    if let [first, ..] = unit {
        if let Form::Subroutine(unit_name, _) | Form::Function(_, unit_name, _) = &first.form {
            if !used.has(&unit_name.name) {
                found.push(Warning {
                    line: first.line,
                    kind: WarningKind::Unit(unit_name.name),
                })?;
            }
        }
    }
    Ok(())
}

// Adds the warnings of units.
fn add_units(used: &UsedNames, found: &mut Vec<Warning>, program: &[Unit]) -> Result<(), AllocError>
    ensures { OnOk result (found.new.items ≡ found.old.items ++ flat_map (units.unit_warning used.now) program.now) }
{
    for unit in program {
        add_unit(used, found, unit.as_slice())?;
    }
    Ok(())
}

/// The warnings of subroutines and functions that no statement of another unit calls, creates or references, each at the line of
/// its header, in order.
///
/// # Errors
///
/// Only where memory was refused.
pub fn unit_warnings(alloc: Global, program: &[Unit]) -> Result<Vec<Warning>, AllocError>
    ensures { IfOk result (λ found. found.items ≡ units.unit_warnings program.now) }
{
    let symbols = ProgramSymbols::new(alloc, program)?;
    let names = names_used(alloc, &symbols)?;
    let used = UsedNames::new(alloc, names)?;
    let mut found = Vec::new(alloc);
    add_units(&used, &mut found, program)?;
    Ok(found)
}
