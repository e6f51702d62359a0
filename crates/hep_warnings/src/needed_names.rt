//! Variables that may occur once without being a mistake.
ghost use Rattle.std.specs.Prelude.{◌≡◌, ◌++◌, map, IfOk, OnOk};
ghost use Rattle.std.specs.List.{list_any};
ghost use Rattle.hep_machine.specs.Variables as variables;
ghost use Rattle.hep_conditions.specs.Statements as statements;
ghost use Rattle.hep_names.specs.Lists.{listed};
ghost use Rattle.hep_warnings.specs.SingleOccurrences as once;

use crate::filled_names::refers;
use hep_names::lists::add_in;
use hep_names::occurrences::add_in_expression;
use hep_names::{NameWithList, Symbols};
use hep_source::{Expr, Form, Name, Occurrence};
use std::alloc::{AllocError, Global};

// Whether one of these is an asynchronous variable.
fn has_asynchronous(occurrences: &[Occurrence]) -> bool
    ensures { result ≡ list_any once.is_asynchronous occurrences.now }
{
    for occurrence in occurrences {
        if occurrence.name.asynchronous {
            return true;
        }
    }
    false
}

// Whether one of these is a reference of a function of the program.
fn has_reference(symbols: &Symbols, references: &[NameWithList]) -> bool
    ensures { result ≡ list_any (once.refers symbols.now) (map listed references.now) }
{
    for reference in references {
        if refers(symbols, reference) {
            return true;
        }
    }
    false
}

// Whether an expression names an asynchronous variable.
fn waits(alloc: Global, symbols: &Symbols, expression: &Expr) -> Result<bool, AllocError>
    ensures { IfOk result (λ does. does ≡ list_any once.is_asynchronous (variables.occurrences_in symbols.now expression.now)) }
{
    let mut found = Vec::new(alloc);
    add_in_expression(symbols, &mut found, expression)?;
    Ok(has_asynchronous(&found))
}

// Whether an expression references a function of the program.
fn calls(alloc: Global, symbols: &Symbols, expression: &Expr) -> Result<bool, AllocError>
    ensures { IfOk result (λ does. does ≡ list_any (once.refers symbols.now) (statements.names_with_lists_in expression.now)) }
{
    let mut found = Vec::new(alloc);
    add_in(&mut found, expression)?;
    Ok(has_reference(symbols, &found))
}

// Whether an expression may have a side effect.
fn does_more(alloc: Global, symbols: &Symbols, expression: &Expr) -> Result<bool, AllocError>
    ensures { IfOk result (λ does. does ≡ once.does_more symbols.now expression.now) }
{
    let waits = waits(alloc, symbols, expression)?;
    let calls = calls(alloc, symbols, expression)?;
    Ok(waits || calls)
}

// Adds the variable that a statement needs, if there is one.
fn add_needed(
    alloc: Global,
    symbols: &Symbols,
    names: &mut Vec<Name>,
    form: &Form,
) -> Result<(), AllocError>
    ensures { OnOk result (names.new.items ≡ names.old.items ++ once.names_needed symbols.now form.now) }
{
    match form {
        Form::Do(control) => names.push(control.variable.name)?,
        Form::Assign(target, value) => {
            if does_more(alloc, symbols, value)? {
                names.push(target.occurrence.name)?;
            }
        }
        _ => {}
    }
    Ok(())
}

/// The variables of a unit that are DO variables, or that get the value of an expression with a side effect.
///
/// # Errors
///
/// Only where memory was refused.
pub(crate) fn names_needed(alloc: Global, symbols: &Symbols) -> Result<Vec<Name>, AllocError>
    ensures { IfOk result (λ names. names.items ≡ once.names_needed_in symbols.now) }
{
    let mut names = Vec::new(alloc);
    for statement in symbols.statements() {
        add_needed(alloc, symbols, &mut names, &statement.form)?;
    }
    Ok(names)
}
