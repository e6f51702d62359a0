//! The variables that the statements of a unit may fill or read.
ghost use Rattle.std.specs.Prelude.{◌≡◌, ◌++◌, map, IfOk, OnOk};
ghost use Rattle.std.specs.List.{flat_map};
ghost use Rattle.hep_machine.specs.Words.{names_of_occurrences, occurrences_in, trees_of};
ghost use Rattle.hep_machine.specs.Variables as variables;
ghost use Rattle.hep_names.specs.Lists.{listed};
ghost use Rattle.hep_warnings.specs.Asynchronous as asynchronous;
ghost use Rattle.hep_warnings.specs.SingleOccurrences as once;

use hep_names::occurrences::{add_in_expression, occurrences};
use hep_names::{Meaning, NameWithList, Symbols, names_with_lists};
use hep_source::{Expr, Form, Name, Node, Occurrence, Statement, Target};
use std::alloc::{AllocError, Global};

/// Whether a name with a list is a reference of a function of the program.
pub(crate) fn refers(symbols: &Symbols, reference: &NameWithList) -> bool
    ensures { result ≡ once.refers symbols.now (listed reference.now) }
{
    match symbols.listed_meaning(&reference.occurrence.name) {
        Meaning::External => true,
        _ => false,
    }
}

// Adds the name that an actual argument passes, if it passes a variable.
fn add_passed_by(names: &mut Vec<Name>, actual: &Expr) -> Result<(), AllocError>
    ensures { OnOk result (names.new.items ≡ names.old.items ++ asynchronous.names_passed_by actual.now) }
{
    match &actual.node {
        Node::Occurrence(occurrence) | Node::WithList(occurrence, _) => {
            names.push(occurrence.name)?
        }
        _ => {}
    }
    Ok(())
}

// Adds the names that actual arguments pass.
fn add_passed(names: &mut Vec<Name>, actuals: &[Expr]) -> Result<(), AllocError>
    ensures { OnOk result (names.new.items ≡ names.old.items ++ asynchronous.names_passed (trees_of actuals.now)) }
{
    for actual in actuals {
        add_passed_by(names, actual)?;
    }
    Ok(())
}

// Adds the names that a statement assigns or that its CALL or CREATE passes.
fn add_assigned(names: &mut Vec<Name>, form: &Form) -> Result<(), AllocError>
    ensures { OnOk result (names.new.items ≡ names.old.items ++ asynchronous.names_assigned form.now) }
{
    match form {
        Form::Assign(target, _) => {
            names.push(target.occurrence.name)?;
            Ok(())
        }
        Form::Call(_, actuals) | Form::Create(_, actuals) => add_passed(names, actuals.as_slice()),
        _ => Ok(()),
    }
}

// Adds the names that a name with a list passes.
fn add_given_by(
    symbols: &Symbols,
    names: &mut Vec<Name>,
    reference: &NameWithList,
) -> Result<(), AllocError>
    ensures { OnOk result (names.new.items ≡ names.old.items ++ asynchronous.names_given symbols.now (listed reference.now)) }
{
    if refers(symbols, reference) {
        add_passed(names, reference.arguments)?;
    }
    Ok(())
}

// Adds the names that names with lists pass.
fn add_given(
    symbols: &Symbols,
    names: &mut Vec<Name>,
    references: &[NameWithList],
) -> Result<(), AllocError>
    ensures { OnOk result (names.new.items
        ≡ names.old.items ++ flat_map (asynchronous.names_given symbols.now) (map listed references.now)) }
{
    for reference in references {
        add_given_by(symbols, names, reference)?;
    }
    Ok(())
}

// Adds the names that a statement may fill.
fn add_filled(
    alloc: Global,
    symbols: &Symbols,
    names: &mut Vec<Name>,
    statement: &Statement,
) -> Result<(), AllocError>
    ensures { OnOk result (names.new.items ≡ names.old.items ++ asynchronous.names_filled_by symbols.now statement.now) }
{
    add_assigned(names, &statement.form)?;
    let references = names_with_lists(alloc, statement)?;
    add_given(symbols, names, &references)
}

/// The names that the statements of a unit may fill.
///
/// # Errors
///
/// Only where memory was refused.
pub(crate) fn names_filled(alloc: Global, symbols: &Symbols) -> Result<Vec<Name>, AllocError>
    ensures { IfOk result (λ names. names.items ≡ asynchronous.names_filled symbols.now) }
{
    let mut names = Vec::new(alloc);
    for statement in symbols.statements() {
        add_filled(alloc, symbols, &mut names, statement)?;
    }
    Ok(names)
}

// Adds the occurrences of variables in expressions.
fn add_in_all(
    symbols: &Symbols,
    found: &mut Vec<Occurrence>,
    expressions: &[Expr],
) -> Result<(), AllocError>
    ensures { OnOk result (found.new.items ≡ found.old.items ++ flat_map (occurrences_in symbols.now) expressions.now) }
{
    for expression in expressions {
        add_in_expression(symbols, found, expression)?;
    }
    Ok(())
}

// Adds the occurrences of variables in the subscripts of targets.
fn add_in_targets(
    symbols: &Symbols,
    found: &mut Vec<Occurrence>,
    targets: &[Target],
) -> Result<(), AllocError>
    ensures { OnOk result (found.new.items
        ≡ found.old.items ++ flat_map (asynchronous.reads_in_subscripts symbols.now) targets.now) }
{
    for target in targets {
        add_in_all(symbols, found, target.subscripts.as_slice())?;
    }
    Ok(())
}

// Whether a statement only declares variables.
fn declares(form: &Form) -> bool
    ensures { result ≡ asynchronous.declares form.now }
{
    match form {
        Form::Subroutine(..)
        | Form::Function(..)
        | Form::Declare(..)
        | Form::Dimension(_)
        | Form::Common(_) => true,
        _ => false,
    }
}

// Adds the occurrences of variables in a statement that declares, assigns and purges nothing.
fn add_occurrences(
    alloc: Global,
    symbols: &Symbols,
    found: &mut Vec<Occurrence>,
    statement: &Statement,
) -> Result<(), AllocError>
    ensures { OnOk result (found.new.items ≡ found.old.items ++ variables.occurrences_in_statement symbols.now statement.now) }
{
    let more = occurrences(alloc, symbols, statement)?;
    found.extend_from_slice(&more)?;
    Ok(())
}

// Adds the occurrences of variables that a statement may read.
fn add_reads(
    alloc: Global,
    symbols: &Symbols,
    found: &mut Vec<Occurrence>,
    statement: &Statement,
) -> Result<(), AllocError>
    ensures { OnOk result (found.new.items ≡ found.old.items ++ asynchronous.reads_in symbols.now statement.now) }
{
    match &statement.form {
        Form::Assign(target, value) => {
            add_in_all(symbols, found, statement.conditions.as_slice())?;
            add_in_all(symbols, found, target.subscripts.as_slice())?;
            add_in_expression(symbols, found, value)
        }
        Form::Purge(targets) => {
            add_in_all(symbols, found, statement.conditions.as_slice())?;
            add_in_targets(symbols, found, targets.as_slice())
        }
        form => {
            if declares(form) {
                add_in_all(symbols, found, statement.conditions.as_slice())
            } else {
                add_occurrences(alloc, symbols, found, statement)
            }
        }
    }
}

// The names of occurrences.
fn names_of(alloc: Global, occurrences: &[Occurrence]) -> Result<Vec<Name>, AllocError>
    ensures { IfOk result (λ names. names.items ≡ names_of_occurrences occurrences.now) }
{
    let mut names = Vec::with_capacity(alloc, occurrences.len())?;
    for occurrence in occurrences {
        names.push(occurrence.name)?;
    }
    Ok(names)
}

/// The names of variables that the statements of a unit may read, or whose state they may test.
///
/// # Errors
///
/// Only where memory was refused.
pub(crate) fn names_read(alloc: Global, symbols: &Symbols) -> Result<Vec<Name>, AllocError>
    ensures { IfOk result (λ names. names.items ≡ asynchronous.names_read symbols.now) }
{
    let mut found = Vec::new(alloc);
    for statement in symbols.statements() {
        add_reads(alloc, symbols, &mut found, statement)?;
    }
    names_of(alloc, &found)
}
