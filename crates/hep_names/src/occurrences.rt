//! The occurrences of variables and constants in a statement, in the order of its text.
ghost use Rattle.std.specs.Prelude.{◌≡◌, ◌++◌, map, IfOk, OnOk};
ghost use Rattle.std.specs.List.{flat_map};
ghost use Rattle.hep_machine.specs.Words.{trees_of};
ghost use Rattle.hep_machine.specs.Variables as variables;
ghost use Rattle.hep_conditions.specs.Statements as statements;
ghost use Rattle.hep_names.specs.Parts as rows;

use crate::list_table::ListTable;
use crate::parts::{Part, add_all, parts_of, parts_of_targets};
use crate::symbols::Symbols;
use hep_source::{DataGroup, Expr, Node, Occurrence, Statement};
use std::alloc::{AllocError, Global};

type Found = Vec<Occurrence>;

// Adds the name of a name with a list, where it is an array of the unit.
fn add_array(
    listed: &ListTable,
    found: &mut Found,
    occurrence: Occurrence,
) -> Result<(), AllocError>
    ensures { OnOk result (found.new.items ≡ found.old.items ++ variables.array_occurrence listed.now occurrence) }
{
    if listed.is_array(&occurrence.name) {
        found.push(occurrence)?;
    }
    Ok(())
}

// Adds a name in a type statement, unless the unit references it as a function.
fn add_declared(
    listed: &ListTable,
    found: &mut Found,
    occurrence: Occurrence,
) -> Result<(), AllocError>
    ensures { OnOk result (found.new.items ≡ found.old.items ++ rows.occurrences_in_part listed.now (rows.declared occurrence)) }
{
    if !listed.is_referenced(&occurrence.name) {
        found.push(occurrence)?;
    }
    Ok(())
}

#[cycle(add_in)]
fn add_in(listed: &ListTable, found: &mut Found, expression: &Expr) -> Result<(), AllocError>
    ensures { OnOk result (found.new.items ≡ found.old.items ++ variables.occurrences_in listed.now expression.now) }
{
    match &expression.node {
        Node::Constant(_) => Ok(()),
        Node::Occurrence(occurrence) => {
            found.push(*occurrence)?;
            Ok(())
        }
        Node::WithList(occurrence, arguments) => {
            add_array(listed, found, *occurrence)?;
            add_in_list(listed, found, arguments)
        }
        Node::Parenthesized(inner) => add_in(listed, found, inner),
        Node::Signed(_, term) => add_in(listed, found, term),
        Node::Negated(operand) => add_in(listed, found, operand),
        Node::Binary(_, left, right) => {
            add_in(listed, found, left)?;
            add_in(listed, found, right)
        }
    }
}

#[cycle(add_in)]
fn add_in_list(listed: &ListTable, found: &mut Found, list: &[Expr]) -> Result<(), AllocError>
    ensures { OnOk result (found.new.items ≡ found.old.items ++ variables.occurrences_in_all listed.now (trees_of list.now)) }
{
    match list {
        [] => Ok(()),
        [first, rest @ ..] => {
            add_in(listed, found, first)?;
            add_in_list(listed, found, rest)
        }
    }
}

fn add_in_parts(listed: &ListTable, found: &mut Found, parts: &[Part]) -> Result<(), AllocError>
    ensures { OnOk result (found.new.items ≡ found.old.items ++ flat_map (rows.occurrences_in_part listed.now) (map rows.part parts.now)) }
{
    for part in parts {
        match part {
            Part::Expression(expression) => add_in(listed, found, expression)?,
            Part::Name(occurrence) => found.push(*occurrence)?,
            Part::Element(occurrence) => add_array(listed, found, *occurrence)?,
            Part::Declared(occurrence) => add_declared(listed, found, *occurrence)?,
        }
    }
    Ok(())
}

/// Adds the occurrences of variables and constants in an expression of a unit, in the order of its text.
///
/// # Errors
///
/// Only where memory was refused.
pub fn add_in_expression(
    symbols: &Symbols,
    found: &mut Vec<Occurrence>,
    expression: &Expr,
) -> Result<(), AllocError>
    ensures { OnOk result (found.new.items ≡ found.old.items ++ variables.occurrences_in symbols.now expression.now) }
{
    add_in(symbols.listed(), found, expression)
}

// The occurrences of variables and constants in the statements of a unit, in the order of the text.
#[tactic(auto, using(crate::proofs::PartsGiven::unit_occurrences))]
pub(crate) fn occurrences_of(
    alloc: Global,
    listed: &ListTable,
) -> Result<Vec<Occurrence>, AllocError>
    ensures { IfOk result (λ found. found.items ≡ variables.occurrences_of listed.now) }
{
    let mut parts = Vec::new(alloc);
    add_all(&mut parts, listed.statements())?;
    let mut found = Vec::new(alloc);
    add_in_parts(listed, &mut found, &parts)?;
    Ok(found)
}

/// The occurrences of variables and constants in a statement of a unit, in the order of its text.
///
/// # Errors
///
/// Only where memory was refused.
#[tactic(auto, using(crate::proofs::PartsGiven::parts_occurrences))]
pub fn occurrences(
    alloc: Global,
    symbols: &Symbols,
    statement: &Statement,
) -> Result<Vec<Occurrence>, AllocError>
    ensures { IfOk result (λ found. found.items ≡ variables.occurrences_in_statement symbols.now statement.now) }
{
    let parts = parts_of(alloc, statement)?;
    let mut found = Vec::new(alloc);
    add_in_parts(symbols.listed(), &mut found, &parts)?;
    Ok(found)
}

/// The occurrences of variables and constants in the targets of DATA and their subscripts, in the order of the text.
///
/// # Errors
///
/// Only where memory was refused.
#[tactic(auto, using(crate::proofs::PartsGiven::targets_occurrences))]
pub fn occurrences_in_groups(
    alloc: Global,
    symbols: &Symbols,
    groups: &[DataGroup],
) -> Result<Vec<Occurrence>, AllocError>
    ensures { IfOk result (λ found. found.items
        ≡ flat_map (variables.occurrences_in_target symbols.now) (statements.targets_of_groups groups.now)) }
{
    let parts = parts_of_targets(alloc, groups)?;
    let mut found = Vec::new(alloc);
    add_in_parts(symbols.listed(), &mut found, &parts)?;
    Ok(found)
}
