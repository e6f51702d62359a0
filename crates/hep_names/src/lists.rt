//! The names with lists in a statement.
ghost use Rattle.std.specs.Prelude.{◌≡◌, ◌++◌, [], false, map, IfOk, OnOk};
ghost use Rattle.std.specs.List.{flat_map};
ghost use Rattle.hep_machine.specs.Words.{trees_of, trees_in_declarator, entries_of_blocks};
ghost use Rattle.hep_conditions.specs.Statements as statements;
ghost use Rattle.hep_names.specs.Lists.{listed};
ghost use Rattle.hep_names.specs.Parts as rows;

use crate::parts::{Part, parts_of};
use hep_source::{CommonBlock, Declarator, Expr, Form, Node, Occurrence, Statement};
use std::alloc::{AllocError, Global};

/// A name with a list in an expression (X3.9-1978, 5.3 and 15.2).
#[derive(Clone, Copy)]
pub struct NameWithList<'a> {
    pub occurrence: Occurrence,
    pub arguments: &'a [Expr],
}

type Found<'a> = Vec<NameWithList<'a>>;

/// Adds the names with lists in an expression, in the order of its text.
///
/// # Errors
///
/// Only where memory was refused.
#[cycle(add_in)]
pub fn add_in<'a>(found: &mut Vec<NameWithList<'a>>, expression: &'a Expr) -> Result<(), AllocError>
    ensures { OnOk result (map listed found.new.items ≡ map listed found.old.items ++ statements.names_with_lists_in expression.now) }
{
    match &expression.node {
        Node::Constant(_) | Node::Occurrence(_) => Ok(()),
        Node::WithList(occurrence, arguments) => {
            found.push(NameWithList {
                occurrence: *occurrence,
                arguments,
            })?;
            add_in_list(found, arguments)
        }
        Node::Parenthesized(inner) => add_in(found, inner),
        Node::Signed(_, term) => add_in(found, term),
        Node::Negated(operand) => add_in(found, operand),
        Node::Binary(_, left, right) => {
            add_in(found, left)?;
            add_in(found, right)
        }
    }
}

#[cycle(add_in)]
fn add_in_list<'a>(found: &mut Found<'a>, list: &'a [Expr]) -> Result<(), AllocError>
    ensures { OnOk result (map listed found.new.items
        ≡ map listed found.old.items ++ statements.names_with_lists_in_all (trees_of list.now)) }
{
    match list {
        [] => Ok(()),
        [first, rest @ ..] => {
            add_in(found, first)?;
            add_in_list(found, rest)
        }
    }
}

// Whether some name has bounds. Where none has, there are no expressions.
fn have_bounds(entries: &[Declarator]) -> bool
    ensures { result ≡ false → flat_map trees_in_declarator entries.now ≡ [] }
{
    for entry in entries {
        if !entry.dimensions.as_slice().is_empty() {
            return true;
        }
    }
    false
}

fn have_bounds_in_blocks(blocks: &[CommonBlock]) -> bool
    ensures { result ≡ false → flat_map trees_in_declarator (entries_of_blocks blocks.now) ≡ [] }
{
    for block in blocks {
        if have_bounds(block.entries.as_slice()) {
            return true;
        }
    }
    false
}

// Whether a statement may have expressions. A COMMON statement with only names has none. Most names of programs with large common
// blocks are in such statements, which are skipped here.
fn may_have_expressions(statement: &Statement) -> bool
    ensures { result ≡ false → statements.names_with_lists statement.now ≡ [] }
{
    match &statement.form {
        Form::Common(blocks) => {
            !statement.conditions.as_slice().is_empty() || have_bounds_in_blocks(blocks.as_slice())
        }
        _ => true,
    }
}

// The names with lists in the expressions among these parts.
fn in_parts<'a>(alloc: Global, parts: &[Part<'a>]) -> Result<Vec<NameWithList<'a>>, AllocError>
    ensures { IfOk result (λ found. map listed found.items
        ≡ flat_map statements.names_with_lists_in (flat_map rows.tree_in (map rows.part parts.now))) }
{
    let mut found = Vec::new(alloc);
    for part in parts {
        if let Part::Expression(expression) = part {
            add_in(&mut found, expression)?;
        }
    }
    Ok(found)
}

/// The names with lists in the expressions of a statement, in the order of its text.
///
/// # Errors
///
/// Only where memory was refused.
#[tactic(auto, using(crate::proofs::PartsGiven::parts_trees))]
pub fn names_with_lists(
    alloc: Global,
    statement: &Statement,
) -> Result<Vec<NameWithList<'_>>, AllocError>
    ensures { IfOk result (λ found. map listed found.items ≡ statements.names_with_lists statement.now) }
{
    if !may_have_expressions(statement) {
        return Ok(Vec::new(alloc));
    }
    let parts = parts_of(alloc, statement)?;
    in_parts(alloc, &parts)
}
