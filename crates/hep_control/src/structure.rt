//! DOs and block IFs that are wrong or aren't nested: 307 (X3.9-1978, 11.5 to 11.10).
ghost use Rattle.std.specs.Prelude.{◌≡◌, ◌||◌, ◌++◌, ℕ, Bool, map, IfOk, OnOk};
ghost use Rattle.std.specs.List.{list_any};
ghost use Rattle.hep_source.specs.Units as units;
ghost use Rattle.hep_conditions.specs.declared.violation.Violation.{Violation as PureViolation};
ghost use Rattle.hep_conditions.specs.Nesting as nesting;
ghost use Rattle.hep_conditions.specs.Reported as lines;
ghost use Rattle.hep_conditions.specs.Words.{FunctionTypes};
ghost use Rattle.hep_control.specs.Structure as spec;

use crate::blocks::{BlockIf, BlockIfs, block_ifs_of};
use crate::labels::Labels;
use crate::nesting::add_crossing;
use crate::ranges::ranges_of;
use hep_conditions::reported::{add_line, line_when};
use hep_source::{Form, Statement, line_at};
use std::alloc::{AllocError, Global};

/// The lines of all violations of 307, in any order. `loop_variables` says for each statement whether its DO variable, if it
/// has one, is an integer scalar without `$` and no function.
///
/// # Errors
///
/// Only where memory was refused.
pub fn structure_lines(
    alloc: Global,
    labels: &Labels,
    loop_variables: &[bool],
) -> Result<Vec<u32>, AllocError>
    ensures { IfOk result (λ lines. (functions : FunctionTypes) → loop_variables.now ≡ nesting.loop_variables functions labels.now
        → (test : ℕ → Bool) → list_any test lines.items
        ≡ list_any (λ (v : PureViolation). test v.line) (nesting.structure_violations functions labels.now)) }
{
    let unit = labels.unit();
    let ranges = ranges_of(alloc, labels)?;
    let blocks = block_ifs_of(alloc, unit)?;
    let mut lines = Vec::new(alloc);
    add_statements(&mut lines, labels, loop_variables)?;
    add_unmatched(&mut lines, unit, &blocks)?;
    add_crossing(&mut lines, alloc, unit, &ranges, &blocks)?;
    Ok(lines)
}

// Adds the lines of ELSE IFs, ELSEs and END IFs of no block IF, and of block IFs without END IF.
fn add_unmatched(
    lines: &mut Vec<u32>,
    unit: &[Statement],
    blocks: &BlockIfs,
) -> Result<(), AllocError>
    requires { blocks.now ≡ nesting.block_ifs_of unit.now }
    ensures { OnOk result ((test : ℕ → Bool) → list_any test lines.new.items
        ≡ (list_any test lines.old.items || list_any (λ (v : PureViolation). test v.line) (nesting.block_violations unit.now))) }
{
    add_stray(lines, unit, blocks.stray())?;
    add_unclosed(lines, unit, blocks.unclosed())?;
    Ok(())
}

fn add_stray(lines: &mut Vec<u32>, unit: &[Statement], stray: &[usize]) -> Result<(), AllocError>
    ensures { OnOk result (lines.new.items ≡ lines.old.items ++ map (units.line_at unit.now) stray.now) }
{
    for index in stray {
        lines.push(line_at(unit, *index))?;
    }
    Ok(())
}

fn add_unclosed(
    lines: &mut Vec<u32>,
    unit: &[Statement],
    blocks: &[BlockIf],
) -> Result<(), AllocError>
    ensures { OnOk result (lines.new.items ≡ lines.old.items ++ map (spec.start_line unit.now) blocks.now) }
{
    for block in blocks {
        lines.push(line_at(unit, block.start))?;
    }
    Ok(())
}

// Adds the lines of statements that violate 307 on their own.
fn add_statements(
    lines: &mut Vec<u32>,
    labels: &Labels,
    loop_variables: &[bool],
) -> Result<(), AllocError>
    ensures { OnOk result (lines.new.items ≡ lines.old.items
        ++ spec.lines_alone labels.now loop_variables.now (nesting.indexed_statements labels.now)) }
{
    for (index, statement) in labels.unit().iter().enumerate() {
        let is_variable = is_loop_variable(loop_variables, index);
        add_statement(lines, labels, is_variable, index, statement)?;
    }
    Ok(())
}

// Adds the lines of a statement's violations of 307 on its own.
fn add_statement(
    lines: &mut Vec<u32>,
    labels: &Labels,
    is_variable: bool,
    index: usize,
    statement: &Statement,
) -> Result<(), AllocError>
    ensures { OnOk result (lines.new.items ≡ lines.old.items
        ++ spec.statement_lines labels.now is_variable (record { index = index; statement = statement.now })) }
{
    add_line(lines, line_when(holds_wrongly(statement), statement.line))?;
    if statement.conditions.as_slice().is_empty() {
        add_loop(lines, labels, is_variable, index, statement)?;
    }
    Ok(())
}

// The lines for a DO.
fn add_loop(
    lines: &mut Vec<u32>,
    labels: &Labels,
    is_variable: bool,
    index: usize,
    statement: &Statement,
) -> Result<(), AllocError>
    ensures { OnOk result (lines.new.items ≡ lines.old.items
        ++ spec.loop_lines labels.now is_variable statement.now.line index statement.now.form) }
{
    if let Form::Do(control) = &statement.form {
        let terminal = labels.index_labelled(control.terminal);
        add_line(lines, line_when(!is_variable, statement.line))?;
        add_terminal(lines, labels, statement.line, index, terminal)?;
    }
    Ok(())
}

// The lines for the terminal statement of a DO.
fn add_terminal(
    lines: &mut Vec<u32>,
    labels: &Labels,
    line: u32,
    index: usize,
    terminal: Option<usize>,
) -> Result<(), AllocError>
    ensures { OnOk result (lines.new.items ≡ lines.old.items ++ spec.terminal_lines labels.now line index terminal) }
{
    if let Some(terminal) = terminal {
        add_line(lines, line_when(terminal < index, line))?;
        add_line(lines, wrong_terminal_line(labels, terminal))?;
    }
    Ok(())
}

fn is_loop_variable(loop_variables: &[bool], index: usize) -> bool
    ensures { result ≡ spec.variable_at loop_variables.now index }
{
    loop_variables.get(index).copied().unwrap_or(true)
}

// The line of a terminal statement, where its form is not allowed there.
fn wrong_terminal_line(labels: &Labels, terminal: usize) -> Option<u32>
    ensures { result ≡ spec.wrong_terminal_line labels.now terminal }
{
    match labels.unit().get(terminal) {
        Some(statement) => line_when(is_wrong_terminal(statement), statement.line),
        None => Some(0),
    }
}

// Whether a statement may not be a terminal statement: an unconditional GO TO, arithmetic IF, block IF, ELSE IF, ELSE, END IF,
// RETURN, STOP, END or DO.
fn is_wrong_terminal(statement: &Statement) -> bool
    ensures { result ≡ nesting.is_wrong_terminal statement.now }
{
    statement.conditions.as_slice().is_empty()
        && match statement.form {
            Form::GoTo(_)
            | Form::ArithmeticIf(..)
            | Form::IfThen(_)
            | Form::ElseIf(_)
            | Form::Else
            | Form::EndIf
            | Form::Do(_)
            | Form::Return
            | Form::Stop
            | Form::End => true,
            _ => false,
        }
}

// Whether a logical IF contains a statement that it may not: a DO, block IF, ELSE IF, ELSE, END IF, END or logical IF.
fn holds_wrongly(statement: &Statement) -> bool
    ensures { result ≡ nesting.holds_wrongly statement.now.conditions statement.now.form }
{
    match statement.conditions.as_slice() {
        [] => false,
        [_] => match statement.form {
            Form::Do(_)
            | Form::IfThen(_)
            | Form::ElseIf(_)
            | Form::Else
            | Form::EndIf
            | Form::End => true,
            _ => false,
        },
        _ => true,
    }
}
