//! Warnings of DO variables that are passed to processes.
ghost use Rattle.std.specs.Prelude.{◌≡◌, ◌++◌, IfOk, OnOk};
ghost use Rattle.std.specs.List.{filter, flat_map};
ghost use Rattle.hep_warnings.specs.CreatedWithLoopVariable as creates;

use crate::warning::{Warning, WarningKind};
use hep_source::{Expr, Form, Name, Node, Statement, Unit};
use std::alloc::{AllocError, Global};

/// A DO: the label of its terminal statement, and its variable.
#[derive(Clone, Copy)]
pub struct EnclosingLoop {
    pub terminal: u32,
    pub variable: Name,
}

// The source of a warning: the line of a CREATE, and the subroutine.
#[derive(Clone, Copy)]
struct CreateSite {
    line: u32,
    subroutine: Name,
}

// Whether a name is that of the variable of one of these DOs.
fn is_variable(around: &[EnclosingLoop], name: &Name) -> bool
    ensures { result ≡ creates.is_variable around.now name.now }
{
    for one in around {
        if one.variable == *name {
            return true;
        }
    }
    false
}

// Adds the warning of an actual argument, if it is the variable of one of these DOs.
fn add_actual(
    around: &[EnclosingLoop],
    found: &mut Vec<Warning>,
    site: CreateSite,
    actual: &Expr,
) -> Result<(), AllocError>
    ensures { OnOk result (found.new.items
        ≡ found.old.items ++ creates.actual_warnings around.now site.line site.subroutine actual.now) }
{
    if let Node::Occurrence(occurrence) = &actual.node {
        if is_variable(around, &occurrence.name) {
            found.push(Warning {
                line: site.line,
                kind: WarningKind::Create(site.subroutine, occurrence.name),
            })?;
        }
    }
    Ok(())
}

// Adds the warnings of the actual arguments of a CREATE.
fn add_actuals(
    around: &[EnclosingLoop],
    found: &mut Vec<Warning>,
    site: CreateSite,
    actuals: &[Expr],
) -> Result<(), AllocError>
    ensures { OnOk result (found.new.items
        ≡ found.old.items ++ flat_map (creates.actual_warnings around.now site.line site.subroutine) actuals.now) }
{
    for actual in actuals {
        add_actual(around, found, site, actual)?;
    }
    Ok(())
}

// Adds the warnings of a statement within these DOs.
fn add_statement(
    around: &[EnclosingLoop],
    found: &mut Vec<Warning>,
    statement: &Statement,
) -> Result<(), AllocError>
    ensures { OnOk result (found.new.items
        ≡ found.old.items ++ creates.create_warnings_by around.now statement.now.line statement.now.form) }
{
    if let Form::Create(subroutine, actuals) = &statement.form {
        let site = CreateSite {
            line: statement.line,
            subroutine: subroutine.name,
        };
        add_actuals(around, found, site, actuals.as_slice())?;
    }
    Ok(())
}

// Adds the DO that a statement begins, if it is one.
fn add_begun(around: &mut Vec<EnclosingLoop>, form: &Form) -> Result<(), AllocError>
    ensures { OnOk result (around.new.items ≡ around.old.items ++ creates.loops_begun form.now) }
{
    if let Form::Do(control) = form {
        around.push(EnclosingLoop {
            terminal: control.terminal,
            variable: control.variable.name,
        })?;
    }
    Ok(())
}

// Removes the DOs that end at this label.
fn leave_at(around: &mut Vec<EnclosingLoop>, label: u32)
    ensures { around.new.items ≡ filter (creates.goes_on label) around.old.items }
{
    around.retain(|one| one.terminal != label);
}

// Removes the DOs that end at a statement with this label, if it has one.
fn leave(around: &mut Vec<EnclosingLoop>, label: Option<u32>)
    ensures { around.new.items ≡ creates.loops_left label around.old.items }
{
    if let Some(label) = label {
        leave_at(around, label);
    }
}

// Updates the DOs after a statement.
fn pass(around: &mut Vec<EnclosingLoop>, statement: &Statement) -> Result<(), AllocError>
    ensures { OnOk result (around.new.items ≡ creates.loops_behind around.old.items statement.now) }
{
    add_begun(around, &statement.form)?;
    leave(around, statement.label);
    Ok(())
}

// Adds the warnings of a unit.
fn add_unit(alloc: Global, found: &mut Vec<Warning>, unit: &[Statement]) -> Result<(), AllocError>
    ensures { OnOk result (found.new.items ≡ found.old.items ++ creates.create_warnings_in unit.now) }
{
    let mut around = Vec::new(alloc);
    for statement in unit {
        add_statement(&around, found, statement)?;
        pass(&mut around, statement)?;
    }
    Ok(())
}

/// The warnings of DO variables that a CREATE within the range of their DO passes, in order.
///
/// # Errors
///
/// Only where memory was refused.
pub fn create_warnings(alloc: Global, program: &[Unit]) -> Result<Vec<Warning>, AllocError>
    ensures { IfOk result (λ found. found.items ≡ creates.create_warnings program.now) }
{
    let mut found = Vec::new(alloc);
    for unit in program {
        add_unit(alloc, &mut found, unit.as_slice())?;
    }
    Ok(found)
}
