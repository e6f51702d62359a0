//! Warnings of unused labels (X3.9-1978, 3.4).
ghost use Rattle.std.specs.Prelude.{◌≡◌, ℕ, ◌++◌, ◌||◌, nat_eq, IfOk, OnOk};
ghost use Rattle.std.specs.List.{flat_map, list_any};
ghost use Rattle.indexmap.specs.IndexSet.{contains};
ghost use Rattle.hep_conditions.specs.Words.{targets_of_jump, terminal_labels};
ghost use Rattle.hep_warnings.specs.UnusedLabels as labels;

use crate::warning::{Warning, WarningKind};
use hep_source::{Form, Statement, Unit};
use indexmap::IndexSet;
use std::alloc::{AllocError, Global};
use std::marker::Model;

/// A unit with the set of the labels that its statements use. Contracts see the unit.
struct UsedLabels<'a> {
    unit: &'a [Statement],
    used: IndexSet<u32>,
}

impl<'a> Drop for UsedLabels<'a> {
    fn drop(self) {
        let UsedLabels { unit, used } = self;
    }
}

impl<'a> Model for UsedLabels<'a> {
    ghost use Rattle.std.specs.Prelude.{◌≡◌, ℕ, nat_eq, List};
    ghost use Rattle.std.specs.Coded.{codes};
    ghost use Rattle.indexmap.specs.IndexSet.{contains};
    ghost use Rattle.hep_source.specs.declared.statement.Statement.{Statement};
    ghost use Rattle.hep_source.specs.contracts.expression.Expr as expression;
    ghost use Rattle.hep_warnings.specs.UnusedLabels.{is_used};

    ghost Value = { List Statement };

    ghost coded = { Prim.hlevel (codes, expression.the_row.coded) };

    ghost view = { λ s. s.unit.now };

    ghost invariant = { λ s. (l : ℕ) → contains nat_eq s.used l ≡ is_used s.unit.now l };
}

// Adds the labels that a statement uses.
fn add_used(labels: &mut Vec<u32>, form: &Form) -> Result<(), AllocError>
    ensures { OnOk result (labels.new.items ≡ labels.old.items ++ (targets_of_jump form.now ++ terminal_labels form.now)) }
{
    match form {
        Form::GoTo(label) => labels.push(*label)?,
        Form::ComputedGoTo(targets, _) => labels.extend_from_slice(targets.as_slice())?,
        Form::ArithmeticIf(_, signs) => {
            labels.push(signs.negative)?;
            labels.push(signs.zero)?;
            labels.push(signs.positive)?;
        }
        Form::Do(control) => labels.push(control.terminal)?,
        _ => {}
    }
    Ok(())
}

// The labels that the statements of a unit use, in order.
fn labels_used(alloc: Global, unit: &[Statement]) -> Result<Vec<u32>, AllocError>
    ensures { IfOk result (λ used. used.items ≡ flat_map labels.labels_used unit.now) }
{
    let mut used = Vec::new(alloc);
    for statement in unit {
        add_used(&mut used, &statement.form)?;
    }
    Ok(used)
}

// Adds a label to a set.
fn add(set: &mut IndexSet<u32>, label: u32) -> Result<(), AllocError>
    ensures { OnOk result ((l : ℕ) → contains nat_eq set.new l ≡ (nat_eq l label || contains nat_eq set.old l)) }
{
    set.insert(label)?;
    Ok(())
}

// The set of these labels.
fn set_of(alloc: Global, used: &[u32]) -> Result<IndexSet<u32>, AllocError>
    ensures { IfOk result (λ set. (l : ℕ) → contains nat_eq set l ≡ list_any (nat_eq l) used.now) }
{
    let mut set = IndexSet::with_capacity(alloc, used.len())?;
    for label in used {
        add(&mut set, *label)?;
    }
    Ok(set)
}

impl<'a> UsedLabels<'a> {
    fn new(alloc: Global, unit: &'a [Statement]) -> Result<UsedLabels<'a>, AllocError>
        ensures { IfOk result (λ used. used ≡ unit.now) }
    {
        let labels = labels_used(alloc, unit)?;
        let used = set_of(alloc, &labels)?;
        Ok(UsedLabels { unit, used })
    }

    // The statements of the unit.
    fn unit(&self) -> &'a [Statement]
        ensures { result.now ≡ self.now }
    {
        self.unit
    }

    // Whether a statement of the unit uses the label.
    fn is_used(&self, label: u32) -> bool
        ensures { result ≡ labels.is_used self.now label }
    {
        self.used.contains(&label)
    }
}

// Adds the warning of the label of a statement, if no statement uses the label.
fn add_statement(
    used: &UsedLabels,
    found: &mut Vec<Warning>,
    statement: &Statement,
) -> Result<(), AllocError>
    ensures { OnOk result (found.new.items ≡ found.old.items ++ labels.unused_at used.now statement.now) }
{
    if let Some(label) = statement.label {
        if !used.is_used(label) {
            found.push(Warning {
                line: statement.line,
                kind: WarningKind::Label(label),
            })?;
        }
    }
    Ok(())
}

// Adds the warnings of the labels of a unit.
fn add_unit(used: &UsedLabels, found: &mut Vec<Warning>) -> Result<(), AllocError>
    ensures { OnOk result (found.new.items ≡ found.old.items ++ labels.unused_in used.now) }
{
    for statement in used.unit() {
        add_statement(used, found, statement)?;
    }
    Ok(())
}

/// The warnings of labels that no statement of their unit uses, each at the line of its statement, in order.
///
/// # Errors
///
/// Only where memory was refused.
pub fn label_warnings(alloc: Global, program: &[Unit]) -> Result<Vec<Warning>, AllocError>
    ensures { IfOk result (λ found. found.items ≡ labels.label_warnings program.now) }
{
    let mut found = Vec::new(alloc);
    for unit in program {
        let used = UsedLabels::new(alloc, unit.as_slice())?;
        add_unit(&used, &mut found)?;
    }
    Ok(found)
}
