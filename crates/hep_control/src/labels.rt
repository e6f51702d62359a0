//! The labels of a unit, and the conditions 306 (X3.9-1978, 3.4) and 308, on jumps into DO ranges and IF blocks (11.6.3, 11.7.2,
//! 11.8.2 and 11.10.8).
ghost use Rattle.std.specs.Prelude.{◌≡◌, ℕ, ◌<◌, Bool, nat_eq, false, length, IfOk, IfSome, OnOk, ◌++◌, map, option_to_list};
ghost use Rattle.std.specs.List.{list_any, flat_map};
ghost use Rattle.std.specs.Option.{is_none};
ghost use Rattle.indexmap.specs.IndexMap.{get};
ghost use Rattle.indexmap.specs.IndexSet.{contains};
ghost use Rattle.hep_machine.specs.Control as control;
ghost use Rattle.hep_machine.specs.Words.{role_of, statement_at};
ghost use Rattle.hep_conditions.specs.Words.{label_violations, targets_of_jump, terminal_labels};
ghost use Rattle.hep_conditions.specs.declared.violation.Violation.{Violation as PureViolation};
ghost use Rattle.hep_conditions.specs.Nesting as nesting;
ghost use Rattle.hep_control.specs.Labels as passes;
ghost use Rattle.hep_control.specs.declared.region.Jump.{Jump as PureJump};
ghost use Rattle.hep_control.specs.Jumps as spec;

use crate::region::{Jump, Region};
use crate::regions::regions_of;
use crate::sweep::{Event, add_met, question, value};
use hep_conditions::reported::{add_line, line_when};
use hep_source::{Form, Statement, is_executable};
use indexmap::{IndexMap, IndexSet};
use std::alloc::{AllocError, Global};
use std::marker::Model;

/// A unit with a table of its labels. Contracts see the unit.
pub struct Labels<'a> {
    unit: &'a [Statement],
    indices: IndexMap<u32, usize>,
}

impl<'a> Drop for Labels<'a> {
    fn drop(self) {
        let Labels { unit, indices } = self;
    }
}

impl<'a> Model for Labels<'a> {
    ghost use Rattle.std.specs.Prelude.{◌≡◌, ℕ, nat_eq, List};
    ghost use Rattle.indexmap.specs.IndexMap.{get};
    ghost use Rattle.hep_source.specs.declared.statement.Statement.{Statement};
    ghost use Rattle.hep_machine.specs.Control.{index_labelled};
    ghost use Rattle.std.specs.Coded.{codes};
    ghost use Rattle.hep_source.specs.contracts.expression.Expr as expression;

    ghost Value = { List Statement };

    ghost coded = { Prim.hlevel (codes, expression.the_row.coded) };

    ghost view = { λ s. s.unit.now };

    ghost invariant = { λ s. (l : ℕ) → get nat_eq s.indices l ≡ index_labelled s.unit.now l };
}

impl<'a> Labels<'a> {
    /// Makes the table of the labels of a unit in one pass over its statements.
    ///
    /// # Errors
    ///
    /// Only where memory was refused.
    pub fn new(alloc: Global, unit: &'a [Statement]) -> Result<Labels<'a>, AllocError>
        ensures { IfOk result (λ labels. labels ≡ unit.now) }
    {
        let mut indices = IndexMap::new(alloc);
        for (index, statement) in unit.iter().enumerate() {
            if let Some(label) = executable_label(statement) {
                note(&mut indices, label, index)?;
            }
        }
        Ok(Labels { unit, indices })
    }

    /// The statements of the unit.
    pub fn unit(&self) -> &'a [Statement]
        ensures { result.now ≡ self.now }
    {
        self.unit
    }

    /// The index of the first executable statement with a label.
    pub fn index_labelled(&self, label: u32) -> Option<usize>
        ensures index { result ≡ control.index_labelled self.now label }
        ensures in_unit { IfSome result (λ index. index < length self.now) }
    {
        self.indices.get(&label).copied()
    }

    /// The index of the first executable statement with a label, or the index after the last statement where there is none.
    pub fn index_of_label(&self, label: u32) -> usize
        ensures { result ≡ control.index_of_label self.now label }
    {
        self.index_labelled(label).unwrap_or(self.unit.len())
    }

    fn is_absent(&self, label: u32) -> bool
        ensures { result ≡ passes.is_absent self.now label }
    {
        self.index_labelled(label).is_none()
    }
}

/// The lines of all violations of 306, in any order.
///
/// # Errors
///
/// Only where memory was refused.
pub fn label_lines(alloc: Global, labels: &Labels) -> Result<Vec<u32>, AllocError>
    ensures { IfOk result (λ lines. (test : ℕ → Bool) → list_any test lines.items
        ≡ list_any (λ (v : PureViolation). test v.line) (label_violations labels.now)) }
{
    let mut seen = SeenLabels {
        set: IndexSet::new(alloc),
    };
    let mut lines = Vec::new(alloc);
    for statement in labels.unit() {
        let is_repeated = is_repeated(&mut seen.set, statement.label)?;
        let is_absent = goes_nowhere(labels, &statement.form);
        add_line(&mut lines, line_when(is_repeated, statement.line))?;
        add_line(&mut lines, line_when(is_absent, statement.line))?;
    }
    Ok(lines)
}

// Whether a statement refers to a label which no executable statement has.
fn goes_nowhere(labels: &Labels, form: &Form) -> bool
    ensures { result ≡ list_any (passes.is_absent labels.now) (targets_of_jump form.now ++ terminal_labels form.now) }
{
    match form {
        Form::GoTo(label) => labels.is_absent(*label),
        Form::ComputedGoTo(targets, _) => is_any_absent(labels, targets.as_slice()),
        Form::ArithmeticIf(_, signs) => {
            labels.is_absent(signs.negative)
                || labels.is_absent(signs.zero)
                || labels.is_absent(signs.positive)
        }
        Form::Do(control) => labels.is_absent(control.terminal),
        _ => false,
    }
}

fn is_any_absent(labels: &Labels, targets: &[u32]) -> bool
    ensures { result ≡ list_any (passes.is_absent labels.now) targets.now }
{
    for label in targets {
        if labels.is_absent(*label) {
            return true;
        }
    }
    false
}

// The set of labels seen so far.
struct SeenLabels {
    set: IndexSet<u32>,
}

// This is written out so that the proof of a caller has one call of it at each exit.
impl Drop for SeenLabels {
    fn drop(self) {
        let SeenLabels { set } = self;
    }
}

// Adds a label to those seen. The result is whether it was among them.
fn is_repeated(seen: &mut IndexSet<u32>, label: Option<u32>) -> Result<bool, AllocError>
    ensures repeated { IfOk result (λ it. it ≡ passes.is_seen (contains nat_eq seen.old) label) }
    ensures seen { OnOk result ((l : ℕ) → contains nat_eq seen.new l ≡ passes.with_seen (contains nat_eq seen.old) label l) }
{
    match label {
        Some(label) => Ok(!seen.insert(label)?),
        None => Ok(false),
    }
}

// The label of a statement, if the statement is executable.
fn executable_label(statement: &Statement) -> Option<u32>
    ensures { result ≡ passes.executable_label statement.now }
{
    if is_executable(&statement.form) {
        statement.label
    } else {
        None
    }
}

// Notes where a label is, unless it is noted already.
fn note(indices: &mut IndexMap<u32, usize>, label: u32, index: usize) -> Result<(), AllocError>
    ensures { OnOk result ((l : ℕ) → get nat_eq indices.new l ≡ passes.noted (get nat_eq indices.old l) (nat_eq label l) index) }
{
    indices.entry(label)?.or_insert(index);
    Ok(())
}

/// The lines of all violations of 308, in any order.
///
/// # Errors
///
/// Only where memory was refused.
pub fn jump_lines(alloc: Global, labels: &Labels) -> Result<Vec<u32>, AllocError>
    ensures { IfOk result (λ lines. (test : ℕ → Bool) → list_any test lines.items
        ≡ list_any (λ (v : PureViolation). test v.line) (nesting.jump_violations labels.now)) }
{
    let regions = regions_of(alloc, labels)?;
    let jumps = jumps_of(alloc, labels)?;
    let mut lines = Vec::new(alloc);
    let late = events_by_start(alloc, &regions, &jumps)?;
    add_met(&mut lines, alloc, late)?;
    let early = events_by_end(alloc, &regions, &jumps)?;
    add_met(&mut lines, alloc, early)?;
    add_to_division(&mut lines, labels.unit(), &jumps)?;
    Ok(lines)
}

// Adds the jump of a statement to a label, if an executable statement has the label.
fn add_jump(
    jumps: &mut Vec<Jump>,
    labels: &Labels,
    from: usize,
    line: u32,
    label: u32,
) -> Result<(), AllocError>
    requires { from < length labels.now }
    ensures { OnOk result (map spec.leap jumps.new.items
        ≡ map spec.leap jumps.old.items ++ spec.leap_to from line (control.index_labelled labels.now label)) }
{
    if let Some(to) = labels.index_labelled(label) {
        let count = labels.unit().len();
        prove!(to < count);
        prove!(from < count);
        jumps.push(Jump { from, to, line })?;
    }
    Ok(())
}

fn add_jumps(
    jumps: &mut Vec<Jump>,
    labels: &Labels,
    from: usize,
    line: u32,
    targets: &[u32],
) -> Result<(), AllocError>
    requires { from < length labels.now }
    ensures { OnOk result (map spec.leap jumps.new.items
        ≡ map spec.leap jumps.old.items ++ spec.leaps_by labels.now from line targets.now) }
{
    for label in targets {
        add_jump(jumps, labels, from, line, *label)?;
    }
    Ok(())
}

fn add_jumps_at(
    jumps: &mut Vec<Jump>,
    labels: &Labels,
    index: usize,
    statement: &Statement,
) -> Result<(), AllocError>
    requires { index < length labels.now }
    ensures { OnOk result (map spec.leap jumps.new.items
        ≡ map spec.leap jumps.old.items ++ spec.leaps_at labels.now (record { index = index; statement = statement.now })) }
{
    let line = statement.line;
    match &statement.form {
        Form::GoTo(label) => add_jumps(jumps, labels, index, line, &[*label]),
        Form::ComputedGoTo(targets, _) => {
            add_jumps(jumps, labels, index, line, targets.as_slice())
        }
        Form::ArithmeticIf(_, signs) => {
            let targets = [signs.negative, signs.zero, signs.positive];
            add_jumps(jumps, labels, index, line, &targets)
        }
        _ => Ok(()),
    }
}

// The jumps of a unit.
fn jumps_of(alloc: Global, labels: &Labels) -> Result<Vec<Jump>, AllocError>
    ensures { IfOk result (λ jumps. map spec.leap jumps.items ≡ spec.leaps_of labels.now) }
{
    let mut jumps = Vec::new(alloc);
    for (index, statement) in labels.unit().iter().enumerate() {
        add_jumps_at(&mut jumps, labels, index, statement)?;
    }
    Ok(jumps)
}

// The events for jumps into a region from after its end: for each jump the question is whether some region begins before
// the target, and ends after it and no later than at the jump.
fn events_by_start(
    alloc: Global,
    regions: &[Region],
    jumps: &[Jump],
) -> Result<Vec<Event>, AllocError>
    ensures { IfOk result (λ events. events.items ≡ map spec.value_by_start regions.now ++ map spec.question_by_start jumps.now) }
{
    let mut events = Vec::new(alloc);
    add_starts(&mut events, regions)?;
    for jump in jumps {
        events.push(question(jump.to, jump.to + 1, jump.from + 1, jump.line))?;
    }
    Ok(events)
}

// Adds the regions by their beginnings.
fn add_starts(events: &mut Vec<Event>, regions: &[Region]) -> Result<(), AllocError>
    ensures { OnOk result (events.new.items ≡ events.old.items ++ map spec.value_by_start regions.now) }
{
    for region in regions {
        events.push(value(region.after, region.before))?;
    }
    Ok(())
}

// The events for jumps into a region from before its beginning: for each jump the question is whether some region ends after
// the target, and begins before it and no earlier than at the jump.
fn events_by_end(
    alloc: Global,
    regions: &[Region],
    jumps: &[Jump],
) -> Result<Vec<Event>, AllocError>
    ensures { IfOk result (λ events. events.items ≡ map spec.value_by_end regions.now ++ map spec.question_by_end jumps.now) }
{
    let mut events = Vec::new(alloc);
    add_ends(&mut events, regions)?;
    for jump in jumps {
        events.push(question(usize::MAX - jump.to, jump.from, jump.to, jump.line))?;
    }
    Ok(events)
}

// Adds the regions by their ends, the last one first.
fn add_ends(events: &mut Vec<Event>, regions: &[Region]) -> Result<(), AllocError>
    ensures { OnOk result (events.new.items ≡ events.old.items ++ map spec.value_by_end regions.now) }
{
    for region in regions {
        events.push(value(usize::MAX - region.before, region.after))?;
    }
    Ok(())
}

// Adds the lines of the jumps to an ELSE IF or ELSE.
fn add_to_division(
    lines: &mut Vec<u32>,
    unit: &[Statement],
    jumps: &[Jump],
) -> Result<(), AllocError>
    ensures { OnOk result (lines.new.items ≡ lines.old.items
        ++ flat_map (λ (j : PureJump). option_to_list (spec.line_to_division unit.now j)) jumps.now) }
{
    for jump in jumps {
        add_line(lines, line_when(is_division(unit, jump.to), jump.line))?;
    }
    Ok(())
}

fn is_division(unit: &[Statement], index: usize) -> bool
    ensures { result ≡ nesting.is_division (role_of (statement_at unit.now index)) }
{
    match unit.get(index) {
        Some(statement) => {
            statement.conditions.as_slice().is_empty()
                && matches!(statement.form, Form::ElseIf(_) | Form::Else)
        }
        None => false,
    }
}
