//! The label or variable at fault in violations of 306 to 308 (X3.9-1978, 3.4, 11.1 to 11.4 and 11.10).
ghost use Rattle.std.specs.Prelude.{◌≡◌, ◌++◌, find, IfOk};
ghost use Rattle.hep_conditions.specs.Words.{function_types, targets_of_jump, terminal_labels};
ghost use Rattle.hep_check.specs.Culprits as words;
ghost use Rattle.hep_control.specs.Labels.{is_absent};

use crate::culprit::Culprit;
use hep_control::Labels;
use hep_names::{ProgramSymbols, Symbols};
use hep_source::{Form, Name, Statement};
use hep_types::variables::is_loop_variable;
use std::alloc::{AllocError, Global};

// The first of these labels that no executable statement has.
fn first_absent(labels: &Labels, wanted: &[u32]) -> Option<u32>
    ensures { result ≡ find (is_absent labels.now) wanted.now }
{
    for label in wanted {
        if labels.index_labelled(*label).is_none() {
            return Some(*label);
        }
    }
    None
}

/// The first label to which a statement refers and which no executable statement has.
pub(crate) fn absent_in_form(labels: &Labels, form: &Form) -> Option<u32>
    ensures { result ≡ find (is_absent labels.now) (targets_of_jump form.now ++ terminal_labels form.now) }
{
    match form {
        Form::GoTo(label) => first_absent(labels, &[*label]),
        Form::ComputedGoTo(wanted, _) => first_absent(labels, wanted.as_slice()),
        Form::ArithmeticIf(_, wanted) => {
            first_absent(labels, &[wanted.negative, wanted.zero, wanted.positive])
        }
        Form::Do(control) => first_absent(labels, &[control.terminal]),
        _ => None,
    }
}

/// The first label to which a statement refers and which no executable statement has, or else the statement's own label, which is repeated.
///
/// # Errors
///
/// Only where memory was refused.
pub(crate) fn absent_label(
    alloc: Global,
    symbols: &Symbols,
    statement: &Statement,
) -> Result<Option<u32>, AllocError>
    ensures { IfOk result (λ label. label ≡ words.absent_label symbols.now statement.now) }
{
    let labels = Labels::new(alloc, symbols.statements())?;
    match absent_in_form(&labels, &statement.form) {
        Some(label) => Ok(Some(label)),
        None => Ok(statement.label),
    }
}

/// The label to which a statement jumps, if there is a single one.
pub(crate) fn target_label(form: &Form) -> Option<u32>
    ensures { result ≡ words.target_label form.now }
{
    match form {
        Form::GoTo(label) => Some(*label),
        _ => None,
    }
}

/// The variable of a DO that may be none, or else the label of its terminal statement; of another statement its own label.
pub(crate) fn structure_culprit(
    program: &ProgramSymbols,
    symbols: &Symbols,
    statement: &Statement,
) -> Option<Culprit>
    ensures { result ≡ words.structure_culprit (function_types program.now) symbols.now statement.now }
{
    match &statement.form {
        Form::Do(control) => {
            if is_loop_variable(program, symbols, &control.variable.name) {
                Some(Culprit::Label(control.terminal))
            } else {
                Some(Culprit::Name(control.variable))
            }
        }
        _ => match statement.label {
            Some(label) => Some(Culprit::Label(label)),
            None => None,
        },
    }
}
