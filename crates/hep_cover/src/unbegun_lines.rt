//! How often the statement of each line began so far.
ghost use Rattle.std.specs.Prelude.{◌≡◌, IfOk, if◌then◌else◌, Some};
ghost use Rattle.hep_cover.specs.StatementStarts.{with_line};
ghost use Rattle.hep_cover.specs.Coverage as words;

use crate::line_counts::set_line;
use hep_image::Image;
use hep_source::{Form, Statement};
use std::alloc::{AllocError, Global};

// Whether a process may be at a statement of this form.
fn can_begin(form: &Form) -> bool
    ensures { result ≡ words.can_begin form.now }
{
    match form {
        Form::Program(_)
        | Form::Subroutine(..)
        | Form::Function(..)
        | Form::Implicit(_)
        | Form::Declare(..)
        | Form::Dimension(_)
        | Form::Common(_)
        | Form::Parameter(_)
        | Form::Data(_)
        | Form::Else => false,
        _ => true,
    }
}

fn note_statement(counts: &mut Vec<Option<u64>>, statement: &Statement)
    ensures { counts.new.items ≡ (if words.can_begin statement.now.form then with_line counts.old.items statement.now.line (Some 0) else counts.old.items) }
{
    if can_begin(&statement.form) {
        set_line(counts, statement.line, Some(0));
    }
}

fn note_unit(counts: &mut Vec<Option<u64>>, unit: &[Statement])
    ensures { counts.new.items ≡ words.unbegun_in_unit unit.now counts.old.items }
{
    for statement in unit {
        note_statement(counts, statement);
    }
}

/// The counts of `lines` lines before the first step: 0 where a statement is that can begin, and none elsewhere.
///
/// # Errors
///
/// Only where memory was refused.
pub fn unbegun(alloc: Global, image: &Image, lines: usize) -> Result<Vec<Option<u64>>, AllocError>
    ensures { IfOk result (λ counts. counts.items ≡ words.unbegun image.now lines) }
{
    let mut counts = Vec::from_elem(alloc, None, lines)?;
    for unit in image.program().as_slice() {
        note_unit(&mut counts, unit.as_slice());
    }
    Ok(counts)
}
