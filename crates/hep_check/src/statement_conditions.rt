//! Tests of a statement for violations of the conditions other than 301, 302 and 310.
ghost use Rattle.std.specs.Prelude.{◌≡◌, ◌&&◌, ◌++◌, OnOk};
ghost use Rattle.std.specs.Option.{is_none};
ghost use Rattle.hep_source.specs.Units.{subroutine_name};
ghost use Rattle.hep_conditions.specs.Violations as violations;
ghost use Rattle.hep_conditions.specs.Words.{is_resume};

use hep_conditions::Violation;
use hep_source::{Form, Statement};
use std::alloc::AllocError;

/// Adds the violation of a condition at a line, where it is violated.
pub(crate) fn add_when(
    found: &mut Vec<Violation>,
    is_violated: bool,
    number: u16,
    line: u32,
) -> Result<(), AllocError>
    ensures { OnOk result (found.new.items
        ≡ found.old.items ++ violations.when is_violated (violations.at_line number line)) }
{
    if is_violated {
        found.push(Violation {
            line,
            number,
            name: None,
            position: 0,
        })?;
    }
    Ok(())
}

/// No unit is called by the name of a main program or of a function.
pub(crate) fn is_uncalled(statements: &[Statement]) -> bool
    ensures { result ≡ is_none (subroutine_name statements.now) }
{
    match statements.first() {
        Some(
            Statement {
                form: Form::Subroutine(_, _),
                ..
            },
        ) => false,
        _ => true,
    }
}

pub(crate) fn is_resume(form: &Form) -> bool
    ensures { result ≡ is_resume form.now }
{
    matches!(form, Form::Resume)
}

/// Whether a statement is a RESUME outside a subroutine.
pub(crate) fn is_misplaced(statements: &[Statement], form: &Form) -> bool
    ensures { result ≡ (is_resume form.now && is_none (subroutine_name statements.now)) }
{
    is_resume(form) && is_uncalled(statements)
}
