//! 312: RESUME is only allowed in a subroutine (docs/LANGUAGE.md, 9).
ghost use Rattle.std.specs.Prelude.{◌≡◌};
ghost use Rattle.hep_conditions.specs.Words.{first_of, is_resume, least_line_where, resume_violations};
ghost use Rattle.hep_names.specs.Parts.{line_of};
ghost use Rattle.hep_check.specs.Resume.{is_misplaced};

use crate::statement_conditions::{is_resume, is_uncalled};
use hep_conditions::Violation;
use hep_conditions::reported::{lesser, line_when, reported};
use hep_source::Statement;

// The least line of a RESUME outside a subroutine.
fn least_misplaced(statements: &[Statement]) -> Option<u32>
    ensures { result ≡ least_line_where (is_misplaced statements.now) line_of statements.now }
{
    let is_main = is_uncalled(statements);
    let mut least = None;
    for statement in statements {
        let is_reported = is_resume(&statement.form) && is_main;
        least = lesser(least, line_when(is_reported, statement.line));
    }
    least
}

/// The first violation of 312 in a unit: RESUME outside a subroutine.
pub(crate) fn resume_violation(statements: &[Statement]) -> Option<Violation>
    ensures { result ≡ first_of (resume_violations statements.now) }
{
    reported(312, least_misplaced(statements))
}
