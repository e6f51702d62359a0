//! The name at fault in a violation of 304: an argument doesn't fit, or a target may not be purged (X3.9-1978, 15.9.3, and
//! docs/LANGUAGE.md, 8 and 9).
ghost use Rattle.std.specs.Prelude.{◌≡◌, map, IfOk};
ghost use Rattle.hep_conditions.specs.Arguments as conditions;
ghost use Rattle.hep_conditions.specs.Statements as statements;
ghost use Rattle.hep_conditions.specs.Words.{function_types};
ghost use Rattle.hep_names.specs.Lists.{listed};
ghost use Rattle.hep_types.specs.CallPasses as passes;
ghost use Rattle.hep_check.specs.Culprits as words;

use hep_names::{NameWithList, ProgramSymbols, Symbols, names_with_lists};
use hep_source::{Form, Occurrence, Statement, Target};
use hep_types::{are_calls_fitting, is_given, is_purgeable};
use std::alloc::{AllocError, Global};

// The first name with a list whose arguments don't fit.
fn first_misfit(
    program: &ProgramSymbols,
    symbols: &Symbols,
    names: &[NameWithList],
) -> Option<Occurrence>
    ensures { result ≡ words.first_unmet (passes.is_given program.now symbols.now) (map listed names.now) }
{
    for name in names {
        if !is_given(program, symbols, name) {
            return Some(name.occurrence);
        }
    }
    None
}

// The subroutine that a statement calls, where the actual arguments don't fit.
fn misfit_call(program: &ProgramSymbols, symbols: &Symbols, form: &Form) -> Option<Occurrence>
    ensures { result ≡ words.first_call_unmet (conditions.fits_call (function_types program.now) program.now symbols.now)
        (statements.calls_in form.now) }
{
    match form {
        Form::Call(occurrence, _) | Form::Create(occurrence, _) => {
            if are_calls_fitting(program, symbols, form) {
                None
            } else {
                Some(*occurrence)
            }
        }
        _ => None,
    }
}

// The first target that may not be purged.
fn first_unpurgeable(symbols: &Symbols, targets: &[Target]) -> Option<Occurrence>
    ensures { result ≡ words.first_target_unmet (passes.is_purgeable symbols.now) targets.now }
{
    for target in targets {
        if !is_purgeable(symbols, target) {
            return Some(target.occurrence);
        }
    }
    None
}

fn unpurgeable(symbols: &Symbols, form: &Form) -> Option<Occurrence>
    ensures { result ≡ words.first_target_unmet (passes.is_purgeable symbols.now) (statements.targets_purged form.now) }
{
    match form {
        Form::Purge(targets) => first_unpurgeable(symbols, targets.as_slice()),
        _ => None,
    }
}

/// The name at fault in a statement that violates 304: the called subroutine whose arguments don't fit, or else the first such name with
/// a list, or else the first target that may not be purged.
///
/// # Errors
///
/// Only where memory was refused.
pub fn misfit(
    alloc: Global,
    program: &ProgramSymbols,
    symbols: &Symbols,
    statement: &Statement,
) -> Result<Option<Occurrence>, AllocError>
    ensures { IfOk result (λ found. found ≡ words.misfit program.now symbols.now statement.now) }
{
    let names = names_with_lists(alloc, statement)?;
    if let Some(occurrence) = misfit_call(program, symbols, &statement.form) {
        return Ok(Some(occurrence));
    }
    match first_misfit(program, symbols, &names) {
        Some(occurrence) => Ok(Some(occurrence)),
        None => Ok(unpurgeable(symbols, &statement.form)),
    }
}
