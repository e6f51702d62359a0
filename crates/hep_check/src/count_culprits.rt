//! What has another number of arguments than are wanted (X3.9-1978, 15.6.2.3 and 15.10).
ghost use Rattle.std.specs.Prelude.{◌≡◌, ◌&&◌, map, IfOk};
ghost use Rattle.hep_conditions.specs.Counts as conditions;
ghost use Rattle.hep_conditions.specs.Statements as statements;
ghost use Rattle.hep_names.specs.Lists.{listed};
ghost use Rattle.hep_check.specs.Culprits as words;

use hep_names::counts::{is_call_counted, is_counted, is_reference_counted};
use hep_names::{NameWithList, ProgramSymbols, Symbols, names_with_lists};
use hep_source::{Form, Occurrence, Statement};
use std::alloc::{AllocError, Global};

// A name with a list has as many arguments as it takes.
fn is_list_counted(program: &ProgramSymbols, symbols: &Symbols, name: &NameWithList) -> bool
    ensures { result ≡ words.is_list_counted program.now symbols.now (listed name.now) }
{
    is_counted(symbols.listed(), name) && is_reference_counted(program, symbols, name)
}

// The first name whose list has a wrong number of arguments.
fn first_miscounted(
    program: &ProgramSymbols,
    symbols: &Symbols,
    names: &[NameWithList],
) -> Option<Occurrence>
    ensures { result ≡ words.first_unmet (words.is_list_counted program.now symbols.now) (map listed names.now) }
{
    for name in names {
        if !is_list_counted(program, symbols, name) {
            return Some(name.occurrence);
        }
    }
    None
}

// What a statement calls, where it has another number of arguments.
#[tactic(auto, using(hep_names::proofs::Passes::takes_called))]
fn miscounted_call(program: &ProgramSymbols, form: &Form) -> Option<Occurrence>
    ensures { result ≡ words.first_call_unmet (conditions.is_call_counted program.now) (statements.calls_in form.now) }
{
    match form {
        Form::Call(occurrence, actuals) | Form::Create(occurrence, actuals) => {
            if is_call_counted(program, &occurrence.name, actuals.as_slice()) {
                None
            } else {
                Some(*occurrence)
            }
        }
        _ => None,
    }
}

/// The name at fault in a statement that violates 303: the subroutine that is called with a wrong number of arguments, or else the first
/// such name with a list.
///
/// # Errors
///
/// Only where memory was refused.
pub fn miscounted(
    alloc: Global,
    program: &ProgramSymbols,
    symbols: &Symbols,
    statement: &Statement,
) -> Result<Option<Occurrence>, AllocError>
    ensures { IfOk result (λ found. found ≡ words.miscounted program.now symbols.now statement.now) }
{
    let names = names_with_lists(alloc, statement)?;
    match miscounted_call(program, &statement.form) {
        Some(occurrence) => Ok(Some(occurrence)),
        None => Ok(first_miscounted(program, symbols, &names)),
    }
}
