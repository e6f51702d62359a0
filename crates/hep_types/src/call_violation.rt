//! 304: the kinds of arguments and of the targets of PURGE (X3.9-1978, 15.6.2.3 and 15.9.3, and docs/LANGUAGE.md, 9).
ghost use Rattle.std.specs.Prelude.{◌≡◌, IfOk};
ghost use Rattle.hep_conditions.specs.Arguments as conditions;
ghost use Rattle.hep_conditions.specs.Reported as reported;
ghost use Rattle.hep_conditions.specs.Words.{first_of, function_types};
ghost use Rattle.hep_names.specs.Parts.{line_of};
ghost use Rattle.hep_types.specs.CallPasses as passes;

use crate::argument_association::{are_calls_fitting, are_references_fitting};
use crate::forms::{are_references_given, are_targets_purgeable};
use hep_conditions::Violation;
use hep_conditions::reported::{lesser, line_when, reported};
use hep_names::{ProgramSymbols, Symbols, names_with_lists};
use hep_source::Statement;
use std::alloc::{AllocError, Global};

fn is_mismatched(
    alloc: Global,
    program: &ProgramSymbols,
    symbols: &Symbols,
    statement: &Statement,
) -> Result<bool, AllocError>
    ensures { IfOk result (λ is_mismatched. is_mismatched ≡ passes.is_mismatched program.now symbols.now statement.now) }
{
    let references = names_with_lists(alloc, statement)?;
    let are_given = are_calls_fitting(program, symbols, &statement.form)
        && are_references_fitting(program, symbols, &references)
        && are_references_given(program, symbols, &references)
        && are_targets_purgeable(symbols, &statement.form);
    Ok(!are_given)
}

fn least_mismatched(
    alloc: Global,
    program: &ProgramSymbols,
    symbols: &Symbols,
) -> Result<Option<u32>, AllocError>
    ensures { IfOk result (λ line. line ≡ reported.least_line_where (passes.is_mismatched program.now symbols.now) line_of symbols.now) }
{
    let mut least = None;
    for statement in symbols.statements() {
        let is_reported = is_mismatched(alloc, program, symbols, statement)?;
        least = lesser(least, line_when(is_reported, statement.line));
    }
    Ok(least)
}

/// The first violation of 304 in a unit of a program: an actual argument can't be associated with the dummy argument, or
/// an argument of a state function or a target of PURGE isn't asynchronous.
///
/// # Errors
///
/// Only where memory was refused.
pub fn argument_violation(
    alloc: Global,
    program: &ProgramSymbols,
    symbols: &Symbols,
) -> Result<Option<Violation>, AllocError>
    ensures { IfOk result (λ violation. violation ≡ first_of (conditions.argument_violations (function_types program.now) program.now symbols.now)) }
{
    Ok(reported(304, least_mismatched(alloc, program, symbols)?))
}
