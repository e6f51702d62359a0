//! 301: a variable or named constant has no type (X3.9-1978, 4.1.2, 8.4 and 8.5).
ghost use Rattle.std.specs.Prelude.{◌≡◌, IfOk};
ghost use Rattle.std.specs.List.{flat_map, list_all};
ghost use Rattle.hep_conditions.specs.Names as conditions;
ghost use Rattle.hep_conditions.specs.Words.{first_of, function_types};
ghost use Rattle.hep_names.specs.Parts as passes;

use crate::occurrences::occurrences;
use crate::program::ProgramSymbols;
use crate::references::is_function_in;
use crate::symbols::Symbols;
use hep_conditions::Violation;
use hep_conditions::reported::{first_of_two, violation_by};
use hep_source::{Name, Occurrence, Statement};
use std::alloc::{AllocError, Global};

/// A name of a variable or constant has no type.
pub fn is_untyped(program: &ProgramSymbols, symbols: &Symbols, name: &Name) -> bool
    ensures { result ≡ conditions.is_untyped (function_types program.now) symbols.now name.now }
{
    symbols.type_of(name).is_none() && !is_function_in(Some(program), symbols, name)
}

fn untyped(
    program: &ProgramSymbols,
    symbols: &Symbols,
    line: u32,
    occurrence: &Occurrence,
) -> Option<Violation>
    ensures { result ≡ first_of (passes.untyped (function_types program.now) symbols.now line occurrence.now) }
{
    if is_untyped(program, symbols, &occurrence.name) {
        Some(violation_by(301, line, occurrence))
    } else {
        None
    }
}

fn first_untyped(
    program: &ProgramSymbols,
    symbols: &Symbols,
    line: u32,
    occurrences: &[Occurrence],
) -> Option<Violation>
    ensures { result ≡ first_of (flat_map (passes.untyped (function_types program.now) symbols.now line) occurrences.now) }
{
    let mut first = None;
    for occurrence in occurrences {
        first = first_of_two(first, untyped(program, symbols, line, occurrence));
    }
    first
}

fn untyped_in(
    alloc: Global,
    program: &ProgramSymbols,
    symbols: &Symbols,
    statement: &Statement,
) -> Result<Option<Violation>, AllocError>
    ensures { IfOk result (λ violation. violation ≡ first_of (conditions.untyped_in (function_types program.now) symbols.now statement.now)) }
{
    let occurrences = occurrences(alloc, symbols, statement)?;
    Ok(first_untyped(program, symbols, statement.line, &occurrences))
}

// Whether all names of a unit have types. Then no statement needs to be examined.
fn are_typed(symbols: &Symbols, names: &[Name]) -> bool
    ensures { result ≡ list_all (passes.is_typed symbols.now) names.now }
{
    for name in names {
        if symbols.type_of(name).is_none() {
            return false;
        }
    }
    true
}

/// The first violation of 301 in a unit of a program: a variable or named constant that has no type.
///
/// # Errors
///
/// Only where memory was refused.
pub fn type_missing_violation(
    alloc: Global,
    program: &ProgramSymbols,
    symbols: &Symbols,
) -> Result<Option<Violation>, AllocError>
    ensures { IfOk result (λ violation. violation ≡ first_of (conditions.type_missing_violations (function_types program.now) symbols.now)) }
{
    if are_typed(symbols, symbols.names().as_slice()) {
        return Ok(None);
    }
    let mut first = None;
    for statement in symbols.statements() {
        first = first_of_two(first, untyped_in(alloc, program, symbols, statement)?);
    }
    Ok(first)
}
