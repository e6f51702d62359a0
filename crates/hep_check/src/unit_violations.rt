//! The first violation in a unit.
ghost use Rattle.std.specs.Prelude.{◌≡◌, map, IfOk};
ghost use Rattle.hep_conditions.specs.Words.{violations_in, first_of};
ghost use Rattle.hep_check.specs.FirstFound.{first_found};
ghost use Rattle.hep_check.specs.Diagnostics.{conditions_on};

use crate::resume::resume_violation;
use crate::violation_lines::UnitLines;
use hep_conditions::Violation;
use hep_conditions::reported::first_of_two;
use hep_names::{
    ProgramSymbols, Symbols, count_violation, type_missing_violation, unknown_name_violation,
};
use hep_types::{argument_violation, type_violation};
use std::alloc::{AllocError, Global};

// The first of the violations of several conditions.
pub(crate) fn first_found(found: &[Option<Violation>]) -> Option<Violation>
    ensures { result ≡ first_found found.now }
{
    let mut first = None;
    for violation in found {
        first = first_of_two(first, *violation);
    }
    first
}

/// The first violation of each condition that concerns a unit by itself.
///
/// # Errors
///
/// Only where memory was refused.
pub(crate) fn violations_found(
    alloc: Global,
    program: &ProgramSymbols,
    symbols: &Symbols,
) -> Result<[Option<Violation>; 10], AllocError>
    ensures { IfOk result (λ found. found ≡ map first_of (conditions_on program.now symbols.now)) }
{
    let lines = UnitLines::new(alloc, program, symbols)?;
    Ok([
        type_missing_violation(alloc, program, symbols)?,
        type_violation(alloc, program, symbols)?,
        count_violation(alloc, program, symbols)?,
        argument_violation(alloc, program, symbols)?,
        lines.labels.first(306),
        lines.structure.first(307),
        lines.jumps.first(308),
        unknown_name_violation(alloc, program, symbols)?,
        lines.values.first(311),
        resume_violation(symbols.statements()),
    ])
}

/// The first violation of the conditions on a unit of a program.
///
/// # Errors
///
/// Only where memory was refused.
pub(crate) fn unit_violation(
    alloc: Global,
    program: &ProgramSymbols,
    symbols: &Symbols,
) -> Result<Option<Violation>, AllocError>
    ensures { IfOk result (λ violation. violation ≡ first_of (violations_in program.now symbols.now)) }
{
    let found = violations_found(alloc, program, symbols)?;
    Ok(first_found(&found))
}
