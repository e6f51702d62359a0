//! The first violation in a program.
ghost use Rattle.std.specs.Prelude.{◌≡◌, IfOk};
ghost use Rattle.std.specs.List.{flat_map};
ghost use Rattle.hep_conditions.specs.Conditions as conditions;
ghost use Rattle.hep_conditions.specs.Words.{first_of};

use crate::unit_violations::unit_violation;
use crate::violation_lines::ProgramLines;
use hep_conditions::Violation;
use hep_conditions::reported::first_of_two;
use hep_names::ProgramSymbols;
use std::alloc::{AllocError, Global};

// The first violation of the conditions on units by themselves, checked unit by unit.
fn violation_in_units(
    alloc: Global,
    program: &ProgramSymbols,
) -> Result<Option<Violation>, AllocError>
    ensures { IfOk result (λ violation. violation ≡ first_of (flat_map (conditions.violations_in program.now) program.now)) }
{
    let mut first = None;
    for symbols in program.units() {
        first = first_of_two(first, unit_violation(alloc, program, symbols)?);
    }
    Ok(first)
}

/// The first violation in a program, by line, then by number, then by the position of the name.
///
/// # Errors
///
/// Only where memory was refused.
pub fn first_violation(
    alloc: Global,
    program: &ProgramSymbols,
) -> Result<Option<Violation>, AllocError>
    ensures { IfOk result (λ violation. violation ≡ conditions.first_violation program.now) }
{
    let in_units = violation_in_units(alloc, program)?;
    let lines = ProgramLines::new(alloc, program)?;
    let shared = first_of_two(lines.common.first(305), lines.names.first(309));
    Ok(first_of_two(in_units, shared))
}
