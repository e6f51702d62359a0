//! The violations of a program that are reported after its first one, and the part at fault in each.
ghost use Rattle.std.specs.Prelude.{◌≡◌, map, IfOk};
ghost use Rattle.hep_check.specs.Culprits.{culprit_of};
ghost use Rattle.hep_check.specs.Diagnostics as words;

use crate::all_violations::told;
use crate::culprit::{Culprit, culprit_of};
use crate::name_clashes::NameClashes;
use hep_conditions::Violation;
use hep_names::ProgramSymbols;
use hep_source::Program;
use std::alloc::{AllocError, Global};

/// A reported violation, and the part at fault.
#[derive(Clone, Copy)]
pub struct Diagnostic {
    /// The violation.
    pub violation: Violation,
    /// The part of the statement that violates the condition, if a single part does.
    pub culprit: Option<Culprit>,
}

// Whether two violations are the same.
fn is_same(one: &Violation, other: &Violation) -> bool
    ensures { result ≡ words.is_same one.now other.now }
{
    *one == *other
}

// All violations but the first one, each once.
fn others(
    alloc: Global,
    found: &[Violation],
    first: &Violation,
) -> Result<Vec<Violation>, AllocError>
    ensures { IfOk result (λ left. left.items ≡ words.others first.now first.now found.now) }
{
    let mut last = *first;
    let mut left = Vec::new(alloc);
    for violation in found {
        if !is_same(first, violation) && !is_same(&last, violation) {
            left.push(*violation)?;
            last = *violation;
        }
    }
    Ok(left)
}

// A violation with the part at fault.
fn as_told(
    alloc: Global,
    faults: &NameClashes,
    violation: &Violation,
) -> Result<Diagnostic, AllocError>
    ensures { IfOk result (λ it. it ≡ words.as_told faults.now violation.now) }
{
    Ok(Diagnostic {
        violation: *violation,
        culprit: culprit_of(alloc, faults, violation)?,
    })
}

fn all_told(
    alloc: Global,
    faults: &NameClashes,
    violations: &[Violation],
) -> Result<Vec<Diagnostic>, AllocError>
    ensures { IfOk result (λ all. all.items ≡ map (words.as_told faults.now) violations.now) }
{
    let mut all = Vec::with_capacity(alloc, violations.len())?;
    for violation in violations {
        all.push(as_told(alloc, faults, violation)?)?;
    }
    Ok(all)
}

// The reported violations of a program with this first violation, by the tables of the program.
fn told_of(
    alloc: Global,
    program: &ProgramSymbols,
    first: &Violation,
) -> Result<(Diagnostic, Vec<Diagnostic>), AllocError>
    ensures first { IfOk result (λ all. all.0.violation ≡ first.now) }
    ensures culprit { IfOk result (λ all. all.0.culprit ≡ culprit_of program.now first.now) }
    ensures further { IfOk result (λ all. all.1.items ≡ map (words.as_told program.now) (words.further program.now first.now)) }
{
    let found = told(alloc, program)?;
    let further = others(alloc, &found, first)?;
    let faults = NameClashes::new(alloc, program)?;
    let all = all_told(alloc, &faults, &further)?;
    let first = as_told(alloc, &faults, first)?;
    Ok((first, all))
}

/// The reported violations of a program with this first violation: the first one, and all others, each once and with the part at fault.
/// The others are in the order of the statements, and those of one statement by number.
///
/// 301 is reported once for a name, where it appears first. 302 and 304 aren't reported of a statement with a name without a type: such
/// a name counts as real, and no use of it is right.
///
/// # Errors
///
/// Only where memory was refused.
pub fn told_violations(
    alloc: Global,
    program: &Program,
    first: &Violation,
) -> Result<(Diagnostic, Vec<Diagnostic>), AllocError>
    ensures first { IfOk result (λ all. all.0.violation ≡ first.now) }
    ensures culprit { IfOk result (λ all. all.0.culprit ≡ culprit_of program.now first.now) }
    ensures further { IfOk result (λ all. all.1.items ≡ map (words.as_told program.now) (words.further program.now first.now)) }
{
    let symbols = ProgramSymbols::new(alloc, program.as_slice())?;
    told_of(alloc, &symbols, first)
}
