//! Acceptance of programs.
ghost use Rattle.std.specs.Prelude.{◌≡◌, Some, None, map, IfOk, IfErr, OnOk};
ghost use Rattle.hep_machine.specs.Words.{frame_cells};
ghost use Rattle.hep_conditions.specs.Words.{IsAccepted, first_violation};
ghost use Rattle.hep_check.specs.Rejections.{IsRejectedBy, IsViolatedBy, Refuses, Reports};

use crate::diagnostics::{Diagnostic, told_violations};
use crate::frame_sizes::frames;
use crate::program_violations::first_violation;
use hep_base::Refusal as CheckFault;
use hep_conditions::{Checked, Violation};
use hep_names::ProgramSymbols;
use hep_source::Program;
use std::alloc::{AllocError, Global};

/// The refusal that reports a violation: its number, its line, and for 301 and 310 the name.
pub fn fault_of(alloc: Global, violation: Violation) -> CheckFault
    ensures { Reports violation result }
{
    let Violation { number, line, .. } = violation;
    match violation.name {
        None => CheckFault::refused(alloc, number, line),
        Some(name) => match name.spelling(alloc) {
            Ok(name) => CheckFault::Refused { number, line, name },
            Err(_) => CheckFault::NoMemory,
        },
    }
}

// The number of cells of each unit's frame, or else the first violation.
fn judged(alloc: Global, program: &Program) -> Result<Result<Vec<u128>, Violation>, AllocError>
    ensures accepted { IfOk result (λ found. OnOk found (first_violation program.now ≡ None)) }
    ensures counted { IfOk result (λ found. IfOk found (λ frames. frames.items ≡ map frame_cells program.now)) }
    ensures violated { IfOk result (λ found. IfErr found (λ violation. first_violation program.now ≡ Some violation)) }
{
    let symbols = ProgramSymbols::new(alloc, program.as_slice())?;
    match first_violation(alloc, &symbols)? {
        None => Ok(Ok(frames(alloc, &symbols)?)),
        Some(violation) => Ok(Err(violation)),
    }
}

/// The reason why a program isn't accepted, with its first violation.
#[derive(Clone, Copy, Debug, PartialEq, Eq)]
pub enum JudgeFault {
    /// Memory was refused. This says nothing about the program.
    NoMemory,
    /// The first violation.
    Violated(Violation),
}

impl From<AllocError> for JudgeFault {
    ghost use Rattle.std.specs.Prelude.{◌≡◌};
    ghost use Rattle.hep_check.specs.declared.checked.JudgeFault.TheVariants.{NoMemory};

    ghost from_gives = { λ _ fault. fault ≡ NoMemory };

    fn from(_refused: AllocError) -> JudgeFault {
        JudgeFault::NoMemory
    }
}

/// Accepts a program that violates no condition.
///
/// # Errors
///
/// The first violation by line, then by number, then by the position of the name (docs/LANGUAGE.md, 10); or
/// [`JudgeFault::NoMemory`].
pub fn judge(alloc: Global, program: Program) -> Result<Checked, JudgeFault>
    // The checked program is the program.
    ensures same { IfOk result (λ checked. checked ≡ program) }
    // An accepted program violates no condition.
    ensures accepted { OnOk result (IsAccepted program) }
    // The error is the first violation, unless memory was refused.
    ensures violated { IfErr result (IsViolatedBy program) }
{
    match judged(alloc, &program)? {
        Ok(frames) => Ok(Checked::new(program, frames)),
        Err(violation) => Err(JudgeFault::Violated(violation)),
    }
}

/// The reason why a program isn't accepted, with the violations that are reported after its first one.
#[derive(Drop)]
pub enum Rejection {
    /// Memory was refused. This says nothing about the program.
    NoMemory,
    /// The program violates conditions.
    Violated {
        /// The first violation.
        first: Diagnostic,
        /// The violations that are reported after it, in order.
        further: Vec<Diagnostic>,
    },
}

impl From<AllocError> for Rejection {
    ghost use Rattle.std.specs.Prelude.{◌≡◌};
    ghost use Rattle.hep_check.specs.declared.checked.Rejection.TheVariants.{NoMemory};

    ghost from_gives = { λ _ fault. fault ≡ NoMemory };

    fn from(_refused: AllocError) -> Rejection {
        Rejection::NoMemory
    }
}

/// Accepts a program that violates no condition.
///
/// # Errors
///
/// The first violation and those after it, as [`told_violations`] gives them; or [`Rejection::NoMemory`].
pub fn judge_further(alloc: Global, program: Program) -> Result<Checked, Rejection>
    // The checked program is the program.
    ensures same { IfOk result (λ checked. checked ≡ program) }
    // An accepted program violates no condition.
    ensures accepted { OnOk result (IsAccepted program) }
    // The error is the first violation and those after it, unless memory was refused.
    ensures violated { IfErr result (IsRejectedBy program) }
{
    match judged(alloc, &program)? {
        Ok(cells) => Ok(Checked::new(program, cells)),
        Err(first) => {
            let (first, further) = told_violations(alloc, &program, &first)?;
            Err(Rejection::Violated { first, further })
        }
    }
}

/// Accepts a program that violates no condition.
///
/// # Errors
///
/// The first violation by line, then by number, then by the position of the name (docs/LANGUAGE.md, 10):
/// 301 to 312 with its line, and for 301 and 310 the name; or [`CheckFault::NoMemory`].
pub fn check(alloc: Global, program: Program) -> Result<Checked, CheckFault>
    // The checked program is the program.
    ensures same { IfOk result (λ checked. checked ≡ program) }
    // An accepted program violates no condition.
    ensures accepted { OnOk result (IsAccepted program) }
    // The error is the first violation, unless memory was refused.
    ensures refused { IfErr result (Refuses program) }
{
    match judge(alloc, program) {
        Ok(checked) => Ok(checked),
        Err(JudgeFault::NoMemory) => Err(CheckFault::NoMemory),
        Err(JudgeFault::Violated(violation)) => Err(fault_of(alloc, violation)),
    }
}
