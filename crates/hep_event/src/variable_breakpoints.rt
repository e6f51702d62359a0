//! The indexes of the code from which a step may access a variable of one name.
ghost use Rattle.std.specs.Prelude.{◌≡◌, drop, slice_get, IfOk};
ghost use Rattle.hep_event.specs.Variables.{AreVariablesOf};
ghost use Rattle.hep_event.specs.VariableBreakpoints as words;
ghost use Rattle.hep_event.specs.VariableBreakpoints.{AreWatchesOf, CanSeek, IsWatchOf, IsWatchedAhead, IsWatchedBy, IsWatchedVariable};

use crate::variables::Variables;
use hep_code::{Evaluation, Instruction, Operation, Variable};
use hep_dump::Breakpoints;
use hep_image::{Array, Image, Start};
use std::alloc::{AllocError, Global};

/// A search for a name in the code of a unit of an image, with the variables of the units' names.
#[derive(Clone, Copy)]
pub(crate) struct NameSearch<'a> {
    pub image: &'a Image,
    pub variables: &'a Variables,
    pub unit: usize,
    pub name: &'a [u8],
}

// Whether an array is a dummy argument, or doesn't exist.
fn is_passed(arrays: &[Array], array: u32) -> bool
    ensures { result ≡ words.is_passed (slice_get arrays.now array) }
{
    match arrays.get(array as usize) {
        Some(array) => matches!(array.start, Start::Dummy(_)),
        None => true,
    }
}

// Whether a variable of a unit with these arrays is a dummy argument, so that it may be associated with a variable of
// another name.
fn is_dummy(arrays: &[Array], variable: Variable) -> bool
    ensures { result ≡ words.is_dummy arrays.now variable }
{
    match variable {
        Variable::Dummy { .. } => true,
        Variable::Array { array, .. } => is_passed(arrays, array),
        _ => false,
    }
}

// Whether a variable may be one of the sought name: it has that name in the unit, or is a dummy argument.
fn is_watched_variable(seeker: &NameSearch<'_>, variable: Variable) -> bool
    requires { CanSeek seeker.now }
    ensures { IsWatchedVariable seeker.now.image.now seeker.now.unit seeker.now.name.now variable result }
{
    if is_dummy(seeker.image.unit(seeker.unit).arrays.as_slice(), variable) {
        return true;
    }
    let Some(number) = seeker
        .variables
        .number_of(seeker.image, seeker.unit, variable)
    else {
        return true;
    };
    match seeker.image.name(number) {
        Some(name) => seeker.name == name,
        None => true,
    }
}

// Whether an operation may access a variable of the sought name.
fn is_watched_by(seeker: &NameSearch<'_>, operation: Operation) -> bool
    requires { CanSeek seeker.now }
    ensures { IsWatchedBy seeker.now.image.now seeker.now.unit seeker.now.name.now operation result }
{
    match operation {
        Operation::Evaluate(Evaluation::Load { variable, .. }) => {
            is_watched_variable(seeker, variable)
        }
        Operation::Evaluate(Evaluation::Test { variable, .. }) => {
            is_watched_variable(seeker, variable)
        }
        Operation::Store { variable, .. } => is_watched_variable(seeker, variable),
        Operation::EnterLoop { variable, .. } => is_watched_variable(seeker, variable),
        Operation::EndLoop { variable, .. } => is_watched_variable(seeker, variable),
        Operation::Purge { .. } => true,
        _ => false,
    }
}

// Whether the next operation from an index on may. Where there is none, the answer is yes.
fn is_watched_ahead(seeker: &NameSearch<'_>, code: &[Instruction], index: usize) -> bool
    requires { CanSeek seeker.now }
    ensures { IsWatchedAhead seeker.now.image.now seeker.now.unit seeker.now.name.now (drop index code.now) result }
{
    let mut at = index;
    while let Some(instruction) = code.get(at) {
        match instruction {
            Instruction::Push(_) => at += 1,
            Instruction::Step { operation, .. } => return is_watched_by(seeker, *operation),
            _ => return true,
        }
    }
    true
}

// The indexes of a unit's code from which a step may access a variable of the sought name.
fn watch_of(alloc: Global, seeker: &NameSearch<'_>) -> Result<Breakpoints, AllocError>
    requires { CanSeek seeker.now }
    ensures { IfOk result (IsWatchOf seeker.now.image.now seeker.now.unit seeker.now.name.now) }
{
    let code = seeker.image.unit(seeker.unit).code.as_slice();
    let mut watched = Vec::with_capacity(alloc, code.len())?;
    for index in 0..code.len() {
        watched.push(is_watched_ahead(seeker, code, index))?;
    }
    Ok(Breakpoints { watched })
}

/// The indexes of each unit's code from which a step may access a variable of a name, by unit in the order of the
/// source.
///
/// # Errors
///
/// Only where memory was refused.
pub fn watches_of(
    alloc: Global,
    image: &Image,
    variables: &Variables,
    name: &[u8],
) -> Result<Vec<Breakpoints>, AllocError>
    requires { AreVariablesOf image.now variables.now }
    ensures { IfOk result (λ watches. AreWatchesOf image.now name.now watches.items) }
{
    let count = image.program().as_slice().len();
    let mut watches = Vec::with_capacity(alloc, count)?;
    for unit in 0..count {
        let seeker = NameSearch {
            image,
            variables,
            unit,
            name,
        };
        let watch = watch_of(alloc, &seeker)?;
        watches.push(watch)?;
    }
    Ok(watches)
}
