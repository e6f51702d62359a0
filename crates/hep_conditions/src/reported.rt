//! Violations by line and by name, and the first of several (docs/LANGUAGE.md, 10).
ghost use Rattle.std.specs.Prelude.{◌≡◌, ◌++◌, option_to_list, OnOk};
ghost use Rattle.hep_conditions.specs.Reported as reported;
ghost use Rattle.hep_conditions.specs.Violations as violations;

use crate::violation::Violation;
use hep_source::Occurrence;
use std::alloc::AllocError;

/// The violation of the condition with this number by a name in the statement at a line.
pub fn violation_by(number: u16, line: u32, occurrence: &Occurrence) -> Violation
    ensures { result ≡ violations.at_occurrence number line occurrence.now }
{
    Violation {
        line,
        number,
        name: Some(occurrence.name),
        position: occurrence.position,
    }
}

/// The violation of the condition with this number by the statement at a line, if there is a line.
pub fn reported(number: u16, line: Option<u32>) -> Option<Violation>
    ensures { result ≡ reported.reported number line }
{
    match line {
        Some(line) => Some(Violation {
            line,
            number,
            name: None,
            position: 0,
        }),
        None => None,
    }
}

/// This line, where it is reported, and else none.
pub fn line_when(is_reported: bool, line: u32) -> Option<u32>
    ensures { result ≡ reported.line_when is_reported line }
{
    if is_reported { Some(line) } else { None }
}

/// Adds a line, where there is one.
///
/// # Errors
///
/// Only where memory was refused.
pub fn add_line(lines: &mut Vec<u32>, line: Option<u32>) -> Result<(), AllocError>
    ensures { OnOk result (lines.new.items ≡ lines.old.items ++ option_to_list line) }
{
    if let Some(line) = line {
        lines.push(line)?;
    }
    Ok(())
}

/// The lesser of two lines.
pub fn lesser(first: Option<u32>, second: Option<u32>) -> Option<u32>
    ensures { result ≡ reported.least_line first second }
{
    match (first, second) {
        (Some(first), Some(second)) => Some(first.min(second)),
        (Some(first), None) => Some(first),
        (None, second) => second,
    }
}

fn precedes(a: &Violation, b: &Violation) -> bool
    ensures { result ≡ violations.precedes a.now b.now }
{
    a.line < b.line
        || (a.line == b.line
            && (a.number < b.number || (a.number == b.number && a.position < b.position)))
}

/// The first of two violations, each of which may be missing. The left one comes first where their positions are the same.
pub fn first_of_two(left: Option<Violation>, right: Option<Violation>) -> Option<Violation>
    ensures { result ≡ reported.first_of_two left right }
{
    match (left, right) {
        (Some(left), Some(right)) => Some(if precedes(&right, &left) { right } else { left }),
        (Some(left), None) => Some(left),
        (None, right) => right,
    }
}
