//! The statement that a step from each index of the code begins.
ghost use Rattle.std.specs.Prelude.{◌≡◌, ◌<◌, ℕ, List, drop, length, IfOk};
ghost use Rattle.hep_machine.specs.Words.{Units};
ghost use Rattle.hep_cover.specs.StatementStarts.{at_line as line_operations};
ghost use Rattle.hep_cover.specs.StartMarks as words;
ghost use Rattle.hep_step.specs.Simulation.{unit_code};

use crate::remaining_operations::operations_ahead;
use hep_advance::DecodedImage;
use hep_code::Instruction;
use hep_image::Image;
use hep_views::lookup::line_from;
use std::alloc::{AllocError, Global};

/// For each index of a unit's code, the line of the statement that a step from there begins, if it begins one.
#[derive(Drop)]
pub struct StatementStarts {
    pub lines: Vec<Option<u32>>,
}

/// An image with its tables, the number of operations of each line's statement, and the marks of each unit's code.
#[derive(Clone, Copy)]
pub struct MarkedImage<'a> {
    pub tabled: DecodedImage<'a>,
    pub operations: &'a [usize],
    pub marks: &'a [StatementStarts],
}

/// The marks of a unit's code. Units are counted from 0 in the order of the source.
#[inline(always)]
pub(crate) fn lines_of(marks: &[StatementStarts], unit: usize) -> &[Option<u32>]
    requires { unit < length marks.now }
    ensures { (program : Units) (operations : List ℕ) → words.AreMarks program operations marks.now
        → result.now ≡ words.marks operations (unit_code program unit) }
{
    marks[unit].lines.as_slice()
}

// The number of operations of the statement of a line.
fn at_line(operations: &[usize], line: u32) -> usize
    ensures { result ≡ line_operations operations.now line }
{
    if line == 0 {
        return 0;
    }
    match operations.get(line as usize - 1) {
        Some(count) => *count,
        None => 0,
    }
}

// The line, if all operations of its statement are left.
fn begun_line(operations: &[usize], line: u32, ahead: usize) -> Option<u32>
    ensures { result ≡ words.begun_ahead operations.now line ahead }
{
    if ahead == 0 {
        return None;
    }
    if at_line(operations, line) == ahead {
        Some(line)
    } else {
        None
    }
}

// The line of the statement that a step from an index of the code begins, if it begins one.
fn mark_of(operations: &[usize], code: &[Instruction], index: usize) -> Option<u32>
    ensures { result ≡ words.mark operations.now (drop index code.now) }
{
    let line = line_from(code, index);
    begun_line(operations, line, operations_ahead(code, index))
}

// The marks of a unit's code.
fn marks_of_code(
    alloc: Global,
    operations: &[usize],
    code: &[Instruction],
) -> Result<StatementStarts, AllocError>
    ensures { IfOk result (λ marks. marks.lines.items ≡ words.marks operations.now code.now) }
{
    let mut lines = Vec::with_capacity(alloc, code.len())?;
    for index in 0..code.len() {
        lines.push(mark_of(operations, code, index))?;
    }
    Ok(StatementStarts { lines })
}

/// The marks of each unit's code, in the order of the source, by the number of operations of each line's statement.
///
/// # Errors
///
/// Only where memory was refused.
pub fn marks_of(
    alloc: Global,
    image: &Image,
    operations: &[usize],
) -> Result<Vec<StatementStarts>, AllocError>
    ensures { IfOk result (λ marks. words.AreMarks image.now operations.now marks.items) }
{
    let count = image.program().as_slice().len();
    let mut marks = Vec::with_capacity(alloc, count)?;
    for unit in 0..count {
        let code = image.unit(unit).code.as_slice();
        let lines = marks_of_code(alloc, operations, code)?;
        marks.push(lines)?;
    }
    Ok(marks)
}

/// The mark at an index.
#[inline(always)]
pub(crate) fn mark_at(lines: &[Option<u32>], index: usize) -> Option<u32>
    ensures { result ≡ words.mark_at lines.now index }
{
    match lines.get(index) {
        Some(line) => *line,
        None => None,
    }
}
