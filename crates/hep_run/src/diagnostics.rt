//! `check --format`: refusals and warnings as GNU compilers write them, or as objects of JSON.
ghost use Rattle.std.specs.Prelude.{◌≡◌, ◌⊎◌, ◌∷◌, ◌++◌, IfErr, IfOk, Ok, OnOk};
ghost use Rattle.std.specs.List.{flat_map};
ghost use Rattle.hep_outcome.specs.Transcripts.{outcome_of};
ghost use Rattle.hep_outcome.specs.declared.status.Status.TheVariants as statuses;
ghost use Rattle.hep_run.specs.Delivery.{LeavesOfSource};
ghost use Rattle.hep_run.specs.Diagnostics as words;
ghost use Rattle.hep_run.specs.Diagnostics.{IsDiagnosticsOutcome, IsDiagnosedRefusal};
ghost use Rattle.hep_run.specs.Refusals.{noted, refusal_of};
ghost use Rattle.hep_run.specs.Sources.{IsAcceptedSource, IsRefusedProgram, IsRunnableSource, IsViolatingProgram};
ghost use Rattle.hep_text.specs.Reading.{statements_of};

use crate::companion_files::say_unread;
use crate::delivery::deliver_made;
use crate::diagnostic_lines::{ErrorLine, append_error, append_violation_error, append_warnings};
use crate::input::read_input;
use crate::options::{DiagnosticFormat, DiagnosticsRequest, Run};
use crate::refusal::SourceFault;
use crate::source::MOST_BYTES;
use crate::transcript::Transcript;
use hep_base::{Refusal, Text};
use hep_check::{Checked, Diagnostic, Rejection, fault_of, judge_further};
use hep_history::History;
use hep_image::Image;
use hep_lower::lower;
use hep_outcome::{Lines, Status};
use hep_parse::parse;
use hep_source::Program;
use hep_text::place::place_of_line;
use hep_text::{Stmt, statements};
use hep_warnings::warnings;
use std::alloc::{AllocError, Global};
use std::io::{Read, Write};

// A refusal with its line.
fn told_at_line(
    alloc: Global,
    asked: &DiagnosticsRequest<'_>,
    source: &[u8],
    refusal: Refusal,
) -> SourceFault
    ensures { (result ≡ SourceFault.NoMemory) ⊎ (result ≡ noted (words.line_error asked.now.format asked.now.file.now source.now) refusal) }
{
    let Refusal::Refused { number, line, name } = refusal else {
        return SourceFault::NoMemory;
    };
    let mut text = Vec::new(alloc);
    let told = ErrorLine {
        number,
        line,
        about: name.as_slice(),
        place: place_of_line(source, number, line),
    };
    match append_error(alloc, &mut text, asked, &told) {
        Ok(()) => SourceFault::Refused {
            number,
            line,
            name,
            notes: Text::from(text),
        },
        Err(_) => SourceFault::NoMemory,
    }
}

// Appends a line for each of these violations.
fn append_violation_errors(
    alloc: Global,
    text: &mut Vec<u8>,
    asked: &DiagnosticsRequest<'_>,
    statements: &[Stmt],
    violations: &[Diagnostic],
) -> Result<(), AllocError>
    ensures { OnOk result (text.new.items
        ≡ text.old.items ++ flat_map (words.violation_error asked.now.format asked.now.file.now statements.now) violations.now) }
{
    for violation in violations {
        append_violation_error(alloc, text, asked, statements, violation)?;
    }
    Ok(())
}

// The lines of the first violation of a program and of those after it.
fn violation_lines(
    alloc: Global,
    asked: &DiagnosticsRequest<'_>,
    statements: &[Stmt],
    first: &Diagnostic,
    further: &[Diagnostic],
) -> Result<Text, AllocError>
    ensures { IfOk result (λ lines. lines
        ≡ flat_map (words.violation_error asked.now.format asked.now.file.now statements.now) (first.now ∷ further.now)) }
{
    let mut text = Vec::new(alloc);
    append_violation_error(alloc, &mut text, asked, statements, first)?;
    append_violation_errors(alloc, &mut text, asked, statements, further)?;
    Ok(Text::from(text))
}

// The refusal of a program that violates conditions, with a line for each violation.
fn told_violations(
    alloc: Global,
    asked: &DiagnosticsRequest<'_>,
    statements: &[Stmt],
    first: Diagnostic,
    further: &[Diagnostic],
) -> SourceFault
    ensures { (result ≡ SourceFault.NoMemory)
        ⊎ (result ≡ noted (words.violation_errors asked.now.format asked.now.file.now statements.now
        (first ∷ further.now)) (refusal_of first.violation)) }
{
    let Refusal::Refused { number, line, name } = fault_of(alloc, first.violation) else {
        return SourceFault::NoMemory;
    };
    match violation_lines(alloc, asked, statements, &first, further) {
        Ok(notes) => SourceFault::Refused {
            number,
            line,
            name,
            notes,
        },
        Err(_) => SourceFault::NoMemory,
    }
}

// The program of the statements of a source, if it is accepted; or the first refusal of the statements, or that of a condition, with the
// lines.
fn checked_statements(
    alloc: Global,
    asked: &DiagnosticsRequest<'_>,
    source: &[u8],
    statements: &[Stmt],
) -> Result<Checked, SourceFault>
    requires { statements_of source.now ≡ Ok statements.now }
    ensures made { IfOk result (IsAcceptedSource source.now) }
    ensures refused { IfErr result (IsDiagnosedRefusal asked.now.format asked.now.file.now IsViolatingProgram source.now) }
{
    let program = match parse(alloc, statements) {
        Ok(program) => program,
        Err(refusal) => return Err(told_at_line(alloc, asked, source, refusal)),
    };
    match judge_further(alloc, program) {
        Ok(checked) => Ok(checked),
        Err(Rejection::NoMemory) => Err(SourceFault::NoMemory),
        Err(Rejection::Violated { first, further }) => {
            Err(told_violations(alloc, asked, statements, first, &further))
        }
    }
}

// The program of a source that is accepted; or the first refusal, with the lines.
fn checked_diagnosed(
    alloc: Global,
    asked: &DiagnosticsRequest<'_>,
    source: &[u8],
) -> Result<Checked, SourceFault>
    ensures made { IfOk result (IsAcceptedSource source.now) }
    ensures refused { IfErr result (IsDiagnosedRefusal asked.now.format asked.now.file.now IsViolatingProgram source.now) }
{
    let statements = match statements(alloc, source) {
        Ok(statements) => statements,
        Err(refusal) => return Err(told_at_line(alloc, asked, source, refusal)),
    };
    checked_statements(alloc, asked, source, &statements)
}

// The image of a source that is accepted and within the limits; or the first refusal, with the lines.
fn image_diagnosed(
    alloc: Global,
    asked: &DiagnosticsRequest<'_>,
    source: &[u8],
) -> Result<Image, SourceFault>
    ensures made { IfOk result (IsRunnableSource source.now) }
    ensures refused { IfErr result (IsDiagnosedRefusal asked.now.format asked.now.file.now IsRefusedProgram source.now) }
{
    let checked = checked_diagnosed(alloc, asked, source)?;
    match lower(alloc, checked) {
        Ok(image) => Ok(image),
        Err(refusal) => Err(told_at_line(alloc, asked, source, refusal)),
    }
}

// A transcript of these lines alone, which go to the output that the format has.
fn lines_transcript(
    alloc: Global,
    format: DiagnosticFormat,
    status: Status,
    lines: Vec<u8>,
) -> Transcript
    ensures { outcome_of result ≡ words.outcome_of_lines format status lines.items }
{
    let nothing = Vec::new(alloc);
    let history = History::new(alloc);
    match format {
        DiagnosticFormat::Gnu => Transcript {
            output: nothing,
            messages: Lines::Made(lines),
            status,
            history,
        },
        DiagnosticFormat::Json => Transcript {
            output: lines,
            messages: Lines::Made(nothing),
            status,
            history,
        },
    }
}

// The lines of the warnings of a source and its program, where they are asked for.
fn warning_lines(
    alloc: Global,
    source: &[u8],
    program: &Program,
    asked: &DiagnosticsRequest<'_>,
) -> Result<Vec<u8>, AllocError>
    ensures { IfOk result (λ lines. lines.items
        ≡ flat_map (words.warning_text asked.now.format asked.now.file.now) (words.warnings_when asked.now.warn source.now program.now)) }
{
    let mut text = Vec::new(alloc);
    if !asked.warn {
        return Ok(text);
    }
    let found = warnings(alloc, source, program)?;
    append_warnings(alloc, &mut text, asked, &found)?;
    Ok(text)
}

/// All that `check --format` writes of a source, before a byte of it is written.
///
/// # Errors
///
/// Only where memory was refused.
pub fn diagnostics_transcript(
    alloc: Global,
    source: &[u8],
    asked: &DiagnosticsRequest<'_>,
) -> Result<Transcript, AllocError>
    ensures { IfOk result (λ r. IsDiagnosticsOutcome asked.now.format asked.now.warn asked.now.file.now source.now (outcome_of r)) }
{
    match image_diagnosed(alloc, asked, source) {
        Ok(image) => {
            let lines = warning_lines(alloc, source, image.program(), asked)?;
            Ok(lines_transcript(alloc, asked.format, Status::Done, lines))
        }
        Err(SourceFault::NoMemory) => Err(AllocError),
        Err(SourceFault::Refused { notes, .. }) => Ok(lines_transcript(
            alloc,
            asked.format,
            Status::Refused,
            notes.into_vec(),
        )),
    }
}

/// Reads a source, and writes a line for each reason why it is refused, or for each of its warnings where they are asked for: to
/// `messages` as GNU compilers do, or to `output` as objects of JSON.
///
/// The run's status is the code of a `Status`.
pub fn diagnostics_source<R: Read, W: Write, E: Write>(
    alloc: Global,
    source: &mut R,
    asked: &DiagnosticsRequest<'_>,
    output: &mut W,
    messages: &mut E,
) -> Run
    ensures { LeavesOfSource (IsDiagnosticsOutcome asked.now.format asked.now.warn asked.now.file.now)
        (R.remaining source.old) (R.remaining source.new) result
        (W.contents output.old) (W.contents output.new) (E.contents messages.old) (E.contents messages.new) }
{
    match read_input(alloc, source, MOST_BYTES) {
        Ok(bytes) => {
            let made = diagnostics_transcript(alloc, &bytes, asked);
            deliver_made(alloc, made, output, messages)
        }
        Err(fault) => Run {
            status: say_unread(messages, fault),
            history: History::new(alloc),
        },
    }
}
