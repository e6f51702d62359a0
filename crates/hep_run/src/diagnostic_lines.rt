//! Refusals and warnings, as GNU compilers write them or as objects of JSON.
ghost use Rattle.std.specs.Prelude.{◌≡◌, ◌++◌, OnOk};
ghost use Rattle.std.specs.List.{flat_map};
ghost use Rattle.hep_text.specs.Refusals.{about_text, says_all, words_of};
ghost use Rattle.hep_run.specs.Diagnostics as words;

use crate::options::{DiagnosticFormat, DiagnosticsRequest};
use hep_base::append_number;
use hep_check::{Diagnostic, culprit_text, position_of};
use hep_formats::append_json_string;
use hep_text::place::place_in;
use hep_text::reason::reason;
use hep_text::{Span, Stmt};
use hep_warnings::{Warning, append_kind};
use std::alloc::{AllocError, Global};

/// What a line says of a refusal: the rule, the line, the part of the statement that the rule is about, and where that part is.
#[derive(Clone, Copy)]
pub(crate) struct ErrorLine<'a> {
    pub(crate) number: u16,
    pub(crate) line: u32,
    pub(crate) about: &'a [u8],
    pub(crate) place: Option<Span>,
}

// Appends the file and the line, or the file alone where the line is 0.
fn append_line_place(text: &mut Vec<u8>, file: &[u8], line: u32) -> Result<(), AllocError>
    ensures { OnOk result (text.new.items ≡ text.old.items ++ words.line_place file.now line) }
{
    text.extend_from_slice(file)?;
    text.extend_from_slice(b":")?;
    if line != 0 {
        append_number(text, line)?;
        text.extend_from_slice(b":")?;
    }
    Ok(())
}

// Appends the same with the column, where the place is known.
fn append_place(
    text: &mut Vec<u8>,
    file: &[u8],
    line: u32,
    place: Option<Span>,
) -> Result<(), AllocError>
    ensures { OnOk result (text.new.items ≡ text.old.items ++ words.place_text file.now line place) }
{
    match place {
        None => append_line_place(text, file, line),
        Some(span) => {
            append_line_place(text, file, span.line)?;
            append_number(text, span.column)?;
            text.extend_from_slice(b":")
        }
    }
}

// Whether the part that the rule is about has several words, which replace the rule's.
fn has_words(about: &[u8]) -> bool
    ensures { result ≡ says_all about.now }
{
    about.iter().any(|byte| *byte == b' ')
}

// Appends the part that the rule is about and a colon, or nothing where that part is empty.
fn append_subject(text: &mut Vec<u8>, about: &[u8]) -> Result<(), AllocError>
    ensures { OnOk result (text.new.items ≡ text.old.items ++ about_text about.now) }
{
    match about {
        [] => Ok(()),
        _ => {
            text.extend_from_slice(about)?;
            text.extend_from_slice(b": ")
        }
    }
}

// Appends the words of a refusal: the part that the rule is about and the rule, or that part alone where it has several words.
fn append_message(text: &mut Vec<u8>, number: u16, about: &[u8]) -> Result<(), AllocError>
    ensures { OnOk result (text.new.items ≡ text.old.items ++ words_of number about.now) }
{
    if has_words(about) {
        return text.extend_from_slice(about);
    }
    append_subject(text, about)?;
    text.extend_from_slice(reason(number))
}

// Appends the line of a refusal, as GNU compilers write it.
fn append_gnu_error(text: &mut Vec<u8>, file: &[u8], told: &ErrorLine<'_>) -> Result<(), AllocError>
    ensures { OnOk result (text.new.items
        ≡ text.old.items ++ words.gnu_error file.now told.now.number told.now.line told.now.about.now told.now.place) }
{
    append_place(text, file, told.line, told.place)?;
    text.extend_from_slice(b" error: ")?;
    append_number(text, told.number)?;
    text.extend_from_slice(b" ")?;
    append_message(text, told.number, told.about)?;
    text.extend_from_slice(b"\n")
}

// Appends the line as a member of an object, where it isn't 0.
fn append_line_member(text: &mut Vec<u8>, line: u32) -> Result<(), AllocError>
    ensures { OnOk result (text.new.items ≡ text.old.items ++ words.line_member line) }
{
    if line == 0 {
        return Ok(());
    }
    text.extend_from_slice(b",\"line\":")?;
    append_number(text, line)
}

// Appends the same with the column, where the place is known.
fn append_place_members(
    text: &mut Vec<u8>,
    line: u32,
    place: Option<Span>,
) -> Result<(), AllocError>
    ensures { OnOk result (text.new.items ≡ text.old.items ++ words.place_members line place) }
{
    match place {
        None => append_line_member(text, line),
        Some(span) => {
            append_line_member(text, span.line)?;
            text.extend_from_slice(b",\"column\":")?;
            append_number(text, span.column)
        }
    }
}

// Appends the front of an object, with the file and the place.
fn append_object_front(
    text: &mut Vec<u8>,
    file: &[u8],
    line: u32,
    place: Option<Span>,
) -> Result<(), AllocError>
    ensures { OnOk result (text.new.items ≡ text.old.items ++ words.object_front file.now line place) }
{
    text.extend_from_slice(b"{\"file\":")?;
    append_json_string(text, file)?;
    append_place_members(text, line, place)
}

// Appends the end of an object, with words.
fn append_object_end(text: &mut Vec<u8>, message: &[u8]) -> Result<(), AllocError>
    ensures { OnOk result (text.new.items ≡ text.old.items ++ words.object_end message.now) }
{
    text.extend_from_slice(b",\"message\":")?;
    append_json_string(text, message)?;
    text.extend_from_slice(b"}\n")
}

// Appends the front of the object of a refusal.
fn append_error_front(
    text: &mut Vec<u8>,
    file: &[u8],
    told: &ErrorLine<'_>,
) -> Result<(), AllocError>
    ensures { OnOk result (text.new.items
        ≡ text.old.items ++ words.error_front file.now told.now.number told.now.line told.now.place) }
{
    append_object_front(text, file, told.line, told.place)?;
    text.extend_from_slice(b",\"severity\":\"error\",\"number\":")?;
    append_number(text, told.number)
}

// Appends a refusal as an object.
fn append_json_error(
    alloc: Global,
    text: &mut Vec<u8>,
    file: &[u8],
    told: &ErrorLine<'_>,
) -> Result<(), AllocError>
    ensures { OnOk result (text.new.items
        ≡ text.old.items ++ words.json_error file.now told.now.number told.now.line told.now.about.now told.now.place) }
{
    let mut message = Vec::new(alloc);
    append_message(&mut message, told.number, told.about)?;
    append_error_front(text, file, told)?;
    append_object_end(text, &message)
}

/// Appends the line of a refusal.
///
/// # Errors
///
/// Only where memory was refused.
pub(crate) fn append_error(
    alloc: Global,
    text: &mut Vec<u8>,
    asked: &DiagnosticsRequest<'_>,
    told: &ErrorLine<'_>,
) -> Result<(), AllocError>
    ensures { OnOk result (text.new.items ≡ text.old.items
        ++ words.error_text asked.now.format asked.now.file.now told.now.number told.now.line told.now.about.now told.now.place) }
{
    match asked.format {
        DiagnosticFormat::Gnu => append_gnu_error(text, asked.file, told),
        DiagnosticFormat::Json => append_json_error(alloc, text, asked.file, told),
    }
}

/// Appends the line of a violation.
///
/// # Errors
///
/// Only where memory was refused.
pub(crate) fn append_violation_error(
    alloc: Global,
    text: &mut Vec<u8>,
    asked: &DiagnosticsRequest<'_>,
    statements: &[Stmt],
    violation: &Diagnostic,
) -> Result<(), AllocError>
    ensures { OnOk result (text.new.items
        ≡ text.old.items ++ words.violation_error asked.now.format asked.now.file.now statements.now violation.now) }
{
    let about = culprit_text(alloc, violation.culprit)?;
    let line = violation.violation.line;
    let told = ErrorLine {
        number: violation.violation.number,
        line,
        about: about.as_slice(),
        place: place_in(statements, line, position_of(violation.culprit)),
    };
    append_error(alloc, text, asked, &told)
}

// Appends the line of a warning, as GNU compilers write it.
fn append_gnu_warning(text: &mut Vec<u8>, file: &[u8], warning: &Warning) -> Result<(), AllocError>
    ensures { OnOk result (text.new.items ≡ text.old.items ++ words.gnu_warning file.now warning.now) }
{
    append_line_place(text, file, warning.line)?;
    text.extend_from_slice(b" warning: ")?;
    append_kind(text, &warning.kind)?;
    text.extend_from_slice(b"\n")
}

// Appends a warning as an object.
fn append_json_warning(
    alloc: Global,
    text: &mut Vec<u8>,
    file: &[u8],
    warning: &Warning,
) -> Result<(), AllocError>
    ensures { OnOk result (text.new.items ≡ text.old.items ++ words.json_warning file.now warning.now) }
{
    let mut message = Vec::new(alloc);
    append_kind(&mut message, &warning.kind)?;
    append_object_front(text, file, warning.line, None)?;
    text.extend_from_slice(b",\"severity\":\"warning\"")?;
    append_object_end(text, &message)
}

// Appends the line of a warning.
fn append_warning(
    alloc: Global,
    text: &mut Vec<u8>,
    asked: &DiagnosticsRequest<'_>,
    warning: &Warning,
) -> Result<(), AllocError>
    ensures { OnOk result (text.new.items ≡ text.old.items ++ words.warning_text asked.now.format asked.now.file.now warning.now) }
{
    match asked.format {
        DiagnosticFormat::Gnu => append_gnu_warning(text, asked.file, warning),
        DiagnosticFormat::Json => append_json_warning(alloc, text, asked.file, warning),
    }
}

/// Appends a line for each of these warnings.
///
/// # Errors
///
/// Only where memory was refused.
pub(crate) fn append_warnings(
    alloc: Global,
    text: &mut Vec<u8>,
    asked: &DiagnosticsRequest<'_>,
    warnings: &[Warning],
) -> Result<(), AllocError>
    ensures { OnOk result (text.new.items
        ≡ text.old.items ++ flat_map (words.warning_text asked.now.format asked.now.file.now) warnings.now) }
{
    for warning in warnings {
        append_warning(alloc, text, asked, warning)?;
    }
    Ok(())
}
