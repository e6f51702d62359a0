//! The statements of a source text.
ghost use Rattle.std.specs.Prelude.{◌≡◌, ◌↔◌, ◌+◌, ◌≤◌, false, List, [], ◌∷◌, length, OnOk, IfOk, IfErr, None, Some, Ok};
ghost use Rattle.std.specs.List.{All};
ghost use Rattle.hep_text.specs.Characters.{first_text_column, text_columns};
ghost use Rattle.hep_text.specs.Constant.{Character};
ghost use Rattle.hep_text.specs.Grammar.{IsText, Gives};
ghost use Rattle.hep_text.specs.Line as lines;
ghost use Rattle.hep_text.specs.Line.{initial, continuation};
ghost use Rattle.hep_text.specs.Reading as reading;
ghost use Rattle.hep_text.specs.Reading.{statements_of, columns, most_bytes, Reports};
ghost use Rattle.hep_text.specs.WellFormed.{IsWellFormed};
ghost use Rattle.hep_text.specs.Progress.{started, longer, pending_of, done_of, with_last, GoesOn, Fails};
ghost use Rattle.hep_base.specs.declared.refusal.Refusal.TheVariants.{NoMemory};

use crate::constant::Scanner;
use crate::line::{LineKind, column, kind, next_line};
use crate::statement::{Span, Stmt};
use hep_base::{Refusal as TextFault, Sequence, Text};
use std::alloc::Global;

/// The greatest number of bytes of a source text.
const MOST_BYTES: usize = 4_194_304;

/// The greatest number of lines of a source text.
const MOST_LINES: usize = 65_535;

/// The first column of a statement's text on a line (X3.9-1978, 3.3).
const FIRST_TEXT_COLUMN: u32 = 7;

/// The number of columns of a statement's text on a line: columns 7 to 72.
const TEXT_COLUMNS: usize = 66;

/// The greatest number of continuation lines of a statement (X3.9-1978, 3.3).
const MOST_CONTINUATION_LINES: u32 = 19;

/// A statement whose lines are being read.
#[derive(Drop)]
struct PendingStatement {
    /// The line on which the statement begins.
    line: u32,
    /// Its label.
    label: Option<u32>,
    /// The number of its continuation lines so far.
    continued: u32,
    /// Its text so far.
    text: Vec<u8>,
    /// The line and column of each character of the text.
    spans: Vec<Span>,
    /// The state of the scanner before its next character.
    scanner: Scanner,
}

/// The part of the text that was read so far.
#[derive(Drop)]
struct ReadingState {
    /// The complete statements without a fault.
    done: Vec<Stmt>,
    /// The statement that isn't complete yet, if there is one.
    pending: Option<PendingStatement>,
    /// The line of the first complete statement with a character constant that is open or empty.
    open: Option<u32>,
}

/// The statements of a source text in fixed form, in their order (X3.9-1978, 3.2 and 3.3).
///
/// # Errors
///
/// [`TextFault::Refused`] with the first of these faults:
/// - 107 at line 0: the text has more than 65,535 lines or 4,194,304 bytes.
/// - Else the first line at fault. In columns 1 to 72 of a line that is no comment, 101 is a tab, 102 another character that isn't
///   printable, and 103 a fault of columns 1 to 5. 104 is the twentieth continuation line of a statement. 105 is a continuation line
///   before any initial line.
/// - Else 106 at the first statement that has a character constant without an end or without characters.
///
/// [`TextFault::NoMemory`] where memory was refused. A text with fault 107 asks for no memory.
#[tactic(auto, using(crate::proofs::Grammar::agrees))]
pub fn statements(alloc: Global, source: &[u8]) -> Result<Vec<Stmt>, TextFault>
    ensures ok { IfOk result (λ v. statements_of source.now ≡ Ok v.items) }
    ensures refused { IfErr result (λ e. Reports e (statements_of source.now)) }
    ensures small { IfErr result (λ e. e ≡ NoMemory → reading.is_too_large source.now ≡ false) }
    ensures shape { IfOk result (λ v. All IsWellFormed v.items) }
    ensures constants { (s t : List Character) → IsText s t ↔ Gives s t }
{
    if is_too_large(source) {
        return Err(TextFault::refused(alloc, 107, 0));
    }
    let mut reading = ReadingState {
        done: Vec::new(alloc),
        pending: None,
        open: None,
    };
    let mut number: u32 = 1;
    let mut rest = source;
    while !rest.is_empty() {
        let (line, after) = next_line(rest);
        take_line(alloc, &mut reading, number, line)?;
        number += 1;
        rest = after;
    }
    all_read(alloc, reading)
}

/// Whether a text has too many bytes or lines.
fn is_too_large(text: &[u8]) -> bool
    ensures value { result ≡ reading.is_too_large text.now }
    ensures bytes { result ≡ false → length text.now ≤ most_bytes }
{
    text.len() > MOST_BYTES || line_count(text) > MOST_LINES
}

/// The number of lines of a text.
fn line_count(text: &[u8]) -> usize
    ensures { result ≡ length (lines.lines text.now) }
{
    let mut count: usize = 0;
    let mut rest = text;
    while !rest.is_empty() {
        let (_line, after) = next_line(rest);
        count += 1;
        rest = after;
    }
    count
}

/// Reads the line with this number.
fn take_line(
    alloc: Global,
    reading: &mut ReadingState,
    number: u32,
    line: &[u8],
) -> Result<(), TextFault>
    ensures ok { OnOk result (GoesOn reading.old reading.new number (lines.kind line.now)) }
    ensures err { IfErr result (λ e. Fails e reading.old number (lines.kind line.now)) }
{
    match kind(line) {
        LineKind::Comment => Ok(()),
        LineKind::Initial(label, body) => take_initial(alloc, reading, number, label, body),
        LineKind::Continuation(body) => take_continuation(alloc, reading, number, body),
        LineKind::Refused(fault) => Err(TextFault::refused(alloc, fault, number)),
    }
}

/// Reads an initial line: the statement before it is complete, and another one begins.
fn take_initial(
    alloc: Global,
    reading: &mut ReadingState,
    number: u32,
    label: Option<u32>,
    body: &[u8],
) -> Result<(), TextFault>
    ensures ok { OnOk result (GoesOn reading.old reading.new number (initial label body.now)) }
    ensures err { IfErr result (λ e. e ≡ NoMemory) }
{
    end_pending(reading)?;
    let mut pending = PendingStatement {
        line: number,
        label,
        continued: 0,
        text: Vec::new(alloc),
        spans: Vec::new(alloc),
        scanner: Scanner::Outside,
    };
    take_text(&mut pending, number, body)?;
    reading.pending = Some(pending);
    Ok(())
}

/// Reads a continuation line, which continues the statement that isn't complete.
fn take_continuation(
    alloc: Global,
    reading: &mut ReadingState,
    number: u32,
    body: &[u8],
) -> Result<(), TextFault>
    ensures ok { OnOk result (GoesOn reading.old reading.new number (continuation body.now)) }
    ensures err { IfErr result (λ e. Fails e reading.old number (continuation body.now)) }
{
    let Some(mut pending) = reading.pending.take() else {
        return Err(TextFault::refused(alloc, 105, number));
    };
    if pending.continued >= MOST_CONTINUATION_LINES {
        return Err(TextFault::refused(alloc, 104, number));
    }
    pending.continued += 1;
    take_text(&mut pending, number, body)?;
    reading.pending = Some(pending);
    Ok(())
}

/// Reads columns 7 to 72 of a line, where `body` is the line from column 7 on.
#[tactic(auto, using(crate::proofs::Text::one_column, crate::proofs::Text::all_columns))]
fn take_text(pending: &mut PendingStatement, number: u32, body: &[u8]) -> Result<(), TextFault>
    ensures ok { OnOk result (started pending.new ≡ longer (started pending.old) (columns text_columns number first_text_column body.now)) }
    ensures err { IfErr result (λ e. e ≡ NoMemory) }
{
    for index in 0..TEXT_COLUMNS {
        let span = Span {
            line: number,
            column: index as u32 + FIRST_TEXT_COLUMN,
        };
        take_character(pending, column(body, index), span)?;
    }
    Ok(())
}

/// Reads the next character of a statement.
fn take_character(pending: &mut PendingStatement, byte: u8, span: Span) -> Result<(), TextFault>
    ensures ok { OnOk result (started pending.new ≡ longer (started pending.old) (record { byte = byte; span = span } ∷ [])) }
    ensures err { IfErr result (λ e. e ≡ NoMemory) }
{
    if let Some(kept) = pending.scanner.kept_character(byte) {
        pending.text.push(kept)?;
        pending.spans.push(span)?;
    }
    pending.scanner = pending.scanner.next(byte);
    Ok(())
}

/// Completes the statement that was being read, if there is one.
fn end_pending(reading: &mut ReadingState) -> Result<(), TextFault>
    ensures done { OnOk result (done_of reading.new ≡ with_last (done_of reading.old) (pending_of reading.old.pending)) }
    ensures pending { OnOk result (reading.new.pending ≡ None) }
    ensures err { IfErr result (λ e. e ≡ NoMemory) }
{
    if let Some(pending) = reading.pending.take() {
        if pending.scanner.is_over() {
            reading.done.push(ended(pending))?;
        } else if reading.open.is_none() {
            reading.open = Some(pending.line);
        }
    }
    Ok(())
}

/// The complete statement.
fn ended(pending: PendingStatement) -> Stmt
    ensures line { result.line ≡ pending.line }
    ensures label { result.label ≡ pending.label }
    ensures text { result.text ≡ pending.text.items }
    ensures spans { result.spans ≡ pending.spans.items }
{
    let PendingStatement {
        line,
        label,
        text,
        spans,
        ..
    } = pending;
    Stmt {
        line,
        label,
        text: Text::from(text),
        spans: Sequence::from(spans),
    }
}

/// The statements of a text after its last line was read, or the first fault 106.
fn all_read(alloc: Global, reading: ReadingState) -> Result<Vec<Stmt>, TextFault>
    ensures ok { IfOk result (λ v. with_last (done_of reading) (pending_of reading.pending) ≡ Ok v.items) }
    ensures refused { IfErr result (λ e. Reports e (with_last (done_of reading) (pending_of reading.pending))) }
{
    let mut reading = reading;
    end_pending(&mut reading)?;
    let ReadingState { done, open, .. } = reading;
    match open {
        None => Ok(done),
        Some(line) => Err(TextFault::refused(alloc, 106, line)),
    }
}
