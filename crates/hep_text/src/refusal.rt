//! The notes that follow the line of a refusal of a source.
ghost use Rattle.std.specs.Prelude.{◌≡◌, ◌++◌, IfOk, OnOk};
ghost use Rattle.hep_text.specs.Refusals as refusals;

use crate::line_display::{append_caret, append_line, append_words};
use crate::place::{line_at, place_in, place_of_line};
use crate::reason::reason;
use crate::statement::{Span, Stmt};
use hep_base::{Text, append_number};
use std::alloc::{AllocError, Global};

/// The subject of a refusal: the rule, the initial line of the statement, the reported name, and the part of the statement at fault, if it
/// is known.
#[derive(Clone, Copy)]
pub struct Subject<'a> {
    /// The number of the rule.
    pub number: u16,
    /// The line, counted from 1; 0 where the whole source is refused.
    pub line: u32,
    /// The name in the line of the refusal; empty where that line has none.
    pub name: &'a [u8],
    /// The part of the statement that the rule is about, as it is written; empty where there is no such part. Where it has several words,
    /// they replace the rule's words.
    pub about: &'a [u8],
    /// The number of characters of the statement before that part.
    pub position: usize,
}

// Appends the part that the rule is about and a colon, or nothing where that part is empty.
fn append_about(text: &mut Vec<u8>, about: &[u8]) -> Result<(), AllocError>
    ensures { OnOk result (text.new.items ≡ text.old.items ++ refusals.about_text about.now) }
{
    if about.is_empty() {
        return Ok(());
    }
    text.extend_from_slice(about)?;
    text.extend_from_slice(b": ")?;
    Ok(())
}

// Whether the part that the rule is about has several words, which replace the rule's words.
fn says_all(about: &[u8]) -> bool
    ensures { result ≡ refusals.says_all about.now }
{
    about.contains(&b' ')
}

// The words of a note: the part that the rule is about and then the rule, or that part alone where it has several words.
fn words_of(alloc: Global, number: u16, about: &[u8]) -> Result<Vec<u8>, AllocError>
    ensures { IfOk result (λ words. words.items ≡ refusals.words_of number about.now) }
{
    let mut words = Vec::new(alloc);
    if says_all(about) {
        words.extend_from_slice(about)?;
        return Ok(words);
    }
    append_about(&mut words, about)?;
    words.extend_from_slice(reason(number))?;
    Ok(words)
}

// Appends the line of the source at a place, and words under it.
fn append_at(text: &mut Vec<u8>, source: &[u8], words: &[u8], place: Span) -> Result<(), AllocError>
    ensures { OnOk result (text.new.items ≡ text.old.items ++ refusals.notes_at source.now words.now (Some place)) }
{
    if let Some(line) = line_at(source, place.line) {
        append_line(text, place.line, line)?;
    }
    append_caret(text, place.column, words)?;
    Ok(())
}

// These words under the line of the source and a caret, where the place is known, and else the words alone.
fn notes_at(
    alloc: Global,
    source: &[u8],
    words: &[u8],
    place: Option<Span>,
) -> Result<Text, AllocError>
    ensures { IfOk result (λ notes. notes ≡ refusals.notes_at source.now words.now place) }
{
    let mut text = Vec::new(alloc);
    match place {
        Some(place) => append_at(&mut text, source, words, place)?,
        None => append_words(&mut text, words)?,
    }
    Ok(Text::from(text))
}

/// The notes of a refusal, by its number, its line and its name alone.
///
/// # Errors
///
/// Only where memory was refused.
pub fn line_notes(
    alloc: Global,
    source: &[u8],
    number: u16,
    line: u32,
    name: &[u8],
) -> Result<Text, AllocError>
    ensures { IfOk result (λ notes. notes ≡ refusals.line_notes source.now number line name.now) }
{
    let words = words_of(alloc, number, name)?;
    notes_at(alloc, source, &words, place_of_line(source, number, line))
}

/// The notes of a refusal that is about a character of a statement.
///
/// # Errors
///
/// Only where memory was refused.
pub fn statement_notes(
    alloc: Global,
    source: &[u8],
    statements: &[Stmt],
    subject: &Subject<'_>,
) -> Result<Text, AllocError>
    ensures { IfOk result (λ notes. notes
        ≡ refusals.statement_notes source.now statements.now subject.now.number subject.now.line subject.now.about.now
        subject.now.position) }
{
    let words = words_of(alloc, subject.number, subject.about)?;
    let place = place_in(statements, subject.line, subject.position);
    notes_at(alloc, source, &words, place)
}

// Appends ` NAME ` and the name, or nothing where the name is empty.
fn append_name_behind(text: &mut Vec<u8>, name: &[u8]) -> Result<(), AllocError>
    ensures { OnOk result (text.new.items ≡ text.old.items ++ refusals.name_behind name.now) }
{
    if name.is_empty() {
        return Ok(());
    }
    text.extend_from_slice(b" NAME ")?;
    text.extend_from_slice(name)?;
    Ok(())
}

// Appends the line of a violation after the first one.
fn append_also_line(text: &mut Vec<u8>, subject: &Subject<'_>) -> Result<(), AllocError>
    ensures { OnOk result (text.new.items
        ≡ text.old.items ++ refusals.also_line subject.now.number subject.now.line subject.now.name.now) }
{
    text.extend_from_slice(b"ALSO ")?;
    append_number(text, u32::from(subject.number))?;
    text.extend_from_slice(b" LINE ")?;
    append_number(text, subject.line)?;
    append_name_behind(text, subject.name)?;
    text.extend_from_slice(b"\n")?;
    Ok(())
}

/// Appends the line of a violation after the first one, and its notes.
///
/// # Errors
///
/// Only where memory was refused.
pub fn append_also(
    alloc: Global,
    text: &mut Vec<u8>,
    source: &[u8],
    statements: &[Stmt],
    subject: &Subject<'_>,
) -> Result<(), AllocError>
    ensures { OnOk result (text.new.items
        ≡ text.old.items ++ refusals.also_notes source.now statements.now subject.now.number subject.now.line subject.now.name.now
        subject.now.about.now subject.now.position) }
{
    append_also_line(text, subject)?;
    let notes = statement_notes(alloc, source, statements, subject)?;
    text.extend_from_slice(notes.as_slice())?;
    Ok(())
}
