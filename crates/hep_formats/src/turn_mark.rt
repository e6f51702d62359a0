//! What each turn of a run did, read from its line in the text of `trace`.
ghost use Rattle.std.specs.Prelude.{◌≡◌, ◌≤◌, IfOk, length, map};
ghost use Rattle.std.specs.List.{prefix_len};
ghost use Rattle.hep_formats.specs.TurnMarks as words;

use crate::words::after_blank;
use std::alloc::{AllocError, Global};

/// What matters of a turn, from what matters least on.
#[derive(Clone, Copy)]
pub enum TurnKind {
    /// There is no turn of the process.
    Idle,
    /// The process was created by the turn of another one.
    Begins,
    Other,
    Read,
    /// A CALL or a reference, or a return.
    Call,
    Wait,
    /// An assignment to a plain variable.
    Store,
    /// A CREATE or a RESUME.
    Create,
    /// A read that empties an asynchronous variable, or a PURGE.
    Take,
    /// An assignment that fills an asynchronous variable.
    Fill,
    Print,
    End,
    Fault,
}

/// A turn: its process, what it did, and the process that it created, or 0.
#[derive(Clone, Copy)]
pub struct TurnMark {
    pub process: u64,
    pub kind: TurnKind,
    pub created: u64,
}

/// The rank of a kind: what matters more has a higher one.
pub fn rank(kind: TurnKind) -> u8
    ensures { result ≡ words.rank kind }
{
    match kind {
        TurnKind::Idle => 0,
        TurnKind::Begins => 1,
        TurnKind::Other => 2,
        TurnKind::Read => 3,
        TurnKind::Call => 4,
        TurnKind::Wait => 5,
        TurnKind::Store => 6,
        TurnKind::Create => 7,
        TurnKind::Take => 8,
        TurnKind::Fill => 9,
        TurnKind::Print => 10,
        TurnKind::End => 11,
        TurnKind::Fault => 12,
    }
}

// Whether a byte belongs to a word, which ends at a blank or a comma.
fn is_in_word(byte: u8) -> bool
    ensures { result ≡ words.is_in_word byte }
{
    byte != b' ' && byte != b','
}

// The length of the first word of a text.
fn word_len(text: &[u8]) -> usize
    ensures count { result ≡ prefix_len words.is_in_word text.now }
    ensures few { result ≤ length text.now }
{
    text.iter().take_while(|byte| is_in_word(**byte)).count()
}

/// The first word of a text.
pub fn first_word(text: &[u8]) -> &[u8]
    ensures { result.now ≡ words.first_word text.now }
{
    text.split_at(word_len(text)).0
}

// A number after one digit more, up to seven digits.
pub(crate) fn with_digit(number: u64, digit: u8) -> u64
    ensures { result ≡ words.with_digit number digit }
{
    if number <= 999_999 {
        10 * number + u64::from(digit.saturating_sub(48))
    } else {
        number
    }
}

// The number at the front of a text.
fn number_in(text: &[u8]) -> u64
    ensures { result ≡ words.number_in text.now }
{
    first_word(text)
        .iter()
        .fold(0, |number, digit| with_digit(number, *digit))
}

/// The number of the process of a line.
pub fn process_of(line: &[u8]) -> u64
    ensures { result ≡ words.process_of line.now }
{
    number_in(after_blank(after_blank(line)))
}

/// A line from the name of the unit on.
pub fn from_unit(line: &[u8]) -> &[u8]
    ensures { result.now ≡ words.from_unit line.now }
{
    after_blank(after_blank(after_blank(line)))
}

/// What the turn of a line did.
pub fn deed_of(line: &[u8]) -> &[u8]
    ensures { result.now ≡ words.deed_of line.now }
{
    after_blank(after_blank(after_blank(from_unit(line))))
}

/// The kind that a word means.
pub fn kind_of(verb: &[u8]) -> TurnKind
    ensures { result ≡ words.kind_of verb.now }
{
    if verb == b"read".as_slice() {
        TurnKind::Read
    } else if verb == b"calls".as_slice() || verb == b"returns".as_slice() {
        TurnKind::Call
    } else if verb == b"waits".as_slice() {
        TurnKind::Wait
    } else if verb == b"store".as_slice() {
        TurnKind::Store
    } else if verb == b"creates".as_slice() || verb == b"resumes".as_slice() {
        TurnKind::Create
    } else if verb == b"take".as_slice() || verb == b"purge".as_slice() {
        TurnKind::Take
    } else if verb == b"fill".as_slice() {
        TurnKind::Fill
    } else if verb == b"print".as_slice() {
        TurnKind::Print
    } else if verb == b"ends".as_slice() || verb == b"stop".as_slice() {
        TurnKind::End
    } else if verb == b"FAULT".as_slice() {
        TurnKind::Fault
    } else {
        TurnKind::Other
    }
}

// The number of the process that a turn created, or 0.
pub(crate) fn created_by(deed: &[u8]) -> u64
    ensures { result ≡ words.created_by deed.now }
{
    let verb = first_word(deed);
    if verb == b"creates".as_slice() {
        return number_in(after_blank(deed));
    }
    if verb == b"resumes".as_slice() {
        return number_in(after_blank(after_blank(deed)));
    }
    0
}

/// The turn of a line.
pub fn mark_of(line: &[u8]) -> TurnMark
    ensures { result ≡ words.mark_of line.now }
{
    let deed = deed_of(line);
    TurnMark {
        process: process_of(line),
        kind: kind_of(first_word(deed)),
        created: created_by(deed),
    }
}

/// The turns of lines.
///
/// # Errors
///
/// Only where memory was refused.
pub fn marks_of(alloc: Global, lines: &[&[u8]]) -> Result<Vec<TurnMark>, AllocError>
    ensures { IfOk result (λ marks. marks.items ≡ map words.mark_of (map (λ line. line.now) lines.now)) }
{
    let mut marks = Vec::new(alloc);
    for line in lines {
        marks.push(mark_of(line))?;
    }
    Ok(marks)
}

/// The lower one of two numbers.
pub(crate) fn lower(one: u64, other: u64) -> u64
    ensures { result ≡ words.lower one other }
{
    if one <= other { one } else { other }
}

/// The higher one of two numbers.
pub(crate) fn higher(one: u64, other: u64) -> u64
    ensures { result ≡ words.higher one other }
{
    if one <= other { other } else { one }
}

/// The highest number of a process that took a turn or was created.
pub fn highest_process(marks: &[TurnMark]) -> u64
    ensures { result ≡ words.highest_process marks.now }
{
    let mut highest = 0;
    for mark in marks {
        highest = higher(highest, higher(mark.process, mark.created));
    }
    highest
}

/// How many processes there are up to the highest number.
pub(crate) fn processes_in(marks: &[TurnMark]) -> u64
    ensures count { result ≡ words.processes_in marks.now }
    ensures few { result ≤ 16777216 }
{
    lower(highest_process(marks), 16_777_216)
}
