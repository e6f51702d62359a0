//! The parts of a line of `trace`.
ghost use Rattle.std.specs.Prelude.{◌≡◌, ◌≤◌, IfOk, IsTrue, length, map};
ghost use Rattle.std.specs.List.{prefix_len};
ghost use Rattle.hep_text.specs.Line as lines_of_text;
ghost use Rattle.hep_formats.specs.TraceLines as words;

use crate::turn_mark::{deed_of, first_word, from_unit, kind_of, process_of, rank, with_digit};
use crate::words::after_blank;
use hep_text::line::next_line;
use std::alloc::{AllocError, Global};

/// The lines of a text.
///
/// # Errors
///
/// Only where memory was refused.
pub fn lines_of(alloc: Global, text: &[u8]) -> Result<Vec<&[u8]>, AllocError>
    ensures { IfOk result (λ found. map (λ line. line.now) found.items ≡ lines_of_text.lines text.now) }
{
    let mut found = Vec::new(alloc);
    let mut rest = text;
    while !rest.is_empty() {
        let (line, after) = next_line(rest);
        found.push(line)?;
        rest = after;
    }
    Ok(found)
}

/// The first of some lines that is of process p, or nothing.
pub fn line_of<'a>(p: u64, lines: &[&'a [u8]]) -> &'a [u8]
    ensures { result.now ≡ words.line_of p (map (λ line. line.now) lines.now) }
{
    for line in lines {
        if process_of(line) == p {
            return line;
        }
    }
    b""
}

/// The last of some lines that is of process p, or nothing.
pub(crate) fn last_line_of<'a>(p: u64, lines: &[&'a [u8]]) -> &'a [u8]
    ensures { result.now ≡ words.last_line_of p (map (λ line. line.now) lines.now) }
{
    let mut last: &[u8] = b"";
    for line in lines {
        if process_of(line) == p {
            last = line;
        }
    }
    last
}

/// The name of the unit of a line.
pub(crate) fn unit_of(line: &[u8]) -> &[u8]
    ensures { result.now ≡ words.unit_of line.now }
{
    first_word(from_unit(line))
}

/// The number of the line of the source, in decimal.
pub(crate) fn source_line_of(line: &[u8]) -> &[u8]
    ensures { result.now ≡ words.source_line_of line.now }
{
    first_word(after_blank(after_blank(from_unit(line))))
}

// Whether a text begins with the comma and the blank before an effect.
fn begins_effect(text: &[u8]) -> bool
    ensures { result ≡ words.begins_effect text.now }
{
    text.starts_with(b", ")
}

// What a turn did, without what else that changed.
#[tactic(auto, using(crate::proofs::Effects::goes_on, crate::proofs::Effects::ends_here, crate::proofs::Effects::is_all))]
fn before_effects(text: &[u8]) -> &[u8]
    ensures { result.now ≡ words.before_effects text.now }
{
    for index in 0..text.len() {
        let (front, rest) = text.split_at(index);
        if begins_effect(rest) {
            return front;
        }
    }
    text
}

/// What the turn of a line did, without the processes that it woke and the frames that it gave back. A record is shown as it is.
pub(crate) fn action_of(line: &[u8]) -> &[u8]
    ensures { result.now ≡ words.action_of line.now }
{
    let deed = deed_of(line);
    if first_word(deed) == b"print".as_slice() {
        return deed;
    }
    before_effects(deed)
}

/// Whether the turn of a line found its process waiting.
pub fn waits(line: &[u8]) -> bool
    ensures { result ≡ words.waits line.now }
{
    rank(kind_of(first_word(deed_of(line)))) == 5
}

// Whether a text begins with the words before the processes that a turn woke.
fn begins_wakes(text: &[u8]) -> bool
    ensures value { result ≡ words.begins_wakes text.now }
    ensures room { IsTrue result → 8 ≤ length text.now }
{
    text.starts_with(b", wakes ")
}

// The text after these words.
#[tactic(auto, using(crate::proofs::Effects::wakes_later, crate::proofs::Effects::wakes_here, crate::proofs::Effects::wakes_none))]
fn after_wakes(text: &[u8]) -> &[u8]
    ensures { result.now ≡ words.after_wakes text.now }
{
    for index in 0..text.len() {
        let rest = text.split_at(index).1;
        if begins_wakes(rest) {
            return rest.split_at(8).1;
        }
    }
    b""
}

// Whether a byte may be in a list of numbers.
fn is_in_numbers(byte: u8) -> bool
    ensures { result ≡ words.is_in_numbers byte }
{
    byte == b' ' || byte == b',' || (b'0' <= byte && byte <= b'9')
}

// The length of a list of numbers at the front of a text.
fn numbers_len(text: &[u8]) -> usize
    ensures count { result ≡ prefix_len words.is_in_numbers text.now }
    ensures few { result ≤ length text.now }
{
    text.iter().take_while(|byte| is_in_numbers(**byte)).count()
}

/// The numbers of the processes that the turn of a line woke, with commas between them.
pub(crate) fn woken_by(line: &[u8]) -> &[u8]
    ensures { result.now ≡ words.woken_by line.now }
{
    let deed = deed_of(line);
    if first_word(deed) == b"print".as_slice() {
        return b"";
    }
    let list = after_wakes(deed);
    list.split_at(numbers_len(list)).0
}

/// A scan for a number in a list: the digits since the last comma as a number, and whether a number before it was the sought one.
#[derive(Clone, Copy)]
pub struct NumberScan {
    pub number: u64,
    pub found: bool,
}

// The scan after one byte more.
fn scan_after(sought: u64, scan: NumberScan, byte: u8) -> NumberScan
    ensures { result ≡ words.scan_after sought scan byte }
{
    if byte == b',' {
        return NumberScan {
            number: 0,
            found: scan.found || scan.number == sought,
        };
    }
    if byte == b' ' {
        return scan;
    }
    NumberScan {
        number: with_digit(scan.number, byte),
        found: scan.found,
    }
}

/// Whether a number is in a list of numbers with commas between them.
pub(crate) fn is_listed(sought: u64, list: &[u8]) -> bool
    ensures { result ≡ words.is_listed sought list.now }
{
    let mut scan = NumberScan {
        number: 0,
        found: false,
    };
    for byte in list {
        scan = scan_after(sought, scan, *byte);
    }
    scan.found || scan.number == sought
}
