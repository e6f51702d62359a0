//! The lines of a source with their counts.
ghost use Rattle.std.specs.Prelude.{◌≡◌, ◌≤◌, ◌++◌, OnOk, length, replicate, slice_get};
ghost use Rattle.std.specs.Option.{option_flatten};
ghost use Rattle.hep_text.specs.Line.{lines};
ghost use Rattle.hep_cover.specs.Lines as words;

use hep_output::append_number;
use hep_text::line::next_line;
use std::alloc::{AllocError, Global};

// The width of a count, and that of a line's number.
const COUNT_WIDTH: usize = 9;

const NUMBER_WIDTH: usize = 5;

/// The number of lines of a text.
pub fn line_count(text: &[u8]) -> usize
    ensures { result ≡ length (lines text.now) }
{
    let mut count = 0;
    let mut rest = text;
    while !rest.is_empty() {
        let (_, behind) = next_line(rest);
        count += 1;
        rest = behind;
    }
    count
}

fn append_blanks(text: &mut Vec<u8>, count: usize) -> Result<(), AllocError>
    ensures { OnOk result (text.new.items ≡ text.old.items ++ replicate count 32) }
{
    for _ in 0..count {
        text.push(b' ')?;
    }
    Ok(())
}

// A word with blanks before it, up to a width.
fn append_padded(text: &mut Vec<u8>, width: usize, word: &[u8]) -> Result<(), AllocError>
    ensures { OnOk result (text.new.items ≡ text.old.items ++ words.padded width word.now) }
{
    append_blanks(text, width.saturating_sub(word.len()))?;
    text.extend_from_slice(word)?;
    Ok(())
}

fn append_word(text: &mut Vec<u8>, count: Option<u64>) -> Result<(), AllocError>
    ensures { OnOk result (text.new.items ≡ text.old.items ++ words.count_text count) }
{
    match count {
        None => text.extend_from_slice(b"-"),
        Some(0) => text.extend_from_slice(b"#####"),
        Some(count) => append_number(text, count),
    }
}

fn append_count(alloc: Global, text: &mut Vec<u8>, count: Option<u64>) -> Result<(), AllocError>
    ensures { OnOk result (text.new.items ≡ text.old.items ++ words.padded 9 (words.count_text count)) }
{
    let mut word = Vec::new(alloc);
    append_word(&mut word, count)?;
    append_padded(text, COUNT_WIDTH, &word)
}

fn append_line_number(alloc: Global, text: &mut Vec<u8>, number: usize) -> Result<(), AllocError>
    ensures { OnOk result (text.new.items ≡ text.old.items ++ words.padded 5 (words.number_text number)) }
{
    let mut word = Vec::new(alloc);
    append_number(&mut word, number)?;
    append_padded(text, NUMBER_WIDTH, &word)
}

// A line with its number.
fn append_line(
    alloc: Global,
    text: &mut Vec<u8>,
    count: Option<u64>,
    number: usize,
    line: &[u8],
) -> Result<(), AllocError>
    ensures { OnOk result (text.new.items ≡ text.old.items ++ words.line_text count number line.now) }
{
    append_count(alloc, text, count)?;
    text.extend_from_slice(b":")?;
    append_line_number(alloc, text, number)?;
    text.extend_from_slice(b":")?;
    text.extend_from_slice(line)?;
    text.extend_from_slice(b"\n")?;
    Ok(())
}

// The count of the line after the first `before` ones.
fn count_behind(counts: &[Option<u64>], before: usize) -> Option<u64>
    ensures { result ≡ option_flatten (slice_get counts.now before) }
{
    match counts.get(before) {
        Some(count) => *count,
        None => None,
    }
}

// Appends all lines of a source, each with its count and its number.
fn append_lines(
    alloc: Global,
    text: &mut Vec<u8>,
    source: &[u8],
    counts: &[Option<u64>],
) -> Result<(), AllocError>
    ensures { OnOk result (text.new.items ≡ text.old.items ++ words.lines_text counts.now 0 (lines source.now)) }
{
    let mut before = 0;
    let mut rest = source;
    while !rest.is_empty() {
        let (line, behind) = next_line(rest);
        append_line(alloc, text, count_behind(counts, before), before + 1, line)?;
        before += 1;
        rest = behind;
    }
    Ok(())
}

/// The number of lines with a statement that can begin, and of those whose statement began.
pub(crate) fn totals(counts: &[Option<u64>]) -> (usize, usize)
    ensures all { result.0 ≡ words.can_begin_in counts.now }
    ensures began { result.1 ≡ words.begun_in counts.now }
    ensures few { result.1 ≤ result.0 }
{
    let mut all = 0;
    let mut began = 0;
    for count in counts {
        if let Some(count) = count {
            all += 1;
            if *count != 0 {
                began += 1;
            }
        }
    }
    (all, began)
}

// Appends how many lines have a statement that can begin, how many of these began, and how many never did.
fn append_total(text: &mut Vec<u8>, all: usize, began: usize) -> Result<(), AllocError>
    requires { began ≤ all }
    ensures { OnOk result (text.new.items ≡ text.old.items ++ words.total_text all began) }
{
    text.extend_from_slice(b"LINES ")?;
    append_number(text, all)?;
    text.extend_from_slice(b" BEGAN ")?;
    append_number(text, began)?;
    text.extend_from_slice(b" NEVER ")?;
    append_number(text, all - began)?;
    text.extend_from_slice(b"\n")?;
    Ok(())
}

/// Appends all lines of a source, each with its count and its number, and how many lines began and how many never did.
///
/// # Errors
///
/// Only where memory was refused.
pub fn append_coverage(
    alloc: Global,
    text: &mut Vec<u8>,
    source: &[u8],
    counts: &[Option<u64>],
) -> Result<(), AllocError>
    ensures { OnOk result (text.new.items ≡ text.old.items ++ words.coverage_text counts.now (lines source.now)) }
{
    append_lines(alloc, text, source, counts)?;
    let (all, began) = totals(counts);
    append_total(text, all, began)
}
