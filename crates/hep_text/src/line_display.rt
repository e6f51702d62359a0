//! Lines of a source as they are shown, with a caret under a column.
ghost use Rattle.std.specs.Prelude.{◌≡◌, ◌≤◌, ◌++◌, OnOk, length, map, take};
ghost use Rattle.std.specs.Fmt.{decimal};
ghost use Rattle.hep_text.specs.LineDisplay as shown;

use itoa::Buffer;
use std::alloc::AllocError;

/// The number of columns for the number of a line.
const NUMBER_COLUMNS: usize = 5;

/// The number of columns of a line that are shown.
const COLUMNS: usize = 80;

/// The first `count` columns of a line, or all of them where there are fewer.
pub(crate) fn first_columns(line: &[u8], count: usize) -> &[u8]
    ensures first { result.now ≡ take count line.now }
    ensures few { length result.now ≤ count }
{
    &line[..line.len().min(count)]
}

// Appends `count` blanks.
fn append_blanks(text: &mut Vec<u8>, count: usize) -> Result<(), AllocError>
    ensures { OnOk result (text.new.items ≡ text.old.items ++ shown.blanks count) }
{
    for _blank in 0..count {
        text.push(b' ')?;
    }
    Ok(())
}

// Appends the margin of a line: its number or none, and a bar.
fn append_margin(text: &mut Vec<u8>, number: &[u8]) -> Result<(), AllocError>
    ensures { OnOk result (text.new.items ≡ text.old.items ++ shown.margin number.now) }
{
    append_blanks(text, NUMBER_COLUMNS.saturating_sub(number.len()))?;
    text.extend_from_slice(number)?;
    text.extend_from_slice(b" | ")?;
    Ok(())
}

// A byte as it is shown: itself where it is printable, and else a question mark.
fn shown(byte: u8) -> u8
    ensures { result ≡ shown.shown byte }
{
    match byte {
        b' '..=b'~' => byte,
        _ => b'?',
    }
}

// Appends bytes as they are shown.
fn append_shown(text: &mut Vec<u8>, bytes: &[u8]) -> Result<(), AllocError>
    ensures { OnOk result (text.new.items ≡ text.old.items ++ map shown.shown bytes.now) }
{
    for byte in bytes {
        text.push(shown(*byte))?;
    }
    Ok(())
}

// Appends the margin of the line with this number.
fn append_numbered_margin(text: &mut Vec<u8>, number: u32) -> Result<(), AllocError>
    ensures { OnOk result (text.new.items ≡ text.old.items ++ shown.margin (decimal number)) }
{
    let mut buffer = Buffer::new();
    append_margin(text, buffer.format(number).as_bytes())
}

/// Appends the line with this number, to column 80.
///
/// # Errors
///
/// Only where memory was refused.
pub fn append_line(text: &mut Vec<u8>, number: u32, line: &[u8]) -> Result<(), AllocError>
    ensures { OnOk result (text.new.items ≡ text.old.items ++ shown.line_text number line.now) }
{
    append_numbered_margin(text, number)?;
    append_shown(text, first_columns(line, COLUMNS))?;
    text.extend_from_slice(b"\n")?;
    Ok(())
}

/// Appends a line of words after an empty margin.
///
/// # Errors
///
/// Only where memory was refused.
pub fn append_words(text: &mut Vec<u8>, words: &[u8]) -> Result<(), AllocError>
    ensures { OnOk result (text.new.items ≡ text.old.items ++ shown.words_text words.now) }
{
    append_margin(text, b"")?;
    text.extend_from_slice(words)?;
    text.extend_from_slice(b"\n")?;
    Ok(())
}

/// Appends a line with a caret under a column, counted from 1, and words after the caret.
///
/// # Errors
///
/// Only where memory was refused.
pub fn append_caret(text: &mut Vec<u8>, column: u32, words: &[u8]) -> Result<(), AllocError>
    ensures { OnOk result (text.new.items ≡ text.old.items ++ shown.caret_text column words.now) }
{
    append_margin(text, b"")?;
    append_blanks(text, column.saturating_sub(1) as usize)?;
    text.extend_from_slice(b"^ ")?;
    text.extend_from_slice(words)?;
    text.extend_from_slice(b"\n")?;
    Ok(())
}
