//! Warnings of characters after column 72.
ghost use Rattle.std.specs.Prelude.{◌≡◌, ◌++◌, drop, not, IfOk, OnOk};
ghost use Rattle.std.specs.List.{list_all};
ghost use Rattle.hep_text.specs.Line.{is_blank, kind};
ghost use Rattle.hep_warnings.specs.PastColumn72 as behind;

use crate::warning::{Warning, WarningKind};
use hep_text::line::{LineKind, kind, next_line};
use std::alloc::{AllocError, Global};

/// The number of columns of a line that count.
const COLUMNS: usize = 72;

/// The greatest number of lines of a source that isn't refused.
const MOST_LINES: u32 = 65_535;

// Whether a line is a comment line.
fn is_comment(line: &[u8]) -> bool
    ensures { result ≡ behind.is_comment (kind line.now) }
{
    match kind(line) {
        LineKind::Comment => true,
        LineKind::Initial(_label, _body) => false,
        LineKind::Continuation(_body) => false,
        LineKind::Refused(_number) => false,
    }
}

// Whether all these columns are blank.
fn all_blank(columns: &[u8]) -> bool
    ensures { result ≡ list_all is_blank columns.now }
{
    for byte in columns {
        if *byte != b' ' {
            return false;
        }
    }
    true
}

// The columns after the first `count`.
fn rest_after(count: usize, columns: &[u8]) -> &[u8]
    ensures { result.now ≡ drop count columns.now }
{
    if count < columns.len() {
        &columns[count..]
    } else {
        &columns[columns.len()..]
    }
}

// Whether a character other than a blank follows column 72.
fn has_more(line: &[u8]) -> bool
    ensures { result ≡ not (list_all is_blank (drop 72 line.now)) }
{
    !all_blank(rest_after(COLUMNS, line))
}

// Adds the warning of the line with this number, if a character other than a blank follows column 72 and the line is no comment.
fn add_line(found: &mut Vec<Warning>, number: u32, line: &[u8]) -> Result<(), AllocError>
    ensures { OnOk result (found.new.items ≡ found.old.items ++ behind.line_warnings number line.now) }
{
    if has_more(line) && !is_comment(line) {
        found.push(Warning {
            line: number,
            kind: WarningKind::Behind,
        })?;
    }
    Ok(())
}

/// The warnings of lines with characters after column 72, in order.
///
/// # Errors
///
/// Only where memory was refused.
pub fn behind_warnings(alloc: Global, source: &[u8]) -> Result<Vec<Warning>, AllocError>
    ensures { IfOk result (λ found. found.items ≡ behind.behind_warnings source.now) }
{
    let mut found = Vec::new(alloc);
    let mut left = MOST_LINES;
    let mut number: u32 = 1;
    let mut rest = source;
    while left > 0 && !rest.is_empty() {
        let (line, after) = next_line(rest);
        add_line(&mut found, number, line)?;
        left -= 1;
        number += 1;
        rest = after;
    }
    Ok(found)
}
