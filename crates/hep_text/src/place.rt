//! The place in a source, a line and a column, that a refusal is about.
ghost use Rattle.std.specs.Prelude.{◌≡◌, ◌+◌, ◌<◌, ◌≤◌, IfSome, drop, length, option_map, slice_get, take, unwrap_or};
ghost use Rattle.std.specs.List.{position};
ghost use Rattle.hep_text.specs.Line.{is_tab, lines};
ghost use Rattle.hep_text.specs.Places as places;

use crate::line::next_line;
use crate::line_display::first_columns;
use crate::statement::{Span, Stmt};

/// The number of columns of a line that count.
const COLUMNS: usize = 72;

/// The number of columns of a label.
const LABEL_COLUMNS: usize = 5;

/// The number of columns before the text of a statement.
const COLUMNS_BEFORE_TEXT: usize = 6;

/// The column that marks a continuation line.
const MARK_COLUMN: u32 = 6;

// The line of a text that has `before` lines before it; none where there is no such line.
fn line_behind(text: &[u8], before: u32) -> Option<&[u8]>
    ensures { option_map (λ line. line.now) result ≡ slice_get (lines text.now) before }
{
    let mut left = before;
    let mut rest = text;
    while !rest.is_empty() {
        let (line, after) = next_line(rest);
        if left == 0 {
            return Some(line);
        }
        left -= 1;
        rest = after;
    }
    None
}

/// The line with this number, counted from 1; none where there is no such line.
pub fn line_at(source: &[u8], number: u32) -> Option<&[u8]>
    ensures { option_map (λ line. line.now) result ≡ places.line_at source.now number }
{
    if number == 0 {
        return None;
    }
    line_behind(source, number - 1)
}

// The column of the byte at this index, or the column after the last one where no byte was found. Columns are counted from 1.
fn column_of(found: Option<usize>, columns: &[u8]) -> u32
    requires few { length columns.now ≤ 72 }
    requires within { IfSome found (λ index. index < length columns.now) }
    ensures { result ≡ unwrap_or found (length columns.now) + 1 }
{
    found.unwrap_or(columns.len()) as u32 + 1
}

// The index of the first tab, if there is one.
fn first_tab(columns: &[u8]) -> Option<usize>
    ensures first { result ≡ position is_tab columns.now }
    ensures within { IfSome result (λ index. index < length columns.now) }
{
    columns.iter().position(|byte| *byte == b'\t')
}

// The index of the first byte that isn't printable, if there is one.
fn first_unprintable(columns: &[u8]) -> Option<usize>
    ensures first { result ≡ position places.is_unprintable columns.now }
    ensures within { IfSome result (λ index. index < length columns.now) }
{
    columns
        .iter()
        .position(|byte| !(b' ' <= *byte && *byte <= b'~'))
}

// The index of the first byte that a label field may not have, if there is one.
fn first_no_label(columns: &[u8]) -> Option<usize>
    ensures first { result ≡ position places.is_no_label columns.now }
    ensures within { IfSome result (λ index. index < length columns.now) }
{
    columns
        .iter()
        .position(|byte| !(*byte == b' ' || b'0' <= *byte && *byte <= b'9'))
}

// The index of the first apostrophe, if there is one.
fn first_apostrophe(columns: &[u8]) -> Option<usize>
    ensures first { result ≡ position places.is_apostrophe columns.now }
    ensures within { IfSome result (λ index. index < length columns.now) }
{
    columns.iter().position(|byte| *byte == b'\'')
}

// The index of the first byte that is no blank, if there is one.
fn first_no_blank(columns: &[u8]) -> Option<usize>
    ensures first { result ≡ position places.is_no_blank columns.now }
    ensures within { IfSome result (λ index. index < length columns.now) }
{
    columns.iter().position(|byte| *byte != b' ')
}

// The column where the text of a statement begins, counted from 1 at column 7.
fn text_column(columns: &[u8]) -> u32
    requires { length columns.now ≤ 72 }
    ensures { result ≡ places.first_column places.is_no_blank (drop 6 columns.now) }
{
    let text = &columns[columns.len().min(COLUMNS_BEFORE_TEXT)..];
    column_of(first_no_blank(text), text)
}

// The column of a line that the rule with this number is about, counted from 1.
fn column_of_line(number: u16, line: &[u8]) -> u32
    ensures { result ≡ places.column_of_line number line.now }
{
    let columns = first_columns(line, COLUMNS);
    let label = first_columns(line, LABEL_COLUMNS);
    match number {
        101 => column_of(first_tab(columns), columns),
        102 => column_of(first_unprintable(columns), columns),
        103 => column_of(first_no_label(label), label),
        106 => column_of(first_apostrophe(columns), columns),
        104 | 105 => MARK_COLUMN,
        _ => MARK_COLUMN + text_column(columns),
    }
}

/// The line and column where the rule with this number is broken; none where the source has no such line.
pub fn place_of_line(source: &[u8], number: u16, line: u32) -> Option<Span>
    ensures { result ≡ places.place_of_line source.now number line }
{
    let text = line_at(source, line)?;
    Some(Span {
        line,
        column: column_of_line(number, text),
    })
}

fn span_of(spans: &[Span], index: usize) -> Option<Span>
    ensures { result ≡ slice_get spans.now index }
{
    spans.get(index).copied()
}

/// The line and column of the character at `index` in the statement that begins on `line`; none where there is no such character.
pub fn place_in(statements: &[Stmt], line: u32, index: usize) -> Option<Span>
    ensures { result ≡ places.place_in statements.now line index }
{
    for statement in statements {
        if statement.line == line {
            return span_of(statement.spans.as_slice(), index);
        }
    }
    None
}
