//! Lines and their kinds (X3.9-1978, 3.2).
ghost use Rattle.std.specs.Prelude.{◌≡◌, ◌<◌, ◌≤◌, ◌∷◌, ◌+◌, IsTrue, length, take, drop, get_or};
ghost use Rattle.std.specs.List.{list_all};
ghost use Rattle.hep_text.specs.Characters.{blank, label_columns};
ghost use Rattle.hep_text.specs.Line as lines;

/// The number of columns of a line that count (X3.9-1978, 3.2).
const COLUMNS: usize = 72;

/// The number of columns of the label (X3.9-1978, 3.2.2).
const LABEL_COLUMNS: usize = 5;

/// The number of columns before the text: those of the label, and column 6, which marks a continuation line (X3.9-1978, 3.2.3).
const COLUMNS_BEFORE_TEXT: usize = 6;

/// The kind of a line, by its columns 1 to 72.
pub enum LineKind<'a> {
    /// A comment line (X3.9-1978, 3.2.1).
    Comment,
    /// An initial line (X3.9-1978, 3.2.2): its label, and its bytes from column 7 on.
    Initial(Option<u32>, &'a [u8]),
    /// A continuation line (X3.9-1978, 3.2.3): its bytes from column 7 on.
    Continuation(&'a [u8]),
    /// A line that breaks a rule, with the number of the refusal.
    Refused(u16),
}

/// The first line of a text that isn't empty, and the text after that line.
#[tactic(auto, using(crate::proofs::Cut::goes_on, crate::proofs::Cut::ends, crate::proofs::Cut::ends_at_return, crate::proofs::Cut::is_last))]
pub fn next_line(text: &[u8]) -> (&[u8], &[u8])
    requires { 0 < length text.now }
    ensures cut { lines.lines text.now ≡ result.0.now ∷ lines.lines result.1.now }
    ensures less { length result.1.now < length text.now }
{
    for i in 0..text.len() {
        if text[i] == b'\n' {
            return (&text[..i], &text[i + 1..]);
        }
        if is_return_before_feed(text, i) {
            return (&text[..i], &text[i + 2..]);
        }
    }
    (text, &text[text.len()..])
}

/// Whether the byte at an index is a carriage return, and the byte after it is a line feed.
fn is_return_before_feed(text: &[u8], index: usize) -> bool
    requires { index < length text.now }
    ensures value { result ≡ lines.is_return_before_feed text.now index }
    ensures room { IsTrue result → index + 1 < length text.now }
{
    text[index] == b'\r' && column(text, index + 1) == b'\n'
}

/// The kind of a line.
#[tactic(auto, unfolding(crate::specs::Line::kind))]
pub fn kind(line: &[u8]) -> LineKind<'_>
    ensures { lines.kind_view result ≡ lines.kind line.now }
{
    if is_comment(line) {
        return LineKind::Comment;
    }
    let columns = front(COLUMNS, line);
    if columns.contains(&b'\t') {
        return LineKind::Refused(101);
    }
    if !all_printable(columns) {
        return LineKind::Refused(102);
    }
    labelled(
        front(LABEL_COLUMNS, line),
        column(line, LABEL_COLUMNS),
        rest_after(COLUMNS_BEFORE_TEXT, line),
    )
}

/// The kind of a line that is no comment and has only printable characters: `field` is its columns
/// 1 to 5, `mark` its column 6, and `rest` its bytes from column 7 on.
#[tactic(auto, unfolding(crate::specs::Line::labelled))]
fn labelled<'a>(field: &[u8], mark: u8, rest: &'a [u8]) -> LineKind<'a>
    requires { length field.now ≤ label_columns }
    ensures { lines.kind_view result ≡ lines.labelled field.now mark rest.now }
{
    if !all_blank_or_digit(field) {
        return LineKind::Refused(103);
    }
    match (label(field), is_continuation_mark(mark)) {
        (Some(0), _) | (Some(_), true) => LineKind::Refused(103),
        (None, true) => LineKind::Continuation(rest),
        (label, false) => LineKind::Initial(label, rest),
    }
}

/// The number that the digits of a label field form; none where the field has no digit.
#[tactic(auto, using(crate::proofs::Labels::label_more, crate::proofs::Labels::limit_five))]
fn label(field: &[u8]) -> Option<u32>
    requires { length field.now ≤ label_columns }
    ensures { result ≡ lines.label field.now }
{
    let mut number = None;
    for byte in field {
        if is_digit(*byte) {
            number = Some(10 * number.unwrap_or(0) + u32::from(*byte - b'0'));
        }
    }
    number
}

/// Whether a line is a comment line (X3.9-1978, 3.2.1).
fn is_comment(line: &[u8]) -> bool
    ensures { result ≡ lines.is_comment line.now }
{
    is_comment_mark(column(line, 0)) || all_blank(front(COLUMNS, line))
}

fn all_blank(columns: &[u8]) -> bool
    ensures { result ≡ list_all lines.is_blank columns.now }
{
    columns.iter().all(|byte| *byte == b' ')
}

fn all_printable(columns: &[u8]) -> bool
    ensures { result ≡ list_all lines.is_printable columns.now }
{
    columns.iter().all(|byte| is_printable(*byte))
}

fn all_blank_or_digit(columns: &[u8]) -> bool
    ensures { result ≡ list_all lines.is_blank_or_digit columns.now }
{
    columns.iter().all(|byte| is_blank_or_digit(*byte))
}

fn is_comment_mark(byte: u8) -> bool
    ensures { result ≡ lines.is_comment_mark byte }
{
    byte == b'C' || byte == b'c' || byte == b'*'
}

fn is_continuation_mark(byte: u8) -> bool
    ensures { result ≡ lines.is_continuation_mark byte }
{
    !(byte == b' ' || byte == b'0')
}

fn is_printable(byte: u8) -> bool
    ensures { result ≡ lines.is_printable byte }
{
    b' ' <= byte && byte <= b'~'
}

fn is_digit(byte: u8) -> bool
    ensures { result ≡ lines.is_digit byte }
{
    b'0' <= byte && byte <= b'9'
}

fn is_blank_or_digit(byte: u8) -> bool
    ensures { result ≡ lines.is_blank_or_digit byte }
{
    byte == b' ' || is_digit(byte)
}

/// The first `count` bytes, or all of them where there are fewer.
fn front(count: usize, bytes: &[u8]) -> &[u8]
    ensures { result.now ≡ take count bytes.now }
{
    if count < bytes.len() {
        &bytes[..count]
    } else {
        bytes
    }
}

/// The bytes after the first `count`; none where there are no more.
fn rest_after(count: usize, bytes: &[u8]) -> &[u8]
    ensures { result.now ≡ drop count bytes.now }
{
    if count < bytes.len() {
        &bytes[count..]
    } else {
        &bytes[bytes.len()..]
    }
}

/// The byte at an index, or a blank past the end: a short line counts as padded with blanks.
pub fn column(line: &[u8], index: usize) -> u8
    ensures { result ≡ get_or line.now index blank }
{
    line.get(index).copied().unwrap_or(b' ')
}
