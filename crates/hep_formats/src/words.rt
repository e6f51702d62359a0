//! The words of a line, between blanks.
ghost use Rattle.std.specs.Prelude.{◌≡◌, ◌≤◌, drop, length};
ghost use Rattle.std.specs.List.{prefix_len};
ghost use Rattle.std.specs.Str.{bytes_eq};
ghost use Rattle.hep_formats.specs.LineWords as words;

/// Whether a word is this one.
pub(crate) fn is(word: &[u8], text: &[u8]) -> bool
    ensures { result ≡ bytes_eq word.now text.now }
{
    word == text
}

// The number of bytes before the first one of a kind, or of all bytes where there is none.
fn count_before(mark: u8, text: &[u8]) -> usize
    ensures count { result ≡ prefix_len (words.is_other mark) text.now }
    ensures within { result ≤ length text.now }
{
    text.iter().take_while(|byte| **byte != mark).count()
}

/// The bytes before the first one of a kind, or all of them where there is none.
pub(crate) fn up_to(mark: u8, text: &[u8]) -> &[u8]
    ensures { result.now ≡ words.up_to mark text.now }
{
    &text[..count_before(mark, text)]
}

/// The bytes from the first one of a kind on, or none.
pub(crate) fn from(mark: u8, text: &[u8]) -> &[u8]
    ensures { result.now ≡ words.from mark text.now }
{
    &text[count_before(mark, text)..]
}

/// A text up to its first blank, whatever else is in it.
pub(crate) fn before_blank(text: &[u8]) -> &[u8]
    ensures { result.now ≡ words.before_blank text.now }
{
    up_to(b' ', text)
}

/// The text after the first blank, or nothing where there is none.
pub fn after_blank(text: &[u8]) -> &[u8]
    ensures { result.now ≡ words.after_blank text.now }
{
    let rest = from(b' ', text);
    if rest.is_empty() {
        return rest;
    }
    &rest[1..]
}

/// The bytes after a number of words, each of which ends at a blank.
#[tactic(auto, unfolding(crate::specs::LineWords::after_words))]
pub(crate) fn after_words(count: usize, line: &[u8]) -> &[u8]
    ensures { result.now ≡ words.after_words count line.now }
{
    let mut rest = line;
    for _ in 0..count {
        rest = after_blank(rest);
    }
    rest
}

/// The word at an index. It is empty where two blanks are side by side, and past the end of the line.
#[tactic(auto, unfolding(crate::specs::LineWords::word_at))]
pub(crate) fn word_at(index: usize, line: &[u8]) -> &[u8]
    ensures { result.now ≡ words.word_at index line.now }
{
    before_blank(after_words(index, line))
}
