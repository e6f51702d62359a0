//! The kinds of lines that the text of `why` has.
ghost use Rattle.std.specs.Prelude.{◌≡◌};
ghost use Rattle.hep_formats.specs.WhyObjects as words;

use crate::words::{after_words, is, word_at};

/// What a line of the text of `why` says.
#[derive(Clone, Copy)]
pub enum WhyLine {
    /// How many entries were made.
    Entries,
    /// Where a process waits, and what for.
    Waiting,
    /// That nobody has changed that.
    Unchanged,
    /// Who changed it last.
    Latest,
    /// Who brought it before.
    Brought,
    /// Processes that wait for each other.
    Circle,
    /// How many processes can go on.
    Able,
}

// The kind of a line that begins with this word.
fn headed_kind(word: &[u8]) -> WhyLine
    ensures { result ≡ words.headed_kind word.now }
{
    if is(word, b"AFTER") {
        return WhyLine::Entries;
    }
    if is(word, b"WAITING") {
        return WhyLine::Waiting;
    }
    if is(word, b"CIRCLE") {
        return WhyLine::Circle;
    }
    WhyLine::Able
}

/// Of a change, the words from what was done on. There is a word more before them where its process has ended.
#[tactic(auto, unfolding(crate::specs::WhyObjects::deed))]
pub(crate) fn deed(line: &[u8]) -> &[u8]
    ensures { result.now ≡ words.deed line.now }
{
    if is(word_at(10, line), b"has") {
        return after_words(12, line);
    }
    after_words(11, line)
}

// The kind of a line that begins with a bar.
fn noted_kind(line: &[u8]) -> WhyLine
    ensures { result ≡ words.noted_kind line.now }
{
    if is(word_at(7, line), b"nobody") {
        return WhyLine::Unchanged;
    }
    if is(word_at(1, deed(line)), b"it") {
        return WhyLine::Brought;
    }
    WhyLine::Latest
}

/// The kind of a line.
#[tactic(auto, unfolding(crate::specs::WhyObjects::kind_of))]
pub(crate) fn kind_of(line: &[u8]) -> WhyLine
    ensures { result ≡ words.kind_of line.now }
{
    let first = word_at(0, line);
    if is(first, b"") {
        return noted_kind(line);
    }
    headed_kind(first)
}
