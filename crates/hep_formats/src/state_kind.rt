//! The kinds of lines that the text of `state` has.
ghost use Rattle.std.specs.Prelude.{◌≡◌};
ghost use Rattle.hep_formats.specs.StateObjects as words;

use crate::words::{is, word_at};

/// What a line of the text of `state` says.
#[derive(Clone, Copy)]
pub enum StateLine {
    /// How many entries were made.
    Entries,
    /// Where a process is, and what it waits for.
    Process,
    /// Where a process goes on after a CALL or a reference.
    Return,
    /// The common block of the variables after it.
    Common,
    /// The activation of the variables after it.
    Activation,
    /// The cells of a variable.
    Variable,
    /// What a dummy argument is associated with.
    Association,
    /// A line of the source.
    Source,
}

// The kind of a line that begins with this word.
fn headed_kind(word: &[u8]) -> StateLine
    ensures { result ≡ words.headed_kind word.now }
{
    if is(word, b"AFTER") {
        return StateLine::Entries;
    }
    if is(word, b"PROCESS") {
        return StateLine::Process;
    }
    if is(word, b"COMMON") {
        return StateLine::Common;
    }
    if is(word, b"ACTIVATION") {
        return StateLine::Activation;
    }
    StateLine::Source
}

// The kind of a line that begins with two blanks and a word, by the word after that.
fn indented_kind(word: &[u8]) -> StateLine
    ensures { result ≡ words.indented_kind word.now }
{
    if is(word, b"TO") {
        return StateLine::Return;
    }
    if is(word, b"=") {
        return StateLine::Variable;
    }
    if is(word, b"IS") {
        return StateLine::Association;
    }
    StateLine::Source
}

/// The kind of a line.
#[tactic(auto, unfolding(crate::specs::StateObjects::kind_of))]
pub(crate) fn kind_of(line: &[u8]) -> StateLine
    ensures { result ≡ words.kind_of line.now }
{
    let first = word_at(0, line);
    if !is(first, b"") {
        return headed_kind(first);
    }
    if !is(word_at(1, line), b"") {
        return StateLine::Source;
    }
    indented_kind(word_at(3, line))
}
