//! Where in a text marks are, byte by byte.
ghost use Rattle.std.specs.Prelude.{◌≡◌};
ghost use Rattle.hep_formats.specs.Colors as words;

use crate::mark::Mark;

/// Which words of a text tell most.
#[derive(Clone, Copy)]
pub enum TextKind {
    /// The text of `state` or of `why`.
    State,
    /// The lines of `trace`.
    Trace,
    /// What a run writes to standard error, or an outcome of `sample`. A line that begins with a blank is a record there, and gets no mark.
    Outcome,
}

/// Where a byte of a text is.
#[derive(Clone, Copy)]
pub enum Place {
    /// At the beginning of a line,
    Line,
    /// or at that of a word,
    Word,
    /// or in a word, after no mark.
    Inside,
    /// In a line that gets no mark.
    Record,
    /// After a mark that goes to the end of the line,
    Marked,
    /// or of so many words, one or two.
    OneWord,
    TwoWords,
}

/// A mark, and how far it goes.
#[derive(Clone, Copy)]
pub struct Step {
    pub mark: Mark,
    pub place: Place,
}

// A mark to the end of the line.
fn marked(mark: Mark) -> Step
    ensures { result ≡ words.marked mark }
{
    Step {
        mark,
        place: Place::Marked,
    }
}

// A mark of two words.
fn two_words(mark: Mark) -> Step
    ensures { result ≡ words.two_words mark }
{
    Step {
        mark,
        place: Place::TwoWords,
    }
}

// No mark.
fn at(place: Place) -> Step
    ensures { result ≡ words.at place }
{
    Step {
        mark: Mark::Absent,
        place,
    }
}

// The mark of the word with which a text of `state` or of `why` begins.
fn state_step(text: &[u8]) -> Step
    ensures { result ≡ words.state_step text.now }
{
    if text.starts_with(b"PROCESS ") {
        two_words(Mark::Bold)
    } else if text.starts_with(b"WAITING ") || text.starts_with(b"CIRCLE ") {
        marked(Mark::Red)
    } else if text.starts_with(b"| ") {
        marked(Mark::Dim)
    } else {
        at(Place::Inside)
    }
}

// That of the word with which a part of a line of `trace` begins.
fn trace_step(text: &[u8]) -> Step
    ensures { result ≡ words.trace_step text.now }
{
    if text.starts_with(b"PROCESS ") {
        two_words(Mark::Bold)
    } else if text.starts_with(b"take ")
        || text.starts_with(b"ask ")
        || text.starts_with(b"purge ")
    {
        marked(Mark::Blue)
    } else if text.starts_with(b"fill ") {
        marked(Mark::BoldBlue)
    } else if text.starts_with(b"read ") || text.starts_with(b"store ") {
        marked(Mark::Yellow)
    } else if text.starts_with(b"waits ") {
        marked(Mark::Red)
    } else if text.starts_with(b"FAULT ") {
        marked(Mark::BoldRed)
    } else if text.starts_with(b"print") {
        marked(Mark::BoldGreen)
    } else if text.starts_with(b"creates ") || text.starts_with(b"resumes") {
        marked(Mark::Magenta)
    } else if text.starts_with(b"calls ") || text.starts_with(b"returns") {
        marked(Mark::Magenta)
    } else {
        at(Place::Inside)
    }
}

// That of the word with which a part of a line of an outcome begins.
fn outcome_step(text: &[u8]) -> Step
    ensures { result ≡ words.outcome_step text.now }
{
    if text.starts_with(b"STATUS ") {
        two_words(Mark::Bold)
    } else if text.starts_with(b"FAULT ")
        || text.starts_with(b"REFUSED ")
        || text.starts_with(b"STOPPED ")
    {
        marked(Mark::BoldRed)
    } else if text.starts_with(b"WAITING ") {
        marked(Mark::Red)
    } else if text.starts_with(b"WARNING ") {
        marked(Mark::Yellow)
    } else {
        at(Place::Inside)
    }
}

// That of a word by the kind of the text.
fn word_step(kind: TextKind, text: &[u8]) -> Step
    ensures { result ≡ words.word_step kind text.now }
{
    match kind {
        TextKind::State => state_step(text),
        TextKind::Trace => trace_step(text),
        TextKind::Outcome => outcome_step(text),
    }
}

// At a line feed, which ends all marks.
fn feed_step(place: Place) -> Step
    ensures { result ≡ words.feed_step place }
{
    match place {
        Place::Marked | Place::OneWord | Place::TwoWords => Step {
            mark: Mark::Plain,
            place: Place::Line,
        },
        _ => at(Place::Line),
    }
}

// At a blank, which ends a word.
fn blank_step(kind: TextKind, place: Place) -> Step
    ensures { result ≡ words.blank_step kind place }
{
    match (place, kind) {
        (Place::Line, TextKind::Outcome) => at(Place::Record),
        (Place::Record | Place::Marked, _) => at(place),
        (Place::OneWord, _) => Step {
            mark: Mark::Plain,
            place: Place::Word,
        },
        (Place::TwoWords, _) => at(Place::OneWord),
        _ => at(Place::Word),
    }
}

/// The mark before the first byte of a text at a place, and the place after the byte.
pub(crate) fn step_at(kind: TextKind, place: Place, byte: u8, text: &[u8]) -> Step
    ensures { result ≡ words.step_at kind place byte text.now }
{
    if byte == b'\n' {
        return feed_step(place);
    }
    if byte == b' ' {
        return blank_step(kind, place);
    }
    match place {
        Place::Line | Place::Word => word_step(kind, text),
        _ => at(place),
    }
}
