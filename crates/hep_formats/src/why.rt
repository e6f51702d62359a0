//! The objects of the lines of why processes wait.
ghost use Rattle.std.specs.Prelude.{◌≡◌, ◌++◌, IfOk, OnOk};
ghost use Rattle.hep_formats.specs.WhyObjects as words;

use crate::members::{append_place, append_string, append_wanted, append_word};
use crate::why_kind::{WhyLine, deed, kind_of};
use crate::words::{after_words, is, up_to, word_at};
use hep_text::line::next_line;
use std::alloc::{AllocError, Global};

// What has become of the process that made a change, as a string.
fn fate(word: &[u8]) -> &'static [u8]
    ensures { result.now ≡ words.fate word.now }
{
    if is(word, b"waits,") {
        return b"\"waiting\"";
    }
    if is(word, b"lives,") {
        return b"\"living\"";
    }
    b"\"ended\""
}

// Appends the process of a change and its place, with the words from that on.
fn append_change_front(text: &mut Vec<u8>, line: &[u8], place: &[u8]) -> Result<(), AllocError>
    ensures { OnOk result (text.new.items ≡ text.old.items ++ words.change_front line.now place.now) }
{
    append_word(text, b"{\"process\":", up_to(b',', word_at(8, line)))?;
    append_place(text, word_at(0, place), word_at(2, place))?;
    Ok(())
}

// Appends what has become of the process, what it did, and the entry.
fn append_change_members(text: &mut Vec<u8>, line: &[u8], place: &[u8]) -> Result<(), AllocError>
    ensures { OnOk result (text.new.items ≡ text.old.items ++ words.change_members line.now place.now) }
{
    append_word(text, b",\"state\":", fate(word_at(10, line)))?;
    append_string(text, b",\"did\":", word_at(0, deed(line)))?;
    append_word(text, b",\"entry\":", word_at(5, place))?;
    Ok(())
}

// Appends the object of a change, with the words from its place on.
fn append_change(text: &mut Vec<u8>, line: &[u8], place: &[u8]) -> Result<(), AllocError>
    ensures { OnOk result (text.new.items ≡ text.old.items ++ words.change_object line.now place.now) }
{
    append_change_front(text, line, place)?;
    append_change_members(text, line, place)?;
    text.extend_from_slice(b"}")?;
    Ok(())
}

// Appends the name of what a process waits for, as its unit calls it.
fn append_name(text: &mut Vec<u8>, name: &[u8]) -> Result<(), AllocError>
    ensures { OnOk result (text.new.items ≡ text.old.items ++ words.name_member name.now) }
{
    append_string(text, b",\"name\":", name)
}

// The processes of a circle after the first one, which ends the line again.
fn others(line: &[u8]) -> &[u8]
    ensures { result.now ≡ words.others line.now }
{
    let listed = after_words(8, line);
    let first = word_at(1, line);
    &listed[..listed.len().saturating_sub(first.len() + 2)]
}

// Begins the object of the number of entries.
fn append_entries(text: &mut Vec<u8>, line: &[u8]) -> Result<(), AllocError>
    ensures { OnOk result (text.new.items ≡ text.old.items ++ words.entries_front line.now) }
{
    append_word(text, b"{\"entries\":", word_at(1, line))
}

// Ends an object, and begins that of a process that waits.
fn append_waiting(text: &mut Vec<u8>, line: &[u8]) -> Result<(), AllocError>
    ensures { OnOk result (text.new.items ≡ text.old.items ++ words.waiting_front line.now) }
{
    append_word(text, b"}\n{\"process\":", word_at(1, line))?;
    append_place(text, word_at(2, line), word_at(4, line))?;
    append_wanted(text, after_words(6, line))?;
    Ok(())
}

// Ends an object, and begins that of a circle.
fn append_circle(text: &mut Vec<u8>, line: &[u8]) -> Result<(), AllocError>
    ensures { OnOk result (text.new.items ≡ text.old.items ++ words.circle_front line.now) }
{
    text.extend_from_slice(b"}\n{\"circle\":[")?;
    text.extend_from_slice(word_at(1, line))?;
    text.extend_from_slice(b", ")?;
    text.extend_from_slice(others(line))?;
    text.extend_from_slice(b"]")
}

// Ends an object, and begins that of the number of those that can go on.
fn append_able(text: &mut Vec<u8>, line: &[u8]) -> Result<(), AllocError>
    ensures { OnOk result (text.new.items ≡ text.old.items ++ words.able_front line.now) }
{
    append_word(text, b"}\n{\"can_go_on\":", word_at(1, line))
}

// Adds that nobody has changed what a process waits for.
fn append_unchanged(text: &mut Vec<u8>, line: &[u8]) -> Result<(), AllocError>
    ensures { OnOk result (text.new.items ≡ text.old.items ++ words.unchanged_members line.now) }
{
    append_name(text, word_at(12, line))?;
    text.extend_from_slice(b",\"last\":null")?;
    Ok(())
}

// Adds who changed it last.
fn append_latest(text: &mut Vec<u8>, line: &[u8]) -> Result<(), AllocError>
    ensures { OnOk result (text.new.items ≡ text.old.items ++ words.latest_members line.now) }
{
    append_name(text, word_at(1, deed(line)))?;
    text.extend_from_slice(b",\"last\":")?;
    append_change(text, line, after_words(3, deed(line)))?;
    Ok(())
}

// Adds who brought it before.
fn append_brought(text: &mut Vec<u8>, line: &[u8]) -> Result<(), AllocError>
    ensures { OnOk result (text.new.items ≡ text.old.items ++ words.brought_member line.now) }
{
    text.extend_from_slice(b",\"brought\":")?;
    append_change(text, line, after_words(4, deed(line)))?;
    Ok(())
}

// What a line begins or adds.
fn append_part(text: &mut Vec<u8>, line: &[u8]) -> Result<(), AllocError>
    ensures { OnOk result (text.new.items ≡ text.old.items ++ words.part line.now) }
{
    match kind_of(line) {
        WhyLine::Entries => append_entries(text, line),
        WhyLine::Waiting => append_waiting(text, line),
        WhyLine::Unchanged => append_unchanged(text, line),
        WhyLine::Latest => append_latest(text, line),
        WhyLine::Brought => append_brought(text, line),
        WhyLine::Circle => append_circle(text, line),
        WhyLine::Able => append_able(text, line),
    }
}

/// The objects of why processes wait, from the text that `why` writes: one for the number of entries, for each process that waits, for each
/// circle, and for the number of those that can go on.
///
/// # Errors
///
/// Only where memory was refused.
pub fn why_objects(alloc: Global, why: &[u8]) -> Result<Vec<u8>, AllocError>
    ensures { IfOk result (λ text. text.items ≡ words.why_objects why.now) }
{
    let mut text = Vec::new(alloc);
    let mut rest = why;
    while !rest.is_empty() {
        let (line, after) = next_line(rest);
        append_part(&mut text, line)?;
        rest = after;
    }
    text.extend_from_slice(b"}\n")?;
    Ok(text)
}
