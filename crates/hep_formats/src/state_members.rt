//! Members of objects, from the words of a line.
ghost use Rattle.std.specs.Prelude.{◌≡◌, ◌++◌, OnOk};
ghost use Rattle.hep_formats.specs.StateObjects as words;

use crate::members::{append_place, append_string, append_wanted, append_word};
use crate::words::{after_words, from, is, up_to, word_at};
use std::alloc::AllocError;

/// Appends the unit, the line and the activation of a level.
pub(crate) fn append_level(
    text: &mut Vec<u8>,
    unit: &[u8],
    line: &[u8],
    activation: &[u8],
) -> Result<(), AllocError>
    ensures { OnOk result (text.new.items ≡ text.old.items ++ words.level_members unit.now line.now activation.now) }
{
    append_place(text, unit, line)?;
    append_word(text, b",\"activation\":", activation)?;
    Ok(())
}

// Whether a process waits.
#[tactic(auto, unfolding(crate::specs::StateObjects::is_waiting))]
fn is_waiting(line: &[u8]) -> bool
    ensures { result ≡ words.is_waiting line.now }
{
    is(word_at(8, line), b"WAITING")
}

/// Appends whether a process waits, and what for.
pub(crate) fn append_wait(text: &mut Vec<u8>, line: &[u8]) -> Result<(), AllocError>
    ensures { OnOk result (text.new.items ≡ text.old.items ++ words.wait_members line.now) }
{
    if is_waiting(line) {
        append_wanted(text, after_words(10, line))
    } else {
        text.extend_from_slice(b",\"state\":\"living\"")
    }
}

// Whether the name of a variable has subscripts after it.
#[tactic(auto, unfolding(crate::specs::StateObjects::has_subscripts))]
fn has_subscripts(elements: &[u8]) -> bool
    ensures { result ≡ words.has_subscripts elements.now }
{
    !is(from(b'(', elements), b"")
}

// Appends the subscripts of elements.
fn append_list(text: &mut Vec<u8>, elements: &[u8]) -> Result<(), AllocError>
    ensures { OnOk result (text.new.items ≡ text.old.items ++ words.subscripts_member elements.now) }
{
    append_string(text, b",\"subscripts\":", from(b'(', elements))?;
    Ok(())
}

// Appends them where there are any.
fn append_subscripts(text: &mut Vec<u8>, elements: &[u8]) -> Result<(), AllocError>
    ensures { OnOk result (text.new.items ≡ text.old.items ++ words.subscripts_members elements.now) }
{
    if has_subscripts(elements) {
        append_list(text, elements)
    } else {
        Ok(())
    }
}

/// Appends the name of a variable, with the subscripts of elements where it is an array.
pub(crate) fn append_name(text: &mut Vec<u8>, elements: &[u8]) -> Result<(), AllocError>
    ensures { OnOk result (text.new.items ≡ text.old.items ++ words.name_members elements.now) }
{
    append_string(text, b",\"name\":", up_to(b'(', elements))?;
    append_subscripts(text, elements)?;
    Ok(())
}

/// A value of a cell as JSON has it: `null` where there is none.
pub(crate) fn value(word: &[u8]) -> &[u8]
    ensures { result.now ≡ words.value word.now }
{
    if is(word, b"UNDEFINED") {
        return b"null";
    }
    if is(word, b"T") {
        return b"true";
    }
    if is(word, b"F") {
        return b"false";
    }
    word
}

/// Whether a cell is full, as a member; nothing for a variable that isn't asynchronous.
pub(crate) fn full_member(word: &[u8]) -> &'static [u8]
    ensures { result.now ≡ words.full_member word.now }
{
    if is(word, b"FULL") {
        return b",\"full\":true";
    }
    if is(word, b"EMPTY") {
        return b",\"full\":false";
    }
    b""
}
