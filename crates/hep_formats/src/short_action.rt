//! What a turn did, in few words.
ghost use Rattle.std.specs.Prelude.{◌≡◌, ◌++◌, OnOk};
ghost use Rattle.std.specs.List.{filter};
ghost use Rattle.hep_formats.specs.ShortActions as words;
ghost use Rattle.hep_formats.specs.LineWords.{is_other};

use crate::turn_mark::first_word;
use crate::words::{after_blank, before_blank};
use std::alloc::AllocError;

// What is between a name and its value, for the verb of an access; nothing for other verbs.
fn arrow_for(verb: &[u8]) -> &'static [u8]
    ensures { result.now ≡ words.arrow_for verb.now }
{
    if verb == b"take".as_slice() || verb == b"read".as_slice() {
        b" -> "
    } else if verb == b"fill".as_slice()
        || verb == b"store".as_slice()
        || verb == b"next".as_slice()
    {
        b" <- "
    } else if verb == b"ask".as_slice() {
        b" = "
    } else {
        b""
    }
}

// Whether a verb is that of an operation or a function on values.
fn is_computation(verb: &[u8]) -> bool
    ensures { result ≡ words.is_computation verb.now }
{
    is_arithmetic(verb)
        || verb == b"compare".as_slice()
        || verb == b"combine".as_slice()
        || verb == b"negate".as_slice()
        || verb == b"apply".as_slice()
}

// Whether a verb is that of an arithmetic operation.
fn is_arithmetic(verb: &[u8]) -> bool
    ensures { result ≡ words.is_arithmetic verb.now }
{
    verb == b"add".as_slice()
        || verb == b"subtract".as_slice()
        || verb == b"multiply".as_slice()
        || verb == b"divide".as_slice()
        || verb == b"raise".as_slice()
        || verb == b"sign".as_slice()
}

// Appends an access: the name, what happens, and the value.
fn append_access(text: &mut Vec<u8>, arrow: &[u8], action: &[u8]) -> Result<(), AllocError>
    ensures { OnOk result (text.new.items ≡ text.old.items ++ words.access_text arrow.now action.now) }
{
    let name = after_blank(action);
    text.extend_from_slice(before_blank(name))?;
    text.extend_from_slice(arrow)?;
    text.extend_from_slice(first_word(after_blank(after_blank(name))))
}

// Appends a text without its blanks.
fn append_dense(text: &mut Vec<u8>, characters: &[u8]) -> Result<(), AllocError>
    ensures { OnOk result (text.new.items ≡ text.old.items ++ filter (is_other 32) characters.now) }
{
    for character in characters {
        if *character != b' ' {
            text.push(*character)?;
        }
    }
    Ok(())
}

// Appends the state and the name of what a process waits for.
fn append_wait(text: &mut Vec<u8>, action: &[u8]) -> Result<(), AllocError>
    ensures { OnOk result (text.new.items ≡ text.old.items ++ words.wait_text action.now) }
{
    let state = after_blank(after_blank(action));
    text.extend_from_slice(before_blank(state))?;
    text.push(b' ')?;
    text.extend_from_slice(before_blank(after_blank(state)))
}

/// Appends a word and what comes after it.
///
/// # Errors
///
/// Only where memory was refused.
pub(crate) fn append_pair(text: &mut Vec<u8>, word: &[u8], rest: &[u8]) -> Result<(), AllocError>
    ensures { OnOk result (text.new.items ≡ text.old.items ++ word.now ++ rest.now) }
{
    text.extend_from_slice(word)?;
    text.extend_from_slice(rest)
}

// Appends a record between quotes.
fn append_record(text: &mut Vec<u8>, printed: &[u8]) -> Result<(), AllocError>
    ensures { OnOk result (text.new.items ≡ text.old.items ++ words.quoted printed.now) }
{
    append_pair(text, b"\"", printed)?;
    text.push(b'"')?;
    Ok(())
}

// Appends what is no access and no operation on values.
fn append_other(text: &mut Vec<u8>, verb: &[u8], action: &[u8]) -> Result<(), AllocError>
    ensures { OnOk result (text.new.items ≡ text.old.items ++ words.other_text verb.now action.now) }
{
    if verb == b"begin".as_slice() {
        append_access(text, b" <- ", after_blank(action))
    } else if verb == b"go".as_slice() {
        append_pair(text, b"to ", after_blank(after_blank(after_blank(action))))
    } else if verb == b"creates".as_slice() {
        append_pair(text, b"CREATE ", first_word(after_blank(action)))
    } else if verb == b"waits".as_slice() {
        append_wait(text, action)
    } else if verb == b"print".as_slice() {
        append_record(text, after_blank(action))
    } else {
        text.extend_from_slice(action)
    }
}

/// Appends what a turn did, in few words.
///
/// # Errors
///
/// Only where memory was refused.
pub(crate) fn append_short(text: &mut Vec<u8>, action: &[u8]) -> Result<(), AllocError>
    ensures { OnOk result (text.new.items ≡ text.old.items ++ words.short_action action.now) }
{
    let verb = first_word(action);
    let arrow = arrow_for(verb);
    if !arrow.is_empty() {
        return append_access(text, arrow, action);
    }
    if is_computation(verb) {
        return append_dense(text, after_blank(action));
    }
    append_other(text, verb, action)
}
