//! The objects of the lines of a state.
ghost use Rattle.std.specs.Prelude.{◌≡◌, ◌++◌, IfOk, OnOk};
ghost use Rattle.hep_formats.specs.StateObjects as words;

use crate::members::{append_string, append_word};
use crate::state_kind::{StateLine, kind_of};
use crate::state_members::{append_level, append_name, append_wait, full_member, value};
use crate::string::append_json_string;
use crate::words::{after_words, word_at};
use hep_text::line::next_line;
use std::alloc::{AllocError, Global};

// The member that names a process.
fn append_process(text: &mut Vec<u8>, line: &[u8]) -> Result<(), AllocError>
    ensures { OnOk result (text.new.items ≡ text.old.items ++ words.process_member line.now) }
{
    text.extend_from_slice(b"\"process\":")?;
    text.extend_from_slice(word_at(1, line))
}

// The members that name a common block and the unit whose names its variables have.
fn append_common(text: &mut Vec<u8>, line: &[u8]) -> Result<(), AllocError>
    ensures { OnOk result (text.new.items ≡ text.old.items ++ words.common_members line.now) }
{
    append_string(text, b"\"common\":", word_at(1, line))?;
    append_string(text, b",\"unit\":", word_at(4, line))?;
    Ok(())
}

// The members that name an activation and its unit.
fn append_activation(text: &mut Vec<u8>, line: &[u8]) -> Result<(), AllocError>
    ensures { OnOk result (text.new.items ≡ text.old.items ++ words.activation_members line.now) }
{
    append_word(text, b"\"activation\":", word_at(1, line))?;
    append_string(text, b",\"unit\":", word_at(2, line))?;
    Ok(())
}

// Whose the next lines are, after a line of this kind: members of a process, a common block or an activation.
fn set_owner(owner: &mut Vec<u8>, kind: StateLine, line: &[u8]) -> Result<(), AllocError>
    ensures { OnOk result (owner.new.items ≡ words.owner_by kind owner.old.items line.now) }
{
    match kind {
        StateLine::Process => {
            owner.clear();
            append_process(owner, line)
        }
        StateLine::Common => {
            owner.clear();
            append_common(owner, line)
        }
        StateLine::Activation => {
            owner.clear();
            append_activation(owner, line)
        }
        _ => Ok(()),
    }
}

// The object of the number of entries.
fn append_entries(text: &mut Vec<u8>, line: &[u8]) -> Result<(), AllocError>
    ensures { OnOk result (text.new.items ≡ text.old.items ++ words.entries_object line.now) }
{
    text.extend_from_slice(b"{\"entries\":")?;
    text.extend_from_slice(word_at(1, line))?;
    text.extend_from_slice(b"}\n")
}

// The object of a process, of which these are the members that name it.
fn append_top(text: &mut Vec<u8>, owner: &[u8], line: &[u8]) -> Result<(), AllocError>
    ensures { OnOk result (text.new.items ≡ text.old.items ++ words.process_object owner.now line.now) }
{
    append_word(text, b"{", owner)?;
    append_level(text, word_at(2, line), word_at(4, line), word_at(7, line))?;
    append_wait(text, line)?;
    text.extend_from_slice(b"}\n")?;
    Ok(())
}

// The object of a level to which a process returns.
fn append_return(text: &mut Vec<u8>, owner: &[u8], line: &[u8]) -> Result<(), AllocError>
    ensures { OnOk result (text.new.items ≡ text.old.items ++ words.return_object owner.now line.now) }
{
    append_word(text, b"{", owner)?;
    append_level(text, word_at(4, line), word_at(6, line), word_at(9, line))?;
    text.extend_from_slice(b",\"state\":\"calling\"}\n")?;
    Ok(())
}

// The object of a variable, or of elements with equal cells.
fn append_variable(text: &mut Vec<u8>, owner: &[u8], line: &[u8]) -> Result<(), AllocError>
    ensures { OnOk result (text.new.items ≡ text.old.items ++ words.variable_object owner.now line.now) }
{
    text.extend_from_slice(b"{")?;
    text.extend_from_slice(owner)?;
    append_name(text, word_at(2, line))?;
    text.extend_from_slice(b",\"value\":")?;
    text.extend_from_slice(value(word_at(4, line)))?;
    text.extend_from_slice(full_member(word_at(5, line)))?;
    text.extend_from_slice(b"}\n")
}

// The object of a dummy argument that is associated with other storage.
fn append_association(text: &mut Vec<u8>, owner: &[u8], line: &[u8]) -> Result<(), AllocError>
    ensures { OnOk result (text.new.items ≡ text.old.items ++ words.association_object owner.now line.now) }
{
    text.extend_from_slice(b"{")?;
    text.extend_from_slice(owner)?;
    text.extend_from_slice(b",\"name\":")?;
    append_json_string(text, word_at(2, line))?;
    text.extend_from_slice(b",\"is\":")?;
    append_json_string(text, after_words(4, line))?;
    text.extend_from_slice(b"}\n")
}

// The object of a line of this kind, if it has one.
fn append_object(
    text: &mut Vec<u8>,
    owner: &[u8],
    kind: StateLine,
    line: &[u8],
) -> Result<(), AllocError>
    ensures { OnOk result (text.new.items ≡ text.old.items ++ words.object_by kind owner.now line.now) }
{
    match kind {
        StateLine::Entries => append_entries(text, line),
        StateLine::Process => append_top(text, owner, line),
        StateLine::Return => append_return(text, owner, line),
        StateLine::Variable => append_variable(text, owner, line),
        StateLine::Association => append_association(text, owner, line),
        StateLine::Common | StateLine::Activation | StateLine::Source => Ok(()),
    }
}

/// The objects of a state, from its text as `state` writes it: one for each process and each level to which one returns, and one for each
/// line of a variable.
///
/// # Errors
///
/// Only where memory was refused.
pub fn state_objects(alloc: Global, state: &[u8]) -> Result<Vec<u8>, AllocError>
    ensures { IfOk result (λ text. text.items ≡ words.state_objects state.now) }
{
    let mut text = Vec::new(alloc);
    let mut owner = Vec::new(alloc);
    let mut rest = state;
    while !rest.is_empty() {
        let (line, after) = next_line(rest);
        let kind = kind_of(line);
        set_owner(&mut owner, kind, line)?;
        append_object(&mut text, &owner, kind, line)?;
        rest = after;
    }
    Ok(text)
}
