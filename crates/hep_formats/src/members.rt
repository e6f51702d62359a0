//! Members that objects of several kinds have.
ghost use Rattle.std.specs.Prelude.{◌≡◌, ◌++◌, OnOk};
ghost use Rattle.hep_formats.specs.Strings.{json_string};
ghost use Rattle.hep_formats.specs.Members as words;

use crate::string::append_json_string;
use std::alloc::AllocError;

/// Appends what is before a value, and the value as it is.
pub(crate) fn append_word(text: &mut Vec<u8>, front: &[u8], word: &[u8]) -> Result<(), AllocError>
    ensures { OnOk result (text.new.items ≡ text.old.items ++ (front.now ++ word.now)) }
{
    text.extend_from_slice(front)?;
    text.extend_from_slice(word)?;
    Ok(())
}

/// Appends what is before a value, and the value as a string.
pub(crate) fn append_string(text: &mut Vec<u8>, front: &[u8], word: &[u8]) -> Result<(), AllocError>
    ensures { OnOk result (text.new.items ≡ text.old.items ++ (front.now ++ json_string word.now)) }
{
    text.extend_from_slice(front)?;
    append_json_string(text, word)?;
    Ok(())
}

/// Appends the unit and the line of a step.
pub(crate) fn append_place(text: &mut Vec<u8>, unit: &[u8], line: &[u8]) -> Result<(), AllocError>
    ensures { OnOk result (text.new.items ≡ text.old.items ++ words.place_members unit.now line.now) }
{
    append_string(text, b",\"unit\":", unit)?;
    append_word(text, b",\"line\":", line)?;
    Ok(())
}

/// Appends that a process waits, and what for.
pub(crate) fn append_wanted(text: &mut Vec<u8>, wanted: &[u8]) -> Result<(), AllocError>
    ensures { OnOk result (text.new.items ≡ text.old.items ++ words.wanted_members wanted.now) }
{
    append_string(text, b",\"state\":\"waiting\",\"for\":", wanted)
}
