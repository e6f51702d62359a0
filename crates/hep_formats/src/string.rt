//! Texts as strings of JSON (RFC 8259, 7).
ghost use Rattle.std.specs.Prelude.{◌≡◌, ◌<◌, ◌++◌, OnOk};
ghost use Rattle.std.specs.List.{flat_map};
ghost use Rattle.hep_formats.specs.Strings as json;

use std::alloc::AllocError;

// A digit of base 16.
fn hex_digit(value: u8) -> u8
    requires { value < 16 }
    ensures { result ≡ json.hex_digit value }
{
    if value < 10 {
        b'0' + value
    } else {
        b'a' + (value - 10)
    }
}

// Appends the escape of a byte by its number, as `\u00ff`.
fn append_escape(text: &mut Vec<u8>, byte: u8) -> Result<(), AllocError>
    ensures { OnOk result (text.new.items ≡ text.old.items ++ json.escape byte) }
{
    text.extend_from_slice(b"\\u00")?;
    text.push(hex_digit(byte / 16))?;
    text.push(hex_digit(byte % 16))?;
    Ok(())
}

// Appends a byte as a string has it: itself where it is printable, a quote and a backslash after a backslash, and any other byte by its
// number.
fn append_character(text: &mut Vec<u8>, byte: u8) -> Result<(), AllocError>
    ensures { OnOk result (text.new.items ≡ text.old.items ++ json.json_character byte) }
{
    match byte {
        b'"' | b'\\' => text.extend_from_slice(&[b'\\', byte]),
        b' '..=b'~' => text.extend_from_slice(&[byte]),
        _ => append_escape(text, byte),
    }
}

// Appends the bytes between the quotes of a string.
fn append_characters(text: &mut Vec<u8>, bytes: &[u8]) -> Result<(), AllocError>
    ensures { OnOk result (text.new.items ≡ text.old.items ++ flat_map json.json_character bytes.now) }
{
    for byte in bytes {
        append_character(text, *byte)?;
    }
    Ok(())
}

/// Appends a text as a string of JSON, which has printable ASCII alone. A byte that is none is written by its number, as `\u00ff`.
///
/// # Errors
///
/// Only where memory was refused.
#[tactic(auto, unfolding(crate::specs::Strings::json_string))]
pub fn append_json_string(text: &mut Vec<u8>, bytes: &[u8]) -> Result<(), AllocError>
    ensures { OnOk result (text.new.items ≡ text.old.items ++ json.json_string bytes.now) }
{
    text.extend_from_slice(b"\"")?;
    append_characters(text, bytes)?;
    text.extend_from_slice(b"\"")
}

/// Appends a text as a string of an array, after a comma where others come before it.
///
/// # Errors
///
/// Only where memory was refused.
pub fn append_json_item(text: &mut Vec<u8>, follows: bool, bytes: &[u8]) -> Result<(), AllocError>
    ensures { OnOk result (text.new.items ≡ text.old.items ++ json.json_item follows bytes.now) }
{
    if follows {
        text.extend_from_slice(b",")?;
    }
    append_json_string(text, bytes)
}
