//! Text in HTML.
ghost use Rattle.std.specs.Prelude.{◌≡◌, ◌++◌, OnOk};
ghost use Rattle.hep_page.specs.Html as words;

use std::alloc::AllocError;

// Appends a character as HTML has it.
fn append_character(text: &mut Vec<u8>, character: u8) -> Result<(), AllocError>
    ensures { OnOk result (text.new.items ≡ text.old.items ++ words.html_character character) }
{
    match character {
        b'&' => text.extend_from_slice(b"&amp;")?,
        b'<' => text.extend_from_slice(b"&lt;")?,
        b'>' => text.extend_from_slice(b"&gt;")?,
        b'\n' | b' '..=b'~' => text.push(character)?,
        _ => text.push(b'?')?,
    }
    Ok(())
}

/// Appends characters as HTML has them.
///
/// # Errors
///
/// Only where memory was refused.
pub fn append_html(text: &mut Vec<u8>, characters: &[u8]) -> Result<(), AllocError>
    ensures { OnOk result (text.new.items ≡ text.old.items ++ words.html characters.now) }
{
    for character in characters {
        append_character(text, *character)?;
    }
    Ok(())
}
