//! The program's own lines.
ghost use Rattle.std.specs.Prelude.{◌≡◌, ◌++◌, OnOk};
ghost use Rattle.hep_outcome.specs.Texts.{refusal_text};

use hep_output::append_number;
use std::alloc::AllocError;

/// Appends the line of a refusal: `REFUSED number LINE n`, with the name after it where it has
/// one.
///
/// # Errors
///
/// Only where memory was refused.
pub fn put_refusal(
    text: &mut Vec<u8>,
    number: u16,
    line: u64,
    name: &[u8],
) -> Result<(), AllocError>
    ensures { OnOk result (text.new.items ≡ text.old.items ++ refusal_text number line name.now) }
{
    text.extend_from_slice(b"REFUSED ")?;
    append_number(text, number)?;
    text.extend_from_slice(b" LINE ")?;
    append_number(text, line)?;
    if !name.is_empty() {
        text.extend_from_slice(b" NAME ")?;
        text.extend_from_slice(name)?;
    }
    text.extend_from_slice(b"\n")?;
    Ok(())
}
