//! The lines of processes, common blocks and activations, by names and numbers.
ghost use Rattle.std.specs.Prelude.{◌≡◌, ◌++◌, OnOk};
ghost use Rattle.hep_state_text.specs.Lines as words;

use crate::values::state_text;
use hep_output::append_number;
use std::alloc::AllocError;

/// Appends the first line, with the number of entries.
///
/// # Errors
///
/// Only where memory was refused.
pub fn append_head(text: &mut Vec<u8>, entries: u64) -> Result<(), AllocError>
    ensures { OnOk result (text.new.items ≡ text.old.items ++ words.head_text entries) }
{
    text.extend_from_slice(b"AFTER ")?;
    append_number(text, entries)?;
    text.extend_from_slice(b" ENTRIES\n")?;
    Ok(())
}

/// Appends the place of an activation, in a unit of this name: `unit LINE n IN ACTIVATION a`.
///
/// # Errors
///
/// Only where memory was refused.
pub fn append_level(
    text: &mut Vec<u8>,
    unit: &[u8],
    line: u32,
    activation: u64,
) -> Result<(), AllocError>
    ensures { OnOk result (text.new.items ≡ text.old.items ++ words.place_text unit.now line activation) }
{
    text.extend_from_slice(unit)?;
    text.extend_from_slice(b" LINE ")?;
    append_number(text, line)?;
    text.extend_from_slice(b" IN ACTIVATION ")?;
    append_number(text, activation)?;
    Ok(())
}

/// Appends the first line of a common block of this name, with the unit whose names its variables have.
///
/// # Errors
///
/// Only where memory was refused.
pub fn append_block(text: &mut Vec<u8>, name: &[u8], unit: &[u8]) -> Result<(), AllocError>
    ensures { OnOk result (text.new.items ≡ text.old.items ++ words.block_text name.now unit.now) }
{
    text.extend_from_slice(b"COMMON /")?;
    text.extend_from_slice(name)?;
    text.extend_from_slice(b"/ AS IN ")?;
    text.extend_from_slice(unit)?;
    text.extend_from_slice(b"\n")?;
    Ok(())
}

// After a number, the name of a unit, which ends the line.
fn append_name(text: &mut Vec<u8>, unit: &[u8]) -> Result<(), AllocError>
    ensures { OnOk result (text.new.items ≡ text.old.items ++ words.name_text unit.now) }
{
    text.extend_from_slice(b" ")?;
    text.extend_from_slice(unit)?;
    text.extend_from_slice(b"\n")?;
    Ok(())
}

/// Appends the first line of an activation of the unit of this name.
///
/// # Errors
///
/// Only where memory was refused.
pub fn append_activation(text: &mut Vec<u8>, activation: u64, unit: &[u8]) -> Result<(), AllocError>
    ensures { OnOk result (text.new.items ≡ text.old.items ++ words.activation_text activation unit.now) }
{
    text.extend_from_slice(b"ACTIVATION ")?;
    append_number(text, activation)?;
    append_name(text, unit)?;
    Ok(())
}

/// Appends a common block by its name: `/name/`.
///
/// # Errors
///
/// Only where memory was refused.
pub fn append_block_name(text: &mut Vec<u8>, name: &[u8]) -> Result<(), AllocError>
    ensures { OnOk result (text.new.items ≡ text.old.items ++ words.block_name name.now) }
{
    text.extend_from_slice(b"/")?;
    text.extend_from_slice(name)?;
    text.extend_from_slice(b"/")?;
    Ok(())
}

/// Appends the number of an element or a position to the name of a variable or of a common block.
///
/// # Errors
///
/// Only where memory was refused.
pub fn append_element(name: &mut Vec<u8>, element: u32) -> Result<(), AllocError>
    ensures { OnOk result (name.new.items ≡ words.element_text name.old.items element) }
{
    name.extend_from_slice(b"#")?;
    append_number(name, element)?;
    Ok(())
}

/// Appends the owner to the name of a variable or of an element.
///
/// # Errors
///
/// Only where memory was refused.
pub fn append_owner(name: &mut Vec<u8>, owner: u64) -> Result<(), AllocError>
    ensures { OnOk result (name.new.items ≡ words.owned_text name.old.items owner) }
{
    name.extend_from_slice(b" OF ")?;
    append_number(name, owner)?;
    Ok(())
}

/// Appends that a process waits until a place with these words is full, or is empty.
///
/// # Errors
///
/// Only where memory was refused.
pub fn append_waiting(text: &mut Vec<u8>, full: bool, place: &[u8]) -> Result<(), AllocError>
    ensures { OnOk result (text.new.items ≡ text.old.items ++ words.waiting_text full place.now) }
{
    text.extend_from_slice(b" WAITING FOR")?;
    text.extend_from_slice(state_text(full))?;
    text.extend_from_slice(b" ")?;
    text.extend_from_slice(place)?;
    Ok(())
}

/// Appends a dummy argument, and the words for the storage unit that it is associated with, or for the first of them.
///
/// # Errors
///
/// Only where memory was refused.
pub fn append_association(text: &mut Vec<u8>, name: &[u8], place: &[u8]) -> Result<(), AllocError>
    ensures { OnOk result (text.new.items ≡ text.old.items ++ words.association_text name.now place.now) }
{
    text.extend_from_slice(b"  ")?;
    text.extend_from_slice(name)?;
    text.extend_from_slice(b" IS ")?;
    text.extend_from_slice(place)?;
    text.extend_from_slice(b"\n")?;
    Ok(())
}
