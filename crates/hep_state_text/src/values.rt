//! The words for a cell, and whether two cells are equal.
ghost use Rattle.std.specs.Prelude.{◌≡◌, ◌++◌, OnOk};
ghost use Rattle.hep_state_text.specs.Values as words;

use hep_machine::Slot;
use hep_output::append_number;
use hep_source::Value;
use std::alloc::AllocError;

/// Appends the value of a cell, or that it has none.
///
/// # Errors
///
/// Only where memory was refused.
pub fn append_value(text: &mut Vec<u8>, value: Option<Value>) -> Result<(), AllocError>
    ensures { OnOk result (text.new.items ≡ text.old.items ++ words.value_text value) }
{
    match value {
        None => text.extend_from_slice(b"UNDEFINED"),
        Some(Value::Int(integer)) => append_number(text, integer),
        Some(Value::Truth(true)) => text.extend_from_slice(b"T"),
        Some(Value::Truth(false)) => text.extend_from_slice(b"F"),
    }
}

/// A word for whether a cell is full, behind a blank.
pub fn state_text(full: bool) -> &'static [u8]
    ensures { result.now ≡ words.state_text full }
{
    if full { b" FULL" } else { b" EMPTY" }
}

/// Appends the value of a cell, and, for an asynchronous variable, whether it is full.
///
/// # Errors
///
/// Only where memory was refused.
pub(crate) fn append_slot(
    text: &mut Vec<u8>,
    asynchronous: bool,
    slot: Slot,
) -> Result<(), AllocError>
    ensures { OnOk result (text.new.items ≡ text.old.items ++ words.slot_text asynchronous slot) }
{
    append_value(text, slot.value)?;
    if asynchronous {
        text.extend_from_slice(state_text(slot.full))?;
    }
    Ok(())
}

fn same_value(a: Option<Value>, b: Option<Value>) -> bool
    ensures { result ≡ words.same_value a b }
{
    match (a, b) {
        (None, None) => true,
        (Some(Value::Int(a)), Some(Value::Int(b))) => a == b,
        (Some(Value::Truth(a)), Some(Value::Truth(b))) => a == b,
        _ => false,
    }
}

/// Whether two cells have the same value, and are both full or both empty.
pub(crate) fn same_slot(a: Slot, b: Slot) -> bool
    ensures { result ≡ words.same_slot a b }
{
    same_value(a.value, b.value) && a.full == b.full
}
