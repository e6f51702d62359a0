//! The lines of a variable.
ghost use Rattle.std.specs.Prelude.{◌≡◌, ◌++◌, ◌<◌, true, length, OnOk, drop};
ghost use Rattle.hep_machine.specs.Words.{are_dimensions};
ghost use Rattle.hep_state_text.specs.Contents as words;

use crate::subscripts::append_subscripts;
use crate::values::{append_slot, same_slot};
use hep_machine::{Bound, Slot};
use hep_source::Text;
use std::alloc::AllocError;

/// A variable, as its lines need it: its name, whether that begins with `$`, and the bounds of its dimensions, none
/// for a scalar.
#[derive(Drop)]
pub struct DisplayedVariable {
    pub name: Text,
    pub asynchronous: bool,
    pub bounds: Vec<Bound>,
}

// After the subscripts of the first element of a run, those of the last one, if it is another one.
fn append_last(
    text: &mut Vec<u8>,
    bounds: &[Bound],
    first: u64,
    last: u64,
) -> Result<(), AllocError>
    requires { are_dimensions bounds.now ≡ true }
    ensures { OnOk result (text.new.items ≡ text.old.items ++ words.last_text bounds.now first last) }
{
    if first == last {
        return Ok(());
    }
    text.extend_from_slice(between(bounds.len()))?;
    append_subscripts(text, bounds, last)?;
    Ok(())
}

// The list of an array's elements from one to another: `(3)`, `(1..3)`, `(1,1)..(2,3)`.
fn append_list(
    text: &mut Vec<u8>,
    bounds: &[Bound],
    first: u64,
    last: u64,
) -> Result<(), AllocError>
    requires { are_dimensions bounds.now ≡ true }
    ensures { OnOk result (text.new.items ≡ text.old.items ++ words.list_text bounds.now first last) }
{
    text.extend_from_slice(b"(")?;
    append_subscripts(text, bounds, first)?;
    append_last(text, bounds, first, last)?;
    text.extend_from_slice(b")")?;
    Ok(())
}

// The elements from one to another, both counted from 0; a scalar is its name.
fn append_elements(
    text: &mut Vec<u8>,
    variable: &DisplayedVariable,
    first: u64,
    last: u64,
) -> Result<(), AllocError>
    requires { are_dimensions variable.now.bounds.items ≡ true }
    ensures { OnOk result (text.new.items
        ≡ text.old.items ++ words.elements_text variable.now.name variable.now.bounds.items first last) }
{
    text.extend_from_slice(variable.name.as_slice())?;
    if !variable.bounds.is_empty() {
        append_list(text, &variable.bounds, first, last)?;
    }
    Ok(())
}

// The text between the first and the last element of a run, by the number of dimensions.
fn between(dimensions: usize) -> &'static [u8]
    ensures { result.now ≡ words.between dimensions }
{
    if dimensions == 1 { b".." } else { b")..(" }
}

// The line of elements with equal cells, of which this is one.
fn append_run(
    text: &mut Vec<u8>,
    variable: &DisplayedVariable,
    first: u64,
    last: u64,
    slot: Slot,
) -> Result<(), AllocError>
    requires { are_dimensions variable.now.bounds.items ≡ true }
    ensures { OnOk result (text.new.items
        ≡ text.old.items ++ words.run_text variable.now.name variable.now.asynchronous variable.now.bounds.items first last slot) }
{
    text.extend_from_slice(b"  ")?;
    append_elements(text, variable, first, last)?;
    text.extend_from_slice(b" = ")?;
    append_slot(text, variable.asynchronous, slot)?;
    text.extend_from_slice(b"\n")?;
    Ok(())
}

// Whether the cell after this index differs from the one at it, or there is none.
fn ends_run(slots: &[Slot], index: usize) -> bool
    requires { index < length slots.now }
    ensures { result ≡ words.ends_run (drop index slots.now) }
{
    match slots.get(index + 1) {
        Some(next) => !same_slot(slots[index], *next),
        None => true,
    }
}

/// Appends the lines of a variable with these cells, in the order of its elements (X3.9-1978, 5.2.4): one for each
/// run of equal cells.
///
/// # Errors
///
/// Only where memory was refused.
pub fn append_variable(
    text: &mut Vec<u8>,
    variable: &DisplayedVariable,
    slots: &[Slot],
) -> Result<(), AllocError>
    requires { are_dimensions variable.now.bounds.items ≡ true }
    ensures { OnOk result (text.new.items
        ≡ text.old.items ++ words.variable_text variable.now.name variable.now.asynchronous variable.now.bounds.items slots.now) }
{
    let mut first = 0;
    for (index, slot) in slots.iter().enumerate() {
        if ends_run(slots, index) {
            append_run(text, variable, first, index as u64, *slot)?;
            first = index as u64 + 1;
        }
    }
    Ok(())
}
