//! The variables of activations.
ghost use Rattle.std.specs.Prelude.{◌≡◌, ◌++◌, ◌<◌, ℕ, OnOk, length};
ghost use Rattle.std.specs.List.{flat_map};
ghost use Rattle.hep_state_text.specs.Activations.{IsFrameAt, IsFrameSomewhere};
ghost use Rattle.hep_state_text.specs.StoredVariables.{AreOut};
ghost use Rattle.hep_state_text.specs.Variables.{value_line, value_seen};
ghost use Rattle.hep_machine.specs.Words.{Layout, State, Units, dummies_of, locals_of, scope_of, spelling};
ghost use Rattle.hep_machine.specs.Words as names;
ghost use Rattle.hep_state_text.specs.States as words;

use crate::cell_slots::slots;
use crate::variable::append_variable;
use crate::variables::{own_variable, scalar_variable};
use hep_image::{Image, UnitCode};
use hep_machine::Slot;
use hep_names::{Symbols, cells_of};
use hep_proc::Frames;
use hep_source::Name;
use std::alloc::{AllocError, Global};

/// A unit: its names, and its code.
#[derive(Clone, Copy)]
pub struct NamedUnit<'a> {
    pub symbols: &'a Symbols<'a>,
    pub code: &'a UnitCode,
}

/// Appends the lines of the local variables of an activation whose frame begins at `first`.
///
/// # Errors
///
/// Only where memory was refused.
pub fn append_locals(
    alloc: Global,
    text: &mut Vec<u8>,
    frames: &Frames,
    unit: &NamedUnit,
    first: u32,
) -> Result<(), AllocError>
    requires { IsFrameSomewhere unit.now first frames.now.arena }
    ensures { OnOk result ((program : Units) (s : State) (layout : Layout) (a : ℕ)
        → IsFrameAt program s layout a unit.now first frames.now.arena
        → text.new.items ≡ text.old.items ++ flat_map (words.own_text program s (scope_of program s a)) (locals_of unit.now.symbols.now)) }
{
    let symbols = unit.symbols;
    let dummies = symbols.dummies().len();
    for (index, name) in symbols.locals().iter().enumerate() {
        let variable = own_variable(alloc, symbols, name)?;
        let cells = cells_of(alloc, symbols, name)?;
        let at = first + unit.code.variables.as_slice()[dummies + index].first;
        let slots = slots(alloc, frames, at, cells)?;
        append_variable(text, &variable, &slots)?;
    }
    Ok(())
}

// The value of an expression that a dummy argument is associated with, from the first of its two cells. `None` where
// the second cell has a value, since the dummy argument is associated with other storage then.
fn value_at(frames: &Frames, at: u32) -> Option<Slot>
    requires { AreOut at 2 frames.now.arena }
    ensures { result ≡ value_seen frames.now.arena.contents at }
{
    if frames.get(at + 1).value.is_some() {
        return None;
    }
    Some(frames.get(at))
}

// The lines of a dummy argument with this value of its own.
fn append_value(
    alloc: Global,
    text: &mut Vec<u8>,
    name: &Name,
    value: Option<Slot>,
) -> Result<(), AllocError>
    ensures { OnOk result (text.new.items ≡ text.old.items ++ value_line (spelling name.now) name.now.asynchronous value) }
{
    let Some(slot) = value else {
        return Ok(());
    };
    let variable = scalar_variable(alloc, name)?;
    append_variable(text, &variable, &[slot])
}

/// Appends the lines of the dummy arguments that are associated with expressions, of an activation whose frame begins
/// at `first`.
///
/// # Errors
///
/// Only where memory was refused.
pub fn append_values(
    alloc: Global,
    text: &mut Vec<u8>,
    frames: &Frames,
    unit: &NamedUnit,
    first: u32,
) -> Result<(), AllocError>
    requires { IsFrameSomewhere unit.now first frames.now.arena }
    ensures { OnOk result ((program : Units) (s : State) (layout : Layout) (a : ℕ)
        → IsFrameAt program s layout a unit.now first frames.now.arena
        → text.new.items
        ≡ text.old.items ++ flat_map (words.value_text program s (scope_of program s a)) (dummies_of unit.now.symbols.now)) }
{
    for (index, dummy) in unit.symbols.dummies().iter().enumerate() {
        let at = first + unit.code.variables.as_slice()[index].first;
        append_value(alloc, text, &dummy.name, value_at(frames, at))?;
    }
    Ok(())
}

/// The name of a unit, by its number.
pub fn unit_name(image: &Image, number: u32) -> &[u8]
    requires { number < length image.now }
    ensures { result.now ≡ names.unit_name (names.unit_at image.now number) }
{
    image.name(number).unwrap()
}
