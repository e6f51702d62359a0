//! What the dummy arguments of activations on stacks are associated with (X3.9-1978, 15.9.3).
ghost use Rattle.std.specs.Prelude.{◌≡◌, ◌++◌, ◌<◌, ◌^◌, ℕ, List, OnOk};
ghost use Rattle.std.specs.List.{flat_map};
ghost use Rattle.hep_image.specs.Addressing.{natural_in};
ghost use Rattle.hep_image.specs.Names.{names_in_order};
ghost use Rattle.hep_machine.specs.Words.{Name as SourceName, dummies_of, run, scope_of};
ghost use Rattle.hep_state_text.specs.Associations.{IsDummyAt, IsStackedAt, association_line};
ghost use Rattle.hep_state_text.specs.States as words;

use crate::activations::NamedUnit;
use crate::lines::append_association;
use crate::wait_text::place_text;
use hep_image::Image;
use hep_machine::Slot;
use hep_machine::values::{integer_of, natural};
use hep_source::Name;
use hep_views::lookup::place_at;
use hep_views::{CoreState, Place};
use std::alloc::{AllocError, Global};

/// The frame of an activation on a stack: the machine that keeps it, the image that this runs, and the key of the
/// frame's node.
#[derive(Clone, Copy)]
pub struct StackedFrame<'a> {
    pub machine: &'a CoreState,
    pub image: &'a Image,
    pub key: usize,
}

// The address that a cell has.
fn address_in(slot: Slot) -> u32
    requires { natural_in slot < 2 ^ 32 }
    ensures { result ≡ natural_in slot }
{
    match slot.value {
        Some(value) => natural(integer_of(value)) as u32,
        None => 0,
    }
}

// The place of the first storage unit that a dummy argument is associated with, from the first of its two cells.
// `None` where the second cell has no value, since the dummy argument is associated with an expression then.
fn place_associated(frame: &StackedFrame<'_>, cell: u32) -> Option<Place>
    requires { (cells : ℕ) × (choices : List ℕ) × (a : ℕ) × (x : SourceName) × IsDummyAt frame.now cell cells choices a x }
    ensures { (cells : ℕ) (choices : List ℕ) (a : ℕ) (x : SourceName) → IsDummyAt frame.now cell cells choices a x
        → association_line (names_in_order frame.now.image.now) x result
        ≡ words.association_text frame.now.image.now (run frame.now.image.now choices)
        (scope_of frame.now.image.now (run frame.now.image.now choices) a) x }
{
    frame.image.is_runnable();
    let frames = &frame.machine.frames;
    if frames.get(cell + 1).value.is_none() {
        return None;
    }
    let address = address_in(frames.get(cell));
    Some(place_at(frame.machine, frame.image, frame.key, address))
}

// The line of a dummy argument that is associated with the storage unit at a place.
fn append_line(
    alloc: Global,
    text: &mut Vec<u8>,
    image: &Image,
    name: &Name,
    place: Option<Place>,
) -> Result<(), AllocError>
    ensures { OnOk result (text.new.items ≡ text.old.items ++ association_line (names_in_order image.now) name.now place) }
{
    let Some(place) = place else {
        return Ok(());
    };
    let place = place_text(alloc, image, place)?;
    let name = name.spelling(alloc)?;
    append_association(text, name.as_slice(), &place)
}

/// Appends the lines of the dummy arguments that are associated with storage units, of an activation of a unit.
///
/// # Errors
///
/// Only where memory was refused.
pub fn append_associations(
    alloc: Global,
    text: &mut Vec<u8>,
    frame: &StackedFrame<'_>,
    unit: &NamedUnit<'_>,
) -> Result<(), AllocError>
    requires { (cells : ℕ) × (choices : List ℕ) × (a : ℕ) × IsStackedAt frame.now unit.now cells choices a }
    ensures { OnOk result ((cells : ℕ) (choices : List ℕ) (a : ℕ) → IsStackedAt frame.now unit.now cells choices a
        → text.new.items ≡ text.old.items ++ flat_map (words.association_text frame.now.image.now (run frame.now.image.now choices)
        (scope_of frame.now.image.now (run frame.now.image.now choices) a)) (dummies_of unit.now.symbols.now)) }
{
    let first = frame.machine.frames.first(frame.key);
    for (index, dummy) in unit.symbols.dummies().iter().enumerate() {
        let cell = first + unit.code.variables.as_slice()[index].first;
        let place = place_associated(frame, cell);
        append_line(alloc, text, frame.image, &dummy.name, place)?;
    }
    Ok(())
}
