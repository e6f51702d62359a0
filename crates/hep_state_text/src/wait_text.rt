//! What processes wait for.
ghost use Rattle.std.specs.Prelude.{◌≡◌, IfOk, slice_get};
ghost use Rattle.hep_image.specs.Names.{names_in_order};
ghost use Rattle.hep_state_text.specs.WaitTexts as words;
ghost use Rattle.hep_state_text.specs.WaitTexts.{IsTextOfWait, name_seen, place_seen};
ghost use Rattle.hep_views.specs.CellOwners.{CanBeListed};

use crate::lines::{append_block_name, append_element, append_owner, append_waiting};
use hep_blocked::Want;
use hep_image::Image;
use hep_views::lookup::listed;
use hep_views::{CoreState, Listed, Place};
use std::alloc::{AllocError, Global};

fn name_of(image: &Image, number: u32) -> &[u8]
    ensures { result.now ≡ name_seen (slice_get (names_in_order image.now) number) }
{
    match image.name(number) {
        None => b"",
        Some(name) => name,
    }
}

/// The words for a place: `/block/#k`, `name OF a` or `name#k OF a`.
///
/// # Errors
///
/// Only where memory was refused.
pub fn place_text(alloc: Global, image: &Image, place: Place) -> Result<Vec<u8>, AllocError>
    ensures { IfOk result (λ text. text.items ≡ place_seen (names_in_order image.now) place) }
{
    let name = name_of(image, place.name);
    let mut text = Vec::new(alloc);
    if place.owner == 0 {
        append_block_name(&mut text, name)?;
        append_element(&mut text, place.element)?;
        return Ok(text);
    }
    text.extend_from_slice(name)?;
    if place.element != 0 {
        append_element(&mut text, place.element)?;
    }
    append_owner(&mut text, place.owner)?;
    Ok(text)
}

/// The place that a process waits for.
pub fn place_listed(listed: &Listed) -> Place
    ensures { result ≡ words.place_listed listed.now }
{
    Place {
        owner: listed.owner,
        name: listed.name,
        element: listed.element,
    }
}

/// The words for what process p waits for, which waits for a cell.
///
/// # Errors
///
/// Only where memory was refused.
pub fn waiting_text(
    alloc: Global,
    machine: &CoreState,
    image: &Image,
    p: u64,
    want: Want,
) -> Result<Vec<u8>, AllocError>
    requires { CanBeListed image.now machine.now p want }
    ensures { IfOk result (λ text. IsTextOfWait image.now machine.now p want text.items) }
{
    image.is_runnable();
    let listed = listed(machine, image, p, want);
    let place = place_text(alloc, image, place_listed(&listed))?;
    let mut text = Vec::new(alloc);
    append_waiting(&mut text, listed.full, &place)?;
    Ok(text)
}
