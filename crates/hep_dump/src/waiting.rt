//! The lines of waiting processes.
ghost use Rattle.std.specs.Prelude.{◌≡◌, ◌++◌, IfOk, OnOk, false, slice_get};
ghost use Rattle.hep_image.specs.Names.{names_in_order};
ghost use Rattle.hep_machine.specs.Words as machine;
ghost use Rattle.hep_dump.specs.CommonNames as naming;
ghost use Rattle.hep_dump.specs.Names.{name_found};
ghost use Rattle.hep_dump.specs.Waiting as words;

use crate::common_names::own_name;
use crate::faults::name_of;
use hep_base::Text;
use hep_core::{Core, Listed};
use hep_image::Image;
use hep_output::append_number;
use hep_source::Statement;
use hep_text::append_words;
use std::alloc::{AllocError, Global};

/// A position of a common block of this name: `/block/#k`.
///
/// # Errors
///
/// Only where memory was refused.
pub fn append_position(text: &mut Vec<u8>, block: &[u8], position: u32) -> Result<(), AllocError>
    ensures { OnOk result (text.new.items ≡ text.old.items ++ words.position_text block.now position) }
{
    text.extend_from_slice(b"/")?;
    text.extend_from_slice(block)?;
    text.extend_from_slice(b"/#")?;
    append_number(text, position)?;
    Ok(())
}

/// A variable of this name, or an element of it, of an activation: `name OF a` or `name#k OF a`.
///
/// # Errors
///
/// Only where memory was refused.
pub fn append_variable(
    text: &mut Vec<u8>,
    name: &[u8],
    element: u32,
    owner: u64,
) -> Result<(), AllocError>
    ensures { OnOk result (text.new.items ≡ text.old.items ++ words.variable_text name.now element owner) }
{
    text.extend_from_slice(name)?;
    if element != 0 {
        text.extend_from_slice(b"#")?;
        append_number(text, element)?;
    }
    text.extend_from_slice(b" OF ")?;
    append_number(text, owner)?;
    Ok(())
}

// What a process waits for.
fn append_place(text: &mut Vec<u8>, image: &Image, listed: &Listed) -> Result<(), AllocError>
    ensures { OnOk result (text.new.items ≡ text.old.items ++ words.place_text (names_in_order image.now) listed.now) }
{
    let name = name_of(image, listed.name);
    if listed.owner == 0 {
        append_position(text, name, listed.element)
    } else {
        append_variable(text, name, listed.element, listed.owner)
    }
}

fn state_text(full: bool) -> &'static [u8]
    ensures { result.now ≡ words.state_text full }
{
    if full { b"FULL" } else { b"EMPTY" }
}

// What a process waits for: ` FOR FULL place`, or ` FOR EMPTY`.
fn append_wish(text: &mut Vec<u8>, image: &Image, listed: &Listed) -> Result<(), AllocError>
    ensures { OnOk result (text.new.items ≡ text.old.items ++ words.wish_text (names_in_order image.now) listed.now) }
{
    text.extend_from_slice(b" FOR ")?;
    text.extend_from_slice(state_text(listed.full))?;
    text.extend_from_slice(b" ")?;
    append_place(text, image, listed)?;
    text.extend_from_slice(b"\n")?;
    Ok(())
}

/// Appends the line of a waiting process: `WAITING p unit LINE n FOR FULL place`, or `FOR EMPTY`.
///
/// # Errors
///
/// Only where memory was refused.
pub fn append_waiting(text: &mut Vec<u8>, image: &Image, listed: &Listed) -> Result<(), AllocError>
    ensures { OnOk result (text.new.items
        ≡ text.old.items ++ words.listed_text (names_in_order image.now) listed.now) }
{
    text.extend_from_slice(b"WAITING ")?;
    append_number(text, listed.process)?;
    text.extend_from_slice(b" ")?;
    text.extend_from_slice(name_of(image, listed.unit))?;
    text.extend_from_slice(b" LINE ")?;
    append_number(text, listed.line)?;
    append_wish(text, image, listed)?;
    Ok(())
}

// Appends the name that the unit of a process has for the position of COMMON that it waits for.
fn append_own_words(
    line: &mut Vec<u8>,
    image: &Image,
    listed: &Listed,
    name: &[u8],
) -> Result<(), AllocError>
    ensures { OnOk result (line.new.items
        ≡ line.old.items ++ words.own_words (words.place_text (names_in_order image.now) listed.now) name.now
        (name_found (slice_get (names_in_order image.now) listed.now.unit))) }
{
    append_place(line, image, listed)?;
    line.extend_from_slice(b" is ")?;
    line.extend_from_slice(name)?;
    line.extend_from_slice(b" in ")?;
    line.extend_from_slice(name_of(image, listed.unit))?;
    Ok(())
}

/// The statements of a unit by its number.
pub fn unit_at(image: &Image, unit: u32) -> &[Statement]
    ensures { result.now ≡ machine.unit_at image.now unit }
{
    match image.program().as_slice().get(unit as usize) {
        Some(unit) => unit.as_slice(),
        None => &[],
    }
}

// The name that the unit of a process has for the position of COMMON that it waits for.
fn own_name_of(alloc: Global, image: &Image, listed: &Listed) -> Result<Option<Text>, AllocError>
    ensures { IfOk result (λ name. name
        ≡ naming.own_name (machine.unit_at image.now listed.now.unit) (name_found (slice_get (names_in_order image.now) listed.now.name))
        listed.now.element) }
{
    let unit = unit_at(image, listed.unit);
    own_name(alloc, unit, name_of(image, listed.name), listed.element)
}

// Appends a line with the name that the unit of a process has for the position of COMMON that it waits for, if it has
// one.
fn append_own_name(
    alloc: Global,
    text: &mut Vec<u8>,
    image: &Image,
    listed: &Listed,
) -> Result<(), AllocError>
    ensures { OnOk result (text.new.items ≡ text.old.items ++ words.own_notes image.now listed.now listed.now.owner) }
{
    if listed.owner != 0 {
        return Ok(());
    }
    let Some(name) = own_name_of(alloc, image, listed)? else {
        return Ok(());
    };
    let mut line = Vec::new(alloc);
    append_own_words(&mut line, image, listed, name.as_slice())?;
    append_words(text, &line)?;
    Ok(())
}

// Appends the line of a waiting process, with notes where `long` is true.
fn append_told(
    alloc: Global,
    text: &mut Vec<u8>,
    image: &Image,
    listed: &Listed,
    long: bool,
) -> Result<(), AllocError>
    ensures { OnOk result (text.new.items ≡ text.old.items ++ words.told_text long image.now listed.now) }
{
    append_waiting(text, image, listed)?;
    if long {
        append_own_name(alloc, text, image, listed)?;
    }
    Ok(())
}

/// Appends the lines of all processes that were found waiting and still wait, by their numbers. Where `long` is true,
/// the line of a process that waits for a position of COMMON is followed by its unit's name for that.
///
/// # Errors
///
/// Only where memory was refused.
pub fn append_all_waiting(
    alloc: Global,
    text: &mut Vec<u8>,
    core: &Core,
    long: bool,
) -> Result<(), AllocError>
    ensures { OnOk result (text.new.items ≡ text.old.items ++ words.all_waiting_text long core.now.core.program core.now.core.history) }
{
    let mut last = 0;
    while let Some(listed) = core.waiting_after(last) {
        append_told(alloc, text, core.image(), &listed, long)?;
        last = listed.process;
    }
    Ok(())
}

/// The lines of all processes that were found waiting and still wait, by their numbers.
///
/// # Errors
///
/// Only where memory was refused.
pub fn dump_text(alloc: Global, core: &Core) -> Result<Vec<u8>, AllocError>
    ensures { IfOk result (λ text. text.items ≡ words.all_waiting_text false core.now.core.program core.now.core.history) }
{
    let mut text = Vec::new(alloc);
    append_all_waiting(alloc, &mut text, core, false)?;
    Ok(text)
}
