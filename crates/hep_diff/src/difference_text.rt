//! The lines of the differences.
ghost use Rattle.std.specs.Prelude.{◌≡◌, ◌⊎◌, ◌++◌, OnOk, length, option_map};
ghost use Rattle.hep_dump.specs.Waiting as waiting;
ghost use Rattle.hep_diff.specs.DifferenceLines as words;
ghost use Rattle.hep_text.specs.Line.{lines};

use crate::process_step::{CellReading, ProcessStep};
use hep_dump::faults::name_of;
use hep_dump::own_name;
use hep_dump::waiting::{append_position, append_variable, unit_at};
use hep_image::Image;
use hep_outcome::{Listed, Place, Whereabouts, append_waiting};
use hep_output::append_number;
use hep_state_text::values::append_value;
use hep_text::line::next_line;
use std::alloc::{AllocError, Global};

/// Appends the number of equal entries, and the numbers of entries of the first and of the second history.
///
/// # Errors
///
/// Only where memory was refused.
pub fn append_front(
    text: &mut Vec<u8>,
    same: u64,
    first: u64,
    second: u64,
) -> Result<(), AllocError>
    ensures { OnOk result (text.new.items ≡ text.old.items ++ words.front_text same first second) }
{
    text.extend_from_slice(b"THE FIRST ")?;
    append_number(text, same)?;
    text.extend_from_slice(b" ENTRIES ARE THE SAME, OF ")?;
    append_number(text, first)?;
    text.extend_from_slice(b" AND ")?;
    append_number(text, second)?;
    text.extend_from_slice(b"\n")?;
    Ok(())
}

fn append_process_words(text: &mut Vec<u8>, p: u64) -> Result<(), AllocError>
    ensures { OnOk result (text.new.items ≡ text.old.items ++ words.process_words p) }
{
    text.extend_from_slice(b"PROCESS ")?;
    append_number(text, p)?;
    text.extend_from_slice(b" DIFFERS IN STEP ")?;
    Ok(())
}

/// Appends that process p differs in its step with this number, counted after the equal entries.
///
/// # Errors
///
/// Only where memory was refused.
pub fn append_process(text: &mut Vec<u8>, p: u64, step: u64) -> Result<(), AllocError>
    ensures { OnOk result (text.new.items ≡ text.old.items ++ words.process_head p step) }
{
    append_process_words(text, p)?;
    append_number(text, step)?;
    text.extend_from_slice(b" BEHIND THEM\n")?;
    Ok(())
}

// Where a step is, in a unit of this name.
fn append_where(text: &mut Vec<u8>, unit: &[u8], line: u32) -> Result<(), AllocError>
    ensures { OnOk result (text.new.items ≡ text.old.items ++ words.where_text unit.now line) }
{
    text.extend_from_slice(unit)?;
    text.extend_from_slice(b" LINE ")?;
    append_number(text, line)?;
    Ok(())
}

// What a unit calls a position of COMMON, and by the block where it has no name for it.
fn append_common(
    alloc: Global,
    text: &mut Vec<u8>,
    image: &Image,
    unit: u32,
    place: Place,
) -> Result<(), AllocError>
    ensures { OnOk result (text.new.items ≡ text.old.items ++ words.common_text image.now unit place) }
{
    let block = name_of(image, place.name);
    match own_name(alloc, unit_at(image, unit), block, place.element)? {
        Some(name) => text.extend_from_slice(name.as_slice()),
        None => append_position(text, block, place.element),
    }
}

// The name of what a step of a unit has read.
fn append_place(
    alloc: Global,
    text: &mut Vec<u8>,
    image: &Image,
    unit: u32,
    place: Place,
) -> Result<(), AllocError>
    ensures { OnOk result (text.new.items ≡ text.old.items ++ words.owned_text image.now unit place place.owner) }
{
    if place.owner == 0 {
        append_common(alloc, text, image, unit, place)
    } else {
        append_variable(text, name_of(image, place.name), place.element, place.owner)
    }
}

// What a step of a unit was told, if it was told something.
fn append_found(
    alloc: Global,
    text: &mut Vec<u8>,
    image: &Image,
    unit: u32,
    found: Option<CellReading>,
) -> Result<(), AllocError>
    ensures { OnOk result (text.new.items ≡ text.old.items ++ words.found_text image.now unit found) }
{
    let Some(found) = found else {
        return Ok(());
    };
    text.extend_from_slice(b" READS ")?;
    append_place(alloc, text, image, unit, found.place)?;
    text.extend_from_slice(b" = ")?;
    append_value(text, found.value)?;
    Ok(())
}

/// Appends a step.
///
/// # Errors
///
/// Only where memory was refused.
pub fn append_deed(
    alloc: Global,
    text: &mut Vec<u8>,
    image: &Image,
    deed: &ProcessStep,
) -> Result<(), AllocError>
    ensures { OnOk result (text.new.items ≡ text.old.items ++ words.deed_text image.now deed.now) }
{
    text.extend_from_slice(b"ENTRY ")?;
    append_number(text, deed.entry)?;
    text.extend_from_slice(b" ")?;
    append_where(text, name_of(image, deed.unit), deed.line)?;
    append_found(alloc, text, image, deed.unit, deed.found)?;
    text.extend_from_slice(b"\n")?;
    Ok(())
}

/// Appends what has become of a process that has no further step: it was found waiting, and still waits; or it lives
/// at a place; or it was made; or it was never made.
///
/// # Errors
///
/// Only where memory was refused.
pub fn append_rest(
    text: &mut Vec<u8>,
    image: &Image,
    waits: Option<Listed>,
    lives: Option<Whereabouts>,
    made: bool,
) -> Result<(), AllocError>
    ensures { OnOk result (text.new.items ≡ text.old.items ++ words.rest_text image.now waits lives made) }
{
    if let Some(listed) = waits {
        return append_waiting(text, image, &listed);
    }
    if let Some(place) = lives {
        text.extend_from_slice(b"AT ")?;
        append_where(text, name_of(image, place.unit), place.line)?;
        return text.extend_from_slice(b"\n");
    }
    if made {
        text.extend_from_slice(b"HAS ENDED\n")
    } else {
        text.extend_from_slice(b"WAS NOT MADE\n")
    }
}

// A line after its mark.
fn append_marked(text: &mut Vec<u8>, mark: &[u8], line: &[u8]) -> Result<(), AllocError>
    ensures { OnOk result (text.new.items ≡ text.old.items ++ words.marked mark.now line.now) }
{
    text.extend_from_slice(mark)?;
    text.extend_from_slice(line)?;
    text.extend_from_slice(b"\n")?;
    Ok(())
}

// The first line of a text, if it has one.
fn first_line(text: &[u8]) -> Option<&[u8]>
    ensures { option_map (λ line. line.now) result ≡ words.first_line (lines text.now) }
{
    if text.is_empty() {
        return None;
    }
    let (line, _) = next_line(text);
    Some(line)
}

// A line after its mark, and nothing where there is none.
fn append_side(text: &mut Vec<u8>, mark: &[u8], line: Option<&[u8]>) -> Result<(), AllocError>
    ensures { OnOk result (text.new.items ≡ text.old.items ++ words.side_text mark.now (option_map (λ line. line.now) line.entry)) }
{
    match line {
        Some(line) => append_marked(text, mark, line),
        None => Ok(()),
    }
}

// The record with this number, by its line on each side.
fn append_record(
    text: &mut Vec<u8>,
    number: u64,
    first: Option<&[u8]>,
    second: Option<&[u8]>,
) -> Result<(), AllocError>
    ensures { OnOk result (text.new.items
        ≡ text.old.items ++ words.record_text number (option_map (λ line. line.now) first.entry) (option_map (λ line. line.now) second.entry)) }
{
    text.extend_from_slice(b"RECORD ")?;
    append_number(text, number)?;
    text.extend_from_slice(b" DIFFERS\n")?;
    append_side(text, b"< ", first)?;
    append_side(text, b"> ", second)?;
    Ok(())
}

// The record with this number, where at least one side has no lines left, and the other may have some.
fn append_left(text: &mut Vec<u8>, number: u64, left: &[u8], right: &[u8]) -> Result<(), AllocError>
    requires { (length left.now ≡ 0) ⊎ (length right.now ≡ 0) }
    ensures { OnOk result (text.new.items ≡ text.old.items ++ words.records_text number (lines left.now) (lines right.now)) }
{
    match (first_line(left), first_line(right)) {
        (None, None) => Ok(()),
        (first, second) => append_record(text, number, first, second),
    }
}

/// Appends the first lines of two texts that differ, if there are such lines.
///
/// # Errors
///
/// Only where memory was refused.
pub fn append_records(text: &mut Vec<u8>, first: &[u8], second: &[u8]) -> Result<(), AllocError>
    ensures { OnOk result (text.new.items ≡ text.old.items ++ words.records_text 1 (lines first.now) (lines second.now)) }
{
    let mut number = 1;
    let mut left = first;
    let mut right = second;
    while !left.is_empty() && !right.is_empty() {
        let (line, behind) = next_line(left);
        let (other, behind_other) = next_line(right);
        if line != other {
            return append_record(text, number, Some(line), Some(other));
        }
        number += 1;
        left = behind;
        right = behind_other;
    }
    append_left(text, number, left, right)
}

// All lines of a text, each after a mark.
fn append_all_marked(text: &mut Vec<u8>, mark: &[u8], written: &[u8]) -> Result<(), AllocError>
    ensures { OnOk result (text.new.items ≡ text.old.items ++ words.all_marked mark.now written.now) }
{
    let mut rest = written;
    while !rest.is_empty() {
        let (line, behind) = next_line(rest);
        append_marked(text, mark, line)?;
        rest = behind;
    }
    Ok(())
}

fn append_both(text: &mut Vec<u8>, first: &[u8], second: &[u8]) -> Result<(), AllocError>
    ensures { OnOk result (text.new.items ≡ text.old.items ++ words.both_text first.now second.now) }
{
    text.extend_from_slice(b"ENDS DIFFER\n")?;
    append_all_marked(text, b"< ", first)?;
    append_all_marked(text, b"> ", second)?;
    Ok(())
}

/// Appends all lines of both texts, if they differ.
///
/// # Errors
///
/// Only where memory was refused.
pub fn append_ends(text: &mut Vec<u8>, first: &[u8], second: &[u8]) -> Result<(), AllocError>
    ensures { OnOk result (text.new.items ≡ text.old.items ++ words.ends_text first.now second.now) }
{
    if first == second {
        return Ok(());
    }
    append_both(text, first, second)
}
