//! The lines of processes that wait and why.
ghost use Rattle.std.specs.Prelude.{◌≡◌, ◌++◌, OnOk, codes, map};
ghost use Rattle.std.specs.List.{flat_map};
ghost use Rattle.hep_image.specs.Names.{names_in_order};
ghost use Rattle.hep_why.specs.WaitCycles as circles;
ghost use Rattle.hep_why.specs.Lines as words;

use crate::reason::{Change, MakersWait, Reason};
use crate::wait_cycles::circles_of;
use crate::wait_graph::{makers_of, nexts_of};
use hep_event::{append_waiting, name_of};
use hep_image::Image;
use hep_output::append_number;
use hep_text::append_words;
use std::alloc::{AllocError, Global};

fn fate_text(waits: bool, lives: bool) -> &'static [u8]
    ensures { result.now ≡ words.fate_text waits lives }
{
    match (waits, lives) {
        (true, _) => b"waits",
        (false, true) => b"lives",
        (false, false) => b"has ended",
    }
}

fn deed_text(full: bool) -> &'static [u8]
    ensures { result.now ≡ words.deed_text full }
{
    if full { b"emptied" } else { b"filled" }
}

// What was changed, where, in a unit of this name, and by which entry it is told.
fn append_step(
    text: &mut Vec<u8>,
    called: &[u8],
    unit: &[u8],
    line: u32,
    entry: u64,
) -> Result<(), AllocError>
    ensures { OnOk result (text.new.items ≡ text.old.items ++ words.step_words called.now unit.now line entry) }
{
    text.extend_from_slice(b" ")?;
    text.extend_from_slice(called)?;
    text.extend_from_slice(b" at ")?;
    text.extend_from_slice(unit)?;
    text.extend_from_slice(b" LINE ")?;
    append_number(text, line)?;
    text.extend_from_slice(b" in entry ")?;
    append_number(text, entry)?;
    Ok(())
}

// The process that made a change, what has become of it, and what it did.
fn append_maker(text: &mut Vec<u8>, process: u64, fate: &[u8], full: bool) -> Result<(), AllocError>
    ensures { OnOk result (text.new.items ≡ text.old.items ++ words.maker_words process fate.now full) }
{
    text.extend_from_slice(b"process ")?;
    append_number(text, process)?;
    text.extend_from_slice(b", which ")?;
    text.extend_from_slice(fate)?;
    text.extend_from_slice(b", ")?;
    text.extend_from_slice(deed_text(full))?;
    Ok(())
}

// The latest change of what a process waits for, and what has become of the process that made it.
fn append_latest(
    text: &mut Vec<u8>,
    image: &Image,
    reason: &Reason,
    fate: &[u8],
) -> Result<(), AllocError>
    ensures { OnOk result (text.new.items
        ≡ text.old.items ++ words.latest_words (names_in_order image.now) reason.now.listed.full reason.now.called fate.now reason.now.latest) }
{
    let called = reason.called.as_slice();
    let Some(change) = reason.latest else {
        text.extend_from_slice(b"nobody has filled or emptied ")?;
        text.extend_from_slice(called)?;
        return Ok(());
    };
    let place = change.place;
    append_maker(text, place.process, fate, reason.listed.full)?;
    append_step(
        text,
        called,
        name_of(image, place.unit),
        place.line,
        change.entry,
    )
}

// Who brought what a process waits for, and what has become of that process.
fn append_bringer(
    text: &mut Vec<u8>,
    image: &Image,
    change: Change,
    fate: &[u8],
    full: bool,
) -> Result<(), AllocError>
    ensures { OnOk result (text.new.items
        ≡ text.old.items ++ words.change_words (names_in_order image.now) full (codes "it last,") fate.now change) }
{
    let place = change.place;
    append_maker(text, place.process, fate, full)?;
    append_step(
        text,
        b"it last,",
        name_of(image, place.unit),
        place.line,
        change.entry,
    )
}

// The line for the change before, which brought what a process waits for, if there was one.
fn append_brought(
    alloc: Global,
    text: &mut Vec<u8>,
    image: &Image,
    reason: &Reason,
    fate: &[u8],
) -> Result<(), AllocError>
    ensures { OnOk result (text.new.items
        ≡ text.old.items ++ words.brought_text (names_in_order image.now) reason.now.listed.full fate.now reason.now.brought) }
{
    match reason.brought {
        Some(change) => {
            let mut line = Vec::new(alloc);
            append_bringer(&mut line, image, change, fate, !reason.listed.full)?;
            append_words(text, &line)
        }
        None => Ok(()),
    }
}

// The lines of a waiting process; the processes that made the changes wait themselves, or don't.
fn append_reason(
    alloc: Global,
    text: &mut Vec<u8>,
    image: &Image,
    reason: &Reason,
    wait: &MakersWait,
) -> Result<(), AllocError>
    ensures { OnOk result (text.new.items ≡ text.old.items ++ words.reason_lines image.now reason.now wait.now) }
{
    let mut line = Vec::new(alloc);
    append_latest(
        &mut line,
        image,
        reason,
        fate_text(wait.latest, reason.lives),
    )?;
    append_waiting(text, image, &reason.listed)?;
    append_words(text, &line)?;
    append_brought(
        alloc,
        text,
        image,
        reason,
        fate_text(wait.brought, reason.bringer_lives),
    )
}

// The process at an index.
fn process_at(reasons: &[Reason], index: usize) -> u64
    ensures { result ≡ circles.process_at reasons.now index }
{
    match reasons.get(index) {
        Some(reason) => reason.listed.process,
        None => 0,
    }
}

fn append_member(text: &mut Vec<u8>, process: u64) -> Result<(), AllocError>
    ensures { OnOk result (text.new.items ≡ text.old.items ++ words.member_text process) }
{
    text.extend_from_slice(b" ")?;
    append_number(text, process)?;
    text.extend_from_slice(b",")?;
    Ok(())
}

// The members of a cycle after the first one.
fn append_members(
    text: &mut Vec<u8>,
    reasons: &[Reason],
    indexes: &[usize],
) -> Result<(), AllocError>
    ensures { OnOk result (text.new.items ≡ text.old.items ++ flat_map words.member_text (map (circles.process_at reasons.now) indexes.now)) }
{
    for index in indexes {
        append_member(text, process_at(reasons, *index))?;
    }
    Ok(())
}

fn append_front(text: &mut Vec<u8>, process: u64) -> Result<(), AllocError>
    ensures { OnOk result (text.new.items ≡ text.old.items ++ words.front_text process) }
{
    text.extend_from_slice(b"CIRCLE ")?;
    append_number(text, process)?;
    text.extend_from_slice(b" WAITS FOR WHAT WAS CHANGED BY")?;
    Ok(())
}

fn append_end(text: &mut Vec<u8>, process: u64) -> Result<(), AllocError>
    ensures { OnOk result (text.new.items ≡ text.old.items ++ words.end_text process) }
{
    text.extend_from_slice(b" ")?;
    append_number(text, process)?;
    text.extend_from_slice(b"\n")?;
    Ok(())
}

// The line of a cycle, unless it is one process alone.
fn append_circle(
    text: &mut Vec<u8>,
    reasons: &[Reason],
    indexes: &[usize],
) -> Result<(), AllocError>
    ensures { OnOk result (text.new.items ≡ text.old.items ++ words.circle_text (map (circles.process_at reasons.now) indexes.now)) }
{
    let [first, behind @ ..] = indexes else {
        return Ok(());
    };
    if behind.is_empty() {
        return Ok(());
    }
    let process = process_at(reasons, *first);
    append_front(text, process)?;
    append_members(text, reasons, behind)?;
    append_end(text, process)?;
    Ok(())
}

// The lines of all cycles.
fn append_circles(
    text: &mut Vec<u8>,
    reasons: &[Reason],
    found: &[Vec<usize>],
) -> Result<(), AllocError>
    ensures { OnOk result (text.new.items
        ≡ text.old.items ++ flat_map words.circle_text (map (map (circles.process_at reasons.now)) (map (λ circle. circle.items) found.now))) }
{
    for circle in found {
        append_circle(text, reasons, circle)?;
    }
    Ok(())
}

// The lines of all waiting processes.
fn append_each(
    alloc: Global,
    text: &mut Vec<u8>,
    image: &Image,
    reasons: &[Reason],
    makers: &[MakersWait],
) -> Result<(), AllocError>
    requires { makers.now ≡ map (words.makers_wait reasons.now) reasons.now }
    ensures { OnOk result (text.new.items ≡ text.old.items ++ flat_map (words.reason_text image.now reasons.now) reasons.now) }
{
    for index in 0..reasons.len() {
        append_reason(alloc, text, image, &reasons[index], &makers[index])?;
    }
    Ok(())
}

/// Appends why processes wait: for each of them its line, its unit's name for what it waits for, and who changed that
/// last; and then the cycles of processes each of which waits for what the next one changed. The time is linear in
/// their number.
///
/// # Errors
///
/// Only where memory was refused.
#[tactic(auto, unfolding(crate::specs::Lines::circles_text))]
pub fn append_reasons(
    alloc: Global,
    text: &mut Vec<u8>,
    image: &Image,
    reasons: &[Reason],
) -> Result<(), AllocError>
    ensures { OnOk result (text.new.items ≡ text.old.items ++ words.reasons_text image.now reasons.now) }
{
    let makers = makers_of(alloc, reasons)?;
    append_each(alloc, text, image, reasons, &makers)?;
    let nexts = nexts_of(alloc, reasons)?;
    let circles = circles_of(alloc, &nexts)?;
    append_circles(text, reasons, &circles)?;
    Ok(())
}

/// Appends how many processes can go on, where some do and others wait.
///
/// # Errors
///
/// Only where memory was refused.
pub fn append_able(text: &mut Vec<u8>, reasons: &[Reason], able: u64) -> Result<(), AllocError>
    ensures { OnOk result (text.new.items ≡ text.old.items ++ words.able_text reasons.now able) }
{
    let [_, ..] = reasons else {
        return Ok(());
    };
    if able == 0 {
        return Ok(());
    }
    text.extend_from_slice(b"AND ")?;
    append_number(text, able)?;
    text.extend_from_slice(match able {
        1 => b" PROCESS CAN GO ON\n",
        _ => b" PROCESSES CAN GO ON\n",
    })?;
    Ok(())
}
