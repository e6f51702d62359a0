//! The first line and the last one of each process.
ghost use Rattle.std.specs.Prelude.{◌≡◌, ◌++◌, ◌+◌, ◌*◌, IfOk, OnOk, map, reverse};
ghost use Rattle.std.specs.List.{flat_map};
ghost use Rattle.hep_page.specs.Pictures as words;

use crate::html::append_html;
use crate::picture_paths::{append_with, times_and};
use crate::picture_template::{NAME, WANT};
use hep_formats::{after_blank, deed_of, first_word, from_unit, line_of, waits};
use std::alloc::{AllocError, Global};

/// A process, and the lines of its first turn and of its last one.
#[derive(Clone, Copy)]
pub struct LaneLines<'a> {
    pub number: u64,
    pub first: &'a [u8],
    pub last: &'a [u8],
}

// The lines of processes, by all lines in order, and from the last one on.
fn lanes_by<'a>(
    alloc: Global,
    lines: &[&'a [u8]],
    back: &[&'a [u8]],
    numbers: &[u64],
) -> Result<Vec<LaneLines<'a>>, AllocError>
    ensures { IfOk result (λ lanes. map words.lane_of lanes.items
        ≡ map (words.lane_in (map (λ line. line.now) lines.now) (map (λ line. line.now) back.now)) numbers.now) }
{
    let mut lanes = Vec::new(alloc);
    for number in numbers {
        lanes.push(LaneLines {
            number: *number,
            first: line_of(*number, lines),
            last: line_of(*number, back),
        })?;
    }
    Ok(lanes)
}

// Lines from the last one on.
#[tactic(auto, using(crate::proofs::Reversed::map_reversed))]
fn reversed<'a>(alloc: Global, lines: &[&'a [u8]]) -> Result<Vec<&'a [u8]>, AllocError>
    ensures { IfOk result (λ back. map (λ line. line.now) back.items ≡ reverse (map (λ line. line.now) lines.now)) }
{
    let mut back = Vec::new(alloc);
    back.extend_from_slice(lines)?;
    back.reverse();
    Ok(back)
}

/// The lines of processes.
///
/// # Errors
///
/// Only where memory was refused.
pub(crate) fn lanes_of<'a>(
    alloc: Global,
    lines: &[&'a [u8]],
    numbers: &[u64],
) -> Result<Vec<LaneLines<'a>>, AllocError>
    ensures { IfOk result (λ lanes. map words.lane_of lanes.items ≡ words.lanes_of (map (λ line. line.now) lines.now) numbers.now) }
{
    let back = reversed(alloc, lines)?;
    lanes_by(alloc, lines, &back, numbers)
}

// Appends who waits, where and for what.
#[tactic(auto, unfolding(crate::specs::Pictures::wait_words))]
fn append_wait_words(text: &mut Vec<u8>, lane: &LaneLines<'_>) -> Result<(), AllocError>
    ensures { OnOk result (text.new.items ≡ text.old.items ++ words.wait_words (words.lane_of lane.now)) }
{
    if !waits(lane.last) {
        return Ok(());
    }
    append_html(text, after_blank(lane.last))?;
    text.extend_from_slice(b". ")
}

/// Appends of all lanes who waits, where and for what.
///
/// # Errors
///
/// Only where memory was refused.
pub(crate) fn append_description(
    text: &mut Vec<u8>,
    lanes: &[LaneLines<'_>],
) -> Result<(), AllocError>
    ensures { OnOk result (text.new.items ≡ text.old.items ++ flat_map words.wait_words (map words.lane_of lanes.now)) }
{
    for lane in lanes {
        append_wait_words(text, lane)?;
    }
    Ok(())
}

// The height of the texts of a lane.
fn text_y(lane: &LaneLines<'_>) -> u128
    ensures { result ≡ words.text_y (words.lane_of lane.now) }
{
    times_and(24, lane.number, 16)
}

#[tactic(auto, unfolding(crate::specs::Pictures::number_text))]
fn append_lane_number(text: &mut Vec<u8>, lane: &LaneLines<'_>) -> Result<(), AllocError>
    ensures { OnOk result (text.new.items ≡ text.old.items ++ words.number_text (words.lane_of lane.now)) }
{
    append_with(text, b"<text class=\"n\" x=\"8\" y=\"", text_y(lane))?;
    append_with(text, b"\">", u128::from(lane.number))?;
    text.extend_from_slice(b"</text>")
}

// Appends a text on the line of a lane, after its beginning.
#[tactic(auto, unfolding(crate::specs::Pictures::line_text))]
fn append_line_text(
    text: &mut Vec<u8>,
    begins: &[u8],
    lane: &LaneLines<'_>,
    characters: &[u8],
) -> Result<(), AllocError>
    ensures { OnOk result (text.new.items ≡ text.old.items ++ words.line_text begins.now (words.lane_of lane.now) characters.now) }
{
    append_with(text, begins, text_y(lane))?;
    text.extend_from_slice(b"\">")?;
    append_html(text, characters)?;
    text.extend_from_slice(b"</text>")
}

#[tactic(auto, unfolding(crate::specs::Pictures::name_text))]
fn append_name(text: &mut Vec<u8>, lane: &LaneLines<'_>) -> Result<(), AllocError>
    ensures { OnOk result (text.new.items ≡ text.old.items ++ words.name_text (words.lane_of lane.now)) }
{
    append_lane_number(text, lane)?;
    append_line_text(
        text,
        NAME.as_bytes(),
        lane,
        first_word(from_unit(lane.first)),
    )
}

/// Appends the names of all lanes.
///
/// # Errors
///
/// Only where memory was refused.
pub(crate) fn append_names(text: &mut Vec<u8>, lanes: &[LaneLines<'_>]) -> Result<(), AllocError>
    ensures { OnOk result (text.new.items ≡ text.old.items ++ flat_map words.name_text (map words.lane_of lanes.now)) }
{
    for lane in lanes {
        append_name(text, lane)?;
    }
    Ok(())
}

// Appends at the end of the lane of a process that waits what for.
#[tactic(auto, unfolding(crate::specs::Pictures::end_text))]
fn append_end(text: &mut Vec<u8>, lane: &LaneLines<'_>) -> Result<(), AllocError>
    ensures { OnOk result (text.new.items ≡ text.old.items ++ words.end_text (words.lane_of lane.now)) }
{
    if !waits(lane.last) {
        return Ok(());
    }
    append_line_text(text, WANT.as_bytes(), lane, deed_of(lane.last))
}

/// Appends at the end of each lane of a process that waits what for.
///
/// # Errors
///
/// Only where memory was refused.
pub(crate) fn append_ends(text: &mut Vec<u8>, lanes: &[LaneLines<'_>]) -> Result<(), AllocError>
    ensures { OnOk result (text.new.items ≡ text.old.items ++ flat_map words.end_text (map words.lane_of lanes.now)) }
{
    for lane in lanes {
        append_end(text, lane)?;
    }
    Ok(())
}
