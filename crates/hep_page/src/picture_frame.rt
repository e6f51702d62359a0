//! The rows of a picture, and its size.
ghost use Rattle.std.specs.Prelude.{◌≡◌, ◌++◌, ◌-◌, ◌*◌, ◌+◌, ◌^◌, ◌<◌, ◌≤◌, OnOk, length, map};
ghost use Rattle.hep_page.specs.LaneSpots.{fields_of};
ghost use Rattle.hep_page.specs.Pictures as words;

use crate::html::append_html;
use crate::lane_spot::parts;
use crate::picture_paths::{append_with, times_and};
use crate::picture_scale::PictureScale;
use crate::picture_template::{COLUMNS, FOLDED, NAMES, SHOWN};
use hep_formats::{TurnMark, first_word, from_unit, highest_process, numbers};
use std::alloc::{AllocError, Global};

/// How much a picture has.
#[derive(Clone, Copy)]
pub struct PictureFrame {
    pub turns: u64,
    pub processes: u64,
    pub lanes: u64,
    pub columns: u64,
    pub rows: u64,
    /// The height of a row.
    pub high: u64,
}

// No more lanes than 100 are drawn.
fn lane_count(processes: u64) -> u64
    ensures { result ≡ words.lane_count processes }
{
    if processes <= 100 { processes } else { 100 }
}

/// How much the picture of these turns has.
pub(crate) fn frame_of(scale: &PictureScale, marks: &[TurnMark]) -> PictureFrame
    ensures frame { result ≡ words.frame_of (fields_of scale.now) marks.now }
    ensures lanes { result.lanes ≤ 100 }
    ensures rows { result.rows ≤ length marks.now }
    ensures columns { result.columns ≤ length marks.now }
{
    let processes = highest_process(marks);
    let lanes = lane_count(processes);
    let columns = parts(marks.len() as u64, scale.turns);
    PictureFrame {
        turns: marks.len() as u64,
        processes,
        lanes,
        columns,
        rows: parts(columns, scale.row),
        high: 24 * lanes + 36,
    }
}

// The width of the rows, and so much more.
fn width_and(scale: &PictureScale, frame: &PictureFrame, more: u64) -> u128
    ensures { result ≡ words.width_and (fields_of scale.now) frame.now more }
{
    if scale.row <= frame.columns {
        u128::from(scale.wide) + u128::from(more)
    } else {
        times_and(scale.step, frame.columns, more)
    }
}

/// The width of a picture.
pub(crate) fn width_of(scale: &PictureScale, frame: &PictureFrame) -> u128
    ensures { result ≡ words.width_of (fields_of scale.now) frame.now }
{
    let width = width_and(scale, frame, 312);
    if 720 <= width { width } else { 720 }
}

/// The height of a picture.
pub(crate) fn height_of(frame: &PictureFrame) -> u128
    ensures { result ≡ words.height_of frame.now }
{
    times_and(frame.high, frame.rows, 112)
}

// The number of columns in the last row.
fn last_columns(scale: &PictureScale, frame: &PictureFrame) -> u64
    ensures { result ≡ words.last_columns (fields_of scale.now) frame.now }
{
    if frame.columns % scale.row == 0 {
        scale.row
    } else {
        frame.columns % scale.row
    }
}

/// Begins what stands at the end of the last row.
///
/// # Errors
///
/// Only where memory was refused.
#[tactic(auto, unfolding(crate::specs::Pictures::end_place))]
pub(crate) fn append_end_place(
    text: &mut Vec<u8>,
    scale: &PictureScale,
    frame: &PictureFrame,
) -> Result<(), AllocError>
    ensures { OnOk result (text.new.items ≡ text.old.items ++ words.end_place (fields_of scale.now) frame.now) }
{
    append_with(
        text,
        b"<svg x=\"",
        times_and(scale.step, last_columns(scale, frame), 132),
    )?;
    append_with(
        text,
        b"\" y=\"",
        times_and(frame.high, frame.rows.saturating_sub(1), 40),
    )?;
    text.extend_from_slice(b"\">")
}

// Appends that columns are folded, if they are.
#[tactic(auto, unfolding(crate::specs::Pictures::folded_text))]
fn append_folded(text: &mut Vec<u8>, scale: &PictureScale) -> Result<(), AllocError>
    ensures { OnOk result (text.new.items ≡ text.old.items ++ words.folded_text (fields_of scale.now)) }
{
    if !scale.folded {
        return Ok(());
    }
    append_with(text, b", ", u128::from(scale.turns))?;
    text.extend_from_slice(FOLDED.as_bytes())
}

// Appends that not all lanes are drawn, if so.
#[tactic(auto, unfolding(crate::specs::Pictures::undrawn_text))]
fn append_undrawn(text: &mut Vec<u8>, frame: &PictureFrame) -> Result<(), AllocError>
    ensures { OnOk result (text.new.items ≡ text.old.items ++ words.undrawn_text frame.now) }
{
    if frame.processes <= 100 {
        return Ok(());
    }
    text.extend_from_slice(b", the first 100 of them drawn")
}

/// Appends the title of a picture.
///
/// # Errors
///
/// Only where memory was refused.
#[tactic(auto, unfolding(crate::specs::Pictures::title_text))]
pub(crate) fn append_title(
    text: &mut Vec<u8>,
    scale: &PictureScale,
    frame: &PictureFrame,
    unit: &[u8],
) -> Result<(), AllocError>
    ensures { OnOk result (text.new.items ≡ text.old.items ++ words.title_text (fields_of scale.now) frame.now unit.now) }
{
    append_html(text, unit)?;
    append_with(text, b": ", u128::from(frame.turns))?;
    append_with(text, b" turns of ", u128::from(frame.processes))?;
    text.extend_from_slice(b" processes")?;
    append_folded(text, scale)?;
    append_undrawn(text, frame)
}

/// The unit of the first line.
pub(crate) fn main_unit<'a>(lines: &[&'a [u8]]) -> &'a [u8]
    ensures { result.now ≡ words.main_unit (map (λ line. line.now) lines.now) }
{
    match lines.first() {
        Some(line) => first_word(from_unit(line)),
        None => b"",
    }
}

// Appends the number of a turn above its column.
#[tactic(auto, unfolding(crate::specs::Pictures::tick_text))]
fn append_tick(text: &mut Vec<u8>, scale: &PictureScale, count: u64) -> Result<(), AllocError>
    ensures { OnOk result (text.new.items ≡ text.old.items ++ words.tick_text (fields_of scale.now) count) }
{
    append_with(
        text,
        b"<text class=\"t\" y=\"16\" x=\"",
        times_and(120, count, 0),
    )?;
    append_with(text, b"\">", times_and(scale.tick_turns, count, 0))?;
    text.extend_from_slice(b"</text>")
}

/// Appends the numbers of turns above their columns.
///
/// # Errors
///
/// Only where memory was refused.
pub(crate) fn append_ticks(
    alloc: Global,
    text: &mut Vec<u8>,
    scale: &PictureScale,
    frame: &PictureFrame,
) -> Result<(), AllocError>
    requires { frame.now.columns < 2 ^ 63 }
    ensures { OnOk result (text.new.items ≡ text.old.items ++ words.ticks_text (fields_of scale.now) frame.now) }
{
    let counts = numbers(alloc, 1, frame.columns / scale.tick)?;
    for count in &counts {
        append_tick(text, scale, *count)?;
    }
    Ok(())
}

#[tactic(auto, unfolding(crate::specs::Pictures::row_names))]
fn append_row_names(text: &mut Vec<u8>, frame: &PictureFrame, row: u64) -> Result<(), AllocError>
    ensures { OnOk result (text.new.items ≡ text.old.items ++ words.row_names frame.now row) }
{
    append_with(text, NAMES.as_bytes(), times_and(frame.high, row, 40))?;
    text.extend_from_slice(b"\"/>")
}

// Appends where the columns of a row are.
#[tactic(auto, unfolding(crate::specs::Pictures::row_place))]
fn append_row_place(
    text: &mut Vec<u8>,
    frame: &PictureFrame,
    width: u128,
    row: u64,
) -> Result<(), AllocError>
    ensures { OnOk result (text.new.items ≡ text.old.items ++ words.row_place frame.now width row) }
{
    append_with(text, COLUMNS.as_bytes(), times_and(frame.high, row, 40))?;
    append_with(text, b"\" width=\"", width)?;
    append_with(text, b"\" height=\"", u128::from(frame.high))
}

// Appends which columns of the run a row shows.
#[tactic(auto, unfolding(crate::specs::Pictures::row_view))]
fn append_row_view(
    text: &mut Vec<u8>,
    scale: &PictureScale,
    frame: &PictureFrame,
    width: u128,
    row: u64,
) -> Result<(), AllocError>
    ensures { OnOk result (text.new.items ≡ text.old.items ++ words.row_view (fields_of scale.now) frame.now width row) }
{
    append_with(text, b"\" viewBox=\"", times_and(scale.wide, row, 0))?;
    append_with(text, b" 0 ", width)?;
    append_with(text, b" ", u128::from(frame.high))?;
    text.extend_from_slice(SHOWN.as_bytes())
}

#[tactic(auto, unfolding(crate::specs::Pictures::row_text))]
fn append_row(
    text: &mut Vec<u8>,
    scale: &PictureScale,
    frame: &PictureFrame,
    row: u64,
) -> Result<(), AllocError>
    ensures { OnOk result (text.new.items ≡ text.old.items ++ words.row_text (fields_of scale.now) frame.now row) }
{
    let width = width_and(scale, frame, 0);
    append_row_names(text, frame, row)?;
    append_row_place(text, frame, width, row)?;
    append_row_view(text, scale, frame, width, row)
}

/// Appends all rows.
///
/// # Errors
///
/// Only where memory was refused.
pub(crate) fn append_rows(
    alloc: Global,
    text: &mut Vec<u8>,
    scale: &PictureScale,
    frame: &PictureFrame,
) -> Result<(), AllocError>
    requires { frame.now.rows < 2 ^ 63 }
    ensures { OnOk result (text.new.items ≡ text.old.items ++ words.rows_text (fields_of scale.now) frame.now) }
{
    let rows = numbers(alloc, 0, frame.rows)?;
    for row in &rows {
        append_row(text, scale, frame, *row)?;
    }
    Ok(())
}
