//! The lanes of a run at a terminal: a column for each process, and a row for each line of its trace.
ghost use Rattle.std.specs.Prelude.{◌≡◌, ◌≤◌, ◌++◌, IfOk, OnOk, length, map, take};
ghost use Rattle.std.specs.List.{flat_map};
ghost use Rattle.hep_formats.specs.LaneRows as rows;
ghost use Rattle.hep_formats.specs.Lanes as words;

use crate::lane::{
    Lane, LaneTurn, cell_of, has_lane, is_waiting, lanes_after, lanes_before, turn_of,
};
use crate::lane_row::{LaneFrame, append_cell, append_entry, cut};
use crate::short_action::append_short;
use crate::trace_line::{action_of, last_line_of, line_of, lines_of, source_line_of, unit_of};
use crate::turn_mark::{first_word, higher, lower, marks_of};
use crate::words::after_blank;
use hep_base::append_number;
use std::alloc::{AllocError, Global};

// The line of the source and the action of a line, as wide as a cell at most.
fn own_cell(alloc: Global, width: usize, line: &[u8]) -> Result<Vec<u8>, AllocError>
    ensures { IfOk result (λ cell. cell.items ≡ rows.cut width (words.own_text line.now)) }
{
    let mut cell = Vec::new(alloc);
    cell.extend_from_slice(source_line_of(line))?;
    cell.push(b' ')?;
    append_short(&mut cell, action_of(line))?;
    cut(&mut cell, width)?;
    Ok(cell)
}

// Appends what lanes show of a turn, whose process shows `own`, to a row from column 7 on.
#[tactic(auto, unfolding(crate::specs::Lanes::shown_cells))]
fn append_cells(
    row: &mut Vec<u8>,
    width: usize,
    turn: &LaneTurn<'_>,
    own: &[u8],
    shown: &[Lane],
) -> Result<(), AllocError>
    requires narrow { width ≤ 24 }
    requires few { length shown.now ≤ 4294967296 }
    ensures { OnOk result (row.new.items ≡ rows.cells_after width 7 row.old.items
        (words.shown_cells (words.turn_shown turn.now) own.now shown.now)) }
{
    let mut column = 7;
    for lane in shown {
        append_cell(row, column, cell_of(turn, own, *lane))?;
        column += width;
    }
    if !has_lane(turn.mark.process, shown) {
        append_cell(row, column, b"~")?;
    }
    Ok(())
}

// Appends the cells of a line to a row, from column 7 on.
fn append_turn_cells(
    alloc: Global,
    row: &mut Vec<u8>,
    frame: LaneFrame,
    lanes: &[Lane],
    line: &[u8],
) -> Result<(), AllocError>
    requires narrow { frame.width ≤ 24 }
    requires few { frame.few ≤ 4294967296 }
    ensures { OnOk result (row.new.items ≡ rows.cells_after frame.width 7 row.old.items
        (words.turn_cells frame.width (take frame.few lanes.now) line.now)) }
{
    let own = own_cell(alloc, frame.width, line)?;
    let shown = &lanes[..frame.few.min(lanes.len())];
    append_cells(row, frame.width, &turn_of(line), &own, shown)
}

// Appends the row of a line.
fn append_turn(
    alloc: Global,
    text: &mut Vec<u8>,
    frame: LaneFrame,
    lanes: &[Lane],
    line: &[u8],
) -> Result<(), AllocError>
    requires narrow { frame.width ≤ 24 }
    requires few { frame.few ≤ 4294967296 }
    ensures { OnOk result (text.new.items ≡ text.old.items ++ words.turn_row frame lanes.now line.now) }
{
    let mut row = Vec::new(alloc);
    append_entry(&mut row, first_word(line))?;
    append_turn_cells(alloc, &mut row, frame, lanes, line)?;
    text.extend_from_slice(&row)?;
    text.push(b'\n')?;
    Ok(())
}

// The number of a process, and the unit of its first turn, as wide as a cell at most.
fn head_cell(
    alloc: Global,
    width: usize,
    lines: &[&[u8]],
    lane: Lane,
) -> Result<Vec<u8>, AllocError>
    ensures { IfOk result (λ cell. cell.items ≡ words.head_cell width (map (λ line. line.now) lines.now) lane) }
{
    let mut cell = Vec::new(alloc);
    append_number(&mut cell, lane.process)?;
    let unit = unit_of(line_of(lane.process, lines));
    if !unit.is_empty() {
        cell.push(b' ')?;
        cell.extend_from_slice(unit)?;
    }
    cut(&mut cell, width)?;
    Ok(cell)
}

// Appends the names of lanes to a row, from column 7 on.
fn append_names(
    alloc: Global,
    row: &mut Vec<u8>,
    frame: LaneFrame,
    lanes: &[Lane],
    lines: &[&[u8]],
) -> Result<(), AllocError>
    requires narrow { frame.width ≤ 24 }
    requires few { frame.few ≤ 4294967296 }
    ensures { OnOk result (row.new.items ≡ rows.cells_after frame.width 7 row.old.items
        (words.head_cells frame lanes.now (map (λ line. line.now) lines.now))) }
{
    let mut column = 7;
    for lane in &lanes[..frame.few.min(lanes.len())] {
        let cell = head_cell(alloc, frame.width, lines, *lane)?;
        append_cell(row, column, &cell)?;
        column += frame.width;
    }
    if frame.few < lanes.len() {
        append_cell(row, column, b"~")?;
    }
    Ok(())
}

// Appends the row of names.
fn append_head(
    alloc: Global,
    text: &mut Vec<u8>,
    frame: LaneFrame,
    lanes: &[Lane],
    lines: &[&[u8]],
) -> Result<(), AllocError>
    requires narrow { frame.width ≤ 24 }
    requires few { frame.few ≤ 4294967296 }
    ensures { OnOk result (text.new.items ≡ text.old.items ++ words.head_row frame lanes.now (map (λ line. line.now) lines.now)) }
{
    let mut row = Vec::new(alloc);
    append_entry(&mut row, b"entry")?;
    append_names(alloc, &mut row, frame, lanes, lines)?;
    text.extend_from_slice(&row)?;
    text.push(b'\n')?;
    Ok(())
}

// Appends what a process waits for, if it waits.
fn append_wait(text: &mut Vec<u8>, lines: &[&[u8]], lane: Lane) -> Result<(), AllocError>
    ensures { OnOk result (text.new.items ≡ text.old.items ++ words.wait_row (map (λ line. line.now) lines.now) lane) }
{
    if !is_waiting(lane) {
        return Ok(());
    }
    text.extend_from_slice(b"       ")?;
    text.extend_from_slice(after_blank(last_line_of(lane.process, lines)))?;
    text.push(b'\n')?;
    Ok(())
}

// Appends what those processes wait for that wait.
fn append_waits(text: &mut Vec<u8>, lines: &[&[u8]], lanes: &[Lane]) -> Result<(), AllocError>
    ensures { OnOk result (text.new.items ≡ text.old.items ++ flat_map (words.wait_row (map (λ line. line.now) lines.now)) lanes.now) }
{
    for lane in lanes {
        append_wait(text, lines, *lane)?;
    }
    Ok(())
}

// Appends the rows of all lines, with the lanes before them.
fn append_rows(
    alloc: Global,
    text: &mut Vec<u8>,
    frame: LaneFrame,
    lanes: Vec<Lane>,
    lines: &[&[u8]],
) -> Result<(), AllocError>
    requires narrow { frame.width ≤ 24 }
    requires few { frame.few ≤ 4294967296 }
    ensures { OnOk result (text.new.items ≡ text.old.items
        ++ words.rows_text frame (map (λ line. line.now) lines.now) lanes.items (map (λ line. line.now) lines.now)) }
{
    let mut lanes = lanes;
    for line in lines {
        append_turn(alloc, text, frame, &lanes, line)?;
        lanes = lanes_after(alloc, &turn_of(line), &lanes)?;
    }
    append_waits(text, lines, &lanes[..frame.few.min(lanes.len())])
}

// How many lanes fit in so many columns.
fn lanes_within(columns: u32) -> usize
    ensures within { result ≡ words.lanes_within columns }
    ensures few { result ≤ 4294967296 }
{
    (columns as usize).saturating_sub(8) / 9
}

// How many columns each of n lanes has, in rows of so many columns.
fn lane_width(columns: u32, n: u64) -> usize
    ensures width { result ≡ words.lane_width columns n }
    ensures narrow { result ≤ 24 }
{
    let room = u64::from(columns).saturating_sub(8);
    higher(9, lower(24, room / higher(1, n))) as usize
}

// How many of n lanes rows of so many columns have, and how wide each is.
fn frame_of(columns: u32, n: usize) -> LaneFrame
    ensures frame { result ≡ words.frame_of columns n }
    ensures narrow { result.width ≤ 24 }
    ensures few { result.few ≤ 4294967296 }
{
    let few = lanes_within(columns);
    LaneFrame {
        few,
        width: lane_width(columns, lower(n as u64, few as u64)),
    }
}

/// The lanes of the run that these lines of `trace` are of, in rows of so many columns.
///
/// # Errors
///
/// Only where memory was refused.
pub fn lanes_of(alloc: Global, columns: u32, trace: &[u8]) -> Result<Vec<u8>, AllocError>
    ensures { IfOk result (λ text. text.items ≡ words.lanes_of columns trace.now) }
{
    let lines = lines_of(alloc, trace)?;
    let marks = marks_of(alloc, &lines)?;
    let lanes = lanes_before(alloc, lanes_within(columns) + 1, &marks)?;
    let frame = frame_of(columns, lanes.len());
    let mut text = Vec::new(alloc);
    append_head(alloc, &mut text, frame, &lanes, &lines)?;
    append_rows(alloc, &mut text, frame, lanes, &lines)?;
    Ok(text)
}
