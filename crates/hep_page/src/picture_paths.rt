//! The paths of a picture.
ghost use Rattle.std.specs.Prelude.{◌≡◌, ◌++◌, ◌+◌, ◌*◌, ◌<◌, ◌^◌, ◌≤◌, false, OnOk};
ghost use Rattle.std.specs.Fmt.{decimal};
ghost use Rattle.std.specs.List.{flat_map};
ghost use Rattle.hep_page.specs.LaneSpots.{fields_of};
ghost use Rattle.hep_page.specs.PicturePaths as words;

use crate::lane_spot::LaneSpot;
use crate::picture_scale::PictureScale;
use crate::picture_shape::{KINDS, append_class, append_mark_shape};
use hep_formats::{TurnKind, TurnMark, rank};
use hep_output::append_number;
use std::alloc::AllocError;

/// A number so many times, and another one more.
#[tactic(auto, using(crate::proofs::Products::product_bound))]
pub(crate) fn times_and(number: u64, times: u64, more: u64) -> u128
    ensures { result ≡ number * times + more }
{
    let product = u128::from(number) * u128::from(times);
    product + u128::from(more)
}

/// Appends a text and a number.
///
/// # Errors
///
/// Only where memory was refused.
pub(crate) fn append_with(text: &mut Vec<u8>, piece: &[u8], number: u128) -> Result<(), AllocError>
    ensures { OnOk result (text.new.items ≡ text.old.items ++ piece.now ++ decimal number) }
{
    text.extend_from_slice(piece)?;
    append_number(text, number)
}

// The middle of a column.
fn column_x(scale: &PictureScale, column: u64) -> u128
    ensures { result ≡ words.column_x (fields_of scale.now) column }
{
    times_and(scale.step, column, scale.step / 2)
}

// The middle of a lane.
fn lane_y(lane: u64) -> u128
    ensures { result ≡ words.lane_y lane }
{
    times_and(24, lane, 12)
}

// Begins a path at a place.
fn append_point(text: &mut Vec<u8>, x: u128, y: u128) -> Result<(), AllocError>
    ensures { OnOk result (text.new.items ≡ text.old.items ++ words.point x y) }
{
    append_with(text, b"M", x)?;
    append_with(text, b" ", y)
}

fn append_spot(text: &mut Vec<u8>, scale: &PictureScale, spot: &LaneSpot) -> Result<(), AllocError>
    ensures { OnOk result (text.new.items ≡ text.old.items ++ words.spot_point (fields_of scale.now) spot.now) }
{
    append_point(text, column_x(scale, spot.column), lane_y(spot.lane))
}

fn append_line_to(
    text: &mut Vec<u8>,
    scale: &PictureScale,
    spot: &LaneSpot,
) -> Result<(), AllocError>
    ensures { OnOk result (text.new.items ≡ text.old.items ++ words.line_to (fields_of scale.now) spot.now) }
{
    append_with(text, b"H", column_x(scale, spot.column))
}

// ---- marks

// Appends the mark of a kind, where a column shows it.
fn append_mark(
    text: &mut Vec<u8>,
    scale: &PictureScale,
    kind: TurnKind,
    spot: &LaneSpot,
) -> Result<(), AllocError>
    ensures { OnOk result (text.new.items ≡ text.old.items ++ words.mark_path (fields_of scale.now) kind spot.now) }
{
    if rank(spot.strong) != rank(kind) {
        return Ok(());
    }
    append_spot(text, scale, spot)?;
    append_mark_shape(text, scale.folded, kind)
}

// Appends the marks of a kind.
fn append_marks(
    text: &mut Vec<u8>,
    scale: &PictureScale,
    spots: &[LaneSpot],
    kind: TurnKind,
) -> Result<(), AllocError>
    ensures { OnOk result (text.new.items ≡ text.old.items ++ flat_map (words.mark_path (fields_of scale.now) kind) spots.now) }
{
    for spot in spots {
        append_mark(text, scale, kind, spot)?;
    }
    Ok(())
}

// Appends the path of a kind.
#[tactic(auto, unfolding(crate::specs::PicturePaths::kind_path))]
fn append_kind(
    text: &mut Vec<u8>,
    scale: &PictureScale,
    spots: &[LaneSpot],
    kind: TurnKind,
) -> Result<(), AllocError>
    ensures { OnOk result (text.new.items ≡ text.old.items ++ words.kind_path (fields_of scale.now) spots.now kind) }
{
    text.extend_from_slice(b"<path class=\"")?;
    append_class(text, kind)?;
    text.extend_from_slice(b"\" d=\"")?;
    append_marks(text, scale, spots, kind)?;
    text.extend_from_slice(b"\"/>")
}

// Appends the paths of kinds.
fn append_kinds(
    text: &mut Vec<u8>,
    scale: &PictureScale,
    spots: &[LaneSpot],
    kinds: &[TurnKind],
) -> Result<(), AllocError>
    ensures { OnOk result (text.new.items ≡ text.old.items ++ flat_map (words.kind_path (fields_of scale.now) spots.now) kinds.now) }
{
    for kind in kinds {
        append_kind(text, scale, spots, *kind)?;
    }
    Ok(())
}

// ---- lives

fn is_over(spot: &LaneSpot) -> bool
    ensures { result ≡ words.is_over spot.now }
{
    rank(spot.last) == 0 || 11 <= rank(spot.last)
}

fn has_begun(lives: bool, spot: &LaneSpot) -> bool
    ensures { result ≡ words.has_begun lives spot.now }
{
    lives || rank(spot.last) != 0
}

// Appends what a column adds to the lines of lives.
fn append_life(
    text: &mut Vec<u8>,
    scale: &PictureScale,
    lives: bool,
    spot: &LaneSpot,
) -> Result<(), AllocError>
    ensures { OnOk result (text.new.items ≡ text.old.items ++ words.life_step (fields_of scale.now) lives spot.now) }
{
    if !lives && rank(spot.last) != 0 {
        append_spot(text, scale, spot)?;
    }
    if has_begun(lives, spot) && is_over(spot) {
        append_line_to(text, scale, spot)?;
    }
    Ok(())
}

// Appends the lines of lives.
fn append_lives(
    text: &mut Vec<u8>,
    scale: &PictureScale,
    spots: &[LaneSpot],
) -> Result<(), AllocError>
    ensures { OnOk result (text.new.items ≡ text.old.items ++ words.lives_from (fields_of scale.now) false spots.now) }
{
    let mut lives = false;
    for spot in spots {
        append_life(text, scale, lives, spot)?;
        lives = has_begun(lives, spot) && !is_over(spot);
    }
    Ok(())
}

// ---- waiting

fn waits_at(spot: &LaneSpot) -> bool
    ensures { result ≡ words.waits_at spot.now }
{
    rank(spot.last) == 5
}

// Begins a box, from the middle of its left side.
fn append_box(text: &mut Vec<u8>, folded: bool) -> Result<(), AllocError>
    ensures { OnOk result (text.new.items ≡ text.old.items ++ words.box_begins folded) }
{
    if folded {
        text.extend_from_slice(b"v5")
    } else {
        text.extend_from_slice(b"m0-5v10")
    }
}

// Ends a box, from its lower right corner.
fn close_box(text: &mut Vec<u8>, folded: bool) -> Result<(), AllocError>
    ensures { OnOk result (text.new.items ≡ text.old.items ++ words.box_ends folded) }
{
    if folded {
        text.extend_from_slice(b"v-5z")
    } else {
        text.extend_from_slice(b"v-10z")
    }
}

// Appends what a column adds to the boxes of waiting.
fn append_wait(
    text: &mut Vec<u8>,
    scale: &PictureScale,
    waits: bool,
    spot: &LaneSpot,
) -> Result<(), AllocError>
    ensures { OnOk result (text.new.items ≡ text.old.items ++ words.wait_step (fields_of scale.now) waits spot.now) }
{
    if waits == waits_at(spot) {
        return Ok(());
    }
    if waits {
        append_line_to(text, scale, spot)?;
        close_box(text, scale.folded)
    } else {
        append_spot(text, scale, spot)?;
        append_box(text, scale.folded)
    }
}

// Appends the boxes of waiting.
fn append_waits(
    text: &mut Vec<u8>,
    scale: &PictureScale,
    spots: &[LaneSpot],
) -> Result<(), AllocError>
    ensures { OnOk result (text.new.items ≡ text.old.items ++ words.waits_from (fields_of scale.now) false spots.now) }
{
    let mut waits = false;
    for spot in spots {
        append_wait(text, scale, waits, spot)?;
        waits = waits_at(spot);
    }
    Ok(())
}

// ---- births

fn is_lane(lanes: u64, p: u64) -> bool
    ensures { result ≡ words.is_lane lanes p }
{
    1 <= p && p <= lanes
}

// Appends the line from who creates to who is created, if a turn creates a process and both have lanes.
fn append_birth(
    text: &mut Vec<u8>,
    scale: &PictureScale,
    lanes: u64,
    turn: u64,
    mark: &TurnMark,
) -> Result<(), AllocError>
    ensures { OnOk result (text.new.items ≡ text.old.items ++ words.birth_at (fields_of scale.now) lanes turn mark.now) }
{
    if !is_lane(lanes, mark.process) || !is_lane(lanes, mark.created) {
        return Ok(());
    }
    append_point(
        text,
        column_x(scale, turn / scale.turns),
        lane_y(mark.process),
    )?;
    append_with(text, b"V", lane_y(mark.created))
}

// Appends the lines from those who create to those who are created.
fn append_births(
    text: &mut Vec<u8>,
    scale: &PictureScale,
    lanes: u64,
    marks: &[TurnMark],
) -> Result<(), AllocError>
    ensures { OnOk result (text.new.items ≡ text.old.items ++ words.births_from (fields_of scale.now) lanes 0 marks.now) }
{
    let mut turn = 0;
    for mark in marks {
        append_birth(text, scale, lanes, turn, mark)?;
        turn += 1;
    }
    Ok(())
}

// Appends the path of lives.
#[tactic(auto, unfolding(crate::specs::PicturePaths::lives_text))]
fn append_life_path(
    text: &mut Vec<u8>,
    scale: &PictureScale,
    spots: &[LaneSpot],
) -> Result<(), AllocError>
    ensures { OnOk result (text.new.items ≡ text.old.items ++ words.lives_text (fields_of scale.now) spots.now) }
{
    text.extend_from_slice(b"<path class=\"")?;
    text.extend_from_slice(b"lane")?;
    text.extend_from_slice(b"\" d=\"")?;
    append_lives(text, scale, spots)?;
    text.extend_from_slice(b"\"/>")
}

// Appends the path of waiting.
#[tactic(auto, unfolding(crate::specs::PicturePaths::waits_text))]
fn append_wait_path(
    text: &mut Vec<u8>,
    scale: &PictureScale,
    spots: &[LaneSpot],
) -> Result<(), AllocError>
    ensures { OnOk result (text.new.items ≡ text.old.items ++ words.waits_text (fields_of scale.now) spots.now) }
{
    text.extend_from_slice(b"<path class=\"")?;
    text.extend_from_slice(b"waiting")?;
    text.extend_from_slice(b"\" d=\"")?;
    append_waits(text, scale, spots)?;
    text.extend_from_slice(b"\"/>")
}

// Appends the path of births.
#[tactic(auto, unfolding(crate::specs::PicturePaths::births_path))]
fn append_birth_path(
    text: &mut Vec<u8>,
    scale: &PictureScale,
    lanes: u64,
    marks: &[TurnMark],
) -> Result<(), AllocError>
    ensures { OnOk result (text.new.items ≡ text.old.items ++ words.births_path (fields_of scale.now) lanes marks.now) }
{
    text.extend_from_slice(b"<path class=\"")?;
    text.extend_from_slice(b"birth")?;
    text.extend_from_slice(b"\" d=\"")?;
    append_births(text, scale, lanes, marks)?;
    text.extend_from_slice(b"\"/>")
}

/// Appends all paths of a run.
///
/// # Errors
///
/// Only where memory was refused.
#[tactic(auto, unfolding(crate::specs::PicturePaths::run_text))]
pub(crate) fn append_run(
    text: &mut Vec<u8>,
    scale: &PictureScale,
    lanes: u64,
    marks: &[TurnMark],
    spots: &[LaneSpot],
) -> Result<(), AllocError>
    ensures { OnOk result (text.new.items ≡ text.old.items ++ words.run_text (fields_of scale.now) lanes marks.now spots.now) }
{
    append_life_path(text, scale, spots)?;
    append_wait_path(text, scale, spots)?;
    append_birth_path(text, scale, lanes, marks)?;
    append_kinds(text, scale, spots, &KINDS)
}
