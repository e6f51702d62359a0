//! What the lane of a process shows in each column of a picture.
ghost use Rattle.std.specs.Prelude.{◌≡◌, ◌++◌, ◌^◌, ◌<◌, ◌≤◌, IfOk, OnOk, length};
ghost use Rattle.hep_page.specs.LaneSpots as words;

use crate::picture_scale::PictureScale;
use hep_formats::{TurnKind, TurnMark, rank};
use std::alloc::{AllocError, Global};

/// What a lane shows in a column.
#[derive(Clone, Copy)]
pub struct LaneSpot {
    pub column: u64,
    pub lane: u64,
    /// What matters most of the turns there.
    pub strong: TurnKind,
    /// What the last one of them did.
    pub last: TurnKind,
}

/// How many parts of a size a number has, the last one perhaps smaller.
pub(crate) fn parts(number: u64, size: u64) -> u64
    requires { 1 ≤ size }
    ensures parts { result ≡ words.parts number size }
    ensures few { result ≤ number }
{
    if number % size == 0 {
        number / size
    } else {
        number / size + 1
    }
}

/// The layout for so many turns.
pub(crate) fn scale_of(turns: u64) -> PictureScale
    ensures { words.fields_of result ≡ words.scale_of turns }
{
    if turns <= 50 {
        return PictureScale {
            turns: 1,
            step: 24,
            tick: 5,
            tick_turns: 5,
            row: 100,
            wide: 2400,
            folded: false,
        };
    }
    if turns <= 1000 {
        return PictureScale {
            turns: 1,
            step: 12,
            tick: 10,
            tick_turns: 10,
            row: 100,
            wide: 1200,
            folded: false,
        };
    }
    let folded = parts(turns, 400);
    PictureScale {
        turns: folded,
        step: 3,
        tick: 40,
        tick_turns: 40 * folded,
        row: 400,
        wide: 1200,
        folded: true,
    }
}

// What a turn is to process p.
fn kind_for(p: u64, mark: TurnMark) -> TurnKind
    ensures { result ≡ words.kind_for p mark }
{
    if mark.process == p {
        mark.kind
    } else if mark.created == p {
        TurnKind::Begins
    } else {
        TurnKind::Idle
    }
}

// That which matters more.
fn stronger(one: TurnKind, other: TurnKind) -> TurnKind
    ensures { result ≡ words.stronger one other }
{
    if rank(one) <= rank(other) { other } else { one }
}

// A column with one turn more.
fn spot_after(spot: LaneSpot, mark: TurnMark) -> LaneSpot
    ensures { result ≡ words.spot_after spot mark }
{
    let kind = kind_for(spot.lane, mark);
    if rank(kind) == 0 {
        return spot;
    }
    LaneSpot {
        column: spot.column,
        lane: spot.lane,
        strong: stronger(spot.strong, kind),
        last: kind,
    }
}

fn idle_spot(column: u64, p: u64) -> LaneSpot
    ensures { result ≡ words.idle_spot column p }
{
    LaneSpot {
        column,
        lane: p,
        strong: TurnKind::Idle,
        last: TurnKind::Idle,
    }
}

// Appends a column, if there are turns in it.
fn append_shown(spots: &mut Vec<LaneSpot>, spot: LaneSpot) -> Result<(), AllocError>
    ensures { OnOk result (spots.new.items ≡ spots.old.items ++ words.shown spot) }
{
    if rank(spot.strong) != 0 {
        spots.push(spot)?;
    }
    Ok(())
}

// Appends the columns of the lane of process p that have turns, so many turns to a column, and the end of the lane.
fn append_lane(
    spots: &mut Vec<LaneSpot>,
    marks: &[TurnMark],
    turns: u64,
    p: u64,
) -> Result<(), AllocError>
    requires { 1 ≤ turns }
    ensures { OnOk result (spots.new.items ≡ spots.old.items ++ words.lane_spots turns (words.parts (length marks.now) turns) marks.now p) }
{
    let columns = parts(marks.len() as u64, turns);
    let mut filled = 0;
    let mut spot = idle_spot(0, p);
    for mark in marks {
        filled += 1;
        spot = spot_after(spot, *mark);
        if filled == turns {
            append_shown(spots, spot)?;
            spot = idle_spot(spot.column + 1, p);
            filled = 0;
        }
    }
    append_shown(spots, spot)?;
    spots.push(idle_spot(columns, p))?;
    Ok(())
}

/// The columns of the lanes of these processes that have turns, each lane with its end.
///
/// # Errors
///
/// Only where memory was refused.
pub(crate) fn spots_of(
    alloc: Global,
    scale: &PictureScale,
    marks: &[TurnMark],
    lanes: &[u64],
) -> Result<Vec<LaneSpot>, AllocError>
    ensures { IfOk result (λ spots. spots.items ≡ words.spots_of (words.fields_of scale.now) marks.now lanes.now) }
{
    let mut spots = Vec::new(alloc);
    for p in lanes {
        append_lane(&mut spots, marks, scale.turns, *p)?;
    }
    Ok(spots)
}
