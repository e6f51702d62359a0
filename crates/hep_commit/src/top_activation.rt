//! The top activation of a process.
ghost use Rattle.std.specs.Prelude.{◌≡◌, ◌≤◌, ◌<◌, ◌↔◌, IsTrue, IfNone, IfOk, IfSome, OnOk, length, vec_len, vec_capacity};
ghost use Rattle.hep_proc.specs.Stacks.{IsSameProcess};
ghost use Rattle.hep_step.specs.PerformedSteps.{snapshot};
ghost use Rattle.hep_private.specs.InPlace.{IsMadeInPlace};
ghost use Rattle.hep_private.specs.Segments as segments;
ghost use Rattle.hep_private.specs.Segments.{IsMadeFrom};
ghost use Rattle.hep_commit.specs.SegmentStarts as levels;
ghost use Rattle.hep_commit.specs.Offers.{IsKnownOffer, offered};
ghost use Rattle.hep_commit.specs.OwnCells.{own_cells_of};
ghost use Rattle.hep_commit.specs.UndoLogs.{saved_in};
ghost use Rattle.hep_commit.specs.TopSegments.{HoldsOfStart, IsFor, IsOwned, IsStanding, KeepsTop, MakesPrivate, RestoresCells, StandsWith, StoresIn};

use crate::offer::Offer;
use crate::operands::{keep_operands, refill};
use crate::own_cells::OwnCellTable;
use crate::slots::{keep_copies, keep_slots, put_over};
use crate::undo_log::UndoLog;
use hep_advance::place;
use hep_arena::Arena;
use hep_private::{
    ActivationPlace, FrameActivation, Image, PrivateImage, Ticket, TicketId, make_in_place,
};
use hep_proc::{Frames, Process};
use hep_source::Value;
use std::alloc::AllocError;

/// Whether the steps of an offer are the private ones that come next of the activation, by an image.
pub(crate) fn is_next(
    process: &Process,
    frames: &mut Frames,
    owned: &OwnCellTable<'_>,
    offer: &Offer<'_>,
) -> bool
    requires owned { IsOwned owned.now process.now frames.old }
    requires known { IsKnownOffer owned.now.image.now offer.now }
    ensures made { HoldsOfStart process.now frames.old (λ start.
        IsTrue result ↔ IsMadeFrom owned.now.image.now start (offered owned.now.image.now offer.now)) }
    ensures same { frames.new ≡ frames.old }
{
    let (_, frame, index) = place(process, frames, owned.image);
    let place = ActivationPlace {
        unit: process.top().unit,
        index,
        operands: &process.operands,
        slots: frames.arena.slots_mut(),
        first: frame.first,
    };
    offer.is_next(&place, owned)
}

/// Whether the next step of the activation is private, by an image.
pub(crate) fn is_next_private(process: &Process, frames: &mut Frames, image: &Image) -> bool
    requires { IsStanding image.now process.now frames.old }
    ensures private { HoldsOfStart process.now frames.old (λ start. result ≡ segments.is_next_private image.now start) }
    ensures same { frames.new ≡ frames.old }
{
    let (_, frame, index) = place(process, frames, image);
    let place = ActivationPlace {
        unit: process.top().unit,
        index,
        operands: &process.operands,
        slots: frames.arena.slots_mut(),
        first: frame.first,
    };
    hep_private::is_next_private(image, &place)
}

/// Makes the ticket of the activation, with copies of its own cells. It takes over the buffers of an older one.
///
/// Fails only where memory was refused.
pub(crate) fn ticket_of(
    process: &Process,
    frames: &mut Frames,
    owned: &OwnCellTable<'_>,
    id: TicketId,
    used: Ticket,
) -> Result<Ticket, AllocError>
    requires { IsOwned owned.now process.now frames.old }
    ensures ticket { IfOk result (λ ticket. HoldsOfStart process.now frames.old (λ start.
        ticket ≡ levels.ticket_of id start (own_cells_of owned.now.image.now start.unit))) }
    ensures same { frames.new ≡ frames.old }
{
    let (_, frame, index) = place(process, frames, owned.image);
    let level = process.top();
    let cells = owned.cells(level.unit as usize);
    let (mut operands, mut copies) = used.into_parts();
    keep_operands(&mut operands, &process.operands)?;
    keep_copies(&mut copies, frames.arena.slots_mut(), frame.first, cells)?;
    Ok(Ticket::new(id, level.unit, index, operands, copies))
}

/// Saves the own cells, the operands and the index of the activation, and overwrites what was saved.
///
/// Fails only where memory was refused.
pub(crate) fn keep(
    saved: &mut UndoLog,
    process: &Process,
    frames: &mut Frames,
    owned: &OwnCellTable<'_>,
) -> Result<(), AllocError>
    requires { IsOwned owned.now process.now frames.old }
    ensures kept { OnOk result (KeepsTop owned.now.image.now process.now frames.old (saved_in saved.new)) }
    ensures same { frames.new ≡ frames.old }
{
    let (_, frame, index) = place(process, frames, owned.image);
    let level = process.top();
    let cells = owned.cells(level.unit as usize);
    keep_slots(
        &mut saved.slots,
        frames.arena.slots_mut(),
        frame.first,
        cells,
    )?;
    keep_operands(&mut saved.operands, &process.operands)?;
    saved.index = index;
    Ok(())
}

// Gives the activation these operands, for which there is room, and an index.
fn stand_with(process: &mut Process, operands: &[Value], index: usize)
    requires some { 0 < vec_len process.old.levels }
    requires room { length operands.now ≤ vec_capacity process.old.operands }
    ensures stack { StandsWith process.old operands.now index process.new }
    ensures same { IsSameProcess process.old process.new }
{
    refill(&mut process.operands, operands);
    process.stand_at(index);
}

/// Makes the steps of an offer at once: stores in the frame what they stored, and moves the activation to their end.
pub(crate) fn take(
    process: &mut Process,
    frames: &mut Frames,
    owned: &OwnCellTable<'_>,
    offer: &Offer<'_>,
)
    requires owned { IsOwned owned.now process.old frames.old }
    requires known { IsKnownOffer owned.now.image.now offer.now }
    requires fits { IsFor owned.now.image.now process.old (offered owned.now.image.now offer.now) }
    ensures stack { StandsWith process.old (offered owned.now.image.now offer.now).end_operands (offered owned.now.image.now offer.now).end_index process.new }
    ensures cells { StoresIn process.old frames.old (offered owned.now.image.now offer.now).records frames.new }
    ensures nodes { frames.new.nodes ≡ frames.old.nodes }
    ensures holes { frames.new.arena.holes ≡ frames.old.arena.holes }
    ensures same { IsSameProcess process.old process.new }
{
    let (_, frame, _) = place(process, frames, owned.image);
    offer.store_over(&mut frames.arena, frame.first, owned);
    stand_with(process, offer.end_operands(), offer.end_index());
}

// Makes at most `most` private steps of an activation in its frame's cells in an arena, and returns their number.
// `None` where the tables can't do it; then nothing has changed.
#[inline(always)]
fn make_over(
    activation: &FrameActivation<'_>,
    arena: &mut Arena,
    operands: &mut Vec<Value>,
    index: &mut usize,
    most: u32,
) -> Option<u32>
    ensures none { IfNone result ((arena.new ≡ arena.old) × (operands.new ≡ operands.old)) }
    ensures few { IfSome result (λ n. n ≤ most) }
    ensures made { IfSome result (λ n. IsMadeInPlace activation.now.ahead.now activation.now.unit activation.now.frame.first
        (snapshot arena.old.contents operands.old.items index.old) n (snapshot arena.new.contents operands.new.items index.new)) }
    ensures holes { arena.new.holes ≡ arena.old.holes }
    ensures capacity { vec_capacity operands.old ≤ vec_capacity operands.new }
{
    make_in_place(activation, arena.slots_mut(), operands, index, most)
}

/// Makes at most `most` private steps of the activation in its frame's cells, and returns their number. The
/// activation is moved to where they lead.
///
/// `None` where the tables can't do it; then nothing has changed.
pub(crate) fn make_private(
    process: &mut Process,
    frames: &mut Frames,
    owned: &OwnCellTable<'_>,
    ahead: &PrivateImage<'_>,
    most: u32,
) -> Option<u32>
    requires standing { IsStanding owned.now.image.now process.old frames.old }
    requires ahead { ahead.now ≡ owned.now.image.now }
    ensures none { IfNone result ((process.new ≡ process.old) × (frames.new ≡ frames.old)) }
    ensures few { IfSome result (λ n. n ≤ most) }
    ensures made { IfSome result (λ n. MakesPrivate owned.now.image.now process.old frames.old n process.new frames.new) }
    ensures nodes { frames.new.nodes ≡ frames.old.nodes }
    ensures holes { frames.new.arena.holes ≡ frames.old.arena.holes }
    ensures same { IsSameProcess process.old process.new }
{
    let (_, frame, mut index) = place(process, frames, owned.image);
    let activation = FrameActivation {
        ahead,
        unit: process.top().unit,
        frame,
    };
    let operands = &mut process.operands;
    let Some(made) = make_over(&activation, &mut frames.arena, operands, &mut index, most) else {
        return None;
    };
    process.stand_at(index);
    Some(made)
}

/// Restores the own cells, the operands and the index of the activation.
pub(crate) fn put_back(
    process: &mut Process,
    frames: &mut Frames,
    owned: &OwnCellTable<'_>,
    saved: &UndoLog,
)
    requires owned { IsOwned owned.now process.old frames.old }
    requires room { length saved.now.operands.items ≤ vec_capacity process.old.operands }
    ensures stack { StandsWith process.old saved.now.operands.items saved.now.index process.new }
    ensures cells { RestoresCells owned.now.image.now process.old frames.old saved.now.slots.items frames.new }
    ensures nodes { frames.new.nodes ≡ frames.old.nodes }
    ensures holes { frames.new.arena.holes ≡ frames.old.arena.holes }
    ensures same { IsSameProcess process.old process.new }
{
    let (_, frame, _) = place(process, frames, owned.image);
    let level = process.top();
    let cells = owned.cells(level.unit as usize);
    put_over(&mut frames.arena, frame.first, cells, &saved.slots);
    stand_with(process, &saved.operands, saved.index);
}
