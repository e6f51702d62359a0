//! Offers: a segment or a batch that a worker offers for a commit.
ghost use Rattle.std.specs.Prelude.{◌≡◌, ◌≤◌, ◌<◌, ◌↔◌, IsTrue, length};
ghost use Rattle.hep_machine.specs.Words.{Units};
ghost use Rattle.hep_private.specs.ActivationPlaces.{start_at};
ghost use Rattle.hep_private.specs.Segments.{IsMadeFrom, most_records};
ghost use Rattle.hep_commit.specs.Offers.{IsKnownOffer, offered};
ghost use Rattle.hep_commit.specs.OwnCells.{AreOwnCells};
ghost use Rattle.hep_private.specs.InPlace.{stored_with};

use crate::batch_stores::store_over;
use crate::batch_validation;
use crate::own_cells::OwnCellTable;
use crate::slots::apply_over;
use hep_arena::Arena;
use hep_private::{ActivationPlace, Batch, Segment, TicketId};
use hep_source::Value;

/// A segment or a batch to be committed. Contracts see a segment: that of a batch has the records of the batch's
/// steps.
#[derive(Clone, Copy)]
pub enum Offer<'a> {
    /// A segment. `known` says that the program of the core is known to have made it.
    Recorded { segment: &'a Segment, known: bool },
    /// A batch. The program of the core is known to have made it.
    Made { batch: &'a Batch },
}

impl Offer<'_> {
    /// The ticket that it is made of.
    pub fn ticket(&self) -> TicketId
        ensures { (program : Units) → result ≡ (offered program self.now).id }
    {
        match self {
            Offer::Recorded { segment, .. } => segment.ticket(),
            Offer::Made { batch } => batch.ticket(),
        }
    }

    /// The number of its steps, 1,023 at most.
    pub fn steps(&self) -> u32
        ensures count { (program : Units) → IsKnownOffer program self.now → result ≡ length (offered program self.now).records }
        ensures few { result ≤ most_records }
    {
        match self {
            Offer::Recorded { segment, .. } => segment.records().len() as u32,
            Offer::Made { batch } => batch.steps(),
        }
    }

    // The activation's index after the steps.
    pub(crate) fn end_index(&self) -> usize
        ensures { (program : Units) → result ≡ (offered program self.now).end_index }
    {
        match self {
            Offer::Recorded { segment, .. } => segment.end_index(),
            Offer::Made { batch } => batch.end_index(),
        }
    }

    // The activation's operands after the steps.
    pub(crate) fn end_operands(&self) -> &[Value]
        ensures { (program : Units) → result.now ≡ (offered program self.now).end_operands }
    {
        match self {
            Offer::Recorded { segment, .. } => segment.end_operands(),
            Offer::Made { batch } => batch.end_operands(),
        }
    }

    // Whether its steps are the private ones that come next from here.
    pub(crate) fn is_next(&self, place: &ActivationPlace<'_>, owned: &OwnCellTable<'_>) -> bool
        requires tables { AreOwnCells owned.now.image.now owned.now.tables.now }
        requires inside { place.now.unit < length owned.now.image.now }
        requires known { IsKnownOffer owned.now.image.now self.now }
        ensures { IsTrue result ↔ IsMadeFrom owned.now.image.now (start_at place.now) (offered owned.now.image.now self.now) }
    {
        match self {
            Offer::Recorded {
                segment,
                known: true,
            } => batch_validation::is_known_next(place, owned.image, segment),
            Offer::Recorded {
                segment,
                known: false,
            } => hep_private::is_made(owned.image, place, segment),
            Offer::Made { batch } => batch_validation::is_next(place, owned, batch),
        }
    }

    // Stores what its steps stored, in a frame that begins at `first` in an arena.
    pub(crate) fn store_over(&self, arena: &mut Arena, first: u32, owned: &OwnCellTable<'_>)
        requires tables { AreOwnCells owned.now.image.now owned.now.tables.now }
        requires inside { (offered owned.now.image.now self.now).unit < length owned.now.image.now }
        requires known { IsKnownOffer owned.now.image.now self.now }
        ensures contents { arena.new.contents ≡ stored_with first arena.old.contents (offered owned.now.image.now self.now).records }
        ensures holes { arena.new.holes ≡ arena.old.holes }
    {
        match self {
            Offer::Recorded { segment, .. } => apply_over(arena, first, segment.records()),
            Offer::Made { batch } => store_over(arena, first, owned, batch),
        }
    }
}
