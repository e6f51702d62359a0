//! Whether the steps of an offer are the next ones of their process.
ghost use Rattle.std.specs.Prelude.{◌≡◌};
ghost use Rattle.hep_state.specs.Words.{IsItsTurn};
ghost use Rattle.hep_commit.specs.Offers.{IsKnownOffer, offered};
ghost use Rattle.hep_commit.specs.Application.{CanStart, IsMadeIn, IsNextPrivateIn};

use crate::offer::Offer;
use crate::own_cells::OwnCellTable;
use crate::top_activation;
use hep_advance::CoreState;
use hep_private::Image;

/// Whether the steps of an offer are the private ones that come next of its process, by an image. The machine doesn't
/// change.
///
/// The steps of a segment are made again, without memory. For a batch, and for a segment that the image is known to
/// have made, only the start is compared.
pub fn comes_next(machine: &mut CoreState, owned: &OwnCellTable<'_>, offer: &Offer<'_>) -> bool
    requires can { CanStart owned.now (offered owned.now.image.now offer.now).id.process machine.old }
    requires known { IsKnownOffer owned.now.image.now offer.now }
    ensures made { IsMadeIn result owned.now.image.now machine.old (offered owned.now.image.now offer.now) }
    ensures same { machine.new ≡ machine.old }
{
    let at = machine.place(offer.ticket().process);
    let process = &machine.processes[at];
    top_activation::is_next(process, &mut machine.frames, owned, offer)
}

/// Whether the next step of process p is private, by an image. The machine doesn't change.
pub fn is_next_private(machine: &mut CoreState, image: &Image, p: u64) -> bool
    requires { IsItsTurn image.now p machine.old }
    ensures private { IsNextPrivateIn result image.now p machine.old }
    ensures same { machine.new ≡ machine.old }
{
    let at = machine.place(p);
    let process = &machine.processes[at];
    top_activation::is_next_private(process, &mut machine.frames, image)
}
