//! The steps of an offer, made in the machine of a core.
ghost use Rattle.std.specs.Prelude.{◌≡◌, ◌≤◌, IfNone, IfSome, length};
ghost use Rattle.hep_advance.specs.SilentRuns.{MakesMoves};
ghost use Rattle.hep_state.specs.Words.{IsItsTurn};
ghost use Rattle.hep_commit.specs.Offers.{IsKnownOffer, offered};
ghost use Rattle.hep_commit.specs.OwnCells.{AreOwnCells};
ghost use Rattle.hep_commit.specs.Application.{CanTake, HasMadePrivate, HasTakenIn};

use crate::offer::Offer;
use crate::own_cells::OwnCellTable;
use crate::top_activation;
use hep_advance::CoreState;
use hep_private::PrivateImage;

/// Makes the steps of an offer at once, which are the private ones that come next of its process. Each is a step of
/// the source machine that fills and empties no storage unit, and makes and ends no process or activation. This takes
/// no memory.
pub fn take_private(machine: &mut CoreState, owned: &OwnCellTable<'_>, offer: &Offer<'_>)
    requires tables { AreOwnCells owned.now.image.now owned.now.tables.now }
    requires known { IsKnownOffer owned.now.image.now offer.now }
    requires can { CanTake owned.now.image.now (offered owned.now.image.now offer.now) machine.old }
    ensures taken { HasTakenIn (offered owned.now.image.now offer.now) machine.old machine.new }
    ensures gone { MakesMoves owned.now.image.now (offered owned.now.image.now offer.now).id.process machine.old
        (length (offered owned.now.image.now offer.now).records) machine.new }
    ensures others { machine.new ≡ record machine.old { frames = machine.new.frames; processes = machine.new.processes } }
{
    owned.image.is_runnable();
    crate::noninterference::private_steps_are_turns();
    let at = machine.place(offer.ticket().process);
    let process = &mut machine.processes[at];
    top_activation::take(process, &mut machine.frames, owned, offer)
}

/// Makes at most `most` private steps of process p at once, in the cells of its frame, and returns their number. Each
/// is a step of the source machine that fills and empties no storage unit, and makes and ends no process or
/// activation. This takes no memory.
///
/// `None` where the tables can't do it, for instance where a private scalar lies in a cell past those of the table.
/// Then nothing has changed.
pub fn make_private(
    machine: &mut CoreState,
    owned: &OwnCellTable<'_>,
    ahead: &PrivateImage<'_>,
    p: u64,
    most: u32,
) -> Option<u32>
    requires turn { IsItsTurn owned.now.image.now p machine.old }
    requires ahead { ahead.now ≡ owned.now.image.now }
    ensures few { IfSome result (λ n. n ≤ most) }
    ensures taken { IfSome result (λ n. HasMadePrivate owned.now.image.now p machine.old n machine.new) }
    ensures gone { IfSome result (λ n. MakesMoves owned.now.image.now p machine.old n machine.new) }
    ensures none { IfNone result (machine.new ≡ machine.old) }
    ensures others { machine.new ≡ record machine.old { frames = machine.new.frames; processes = machine.new.processes } }
{
    owned.image.is_runnable();
    crate::noninterference::private_steps_are_turns();
    let at = machine.place(p);
    let process = &mut machine.processes[at];
    top_activation::make_private(process, &mut machine.frames, owned, ahead, most)
}
