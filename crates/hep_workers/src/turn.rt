//! A worker's turn, under the lock.
ghost use Rattle.std.specs.Prelude.{◌≡◌, ◌≤◌, ◌<◌, ◌++◌, IfErr, IfNone, IfOk, IfSome, OnErr, Err, replicate, suc};
ghost use Rattle.hep_core.specs.Commits.{AreTurnsAtOnce, IsCommitted, IsTurnAtOnce};
ghost use Rattle.hep_core.specs.Offers.{IsKnownOffer, offered};
ghost use Rattle.hep_private.specs.Segments.{most_records};
ghost use Rattle.hep_workers.specs.Turns.{HasCommitted, IsReceipt};

use crate::receipt::Receipt;
use hep_core::{CommitFault, Core, Offer, PrivateImage, Segment};

/// Commits a worker's segment. The receipt names the entry that this adds to the history.
///
/// # Errors
///
/// Those of `Core::commit`; the history is the same then.
pub fn worker_turn(core: &mut Core, worker: u32, segment: &Segment) -> Result<Receipt, CommitFault>
    ensures named { IfOk result (λ receipt. IsReceipt core.old.core.history worker receipt core.new.core.history) }
    ensures made { IfOk result (λ receipt. HasCommitted core.old segment.now receipt core.new) }
    ensures unmade { IfErr result (λ fault. IsCommitted core.old segment.now (Err fault) core.new) }
    ensures kept { OnErr result (core.new.core.history ≡ core.old.core.history) }
{
    let offer = Offer::Recorded {
        segment,
        known: false,
    };
    offer_turn(core, worker, &offer)
}

/// The same for an offer of a worker, by `Core::commit_offer`.
///
/// # Errors
///
/// Those of `Core::commit_offer`; the history is the same then.
pub fn offer_turn(core: &mut Core, worker: u32, offer: &Offer<'_>) -> Result<Receipt, CommitFault>
    requires { IsKnownOffer core.old.core.program offer.now }
    ensures named { IfOk result (λ receipt. IsReceipt core.old.core.history worker receipt core.new.core.history) }
    ensures made { IfOk result (λ receipt. HasCommitted core.old (offered core.old.core.program offer.now) receipt core.new) }
    ensures unmade { IfErr result (λ fault. IsCommitted core.old (offered core.old.core.program offer.now) (Err fault) core.new) }
    ensures kept { OnErr result (core.new.core.history ≡ core.old.core.history) }
{
    let index = core.history().len();
    let process = offer.ticket().process;
    let turn = core.commit_offer(offer)?;
    Ok(Receipt {
        index,
        process,
        worker,
        steps: turn.steps,
    })
}

/// A turn of the process that comes next, without a ticket, by `Core::turn_at_once`. `None` where no turn was made;
/// nothing has changed then.
pub fn turn_at_once(
    core: &mut Core,
    worker: u32,
    ahead: &PrivateImage<'_>,
    most: u32,
) -> Option<Receipt>
    requires program { ahead.now ≡ core.old.core.program }
    requires few { most ≤ most_records }
    ensures named { IfSome result (λ receipt. IsReceipt core.old.core.history worker receipt core.new.core.history) }
    ensures made { IfSome result (λ receipt. IsTurnAtOnce core.old receipt.process receipt.steps core.new) }
    ensures few { IfSome result (λ receipt. receipt.steps ≤ suc most) }
    ensures none { IfNone result (core.new ≡ core.old) }
{
    let index = core.history().len();
    let turn = core.turn_at_once(ahead, most)?;
    Some(Receipt {
        index,
        process: turn.process,
        worker,
        steps: turn.steps,
    })
}

/// `turns` turns of the process that comes next, each of 1,023 steps, by `Core::turns_at_once`. Returns the process.
/// `None` where no turn was made; nothing has changed then.
pub fn turns_at_once(core: &mut Core, ahead: &PrivateImage<'_>, turns: u32) -> Option<u64>
    requires program { ahead.now ≡ core.old.core.program }
    requires some { 0 < turns }
    requires few { turns ≤ 1024 }
    ensures entries { IfSome result (λ p. core.new.core.history ≡ core.old.core.history ++ replicate turns (record { process = p; steps = most_records })) }
    ensures made { IfSome result (λ p. AreTurnsAtOnce p turns core.old core.new) }
    ensures none { IfNone result (core.new ≡ core.old) }
{
    core.turns_at_once(ahead, turns)
}
