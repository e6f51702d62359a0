//! Accesses to cells that replies require.
ghost use Rattle.std.specs.Prelude.{◌≡◌, ◌<◌, ◌≤◌, length};
ghost use Rattle.hep_arena.specs.Holes.{IsOut};
ghost use Rattle.hep_image.specs.Image.{most_cells};
ghost use Rattle.hep_cells.specs.Outcomes.{outcome_meant};
ghost use Rattle.hep_step.specs.Replies.{reply_meant};
ghost use Rattle.hep_step.specs.PerformedSteps.{access_made, reply_made};
ghost use Rattle.hep_step.specs.StepReady.{IsReplyReached};

use crate::effect::Effect;
use crate::reply::Reply;
use hep_arena::Arena;
use hep_cells::{AccessOutcome, Want, access};
use hep_machine::Kind;
use hep_source::Value;

// Makes an access to the cell at an address, if it gives a value. The cell has to be taken. The statement has this
// initial line.
#[inline(always)]
fn accessed(
    arena: &mut Arena,
    line: u32,
    at: u32,
    outcome: AccessOutcome,
) -> Result<(Value, Option<Want>), Effect>
    requires inside { at < length arena.old.contents }
    requires out { IsOut at arena.old.holes }
    requires few { length arena.old.contents ≤ most_cells }
    ensures made { (arena.new.contents, result) ≡ access_made line arena.old.contents at (outcome_meant outcome) }
    ensures holes { arena.new.holes ≡ arena.old.holes }
    ensures cells { length arena.new.contents ≡ length arena.old.contents }
{
    match outcome {
        AccessOutcome::Gives(value) => Ok((value, None)),
        AccessOutcome::Makes { value, slot } => {
            let changed = access::changed(at, arena.get(at), slot);
            arena.set(at, slot);
            Ok((value, changed))
        }
        AccessOutcome::Waits { full } => Err(Effect::Waits(Want { cell: at, full })),
        AccessOutcome::Undefined => Err(Effect::Failed {
            line,
            kind: Kind::Undefined,
        }),
    }
}

/// The value of a reply, after the access that it requires is made, and the cell that this filled or emptied, if it
/// did. Where there is no value, returns the effect of the operation, in a statement with this initial line, and
/// nothing has changed.
#[inline(always)]
pub(crate) fn granted(
    arena: &mut Arena,
    line: u32,
    reply: Reply,
) -> Result<(Value, Option<Want>), Effect>
    requires reached { IsReplyReached arena.old reply }
    requires few { length arena.old.contents ≤ most_cells }
    ensures made { (arena.new.contents, result) ≡ reply_made line arena.old.contents (reply_meant reply) }
    ensures holes { arena.new.holes ≡ arena.old.holes }
    ensures cells { length arena.new.contents ≡ length arena.old.contents }
{
    match reply {
        Reply::Result(Ok(value)) => Ok((value, None)),
        Reply::Result(Err(kind)) => Err(Effect::Failed { line, kind }),
        Reply::Accessed { at, outcome } => accessed(arena, line, at, outcome),
    }
}
