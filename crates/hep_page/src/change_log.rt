//! The turns of a history, made again, and what each of them changes.
ghost use Rattle.std.specs.Prelude.{◌≡◌, ◌++◌, ◌∷◌, [], List, OnOk, drop, length};
ghost use Rattle.hep_machine.specs.declared.event.Entry.{Entry};
ghost use Rattle.hep_page.specs.ChangeLogs.{IsNext, IsNoting, changes_in};
ghost use Rattle.hep_replay.specs.Progress.{IsStanding, longer};

use crate::changes::append_change;
use crate::state_view::{Parts, SourceNames, survey};
use hep_core::Core;
use hep_machine::Entry;
use hep_replay::{History, make_run};
use std::alloc::{AllocError, Global};

/// A core that makes turns again, what everything holds in it, and what these turns have changed, as a text.
#[derive(Drop)]
pub(crate) struct ChangeLog {
    pub(crate) core: Core,
    pub(crate) parts: Parts,
    pub(crate) text: Vec<u8>,
}

// Makes a turn that comes next.
fn make_turn(core: &mut Core, turn: Entry) -> Result<(), AllocError>
    requires standing { IsStanding core.old.core }
    requires next { IsNext core.old.core.program core.old.core.cells core.old.core.history turn }
    ensures { OnOk result (core.new.core ≡ longer core.old.core (turn ∷ [])) }
{
    let Ok(made) = make_run(core, turn, 1) else {
        return Err(AllocError);
    };
    if made == 0 {
        unreachable!()
    }
    Ok(())
}

// Makes a turn that comes next, and notes what it changes. Everything that is held is read anew.
fn note_turn(
    alloc: Global,
    log: &mut ChangeLog,
    known: &SourceNames<'_>,
    turn: Entry,
) -> Result<(), AllocError>
    requires { (left : List Entry) × IsNoting known.now log.old (turn ∷ left) }
    ensures along { OnOk result ((left : List Entry) → IsNoting known.now log.old (turn ∷ left) → IsNoting known.now log.new left) }
    ensures noted { OnOk result ((left : List Entry) → IsNoting known.now log.old (turn ∷ left)
        → log.new.text.items ++ changes_in known.now log.new left ≡ log.old.text.items ++ changes_in known.now log.old (turn ∷ left)) }
{
    make_turn(&mut log.core, turn)?;
    let parts = survey(alloc, &log.core, known)?;
    append_change(alloc, &mut log.text, &log.parts, &parts)?;
    log.parts = parts;
    Ok(())
}

/// Makes the turns of a history after those that were made, which come next, and notes what each of them changes.
///
/// # Errors
///
/// Only where memory was refused.
pub(crate) fn note_turns(
    alloc: Global,
    log: &mut ChangeLog,
    known: &SourceNames<'_>,
    history: &History,
) -> Result<(), AllocError>
    requires { IsNoting known.now log.old (drop (length log.old.core.core.history) history.now.items) }
    ensures { OnOk result (log.new.text.items
        ≡ log.old.text.items ++ changes_in known.now log.old (drop (length log.old.core.core.history) history.now.items)) }
{
    let mut turns = history.iter();
    turns.pass(log.core.history().len());
    while let Some(turn) = turns.next() {
        note_turn(alloc, log, known, turn)?;
    }
    Ok(())
}
