//! The watches of a history that is made again.

use crate::watch::{ChangeAhead, Watch};
use crate::watch_updates::{change_by, look_at_all, look_at_new};
use hep_event::CoreState;
use hep_fold::{DecodedImage, Observer, TurnRow, go_on};
use hep_image::Image;
use std::alloc::AllocError;

/// Watches that look at their storage units after each turn that may fill or empty something, or that began an
/// activation.
#[derive(Drop)]
pub(crate) struct WatchList {
    pub(crate) watches: Vec<Watch>,
}

impl Observer for WatchList {
    ghost use Rattle.std.specs.Prelude.{ℕ};
    ghost use Rattle.hep_why.specs.Watches.{AreAlongReplay, IsChangeAhead, KnownChanges, changes_after};

    ghost Seen = { KnownChanges };

    ghost knows = { λ program replay made list known. AreAlongReplay program replay made list.watches.items known };

    ghost see = { changes_after };

    type Look = ChangeAhead;

    ghost notes = { λ program replay made entry p list look. IsChangeAhead program made entry p look };

    fn look(
        &self,
        machine: &CoreState,
        image: &Image,
        entry: u64,
        p: u64,
    ) -> Result<ChangeAhead, AllocError> {
        Ok(ChangeAhead {
            activations: machine.activations,
            change: change_by(machine, image, p, entry),
        })
    }

    fn tell(
        &mut self,
        machine: &CoreState,
        image: &Image,
        entry: u64,
        p: u64,
        look: ChangeAhead,
    ) -> Result<(), AllocError> {
        look_at_all(
            machine,
            &mut self.watches,
            look.activations,
            Some(look.change),
        );
        Ok(())
    }

    fn go_on(&mut self, machine: &mut CoreState, tabled: &DecodedImage<'_>, row: TurnRow) -> u64 {
        let activations = machine.activations;
        let made = go_on(machine, tabled, row.process, row.count);
        look_at_new(machine, &mut self.watches, activations);
        made
    }
}
