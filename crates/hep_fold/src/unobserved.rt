//! Turns that nobody looks at.
ghost use Rattle.std.specs.Prelude.{◌≡◌};

use crate::observer::Observer;
use crate::turn_row::TurnRow;
use hep_advance::{CoreState, DecodedImage, go_on};
use hep_image::Image;
use std::alloc::AllocError;

/// An observer of nothing. As many turns as possible are made at once.
#[derive(Drop)]
pub struct Unobserved {}

/// Nothing was noted.
#[derive(Drop)]
pub struct NothingNoted {}

impl Observer for Unobserved {
    ghost use Rattle.hep_fold.specs.Unobserved.{knows_nothing, sees_nothing};

    ghost Seen = { Unit {0} };

    ghost knows = { knows_nothing };

    ghost see = { sees_nothing };

    type Look = NothingNoted;

    ghost notes = { λ program replay made entry p o look. Unit {0} };

    fn look(
        &self,
        machine: &CoreState,
        image: &Image,
        entry: u64,
        p: u64,
    ) -> Result<NothingNoted, AllocError> {
        Ok(NothingNoted {})
    }

    fn tell(
        &mut self,
        machine: &CoreState,
        image: &Image,
        entry: u64,
        p: u64,
        look: NothingNoted,
    ) -> Result<(), AllocError> {
        Ok(())
    }

    fn go_on(&mut self, machine: &mut CoreState, tabled: &DecodedImage<'_>, row: TurnRow) -> u64 {
        go_on(machine, tabled, row.process, row.count)
    }
}
