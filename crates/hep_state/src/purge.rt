//! PURGE: first finds the cells that its targets name, and then empties all of them (docs/LANGUAGE.md, 9).
ghost use Rattle.std.specs.Prelude.{◌≡◌, ◌<◌, IfErr, OnOk, vec_len, vec_capacity};
ghost use Rattle.hep_step.specs.PurgeReady.{AreReached};
ghost use Rattle.hep_state.specs.Words.{CanEmpty, EmptiesTargets, FailsAtPurge, IsAtPurgeAhead, KeepsRoom, KeepsRoomOf, NamesRanges};
ghost use Rattle.hep_state.specs.Words.{LeavesOthers, TurnsByPurge, snapshot_of};

use crate::core_state::CoreState;
use crate::laws;
use crate::next_step::NextPurge;
use crate::top_code::behind;
use hep_machine::Kind;
use hep_step::{ArgumentList, Image, find_ranges};

impl CoreState {
    // Finds the cells that the targets of the next PURGE of process p name, and puts them into `passing`.
    //
    // Fails with Range where a target doesn't exist. Nothing but `passing` changes.
    fn find_targets(&mut self, image: &Image, p: u64, purge: NextPurge) -> Result<(), Kind>
        requires at { IsAtPurgeAhead image.now p self.old purge }
        ensures found { OnOk result (NamesRanges image.now p self.old purge self.new.passing.ranges.items) }
        ensures reached { OnOk result (AreReached self.old.frames.arena self.new.passing.ranges.items) }
        ensures fault { IfErr result (FailsAtPurge image.now p self.old purge) }
        ensures others { self.new ≡ record self.old { passing = self.new.passing } }
        ensures rooms { KeepsRoomOf image.now self.old self.new }
    {
        image.is_runnable();
        laws::purges_can_be_made();
        laws::purges_are_shown();
        let at = self.place(p);
        let process = &self.processes[at];
        let (entries, arrays, frame) = behind(process, &self.frames, image);
        let all = ArgumentList {
            entries,
            count: purge.count as usize,
            operands: &process.operands,
            arrays,
            arena: &self.frames.arena,
            frame,
        };
        find_ranges(&all, &mut self.passing.ranges)
    }

    // Empties the cells in `passing`, and moves process p to an index.
    fn empty_targets(&mut self, p: u64, index: usize)
        requires { CanEmpty p self.old }
        ensures moved { EmptiesTargets p index self.old self.new }
        ensures passing { self.new.passing ≡ self.old.passing }
        ensures rooms { KeepsRoom self.old self.new }
        ensures made { self.new.made ≡ self.old.made }
    {
        let at = self.place(p);
        hep_step::purge(&mut self.frames.arena, &self.passing.ranges);
        self.processes[at].go_on(index);
    }

    // Makes the next PURGE of process p, or ends the process with a fault. `passing` has the cells that were emptied.
    pub(crate) fn purge(&mut self, image: &Image, p: u64, purge: NextPurge)
        requires at { IsAtPurgeAhead image.now p self.old purge }
        requires room { vec_len self.old.faults < vec_capacity self.old.faults }
        ensures purged { TurnsByPurge image.now p purge self.old self.new }
        ensures made { self.new.made ≡ self.old.made }
        ensures others { LeavesOthers p (snapshot_of self.old) (snapshot_of self.new) }
    {
        image.is_runnable();
        laws::purges_are_shown();
        match self.find_targets(image, p, purge) {
            Ok(()) => self.empty_targets(p, purge.next as usize),
            Err(kind) => {
                self.passing.ranges.clear();
                self.fail(p, purge.line, kind);
            }
        }
    }
}
