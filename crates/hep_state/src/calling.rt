//! CALL, CREATE and references begin an activation and its frame (X3.9-1978, 15.5.2 and 15.6.2).
ghost use Rattle.std.specs.Prelude.{◌≡◌, ◌+◌};
ghost use Rattle.hep_state.specs.Words.{Begins, CanBegin, CanCall, CanCreate, KeepsRoomAt, KeepsRoomWith, LeavesOthers, LivesOn, StepsByCall};
ghost use Rattle.hep_state.specs.Words.{StepsByCreation, snapshot_of};

use crate::core_state::{CoreState, append};
use hep_binding::{begin, shape_all};
use hep_proc::{Local, NewFrame, Process};

/// A unit that is called, created or referred to: its index in the program, the number of cells of its frame, and the
/// index of its first executable statement in its code.
#[derive(Clone, Copy)]
pub struct CalledUnit {
    pub unit: u32,
    pub cells: u32,
    pub entry: usize,
}

impl CoreState {
    // Begins an activation of a unit that process p calls, refers to or creates. Its frame enters the arena, with
    // what its dummy arguments are given and their shapes. Returns its level.
    //
    // There is a gap for the frame, and room for its node.
    #[inline(always)]
    fn begin_activation(&mut self, p: u64, called: CalledUnit) -> Local
        requires { CanBegin p self.old called }
        ensures entered { Begins p called self.old result.key self.new }
        ensures level { result ≡ record { key = result.key; unit = called.unit; kept = 0; index = called.entry } }
        ensures others { self.new ≡ record self.old { frames = self.new.frames; activations = self.old.activations + 1 } }
    {
        hep_proc::laws::children_are_activations();
        hep_binding::laws::dummies_are_bound();
        hep_binding::laws::other_cells_are_unset();
        hep_binding::laws::references_are_kept();
        let activation = self.activations + 1;
        let at = self.place(p);
        let parent = self.processes[at].top().key;
        let CalledUnit { unit, cells, entry } = called;
        let entrant = NewFrame {
            activation,
            unit,
            cells,
            parent,
        };
        let key = begin(&mut self.frames, entrant, &self.passing.given);
        shape_all(&mut self.frames, key, &self.passing.shapes);
        self.activations = activation;
        Local {
            key,
            unit,
            kept: 0,
            index: entry,
        }
    }

    // Makes process p call or refer to a unit. The new activation has its frame, with what its dummy arguments are
    // given and their shapes, and is on top. When it ends, the one below goes on at `index` with its first `kept`
    // operands.
    //
    // There is a gap for the frame. There is room for its node, for one more level, for the operands that are kept,
    // and for the unit's own operands.
    #[inline(always)]
    pub(crate) fn call(&mut self, p: u64, called: CalledUnit, kept: u32, index: usize)
        requires { CanCall p self.old called kept index }
        ensures stepped { StepsByCall p called kept index self.old self.new }
        ensures rooms { KeepsRoomAt p called.unit self.old self.new }
        ensures lives { LivesOn p 1 self.old self.new }
    {
        let at = self.place(p);
        let level = self.begin_activation(p, called);
        self.processes[at].put_above(kept, index, level);
    }

    // Makes process p create a process of a unit, and go on at `index`. The new activation has its frame, with what
    // its dummy arguments are given and their shapes, and is the only level of `process`, which was empty.
    //
    // There is a gap for the frame. There is room for its node, for the process and its level, and for the unit's
    // operands. The process has the next number.
    pub(crate) fn create(&mut self, p: u64, called: CalledUnit, index: usize, mut process: Process)
        requires { CanCreate p self.old called index process }
        ensures stepped { StepsByCreation p called index self.old self.new }
        ensures rooms { KeepsRoomWith process called.unit self.old self.new }
        ensures made { self.new.made ≡ self.old.made + 1 }
        ensures others { LeavesOthers p (snapshot_of self.old) (snapshot_of self.new) }
    {
        let at = self.place(p);
        let level = self.begin_activation(p, called);
        self.processes[at].go_on(index);
        append(&mut process.levels, level);
        self.admit(process);
    }
}
