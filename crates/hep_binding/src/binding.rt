//! Writes what actual arguments give to the cells of dummy arguments.
ghost use Rattle.std.specs.Prelude.{◌≡◌, ◌+◌, ◌*◌, ◌<◌, ◌≤◌, ℕ, Some, length};
ghost use Rattle.hep_machine.specs.Words.{Name, dummies_of, unset_cell, State, local};
ghost use Rattle.hep_arena.specs.Holes.{IsOut};
ghost use Rattle.hep_proc.specs.FrameTable.{FramesOf, Keeps};
ghost use Rattle.hep_proc.specs.Nodes.{nodes_of};
ghost use Rattle.hep_proc.specs.FrameEntry.{KeepsPlaces};
ghost use Rattle.hep_binding.specs.ActualArguments.{with_given};
ghost use Rattle.hep_binding.specs.AdjustableBounds.{cells_to_locals};
ghost use Rattle.hep_binding.specs.FrameWriting.{IsBinding, IsPut, unit_framed, unwritten, written_up_to};

use hep_machine::Slot;
use hep_proc::Frames;
use hep_source::Value;
use hep_step::DummyStorage;
use hep_step::frame::number;

// Writes what is given to the two cells of a dummy argument. A single value leaves the second cell without one.
#[inline(always)]
fn put(frames: &mut Frames, at: u32, given: DummyStorage)
    requires few { length frames.old.arena.contents ≤ 16777216 }
    requires inside { at + 2 ≤ length frames.old.arena.contents }
    requires first { IsOut at frames.old.arena.holes }
    requires second { IsOut (at + 1) frames.old.arena.holes }
    ensures put { IsPut at given frames.old.arena frames.new.arena }
    ensures same { KeepsPlaces frames.old frames.new }
{
    match given {
        DummyStorage::Value(value) => {
            let slot = Slot {
                value: Some(value),
                full: false,
            };
            frames.set(at, slot);
        }
        DummyStorage::Units { first, count } => {
            frames.set(at, number(i64::from(first)));
            frames.set(at + 1, number(i64::from(count)));
        }
    }
}

/// Writes what is given to the cells of a new activation's dummy arguments. Its frame begins at `first`.
///
/// The frame is in the arena, and has a header and two cells for each dummy argument.
#[inline(always)]
pub fn bind(frames: &mut Frames, first: u32, given: &[DummyStorage])
    requires few { length frames.old.arena.contents ≤ 16777216 }
    requires inside { first + (1 + 2 * length given.now) ≤ length frames.old.arena.contents }
    requires out { (p : ℕ) → first ≤ p → p < first + (1 + 2 * length given.now) → IsOut p frames.old.arena.holes }
    ensures bound { (f : FramesOf) (s : State) (a : ℕ) → Keeps (unwritten f s a) frames.old.arena (nodes_of frames.old.nodes)
        → f.state.activations ≡ s.activations → f.state.store ≡ with_given s.store a (dummies_of (unit_framed f a)) given.now
        → ((y : Name) → s.store (local a y 1) ≡ unset_cell) → IsBinding f.program f.state f.layout a first given.now
        → Keeps (written_up_to f a (cells_to_locals (unit_framed f a))) frames.new.arena (nodes_of frames.new.nodes) }
    ensures same { KeepsPlaces frames.old frames.new }
{
    let mut at = first + 1;
    for one in given {
        put(frames, at, *one);
        at += 2;
    }
}
