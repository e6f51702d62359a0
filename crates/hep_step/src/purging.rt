//! PURGE (`docs/LANGUAGE.md`, 9).
ghost use Rattle.std.specs.Prelude.{◌≡◌, ◌<◌, ◌≤◌, length, slice_set};
ghost use Rattle.hep_machine.specs.Words.{purged_cell};
ghost use Rattle.hep_arena.specs.Holes.{IsOut};
ghost use Rattle.hep_image.specs.Addressing.{cells_in};
ghost use Rattle.hep_image.specs.Image.{most_cells};
ghost use Rattle.hep_step.specs.PurgeEffects.{purged, purged_from};
ghost use Rattle.hep_step.specs.PurgeReady.{AreReached, IsRangeReached};

use crate::closed_range::ClosedRange;
use hep_arena::Arena;
use hep_cells::access::purged;

// Empties a cell.
fn purge_cell(arena: &mut Arena, at: u32)
    requires inside { at < length arena.old.contents }
    requires out { IsOut at arena.old.holes }
    ensures contents { arena.new.contents ≡ slice_set arena.old.contents at (purged_cell (cells_in arena.old.contents at)) }
    ensures holes { arena.new.holes ≡ arena.old.holes }
    ensures cells { length arena.new.contents ≡ length arena.old.contents }
{
    let slot = arena.get(at);
    arena.set(at, purged(slot));
}

// Empties the cells of a range.
fn purge_range(arena: &mut Arena, range: ClosedRange)
    requires reached { IsRangeReached arena.old range }
    requires few { length arena.old.contents ≤ most_cells }
    ensures contents { arena.new.contents ≡ purged_from range.cells range.first arena.old.contents }
    ensures holes { arena.new.holes ≡ arena.old.holes }
    ensures cells { length arena.new.contents ≡ length arena.old.contents }
{
    for cell in 0..range.cells {
        purge_cell(arena, range.first + cell);
    }
}

/// Empties the cells of all ranges. Their values don't change.
pub fn purge(arena: &mut Arena, ranges: &[ClosedRange])
    requires reached { AreReached arena.old ranges.now }
    requires few { length arena.old.contents ≤ most_cells }
    ensures contents { arena.new.contents ≡ purged ranges.now arena.old.contents }
    ensures holes { arena.new.holes ≡ arena.old.holes }
    ensures cells { length arena.new.contents ≡ length arena.old.contents }
{
    for range in ranges {
        purge_range(arena, *range);
    }
}
