//! The stores of a batch's steps.
ghost use Rattle.std.specs.Prelude.{◌≡◌, ◌<◌, ◌↔◌, IsTrue, length};
ghost use Rattle.hep_private.specs.OwnState.{values_at};
ghost use Rattle.hep_private.specs.Batches as batches;
ghost use Rattle.hep_private.specs.Batches.{IsBatch};
ghost use Rattle.hep_commit.specs.BatchStarts.{AreThere};
ghost use Rattle.hep_commit.specs.OwnCells.{AreOwnCells};
ghost use Rattle.hep_private.specs.InPlace.{stored_with};

use crate::batch_validation::are_there;
use crate::own_cells::OwnCellTable;
use crate::slots::{apply_over, put_values_over};
use hep_arena::Arena;
use hep_private::{Batch, Image, segment_of};

// Whether these cells of a frame have the values that the batch began with. The arena doesn't change.
#[inline(always)]
fn has_start(arena: &mut Arena, first: u32, cells: &[usize], batch: &Batch) -> bool
    ensures there { IsTrue result ↔ AreThere first arena.old.contents (values_at batch.now.start 0) cells.now }
    ensures same { arena.new ≡ arena.old }
{
    are_there(arena.slots_mut(), first, cells, batch.start())
}

// The same stores as those of `store_over`. The steps are made again for their records.
#[cold]
#[inline(never)]
fn store_again(arena: &mut Arena, first: u32, image: &Image, batch: &Batch)
    requires { IsBatch image.now batch.now }
    ensures contents { arena.new.contents ≡ stored_with first arena.old.contents (batches.segment_of image.now batch.now).records }
    ensures holes { arena.new.holes ≡ arena.old.holes }
{
    apply_over(arena, first, segment_of(image, batch).records());
}

/// Stores what the steps of a batch stored, in a frame that begins at `first` in an arena. Most often it copies the
/// batch's cells at the end, since the frame has those at the start.
pub(crate) fn store_over(arena: &mut Arena, first: u32, owned: &OwnCellTable<'_>, batch: &Batch)
    requires tables { AreOwnCells owned.now.image.now owned.now.tables.now }
    requires inside { batch.now.unit < length owned.now.image.now }
    requires made { IsBatch owned.now.image.now batch.now }
    ensures contents { arena.new.contents ≡ stored_with first arena.old.contents (batches.segment_of owned.now.image.now batch.now).records }
    ensures holes { arena.new.holes ≡ arena.old.holes }
{
    crate::noninterference::private_steps_store_in_own_cells();
    let cells = owned.cells(batch.unit() as usize);
    if has_start(arena, first, cells, batch) {
        put_values_over(arena, first, cells, batch.end());
    } else {
        store_again(arena, first, owned.image, batch);
    }
}
