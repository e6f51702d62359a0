//! Whether the steps of a segment or a batch are those that come next from where an activation is.
ghost use Rattle.std.specs.Prelude.{◌<◌, ◌↔◌, IsTrue, length};
ghost use Rattle.hep_machine.specs.Words.{Units};
ghost use Rattle.hep_private.specs.OwnState.{values_at};
ghost use Rattle.hep_private.specs.ActivationPlaces.{start_at};
ghost use Rattle.hep_private.specs.Segments.{BeginsAt, IsMadeBy, IsMadeFrom};
ghost use Rattle.hep_private.specs.Batches as batches;
ghost use Rattle.hep_private.specs.Batches.{IsBatch};
ghost use Rattle.hep_commit.specs.BatchStarts.{AreThere, IsThere};
ghost use Rattle.hep_commit.specs.OwnCells.{AreOwnCells};

use crate::own_cells::OwnCellTable;
use crate::slots::slot_at;
use hep_arena::Cell;
use hep_private::{
    ActivationPlace, Batch, Image, Segment, is_kept, same_values, segment_of,
    segments_depend_on_reads,
};

/// Whether the steps of a segment, which the image has made, are the next ones from here.
pub(crate) fn is_known_next(place: &ActivationPlace<'_>, image: &Image, segment: &Segment) -> bool
    requires { IsMadeBy image.now segment.now }
    ensures { IsTrue result ↔ IsMadeFrom image.now (start_at place.now) segment.now }
{
    segments_depend_on_reads();
    is_kept(place, segment)
}

// Whether a batch begins here, with the same operands.
#[inline(always)]
fn begins(place: &ActivationPlace<'_>, batch: &Batch) -> bool
    ensures { (program : Units) → IsTrue result ↔ BeginsAt (start_at place.now) (batches.segment_of program batch.now) }
{
    place.unit == batch.unit()
        && place.index == batch.index()
        && same_values(place.operands, batch.operands())
}

// Whether a cell of a frame has the value of its copy, and isn't full.
#[inline(always)]
fn is_there(slots: &[Cell], first: u32, cell: usize, copies: &[Cell]) -> bool
    ensures { IsTrue result ↔ IsThere first slots.now (values_at copies.now 0) cell }
{
    let Some(at) = (first as usize).checked_add(cell) else {
        return false;
    };
    match slots.get(at) {
        Some(held) => {
            let slot = held.slot();
            !slot.full && slot.value == slot_at(copies, 0, cell).value
        }
        None => false,
    }
}

/// Whether each of these cells of a frame has the value of its copy, and isn't full.
pub(crate) fn are_there(slots: &[Cell], first: u32, cells: &[usize], copies: &[Cell]) -> bool
    ensures { IsTrue result ↔ AreThere first slots.now (values_at copies.now 0) cells.now }
{
    for cell in cells {
        if !is_there(slots, first, *cell, copies) {
            return false;
        }
    }
    true
}

// The same answer as that of `is_next`. The steps are made again, and their records compared.
#[cold]
#[inline(never)]
fn is_next_again(place: &ActivationPlace<'_>, image: &Image, batch: &Batch) -> bool
    requires { IsBatch image.now batch.now }
    ensures { IsTrue result ↔ IsMadeFrom image.now (start_at place.now) (batches.segment_of image.now batch.now) }
{
    is_known_next(place, image, &segment_of(image, batch))
}

/// Whether the steps of a batch are the private ones that come next from here. Most often they are because all own
/// cells have the values that the batch began with. A batch without steps comes next wherever it begins.
pub(crate) fn is_next(place: &ActivationPlace<'_>, owned: &OwnCellTable<'_>, batch: &Batch) -> bool
    requires tables { AreOwnCells owned.now.image.now owned.now.tables.now }
    requires inside { place.now.unit < length owned.now.image.now }
    requires made { IsBatch owned.now.image.now batch.now }
    ensures { IsTrue result ↔ IsMadeFrom owned.now.image.now (start_at place.now) (batches.segment_of owned.now.image.now batch.now) }
{
    if !begins(place, batch) {
        return false;
    }
    hep_private::step_laws::private_steps_depend_on_reads();
    let cells = owned.cells(place.unit as usize);
    if batch.steps() == 0 || are_there(place.slots, place.first, cells, batch.start()) {
        return true;
    }
    is_next_again(place, owned.image, batch)
}
