//! Laws of the arrays of accepted programs.
ghost use Rattle.std.specs.Prelude.{ℕ, length, ◌<◌, ◌≤◌};
ghost use Rattle.hep_machine.specs.Words.{Units, unit_at, common_cells, frame_cells};
ghost use Rattle.hep_conditions.specs.Words.{IsAccepted};
ghost use Rattle.hep_image.specs.Places.{arrays_of};

use hep_accepted_laws::code::arrays_are_there;
use hep_accepted_laws::values::arrays_have_shapes;

/// If the frame of a unit and COMMON have no more than 16,777,216 cells each, the unit has no more than twice as many
/// arrays, since each array has cells of its own.
pub fn arrays_are_few()
    ensures { (program : Units) (u : ℕ) → IsAccepted program → u < length program → frame_cells (unit_at program u) ≤ 16777216
        → common_cells program ≤ 16777216 → length (arrays_of (unit_at program u)) ≤ 33554432 }
{
    arrays_are_there();
    arrays_have_shapes();
}
