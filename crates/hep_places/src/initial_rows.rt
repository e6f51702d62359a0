//! The values that are stored before the first step (X3.9-1978, section 9).
ghost use Rattle.std.specs.Prelude.{◌≡◌, ℕ, IfOk};
ghost use Rattle.indexmap.specs.IndexMap.{get};
ghost use Rattle.hep_machine.specs.Words.{name_eq, Units, data_groups};
ghost use Rattle.hep_conditions.specs.Words.{IsAccepted};
ghost use Rattle.hep_image.specs.Data.{AreInitial, AreOfUnits, value_in_rows};
ghost use Rattle.hep_places.specs.MainFrame.{IsMainFrame};
ghost use Rattle.hep_places.specs.InitialValues as given;

use crate::group_list::data_groups;
use crate::group_rows::add_group;
use crate::main_frame::MainFrame;
use hep_accepted_laws::initial::places_are_local;
use hep_conditions::laws;
use hep_image::DataRow;
use std::alloc::{AllocError, Global};

// The rows of all groups, those of the last group first, since a later group overrides an earlier one.
fn rows_of(alloc: Global, frame: &MainFrame) -> Result<Vec<DataRow>, AllocError>
    ensures { IfOk result (λ rows. (p : ℕ) → value_in_rows rows.items p
        ≡ given.value_by_groups frame.now.symbols.now (get name_eq frame.now.variables.now) frame.now.arrays.now frame.now.common
        (data_groups frame.now.symbols.now) p) }
{
    let mut groups = data_groups(alloc, frame.symbols.statements())?;
    let mut rows = Vec::new(alloc);
    while let Some(group) = groups.pop() {
        add_group(alloc, frame, &mut rows, group)?;
    }
    Ok(rows)
}

/// The cells of the arena that DATA gives values before the first step, in rows: consecutive cells with the same
/// value are one row, so that there are no more rows than names and values in DATA. Where several rows have a cell,
/// the first one counts.
///
/// The program has to be accepted, and the frame has to be that of its main program.
///
/// # Errors
///
/// Only where memory was refused.
pub fn data_rows(alloc: Global, frame: &MainFrame) -> Result<Vec<DataRow>, AllocError>
    // Their values are those stored before the first step.
    ensures initial { IfOk result (λ rows. (program : Units) → IsAccepted program
        → IsMainFrame program frame.now.symbols.now (get name_eq frame.now.variables.now) frame.now.arrays.now frame.now.common
        → AreInitial program rows.items) }
    // They give values only to storage units.
    ensures units { IfOk result (λ rows. (program : Units) → IsAccepted program
        → IsMainFrame program frame.now.symbols.now (get name_eq frame.now.variables.now) frame.now.arrays.now frame.now.common
        → AreOfUnits program rows.items) }
{
    laws::constants_agree();
    places_are_local();
    rows_of(alloc, frame)
}
