//! All places of a unit.
ghost use Rattle.std.specs.Prelude.{◌≡◌, ◌≤◌, ◌<◌, ℕ, length, IfOk};
ghost use Rattle.hep_machine.specs.Words.{Units, unit_at, common_cells};
ghost use Rattle.hep_machine.specs.Variables as variables;
ghost use Rattle.hep_conditions.specs.Words.{IsAccepted};
ghost use Rattle.hep_storage.specs.Starts.{AreStarts};
ghost use Rattle.hep_places.specs.UnitPlaces.{ArePlaces};

use crate::arrays::arrays_among;
use crate::bound_code::BoundContext;
use crate::dummies::dummy_arguments;
use crate::frame_owners::variables_in_frame;
use crate::laws::arrays_are_few;
use crate::storage_starts::tables_of;
use crate::variables::{private_among, variables_among};
use hep_accepted_laws::code::constant_shapes;
use hep_accepted_laws::names::names_are_given_once;
use hep_accepted_laws::values::arrays_have_shapes;
use hep_code::Placement;
use hep_image::{Array, DummyArgument, FrameVariable};
use hep_names::Symbols;
use hep_storage::CommonStarts;
use std::alloc::{AllocError, Global};
use std::mem::replace;

/// The places of a unit's variables, arrays and DOs.
#[derive(Drop)]
pub struct UnitPlaces {
    pub places: Placement,
    /// Its arrays, in order of first appearance.
    pub arrays: Vec<Array>,
    /// The number of cells of its frame.
    pub cells: u32,
    /// The cells of its private scalars, counted from the first one of its frame, in rising order: plain local
    /// scalars that are nowhere an actual argument by themselves.
    pub private: Vec<u32>,
    /// Its dummy arguments, as a call of the unit needs them, in their order.
    pub dummies: Vec<DummyArgument>,
    /// The variables with cells in its frame, in the order of their cells.
    pub frame_variables: Vec<FrameVariable>,
}

/// The places of the variables, arrays and DOs of a unit of an accepted program, by one pass over each row of its
/// frame and over its common blocks (docs/MACHINE.md, "Variables and frames" and "Layout"). Neither its frame nor
/// COMMON has more than 16,777,216 cells, as in every arena.
///
/// # Errors
///
/// Only where memory was refused.
pub fn unit_places(
    alloc: Global,
    symbols: &Symbols,
    common: &CommonStarts,
) -> Result<UnitPlaces, AllocError>
    ensures { IfOk result (λ places. (program : Units) (u : ℕ) → IsAccepted program → u < length program → symbols.now ≡ unit_at program u
        → AreStarts program common.now → common_cells program ≤ 16777216 → variables.frame_cells (unit_at program u) ≤ 16777216
        → ArePlaces program (unit_at program u) places) }
{
    // Laws about the arrays and the dummy arguments of every accepted program.
    arrays_are_few();
    constant_shapes();
    arrays_have_shapes();
    names_are_given_once();
    let mut tables = tables_of(alloc, symbols)?;
    let names = symbols.names().as_slice();
    let places = Placement {
        variables: variables_among(alloc, symbols, common, &tables, names)?,
        loop_cells: replace(&mut tables.loop_cells, Vec::new(alloc)),
    };
    let private = private_among(alloc, symbols, &tables, symbols.locals())?;
    let frame_variables = variables_in_frame(
        alloc,
        symbols,
        &tables,
        symbols.dummies(),
        symbols.locals(),
    )?;
    let known = BoundContext {
        symbols,
        common,
        tables: &tables,
    };
    let arrays = arrays_among(alloc, &known, names)?;
    let dummies = dummy_arguments(alloc, &known)?;
    Ok(UnitPlaces {
        places,
        arrays,
        cells: tables.cells,
        private,
        dummies,
        frame_variables,
    })
}
