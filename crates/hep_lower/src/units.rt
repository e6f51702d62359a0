//! The units of a program, lowered one after another.
ghost use Rattle.std.specs.Prelude.{◌≡◌, ◌<◌, ◌≤◌, ◌+◌, ℕ, length, IfOk, IfErr, OnOk};
ghost use Rattle.hep_machine.specs.Words.{Units, main_unit, unit_at, common_cells, frame_cells};
ghost use Rattle.hep_conditions.specs.Words.{IsAccepted};
ghost use Rattle.hep_code.specs.Words.{most_instructions};
ghost use Rattle.hep_image.specs.Image.{most_cells};
ghost use Rattle.hep_storage.specs.Starts.{AreStarts};
ghost use Rattle.hep_lower.specs.Refusals.{RefusesCode, fault_by};
ghost use Rattle.hep_lower.specs.Names.{greatest};
ghost use Rattle.hep_lower.specs.LoweredUnits.{AreRows, AreUnits, IsUnit};
ghost use Rattle.hep_places.specs.UnitPlaces.{ArePlaces};

use crate::fault::EmitFault;
use crate::lowered::lower_unit;
use crate::unit::MOST_INSTRUCTIONS;
use hep_base::{Refusal as LowerFault, Sequence};
use hep_code::Instruction;
use hep_image::{DataRow, UnitCode};
use hep_names::{ProgramSymbols, Symbols};
use hep_places::{MainFrame, UnitPlaces, data_rows, unit_places};
use hep_storage::CommonStarts;
use std::alloc::{AllocError, Global};

/// A lowered unit, or the line of its first statement with too many operands.
#[derive(Drop)]
pub(crate) enum LoweredUnit {
    Runnable(UnitCode),
    /// The number of its instructions is kept too.
    TooDeep { line: u32, instructions: usize },
}

/// The units that were lowered so far.
#[derive(Drop)]
pub(crate) struct LoweredUnits {
    /// All of them, as long as no unit has a statement that is too deep.
    pub codes: Vec<UnitCode>,
    /// The line of the first statement with too many operands.
    pub too_deep: Option<u32>,
    /// The number of instructions of all of them.
    pub instructions: usize,
}

/// A program whose units were all lowered.
#[derive(Drop)]
pub(crate) struct LoweredProgram {
    pub units: LoweredUnits,
    /// The values of DATA at the opening.
    pub rows: Vec<DataRow>,
}

impl LoweredUnits {
    // No units yet, with room for `units` units.
    fn new(alloc: Global, units: usize) -> Result<LoweredUnits, AllocError>
        ensures { IfOk result (λ units. (program : Units) → AreUnits program 0 units) }
    {
        Ok(LoweredUnits {
            codes: Vec::with_capacity(alloc, units)?,
            too_deep: None,
            instructions: 0,
        })
    }

    // Adds a unit.
    fn add(&mut self, unit: LoweredUnit) -> Result<(), AllocError>
        requires few { self.old.instructions ≤ most_instructions }
        requires short { (program : Units) × (n : ℕ) × IsUnit program n unit }
        ensures { OnOk result ((program : Units) (n : ℕ) → AreUnits program n self.old → IsUnit program n unit
            → AreUnits program (n + 1) self.new) }
    {
        match unit {
            LoweredUnit::Runnable(unit) => {
                self.instructions += count(unit.code.as_slice());
                self.codes.push(unit)?;
            }
            LoweredUnit::TooDeep { line, instructions } => {
                self.instructions += instructions;
                self.too_deep = self.too_deep.or(Some(line));
            }
        }
        Ok(())
    }
}

// The number of instructions.
fn count(code: &[Instruction]) -> usize
    ensures { result ≡ length code.now }
{
    code.len()
}

// Why a unit has no code, as a refusal without a line.
fn fault_of(alloc: Global, fault: EmitFault) -> LowerFault
    ensures { result ≡ fault_by fault }
{
    match fault {
        EmitFault::NoMemory => LowerFault::NoMemory,
        EmitFault::TooLong => LowerFault::refused(alloc, 401, 0),
    }
}

// The unit of this index, with all its places.
fn lower_placed(
    alloc: Global,
    program: &ProgramSymbols,
    index: usize,
    symbols: &Symbols,
    places: UnitPlaces,
) -> Result<LoweredUnit, LowerFault>
    requires there { index < length program.now }
    requires unit { symbols.now ≡ unit_at program.now index }
    requires places { ArePlaces program.now (unit_at program.now index) places }
    requires small_frame { frame_cells (unit_at program.now index) ≤ most_cells }
    requires few_units { length program.now ≤ greatest }
    ensures lowered { IfOk result (IsUnit program.now index) }
    ensures refused { IfErr result (RefusesCode program.now) }
{
    let lowered = match lower_unit(alloc, program, symbols, &places.places) {
        Ok(lowered) => lowered,
        Err(fault) => return Err(fault_of(alloc, fault)),
    };
    if let Some(line) = lowered.depth.too_deep {
        return Ok(LoweredUnit::TooDeep {
            line,
            instructions: count(&lowered.code),
        });
    }
    Ok(LoweredUnit::Runnable(UnitCode {
        code: Sequence::from(lowered.code),
        entry: lowered.entry,
        arrays: Sequence::from(places.arrays),
        dummies: Sequence::from(places.dummies),
        operands: lowered.depth.operands as u32,
        cells: places.cells,
        private: Sequence::from(places.private),
        variables: Sequence::from(places.frame_variables),
    }))
}

// The values of DATA at the opening, by the places of the main program.
fn main_rows(
    alloc: Global,
    symbols: &Symbols,
    common: &CommonStarts,
    places: &UnitPlaces,
) -> Result<Vec<DataRow>, AllocError>
    requires { common.now.cells ≤ most_cells }
    ensures { IfOk result (λ rows. (program : Units) → IsAccepted program → symbols.now ≡ unit_at program (main_unit program)
        → ArePlaces program (unit_at program (main_unit program)) places.now
        → AreStarts program common.now → common_cells program ≤ most_cells
        → frame_cells (unit_at program (main_unit program)) ≤ most_cells → AreRows program rows.items) }
{
    let frame = MainFrame {
        symbols,
        variables: &places.places.variables,
        arrays: &places.arrays,
        common: common.cells() as u32,
    };
    data_rows(alloc, &frame)
}

/// All units of a checked program, and the values of DATA at the opening. Neither a frame nor COMMON has more than
/// 16,777,216 cells. The main program has the index `main`.
///
/// # Errors
///
/// 401 where there would be more than 1,048,576 instructions, or that memory was refused.
pub(crate) fn lower_units(
    alloc: Global,
    program: &ProgramSymbols,
    main: usize,
    common: &CommonStarts,
) -> Result<LoweredProgram, LowerFault>
    requires accepted { IsAccepted program.now }
    requires main { main_unit program.now ≡ main }
    requires inside { main < length program.now }
    requires starts { AreStarts program.now common.now }
    requires small_common { common_cells program.now ≤ most_cells }
    requires small_frames { (u : ℕ) → u < length program.now → frame_cells (unit_at program.now u) ≤ most_cells }
    requires few_units { length program.now ≤ greatest }
    ensures units { IfOk result (λ lowered. AreUnits program.now (length program.now) lowered.units) }
    ensures rows { IfOk result (λ lowered. AreRows program.now lowered.rows.items) }
    ensures few { IfOk result (λ lowered. lowered.units.instructions ≤ most_instructions) }
    ensures refused { IfErr result (RefusesCode program.now) }
{
    let mut units = LoweredUnits::new(alloc, program.units().len())?;
    let mut rows = Vec::new(alloc);
    for (index, symbols) in program.units().iter().enumerate() {
        let places = unit_places(alloc, symbols, common)?;
        if index == main {
            rows = main_rows(alloc, symbols, common, &places)?;
        }
        units.add(lower_placed(alloc, program, index, symbols, places)?)?;
        if MOST_INSTRUCTIONS < units.instructions {
            return Err(LowerFault::refused(alloc, 401, 0));
        }
    }
    Ok(LoweredProgram { units, rows })
}
