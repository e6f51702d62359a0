//! Checked programs, made into images.
ghost use Rattle.std.specs.Prelude.{◌≡◌, ◌≤◌, ◌<◌, ℕ, Some, None, IfOk, IfErr, OnOk, IsTrue, true, false, length};
ghost use Rattle.hep_machine.specs.Words.{main_among, unit_at, common_cells, frame_cells};
ghost use Rattle.hep_storage.specs.Starts.{AreBlocks, AreStarts};
ghost use Rattle.hep_code.specs.Words.{most_instructions};
ghost use Rattle.hep_image.specs.Image.{most_cells};
ghost use Rattle.hep_lower.specs.Counts.{IsByCount};
ghost use Rattle.hep_lower.specs.Refusals.{AreCellsBeyond, IsLowered, Refuses};
ghost use Rattle.hep_lower.specs.LoweredUnits.{AreRows, AreTables, AreUnits};

use crate::block_starts::starts_of;
use crate::laws::limits_are_wide;
use crate::main_program::main_index;
use crate::program_names::names_in_order;
use crate::unit::MOST_INSTRUCTIONS;
use crate::units::{LoweredProgram, lower_units};
use hep_base::{Refusal as LowerFault, Sequence};
use hep_conditions::Checked;
use hep_image::{BlockStart, DataRow, Image, ProgramNames, UnitCode};
use hep_names::ProgramSymbols;
use hep_source::Program;
use hep_storage::{CommonBlocks, CommonStarts};
use std::alloc::{AllocError, Global};

/// The greatest number of cells of a frame, and of COMMON.
pub const MOST_CELLS: u128 = 16_777_216;

// Whether COMMON or the frame of a unit has more cells than it may have.
fn exceeds_cells(checked: &Checked, common: &CommonStarts) -> bool
    requires { AreStarts checked.now common.now }
    ensures beyond { IsTrue result → AreCellsBeyond checked.now }
    ensures common { result ≡ false → common_cells checked.now ≤ most_cells }
    ensures frames { result ≡ false → (u : ℕ) → u < length checked.now → frame_cells (unit_at checked.now u) ≤ most_cells }
{
    if MOST_CELLS < common.cells() {
        return true;
    }
    for index in 0..checked.program().as_slice().len() {
        if MOST_CELLS < checked.frame_cells(index) {
            return true;
        }
    }
    false
}

/// All parts of an image besides its program.
#[derive(Drop)]
pub(crate) struct ImageTables {
    pub units: Sequence<UnitCode>,
    pub main: u32,
    pub common: u32,
    pub rows: Sequence<DataRow>,
    pub names: ProgramNames,
    pub blocks: Sequence<BlockStart>,
}

impl ImageTables {
    // The image of their program.
    fn of(self, program: Program) -> Image
        requires { AreTables program self }
        ensures { result ≡ program }
    {
        Image::new(
            program,
            self.units,
            self.main,
            self.common,
            self.rows,
            self.names,
            self.blocks,
        )
    }
}

// The parts of the image of a program whose units were all lowered.
fn image_tables(
    alloc: Global,
    checked: &Checked,
    main: usize,
    program: &ProgramSymbols,
    blocks: &CommonBlocks,
    common: &CommonStarts,
    lowered: LoweredProgram,
) -> Result<ImageTables, AllocError>
    requires main { main_among checked.now ≡ Some main }
    requires few { length checked.now ≤ most_instructions }
    requires program { program.now ≡ checked.now }
    requires blocks { AreBlocks checked.now blocks.now }
    requires starts { AreStarts checked.now common.now }
    requires small_common { common_cells checked.now ≤ most_cells }
    requires small_frames { (u : ℕ) → u < length checked.now → frame_cells (unit_at checked.now u) ≤ most_cells }
    requires units { AreUnits checked.now (length checked.now) lowered.units }
    requires rows { AreRows checked.now lowered.rows.items }
    requires shallow { lowered.units.too_deep ≡ None }
    ensures { IfOk result (AreTables checked.now) }
{
    checked.is_accepted();
    let source = checked.program().as_slice();
    let names = names_in_order(alloc, source, program, blocks.blocks())?;
    let starts = starts_of(alloc, blocks, common)?;
    Ok(ImageTables {
        units: Sequence::from(lowered.units.codes),
        main: main as u32,
        common: common.cells() as u32,
        rows: Sequence::from(lowered.rows),
        names,
        blocks: Sequence::from(starts),
    })
}

// The parts of the image of a program, whose main program has this index.
fn lower_program(alloc: Global, checked: &Checked, main: usize) -> Result<ImageTables, LowerFault>
    requires { main_among checked.now ≡ Some main }
    ensures tables { IfOk result (AreTables checked.now) }
    ensures lowered { OnOk result (IsLowered checked.now) }
    ensures refused { IfErr result (Refuses checked.now) }
{
    checked.is_accepted();
    let source = checked.program().as_slice();
    // Each unit has at least one instruction.
    if MOST_INSTRUCTIONS < source.len() {
        return Err(LowerFault::refused(alloc, 401, 0));
    }
    let program = ProgramSymbols::new(alloc, source)?;
    let blocks = CommonBlocks::of_program(alloc, &program)?;
    let common = CommonStarts::of_blocks(alloc, &blocks)?;
    if exceeds_cells(checked, &common) {
        return Err(LowerFault::refused(alloc, 401, 0));
    }
    let lowered = lower_units(alloc, &program, main, &common)?;
    if let Some(line) = lowered.units.too_deep {
        return Err(LowerFault::refused(alloc, 402, line));
    }
    Ok(image_tables(alloc, checked, main, &program, &blocks, &common, lowered)?)
}

/// The image of a checked program: the code of its units, the places of their variables, the values of DATA at the
/// opening, and the names. The program is moved into the image.
///
/// # Errors
///
/// The first of these that holds:
///
/// - 204 without a line, where there is no main program, which a program that was read from a text always has;
/// - 401 without a line, where COMMON or the frame of a unit would have more than 16,777,216 cells, or all units
///   together more than 1,048,576 instructions;
/// - 402 with the line of the first statement that would have more than 256 operands at once (docs/LANGUAGE.md, 12).
///
/// Or `NoMemory`, where memory was refused, which is asked for only where there is a main program.
pub fn lower(alloc: Global, checked: Checked) -> Result<Image, LowerFault>
    // The image has this program.
    ensures same { IfOk result (λ image. image ≡ checked) }
    // Where there is an image, the program has a main program and is within the limits.
    ensures lowered { OnOk result (IsLowered checked) }
    // Otherwise the number and the line say why there is none.
    ensures refused { IfErr result (Refuses checked) }
    // A program that is refused as 401 or 402 is large by the number of its parts.
    ensures counted { IfErr result (IsByCount checked) }
{
    limits_are_wide();
    let Some(main) = main_index(checked.program().as_slice()) else {
        return Err(LowerFault::refused(alloc, 204, 0));
    };
    let tables = lower_program(alloc, &checked, main)?;
    Ok(tables.of(checked.into_program()))
}
