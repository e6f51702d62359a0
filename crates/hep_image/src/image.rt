//! Images.
ghost use Rattle.std.specs.Prelude.{◌≡◌, ◌↔◌, ◌≤◌, ◌<◌, ◌+◌, true, None, Some, is_some, length, option_map, slice_get, IfOk, IsTrue};
ghost use Rattle.hep_conditions.specs.Words.{IsAccepted};
ghost use Rattle.hep_machine.specs.Words.{blocks_of, common_cells, names_of, main_among, unit_at};
ghost use Rattle.hep_image.specs.Data.{AreInitial, AreOfUnits};
ghost use Rattle.hep_image.specs.Image as spec;
ghost use Rattle.hep_image.specs.Image.{IsImage, IsUnitCode};
ghost use Rattle.hep_image.specs.Names as names;
ghost use Rattle.hep_image.specs.Names.{names_in_order};
ghost use Rattle.hep_image.specs.Owners.{block_before, block_starts};

use crate::data::DataRow;
use crate::names::ProgramNames;
use crate::owners::{BlockStart, FrameVariable};
use crate::syntax::Syntax;
use crate::unit::UnitCode;
use hep_base::Sequence;
use hep_code::Duplicate;
use hep_source::Program;
use std::alloc::{AllocError, Global};
use std::marker::Model;

/// A checked program as a core runs it. Contracts see the program.
pub struct Image {
    program: Program,
    units: Sequence<UnitCode>,
    /// The index of the main program.
    main: u32,
    /// The number of cells of COMMON.
    common: u32,
    /// The values of DATA for the cells of COMMON and of the main program's frame, which follows COMMON.
    rows: Sequence<DataRow>,
    /// The names of the units, the variables and the common blocks.
    names: ProgramNames,
    /// The common blocks, in the order of their cells.
    blocks: Sequence<BlockStart>,
}

// Written out, so that a caller's proof has one call of it at each exit.
impl Drop for Image {
    fn drop(self) {
        let Image {
            program,
            units,
            main,
            common,
            rows,
            names,
            blocks,
        } = self;
    }
}

impl Model for Image {
    ghost use Rattle.std.specs.Prelude.{List};
    ghost use Rattle.std.specs.Coded.{codes};
    ghost use Rattle.hep_source.specs.declared.statement.Statement.{Statement};
    ghost use Rattle.hep_source.specs.contracts.expression.Expr as expression;
    ghost use Rattle.hep_image.specs.Image.{IsImage};

    ghost Value = { List (List Statement) };

    ghost coded = { Prim.hlevel (codes, expression.the_row.coded) };

    ghost view = { λ a. a.program };

    ghost invariant = { λ a. IsImage a.program a.units a.main a.common a.rows a.names a.blocks };
}

impl Image {
    /// An image of a program, with the code of its units, the index of its main program, the number of cells of
    /// COMMON, the values of DATA at the opening, the names, and the first cells of the common blocks. `hep_lower`
    /// makes all of them.
    pub fn new(
        program: Program,
        units: Sequence<UnitCode>,
        main: u32,
        common: u32,
        rows: Sequence<DataRow>,
        names: ProgramNames,
        blocks: Sequence<BlockStart>,
    ) -> Image
        requires { IsImage program units main common rows names blocks }
        ensures { result ≡ program }
    {
        Image {
            program,
            units,
            main,
            common,
            rows,
            names,
            blocks,
        }
    }

    /// The program.
    pub fn program(&self) -> &Program
        ensures { result.now ≡ self.now }
    {
        &self.program
    }

    /// The code of a unit. Units are counted from 0 in the order of the source.
    pub fn unit(&self, index: usize) -> &UnitCode
        requires { index < length self.now }
        ensures { IsUnitCode self.now index result.now }
    {
        &self.units.as_slice()[index]
    }

    /// The index in the source of the main program, counted from 0.
    pub fn main(&self) -> u32
        ensures main { main_among self.now ≡ Some result }
        ensures inside { result < length self.now }
    {
        self.main
    }

    /// The number of cells of COMMON.
    pub fn common(&self) -> u32
        ensures common { result ≡ common_cells self.now }
        ensures few { result ≤ spec.most_cells }
    {
        self.common
    }

    /// The values of DATA for the cells of the arena at the opening, where COMMON begins the arena and the frame of
    /// the main program follows it. Where two rows have a cell, the first one counts.
    pub fn rows(&self) -> &[DataRow]
        ensures initial { AreInitial self.now result.now }
        ensures units { AreOfUnits self.now result.now }
    {
        self.rows.as_slice()
    }

    /// The name with this number, counted from 0, of a unit, a variable or a common block. First come the units in
    /// the order of the source, with `MAIN` for a main program without PROGRAM statement; then the variables of each
    /// unit; and then the common blocks in order of first appearance, with an empty name for blank COMMON. `None`
    /// where there is no such number.
    pub fn name(&self, number: u32) -> Option<&[u8]>
        ensures { option_map (λ name. name.now) result
            ≡ slice_get (names_in_order self.now) number }
    {
        let name = self.names.spelled.as_slice().get(number as usize)?;
        Some(name.as_slice())
    }

    /// The number of the name of a variable of a unit, for [`Image::name`].
    pub fn variable_number(&self, unit: usize, variable: FrameVariable) -> u32
        requires unit { unit < length self.now }
        requires variable { variable.index < length (names_of (unit_at self.now unit)) }
        ensures { result ≡ names.first_variable self.now unit + variable.index }
    {
        (self.names.variables.as_slice()[unit] as usize + variable.index) as u32
    }

    /// The number of the name of a common block, for [`Image::name`].
    pub fn block_number(&self, block: BlockStart) -> u32
        requires { block.index < length (blocks_of self.now) }
        ensures { result ≡ names.first_block self.now + block.index }
    {
        (self.names.blocks as usize + block.index) as u32
    }

    /// The last common block that begins at this cell or before it, counted from that of the arena. It is the block
    /// of the cell, if the cell is in COMMON.
    pub fn block_at(&self, cell: u32) -> Option<BlockStart>
        ensures { result ≡ block_before (block_starts self.now) cell }
    {
        let blocks = self.blocks.as_slice();
        let begun = blocks.partition_point(|block| block.first <= cell);
        if begun == 0 {
            None
        } else {
            Some(blocks[begun - 1])
        }
    }

    /// States a fact about each image: its program is accepted, and has a main program.
    pub fn is_runnable(&self)
        ensures accepted { IsAccepted self.now }
        ensures main { is_some (main_among self.now) ≡ true }
    {
        let _ = &self.program;
    }

    /// The same image, in memory of its own.
    ///
    /// # Errors
    ///
    /// Only where memory was refused.
    pub fn copy(&self, alloc: Global) -> Result<Image, AllocError>
        ensures { IfOk result (λ image. image ≡ self.now) }
    {
        Ok(Image {
            program: self.program.copy(alloc)?,
            units: self.units.copy(alloc)?,
            main: self.main,
            common: self.common,
            rows: self.rows.copy(alloc)?,
            names: self.names.copy(alloc)?,
            blocks: self.blocks.copy(alloc)?,
        })
    }

    /// Whether two images are of one program. All else of an image follows from its program, except how the values of
    /// DATA are split into rows, which isn't compared.
    pub fn has_same_program(&self, other: &Image) -> bool
        ensures { IsTrue result ↔ (self.now ≡ other.now) }
    {
        self.program.same(&other.program)
    }
}
