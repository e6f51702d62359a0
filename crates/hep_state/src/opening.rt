//! The machine before its first turn: process 1 at the main program, whose frame follows COMMON, with the values of
//! DATA (X3.9-1978, section 9).
ghost use Rattle.std.specs.Prelude.{◌≡◌, ◌+◌, ◌<◌, ◌≤◌, ◌∷◌, [], false, Some, IfOk, IsSome, length, vec_capacity};
ghost use Rattle.std.specs.Option.{is_some};
ghost use Rattle.slab.specs.Slab.{HasRoomFor};
ghost use Rattle.hep_machine.specs.Words.{dummies_of, main_unit, unit_at, common_cells, opening_layout};
ghost use Rattle.hep_arena.specs.Holes.{IsOut};
ghost use Rattle.hep_image.specs.Dummies.{dummy_arguments};
ghost use Rattle.hep_image.specs.Image.{IsUnitCode};
ghost use Rattle.hep_proc.specs.FrameTable.{IsUnused};
ghost use Rattle.hep_proc.specs.Nodes.{nodes_of};
ghost use Rattle.hep_step.specs.TargetCount as room;
ghost use Rattle.hep_step.specs.TargetCount.{most_of};
ghost use Rattle.hep_binding.specs.DummyShapes as shaping;
ghost use Rattle.hep_step.specs.Simulation.{unit_code};
ghost use Rattle.hep_state.specs.Words.{AreOut, CanOpen, HasOneProcess, IsEntered, IsGiven, IsMachineAfter, IsQuiet, IsRoomToPass};

use crate::core_state::{ArgumentBuffers, CoreState};
use crate::laws;
use hep_binding::longest_code;
use hep_machine::Slot;
use hep_proc::{Frames, Local, Process};
use hep_source::{Form, Statement, Unit, Value};
use hep_step::{DataRow, Image, UnitCode, most_targets};
use std::alloc::{AllocError, Global};

// The code of the main program.
fn main_program(image: &Image) -> &UnitCode
    ensures { IsUnitCode image.now (main_unit image.now) result.now }
{
    image.unit(image.main() as usize)
}

/// Whether COMMON and the frame of the main program have no more cells than the arena, so that a machine can be
/// opened.
pub fn fits(image: &Image, cells: u32) -> bool
    ensures { result ≡ is_some (opening_layout image.now cells) }
{
    hep_step::openings_fit_by_numbers();
    image.common() + main_program(image).cells <= cells
}

// Puts the frame of the main program into an arena without frames. Returns the key of its node.
fn enter_main(frames: &mut Frames, image: &Image) -> usize
    requires unused { IsUnused (common_cells image.now) frames.old.arena (nodes_of frames.old.nodes) }
    requires room { HasRoomFor frames.old.nodes 1 }
    requires fits { IsSome (opening_layout image.now (length frames.old.arena.contents)) }
    ensures { IsEntered image.now (length frames.old.arena.contents) result frames.new.arena (nodes_of frames.new.nodes) }
{
    hep_step::openings_fit_by_numbers();
    hep_proc::laws::openings_want_unset_cells();
    hep_binding::programs_are_closed();
    laws::openings_are_shown();
    frames.open(image.main(), main_program(image).cells)
}

// Gives a cell a value. Whether it is full doesn't change.
fn give_value(frames: &mut Frames, at: u32, value: Value)
    requires inside { at < length frames.old.arena.contents }
    requires out { IsOut at frames.old.arena.holes }
    ensures given { IsGiven (record { first = at; count = 1; value = value } ∷ []) frames.old.arena frames.new.arena }
    ensures nodes { nodes_of frames.new.nodes ≡ nodes_of frames.old.nodes }
{
    let full = frames.get(at).full;
    let value = Some(value);
    frames.set(at, Slot { value, full });
}

// Gives all cells of a row of DATA its value.
fn give_row(frames: &mut Frames, row: DataRow)
    requires few { length frames.old.arena.contents ≤ 16777216 }
    requires out { AreOut (row ∷ []) frames.old.arena }
    ensures given { IsGiven (row ∷ []) frames.old.arena frames.new.arena }
    ensures nodes { nodes_of frames.new.nodes ≡ nodes_of frames.old.nodes }
{
    for at in row.first..row.first + row.count {
        give_value(frames, at, row.value);
    }
}

// Gives the cells of rows their values. Where two rows have a cell, the first one counts, and so it is written last.
fn give_rows(frames: &mut Frames, rows: &[DataRow])
    requires few { length frames.old.arena.contents ≤ 16777216 }
    requires out { AreOut rows.now frames.old.arena }
    ensures given { IsGiven rows.now frames.old.arena frames.new.arena }
    ensures nodes { nodes_of frames.new.nodes ≡ nodes_of frames.old.nodes }
{
    for row in rows.iter().rev() {
        give_row(frames, *row);
    }
}

// The number of dummy arguments of a unit.
fn dummies(unit: &Unit) -> usize
    ensures { result ≡ length (dummies_of unit.now) }
{
    match unit.as_slice() {
        [
            Statement {
                form: Form::Subroutine(_, dummies),
                ..
            },
            ..
        ] => dummies.as_slice().len(),
        [
            Statement {
                form: Form::Function(_, _, dummies),
                ..
            },
            ..
        ] => dummies.as_slice().len(),
        _ => 0,
    }
}

// The greatest number of dummy arguments of a unit.
fn most_dummies(program: &[Unit]) -> usize
    ensures { result ≡ most_of (λ u. length (dummies_of (unit_at program.now u))) (length program.now) }
{
    let mut most = 0;
    for unit in program {
        most = most.max(dummies(unit));
    }
    most
}

// The greatest number of operations in the code of an adjustable array's bounds.
fn longest_code_of_all(image: &Image) -> usize
    ensures { result ≡ most_of (λ u. shaping.longest_code (dummy_arguments image.now (unit_at image.now u))) (length image.now) }
{
    let mut longest = 0;
    for unit in 0..image.program().as_slice().len() {
        longest = longest.max(longest_code(image.unit(unit).dummies.as_slice()));
    }
    longest
}

// The greatest number of targets of a PURGE.
fn most_targets_of_all(image: &Image) -> usize
    ensures { result ≡ most_of (λ u. room.most_targets (unit_code image.now u)) (length image.now) }
{
    let mut most = 0;
    for unit in 0..image.program().as_slice().len() {
        most = most.max(most_targets(image.unit(unit).code.as_slice()));
    }
    most
}

// Buffers of just the size that is needed: for what the dummy arguments of any unit are given, for their shapes, for
// the values of bounds, and for the targets of any PURGE.
fn room_to_pass(alloc: Global, image: &Image) -> Result<ArgumentBuffers, AllocError>
    ensures { IfOk result (λ passing. IsRoomToPass image.now passing) }
{
    let most = most_dummies(image.program().as_slice());
    Ok(ArgumentBuffers {
        given: Vec::with_capacity(alloc, most)?,
        shapes: Vec::with_capacity(alloc, most)?,
        values: Vec::with_capacity(alloc, longest_code_of_all(image))?,
        ranges: Vec::with_capacity(alloc, most_targets_of_all(image))?,
    })
}

// Process 1 with one activation, and room for `operands` operands.
fn begun(alloc: Global, level: Local, operands: u32) -> Result<Process, AllocError>
    ensures number { IfOk result (λ process. process.number ≡ 1) }
    ensures levels { IfOk result (λ process. process.levels.items ≡ level ∷ []) }
    ensures operands { IfOk result (λ process. process.operands.items ≡ []) }
    ensures pending { IfOk result (λ process. process.pending.items ≡ []) }
    ensures room { IfOk result (λ process. vec_capacity process.operands ≡ operands) }
{
    Ok(Process {
        number: 1,
        levels: vec![in alloc; level]?,
        operands: Vec::with_capacity(alloc, operands as usize)?,
        pending: Vec::new(alloc),
    })
}

impl CoreState {
    /// The machine of a program before its first turn, with an arena of `cells` cells.
    ///
    /// `cells` is 1 to 16,777,216, and the program [`fits`].
    ///
    /// # Errors
    ///
    /// Only where memory was refused.
    pub fn open(alloc: Global, image: &Image, cells: u32) -> Result<CoreState, AllocError>
        requires { CanOpen image.now cells }
        ensures opened { IfOk result (λ machine. IsMachineAfter image.now cells [] machine) }
        ensures alone { IfOk result (λ machine. machine.made ≡ 1) }
        ensures process { IfOk result (HasOneProcess image.now) }
        ensures quiet { IfOk result (λ machine. IsQuiet machine) }
        ensures room { IfOk result (λ machine. IsRoomToPass image.now machine.passing) }
    {
        hep_step::openings_fit_by_numbers();
        laws::openings_are_shown();
        let main = main_program(image);
        let mut frames = Frames::new(alloc, cells, image.common())?;
        frames.reserve()?;
        let key = enter_main(&mut frames, image);
        give_rows(&mut frames, image.rows());
        let level = Local {
            key,
            unit: image.main(),
            kept: 0,
            index: main.entry as usize,
        };
        let process = begun(alloc, level, main.operands)?;
        Ok(CoreState {
            frames,
            processes: vec![in alloc; process]?,
            made: 1,
            activations: 1,
            records: Vec::new(alloc),
            faults: Vec::new(alloc),
            halted: false,
            passing: room_to_pass(alloc, image)?,
        })
    }
}
