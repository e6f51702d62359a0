//! The number of cells of a unit's frame (docs/MACHINE.md, "Variables and frames").
ghost use Rattle.std.specs.Prelude.{◌≡◌, ◌<◌, ◌^◌, map, if◌then◌else◌, IfOk};
ghost use Rattle.hep_machine.specs.Words.{dummies_of, cells_of_all};
ghost use Rattle.hep_machine.specs.Variables as variables;

use hep_names::{ProgramSymbols, Symbols, adjustable_dimensions, cells_of};
use hep_source::{Form, Name, Statement};
use std::alloc::{AllocError, Global};

// The number of cells of these variables of a unit.
fn cells_of_names(alloc: Global, symbols: &Symbols, names: &[Name]) -> Result<u128, AllocError>
    ensures counted { IfOk result (λ cells. cells ≡ cells_of_all symbols.now names.now) }
    ensures bounded { IfOk result (λ cells. cells < 2 ^ 96) }
{
    let mut cells = 0;
    for name in names {
        let count = cells_of(alloc, symbols, name)?;
        cells += u128::from(count);
    }
    Ok(cells)
}

// The number of dimensions of the adjustable dummy arguments of a unit.
fn adjustable_dimensions_of_dummies(alloc: Global, symbols: &Symbols) -> Result<u128, AllocError>
    ensures counted { IfOk result (λ count. count ≡ variables.adjustable_dimensions_of_all symbols.now (dummies_of symbols.now)) }
    ensures bounded { IfOk result (λ count. count < 2 ^ 126) }
{
    let mut count = 0;
    for dummy in symbols.dummies() {
        let dimensions = adjustable_dimensions(alloc, symbols, &dummy.name)?;
        count += dimensions as u128;
    }
    Ok(count)
}

// 1 for a DO, and else 0.
fn loop_count(form: &Form) -> usize
    ensures { result ≡ (if variables.is_do form.now then 1 else 0) }
{
    match form {
        Form::Do(_) => 1,
        _ => 0,
    }
}

fn do_statements(statements: &[Statement]) -> usize
    ensures { result ≡ variables.do_statements statements.now }
{
    let mut count = 0;
    for statement in statements {
        count += loop_count(&statement.form);
    }
    count
}

// The number of cells of a unit's frame.
fn frame_cells(alloc: Global, symbols: &Symbols) -> Result<u128, AllocError>
    ensures { IfOk result (λ cells. cells ≡ variables.frame_cells symbols.now) }
{
    let locals = cells_of_names(alloc, symbols, symbols.locals())?;
    let dimensions = adjustable_dimensions_of_dummies(alloc, symbols)?;
    let dummies = symbols.dummies().len() as u128;
    let loops = do_statements(symbols.statements()) as u128;
    Ok(1 + (2 * dummies + (locals + (2 * loops + 2 * dimensions))))
}

/// The number of cells of the frame of each unit, in the order of the source.
///
/// # Errors
///
/// Only where memory was refused.
pub fn frames(alloc: Global, program: &ProgramSymbols) -> Result<Vec<u128>, AllocError>
    ensures { IfOk result (λ frames. frames.items ≡ map variables.frame_cells program.now) }
{
    let mut frames = Vec::new(alloc);
    for symbols in program.units() {
        frames.push(frame_cells(alloc, symbols)?)?;
    }
    Ok(frames)
}
