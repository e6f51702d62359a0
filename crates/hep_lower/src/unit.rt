//! The code of a unit.
ghost use Rattle.std.specs.Prelude.{◌≡◌, ◌<◌, ◌≤◌, length, IfOk, IfErr};
ghost use Rattle.hep_source.specs.Units as units;
ghost use Rattle.hep_code.specs.Words.{most_instructions, entry_index, statements_code, code_of};
ghost use Rattle.hep_lower.specs.UnitLimits.{IsOverLimit};
ghost use Rattle.hep_lower.specs.Starts.{starts_from, end_from};
ghost use Rattle.hep_lower.specs.Names.{greatest};
ghost use Rattle.hep_lower.specs.Tables.{table_in, addressed_in};

use crate::emit::{Code, emit_step};
use crate::fault::EmitFault;
use crate::name_lookup::NameLookup;
use crate::operations::emit_statement;
use crate::tables::{Starts, Tables};
use hep_code::Instruction;
use hep_control::control::Control;
use hep_source::{Statement, is_executable};
use std::alloc::Global;

/// The greatest number of instructions of a unit.
pub const MOST_INSTRUCTIONS: usize = 1_048_576;

/// The code of a unit, and the index at which an activation of it begins.
#[derive(Drop)]
pub struct EmittedUnit {
    pub code: Code,
    /// The index of the first executable statement (X3.9-1978, 3.6).
    pub entry: u32,
}

// The code of a unit, and the first index of each statement.
#[derive(Drop)]
struct EmittedStatements {
    code: Code,
    starts: Starts,
}

// The index after the code so far.
fn index_after(code: &[Instruction]) -> Result<u32, EmitFault>
    ensures index { IfOk result (λ index. index ≡ length code.now) }
    ensures short { IfOk result (λ index. length code.now ≤ most_instructions) }
    ensures refused { IfErr result (λ fault. most_instructions < length code.now) }
{
    let length = code.len();
    if MOST_INSTRUCTIONS < length {
        return Err(EmitFault::TooLong);
    }
    match u32::try_from(length) {
        Ok(index) => Ok(index),
        Err(_) => Err(EmitFault::TooLong),
    }
}

// The index of the first executable statement, or the index after the last one where there is none.
fn first_executable(statements: &[Statement]) -> usize
    ensures { result ≡ units.executable_from statements.now 0 }
{
    for (index, statement) in statements.iter().enumerate() {
        if is_executable(&statement.form) {
            return index;
        }
    }
    statements.len()
}

// The code of the statements of a unit by its tables.
fn emit_statements(alloc: Global, tables: &Tables) -> Result<EmittedStatements, EmitFault>
    ensures code { IfOk result (λ emitted. emitted.code.items ≡ statements_code (table_in tables.now) 0 tables.now.control.now) }
    ensures starts { IfOk result (λ emitted. emitted.starts.statements.items
        ≡ starts_from (table_in tables.now) 0 0 tables.now.control.now) }
    ensures end { IfOk result (λ emitted. emitted.starts.end ≡ end_from (table_in tables.now) 0 0 tables.now.control.now) }
    ensures short { IfOk result (λ emitted. length emitted.code.items ≤ most_instructions) }
    ensures refused { IfErr result (IsOverLimit (length (statements_code (table_in tables.now) 0 tables.now.control.now))) }
{
    let mut code = Vec::new(alloc);
    let mut statements = Vec::new(alloc);
    for (index, statement) in tables.control.unit().iter().enumerate() {
        statements.push(index_after(&code)?)?;
        emit_statement(alloc, &mut code, tables, index, statement)?;
    }
    let end = index_after(&code)?;
    emit_step(&mut code, 0, tables.ending())?;
    index_after(&code)?;
    let starts = Starts { statements, end };
    Ok(EmittedStatements { code, starts })
}

/// Emits the code of a unit twice: first with all indexes 0, which gives the first index of each statement, and then
/// with these indexes.
///
/// # Errors
///
/// That there would be more than 1,048,576 instructions, or that memory was refused.
pub fn emit_unit(
    alloc: Global,
    names: &NameLookup,
    control: &Control,
) -> Result<EmittedUnit, EmitFault>
    requires unit { control.now ≡ names.now.symbols.now }
    requires few_units { length names.now.program.now ≤ greatest }
    ensures code { IfOk result (λ unit. unit.code.items ≡ code_of (addressed_in names.now)) }
    ensures entry { IfOk result (λ unit. unit.entry ≡ entry_index (addressed_in names.now)) }
    ensures short { IfOk result (λ unit. length unit.code.items ≤ most_instructions) }
    ensures refused { IfErr result (IsOverLimit (length (code_of (addressed_in names.now)))) }
{
    let statements = Vec::new(alloc);
    let starts = Starts { statements, end: 0 };
    let mut tables = Tables {
        names: *names,
        control,
        starts,
    };
    tables.starts = emit_statements(alloc, &tables)?.starts;
    let emitted = emit_statements(alloc, &tables)?;
    let code = emitted.code;
    let entry = tables.starts.start(first_executable(control.unit()));
    Ok(EmittedUnit { code, entry })
}
