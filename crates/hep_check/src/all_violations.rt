//! The walk over the statements of a unit that reports the violations of each.
ghost use Rattle.std.specs.Prelude.{◌≡◌, ◌++◌, ℕ, IfOk, OnOk};
ghost use Rattle.hep_conditions.specs.Words.{common_violations, name_violations};
ghost use Rattle.hep_check.specs.ViolationLines.{is_in, lines_at};
ghost use Rattle.hep_check.specs.AllViolations as words;
ghost use Rattle.hep_types.specs.Passes.{parameters_after};

use crate::argument_culprits::misfit;
use crate::count_culprits::miscounted;
use crate::statement_conditions::{add_when, is_misplaced};
use crate::unit_context::UnitContext;
use crate::unknown_names::{add_unknown_call, add_unknown_in_form, add_unknown_listed};
use crate::untyped_names::{add_untyped, is_any_untyped};
use crate::violation_lines::{ProgramLines, UnitLines};
use hep_conditions::Violation;
use hep_names::occurrences::occurrences;
use hep_names::{NameSet, ProgramSymbols, Symbols, names_with_lists};
use hep_source::Statement;
use hep_types::{Parameters, is_statement_typed};
use std::alloc::{AllocError, Global};

// Adds 310 of a statement.
fn add_unknown(
    found: &mut Vec<Violation>,
    unit: &UnitContext<'_>,
    statement: &Statement,
) -> Result<(), AllocError>
    ensures { OnOk result (found.new.items
        ≡ found.old.items ++ words.unknown_told unit.now.program.now unit.now.symbols.now statement.now) }
{
    let names = names_with_lists(unit.alloc, statement)?;
    add_unknown_in_form(found, unit.symbols, statement.line, &statement.form)?;
    add_unknown_call(found, unit.program, statement.line, &statement.form)?;
    add_unknown_listed(found, unit.program, unit.symbols, statement.line, &names)
}

// Adds the violations of 305 to 309 at a line, which concern several statements or units.
fn add_shared(
    found: &mut Vec<Violation>,
    unit: &UnitContext<'_>,
    line: u32,
) -> Result<(), AllocError>
    ensures { OnOk result (found.new.items ≡ found.old.items ++ words.shared_told (lines_at unit.now.shared.now unit.now.own.now) line) }
{
    add_when(found, unit.shared.common.has(line), 305, line)?;
    add_when(found, unit.own.labels.has(line), 306, line)?;
    add_when(found, unit.own.structure.has(line), 307, line)?;
    add_when(found, unit.own.jumps.has(line), 308, line)?;
    add_when(found, unit.shared.names.has(line), 309, line)
}

// Adds the violations of 303 to 312 of a statement. 304 is left out where a name in the statement has no type.
fn add_others(
    found: &mut Vec<Violation>,
    unit: &UnitContext<'_>,
    is_doubtful: bool,
    statement: &Statement,
) -> Result<(), AllocError>
    ensures { OnOk result (found.new.items ≡ found.old.items ++ words.others_told unit.now.program.now
        (lines_at unit.now.shared.now unit.now.own.now) unit.now.symbols.now is_doubtful statement.now) }
{
    let line = statement.line;
    let is_miscounted = miscounted(unit.alloc, unit.program, unit.symbols, statement)?.is_some();
    let is_misfit = misfit(unit.alloc, unit.program, unit.symbols, statement)?.is_some();
    let is_misplaced = is_misplaced(unit.symbols.statements(), &statement.form);
    add_when(found, is_miscounted, 303, line)?;
    add_when(found, is_misfit && !is_doubtful, 304, line)?;
    add_shared(found, unit, line)?;
    add_unknown(found, unit, statement)?;
    add_when(found, unit.own.values.has(line), 311, line)?;
    add_when(found, is_misplaced, 312, line)
}

// Adds the violations of a statement, by the constants that were given and the names that were reported before it.
fn add_statement(
    found: &mut Vec<Violation>,
    unit: &UnitContext<'_>,
    parameters: &mut Parameters,
    told: &mut NameSet,
    statement: &Statement,
) -> Result<(), AllocError>
    ensures found { OnOk result (found.new.items ≡ found.old.items
        ++ words.statement_told unit.now.program.now (lines_at unit.now.shared.now unit.now.own.now) unit.now.symbols.now
        parameters.old told.old statement.now) }
    ensures taken { OnOk result (parameters.new ≡ parameters_after unit.now.symbols.now parameters.old statement.now) }
    ensures told { OnOk result (told.new ≡ words.names_after unit.now.program.now unit.now.symbols.now told.old statement.now) }
{
    let UnitContext {
        alloc,
        program,
        symbols,
        ..
    } = *unit;
    let names = occurrences(alloc, symbols, statement)?;
    let is_doubtful = is_any_untyped(program, symbols, &names);
    let is_typed = is_statement_typed(alloc, program, symbols, parameters, statement)?;
    add_untyped(found, told, unit, statement.line, &names)?;
    add_when(found, !is_typed && !is_doubtful, 302, statement.line)?;
    add_others(found, unit, is_doubtful, statement)
}

// The violations of a unit of a program, statement by statement.
fn told_in(
    alloc: Global,
    program: &ProgramSymbols,
    symbols: &Symbols,
    shared: &ProgramLines,
) -> Result<Vec<Violation>, AllocError>
    requires common { (line : ℕ) → is_in shared.now.common line ≡ words.has_line (common_violations program.now) line }
    requires names { (line : ℕ) → is_in shared.now.names line ≡ words.has_line (name_violations program.now) line }
    ensures { IfOk result (λ found. found.items ≡ words.told_in program.now symbols.now) }
{
    let own = UnitLines::new(alloc, program, symbols)?;
    let unit = UnitContext {
        alloc,
        program,
        symbols,
        shared,
        own: &own,
    };
    let mut parameters = Parameters::new(alloc);
    let mut told = NameSet::new(alloc);
    let mut found = Vec::new(alloc);
    for statement in symbols.statements() {
        add_statement(&mut found, &unit, &mut parameters, &mut told, statement)?;
    }
    Ok(found)
}

/// The reported violations of a program, by unit, by statement, and those of one statement by number. 301 is reported at the first
/// appearance of a name in its unit, 302 and 304 of statements whose names all have types, and all others at each statement.
///
/// # Errors
///
/// Only where memory was refused.
pub fn told(alloc: Global, program: &ProgramSymbols) -> Result<Vec<Violation>, AllocError>
    ensures { IfOk result (λ found. found.items ≡ words.told program.now) }
{
    let shared = ProgramLines::new(alloc, program)?;
    let mut found = Vec::new(alloc);
    for symbols in program.units() {
        let told = told_in(alloc, program, symbols, &shared)?;
        found.extend_from_slice(&told)?;
    }
    Ok(found)
}
