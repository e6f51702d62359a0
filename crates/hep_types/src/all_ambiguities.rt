//! All violations of 309 in a program (X3.9-1978, 8.5, 18.1 and 18.2).
ghost use Rattle.std.specs.Prelude.{◌≡◌, ◌++◌, ℕ, Bool, [], not, true, IfOk, OnOk};
ghost use Rattle.std.specs.List.{flat_map, list_any};
ghost use Rattle.indexmap.specs.IndexMap.{get};
ghost use Rattle.hep_machine.specs.Words.{function_named, is_external, is_nonempty, name_eq};
ghost use Rattle.hep_conditions.specs.Words.{FunctionTypes, function_types, name_violations};
ghost use Rattle.hep_conditions.specs.declared.violation.Violation.{Violation as PureViolation};
ghost use Rattle.hep_types.specs.declared.all_ambiguities.Ambiguity.{Ambiguity as PureAmbiguity};
ghost use Rattle.hep_types.specs.Ambiguities as spec;
ghost use Rattle.hep_types.specs.Uses as rows;
ghost use Rattle.hep_types.specs.AmbiguityLines.{least_named};

use crate::letters::{add_overlapping, letter_ranges};
use crate::repeated_names::{SeenNames, add, lines_by_name};
use crate::uses::{Use, UseKind, uses_in_program, uses_of};
use hep_names::{Meaning, ProgramSymbols, Symbols, function_named};
use hep_source::{Form, Name, Statement};
use indexmap::{IndexMap, IndexSet};
use std::alloc::{AllocError, Global};

/// A violation of 309 at a line: by a name, or by letters of IMPLICIT.
#[derive(Clone, Copy)]
pub struct Ambiguity {
    /// The name.
    pub name: Option<Name>,
    /// The line that is reported.
    pub line: u32,
}

/// Adds an ambiguity at a line, where the test is true.
pub(crate) fn add_when(
    found: &mut Vec<Ambiguity>,
    is_ambiguous: bool,
    name: Option<Name>,
    line: u32,
) -> Result<(), AllocError>
    ensures { OnOk result (found.new.items ≡ found.old.items ++ spec.ambiguous_when is_ambiguous name line) }
{
    if is_ambiguous {
        found.push(Ambiguity { name, line })?;
    }
    Ok(())
}

// Adds each use whose name an earlier use has.
fn add_repeated(found: &mut Vec<Ambiguity>, alloc: Global, uses: &[Use]) -> Result<(), AllocError>
    ensures { OnOk result (found.new.items ≡ found.old.items ++ spec.repeated_names uses.now) }
{
    let mut seen = SeenNames {
        set: IndexSet::new(alloc),
    };
    for (name, line) in uses {
        let is_repeated = add(&mut seen.set, *name)?;
        add_when(found, is_repeated, Some(*name), *line)?;
    }
    Ok(())
}

// Whether there is another line, and it isn't after this line.
fn is_by(other: Option<u32>, line: u32) -> bool
    ensures { result ≡ spec.is_by other line }
{
    match other {
        Some(other) => other <= line,
        None => false,
    }
}

// Adds each use whose name the table has at its line or an earlier one.
fn add_met(
    found: &mut Vec<Ambiguity>,
    lines: &IndexMap<Name, u32>,
    uses: &[Use],
) -> Result<(), AllocError>
    ensures { OnOk result (found.new.items ≡ found.old.items ++ spec.met_from (get name_eq lines.now) uses.now) }
{
    for (name, line) in uses {
        let is_met = is_by(lines.get(name).copied(), *line);
        add_when(found, is_met, Some(*name), *line)?;
    }
    Ok(())
}

// Adds each use of the second list whose name the first list has at its line or an earlier one.
fn add_met_by(
    found: &mut Vec<Ambiguity>,
    alloc: Global,
    one: &[Use],
    other: &[Use],
) -> Result<(), AllocError>
    ensures { OnOk result (found.new.items ≡ found.old.items ++ spec.met_from (least_named one.now) other.now) }
{
    let lines = lines_by_name(alloc, one)?;
    add_met(found, &lines.map, other)?;
    Ok(())
}

// Adds each use of either list whose name the other list has at its line or an earlier one.
fn add_both_ways(
    found: &mut Vec<Ambiguity>,
    alloc: Global,
    one: &[Use],
    other: &[Use],
) -> Result<(), AllocError>
    ensures { OnOk result (found.new.items ≡ found.old.items ++ spec.met_both_ways one.now other.now) }
{
    add_met_by(found, alloc, one, other)?;
    add_met_by(found, alloc, other, one)?;
    Ok(())
}

// Whether the tables of the unit already show that no name is used twice in this way. They show it for names in COMMON.
fn is_known_once(symbols: &Symbols, way: UseKind) -> bool
    ensures { result ≡ true → (functions : FunctionTypes) → spec.twice_in functions symbols.now way ≡ [] }
{
    match way {
        UseKind::Common => symbols.are_common_once(),
        _ => false,
    }
}

// Adds the names that a unit uses twice in a way.
fn add_twice(
    found: &mut Vec<Ambiguity>,
    alloc: Global,
    program: &ProgramSymbols,
    symbols: &Symbols,
    way: UseKind,
) -> Result<(), AllocError>
    ensures { OnOk result (found.new.items ≡ found.old.items ++ spec.twice_in (function_types program.now) symbols.now way) }
{
    if is_known_once(symbols, way) {
        return Ok(());
    }
    let uses = uses_of(alloc, program, symbols, way)?;
    add_repeated(found, alloc, &uses)?;
    Ok(())
}

fn add_given_twice(
    found: &mut Vec<Ambiguity>,
    alloc: Global,
    program: &ProgramSymbols,
    symbols: &Symbols,
    ways: &[UseKind],
) -> Result<(), AllocError>
    ensures { OnOk result (found.new.items
        ≡ found.old.items ++ flat_map (spec.twice_in (function_types program.now) symbols.now) ways.now) }
{
    for way in ways {
        add_twice(found, alloc, program, symbols, *way)?;
    }
    Ok(())
}

// Whether there are uses. Where there are none, nothing else needs to be examined.
fn are_some(uses: &[Use]) -> bool
    ensures { result ≡ is_nonempty uses.now }
{
    !uses.is_empty()
}

// Adds the names that a unit uses in this other way too.
fn add_other_way(
    found: &mut Vec<Ambiguity>,
    alloc: Global,
    program: &ProgramSymbols,
    symbols: &Symbols,
    uses: &[Use],
    other: UseKind,
) -> Result<(), AllocError>
    ensures { OnOk result (found.new.items
        ≡ found.old.items ++ spec.met_both_ways uses.now (rows.uses_of (function_types program.now) other symbols.now)) }
{
    if !are_some(uses) {
        return Ok(());
    }
    let others = uses_of(alloc, program, symbols, other)?;
    add_both_ways(found, alloc, uses, &others)?;
    Ok(())
}

// Adds the names that a unit uses in two ways.
fn add_two_ways(
    found: &mut Vec<Ambiguity>,
    alloc: Global,
    program: &ProgramSymbols,
    symbols: &Symbols,
    one: UseKind,
    other: UseKind,
) -> Result<(), AllocError>
    ensures { OnOk result (found.new.items
        ≡ found.old.items ++ spec.two_ways_in (function_types program.now) symbols.now one other) }
{
    let uses = uses_of(alloc, program, symbols, one)?;
    add_other_way(found, alloc, program, symbols, &uses, other)?;
    Ok(())
}

fn add_misused(
    found: &mut Vec<Ambiguity>,
    alloc: Global,
    program: &ProgramSymbols,
    symbols: &Symbols,
    one: UseKind,
    ways: &[UseKind],
) -> Result<(), AllocError>
    ensures { OnOk result (found.new.items
        ≡ found.old.items ++ flat_map (spec.two_ways_in (function_types program.now) symbols.now one) ways.now) }
{
    let uses = uses_of(alloc, program, symbols, one)?;
    for way in ways {
        add_other_way(found, alloc, program, symbols, &uses, *way)?;
    }
    Ok(())
}

/// A name is that of a function of the language.
pub fn is_of_the_language(name: &Name) -> bool
    ensures { result ≡ not (is_external (function_named name.now)) }
{
    match function_named(name) {
        Meaning::External => false,
        _ => true,
    }
}

// Adds the header that gives a function the name of a function of the language.
fn add_misnamed(found: &mut Vec<Ambiguity>, statement: &Statement) -> Result<(), AllocError>
    ensures { OnOk result (found.new.items ≡ found.old.items ++ spec.misnamed_in statement.now) }
{
    if let Form::Function(_, occurrence, _) = &statement.form {
        let is_taken = is_of_the_language(&occurrence.name);
        add_when(found, is_taken, Some(occurrence.name), statement.line)?;
    }
    Ok(())
}

fn add_all_misnamed(found: &mut Vec<Ambiguity>, unit: &[Statement]) -> Result<(), AllocError>
    ensures { OnOk result (found.new.items ≡ found.old.items ++ flat_map spec.misnamed_in unit.now) }
{
    for statement in unit {
        add_misnamed(found, statement)?;
    }
    Ok(())
}

// Adds the constants, results, called names and functions that a unit also uses for something else.
fn add_misused_names(
    found: &mut Vec<Ambiguity>,
    alloc: Global,
    program: &ProgramSymbols,
    symbols: &Symbols,
) -> Result<(), AllocError>
    ensures { OnOk result (found.new.items
        ≡ found.old.items ++ spec.misused_names (function_types program.now) symbols.now) }
{
    let no_constants = [
        UseKind::Dummy,
        UseKind::Bounded,
        UseKind::Common,
        UseKind::Data,
        UseKind::Assigned,
        UseKind::Called,
    ];
    let no_results = [
        UseKind::Dummy,
        UseKind::Bounded,
        UseKind::Common,
        UseKind::Constant,
    ];
    add_misused(
        found,
        alloc,
        program,
        symbols,
        UseKind::Constant,
        &no_constants,
    )?;
    add_misused(found, alloc, program, symbols, UseKind::Result, &no_results)?;
    add_all_misnamed(found, symbols.statements())?;
    add_two_ways(
        found,
        alloc,
        program,
        symbols,
        UseKind::Called,
        UseKind::Variable,
    )?;
    add_two_ways(
        found,
        alloc,
        program,
        symbols,
        UseKind::Function,
        UseKind::Alone,
    )?;
    Ok(())
}

// Adds the ambiguities of a unit.
fn add_in_unit(
    found: &mut Vec<Ambiguity>,
    alloc: Global,
    program: &ProgramSymbols,
    symbols: &Symbols,
) -> Result<(), AllocError>
    ensures { OnOk result (found.new.items ≡ found.old.items ++ spec.ambiguous_in (function_types program.now) symbols.now) }
{
    let given_once = [
        UseKind::Dummy,
        UseKind::Typed,
        UseKind::Bounded,
        UseKind::Common,
        UseKind::Constant,
    ];
    let ranges = letter_ranges(alloc, symbols.statements())?;
    add_overlapping(found, &ranges)?;
    add_given_twice(found, alloc, program, symbols, &given_once)?;
    add_two_ways(
        found,
        alloc,
        program,
        symbols,
        UseKind::Dummy,
        UseKind::Common,
    )?;
    add_misused_names(found, alloc, program, symbols)?;
    Ok(())
}

fn add_in_units(
    found: &mut Vec<Ambiguity>,
    alloc: Global,
    program: &ProgramSymbols,
) -> Result<(), AllocError>
    ensures { OnOk result (found.new.items
        ≡ found.old.items ++ flat_map (spec.ambiguous_in (function_types program.now)) program.now) }
{
    for symbols in program.units() {
        add_in_unit(found, alloc, program, symbols)?;
    }
    Ok(())
}

// Adds the names that two units share, or a unit and a common block.
fn add_units(
    found: &mut Vec<Ambiguity>,
    alloc: Global,
    program: &ProgramSymbols,
) -> Result<(), AllocError>
    ensures { OnOk result (found.new.items ≡ found.old.items ++ spec.ambiguous_units program.now) }
{
    let units = uses_in_program(alloc, program, UseKind::Header)?;
    let blocks = uses_in_program(alloc, program, UseKind::Block)?;
    add_repeated(found, alloc, &units)?;
    add_both_ways(found, alloc, &units, &blocks)?;
    Ok(())
}

/// All ambiguities in a program, in any order.
///
/// # Errors
///
/// Only where memory was refused.
pub fn ambiguities(alloc: Global, program: &ProgramSymbols) -> Result<Vec<Ambiguity>, AllocError>
    ensures listed { IfOk result (λ found. found.items ≡ spec.ambiguities program.now) }
    ensures lines { IfOk result (λ found. (test : ℕ → Bool) → list_any (λ (a : PureAmbiguity). test a.line) found.items
        ≡ list_any (λ (v : PureViolation). test v.line) (name_violations program.now)) }
{
    let mut found = Vec::new(alloc);
    add_units(&mut found, alloc, program)?;
    add_in_units(&mut found, alloc, program)?;
    Ok(found)
}
