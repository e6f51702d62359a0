//! Names without a type: 301.
ghost use Rattle.std.specs.Prelude.{◌≡◌, ◌++◌, OnOk};
ghost use Rattle.std.specs.List.{list_any};
ghost use Rattle.hep_conditions.specs.Words.{function_types};
ghost use Rattle.hep_check.specs.AllViolations as words;

use crate::unit_context::UnitContext;
use hep_conditions::Violation;
use hep_conditions::reported::violation_by;
use hep_names::untyped_names::is_untyped;
use hep_names::{NameSet, ProgramSymbols, Symbols};
use hep_source::Occurrence;
use std::alloc::AllocError;

/// One of these has no type.
pub(crate) fn is_any_untyped(
    program: &ProgramSymbols,
    symbols: &Symbols,
    occurrences: &[Occurrence],
) -> bool
    ensures { result ≡ list_any (words.is_untyped_at (function_types program.now) symbols.now) occurrences.now }
{
    for occurrence in occurrences {
        if is_untyped(program, symbols, &occurrence.name) {
            return true;
        }
    }
    false
}

// Adds the violation by a name, unless the name was reported before.
fn add_untold(
    found: &mut Vec<Violation>,
    told: &NameSet,
    line: u32,
    occurrence: &Occurrence,
) -> Result<(), AllocError>
    ensures { OnOk result (found.new.items ≡ found.old.items ++ words.untold told.now line occurrence.now) }
{
    if !told.contains(&occurrence.name) {
        found.push(violation_by(301, line, occurrence))?;
    }
    Ok(())
}

/// Adds the violations by the names that have no type and weren't reported before.
pub(crate) fn add_untyped(
    found: &mut Vec<Violation>,
    told: &mut NameSet,
    unit: &UnitContext<'_>,
    line: u32,
    occurrences: &[Occurrence],
) -> Result<(), AllocError>
    ensures found { OnOk result (found.new.items
        ≡ found.old.items ++ words.untyped_told (function_types unit.now.program.now) unit.now.symbols.now line told.old occurrences.now) }
    ensures told { OnOk result (told.new ≡ words.told_after (function_types unit.now.program.now) unit.now.symbols.now told.old occurrences.now) }
{
    for occurrence in occurrences {
        if is_untyped(unit.program, unit.symbols, &occurrence.name) {
            add_untold(found, told, line, occurrence)?;
            told.add(occurrence.name)?;
        }
    }
    Ok(())
}
