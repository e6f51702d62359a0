//! The standing of the names of a unit: their first lines, and whether they occur once.
ghost use Rattle.std.specs.Prelude.{◌≡◌, None, Some, if◌then◌else◌, IfOk, OnOk};
ghost use Rattle.indexmap.specs.IndexMap.{get};
ghost use Rattle.hep_machine.specs.Words.{name_eq, names_of_occurrences, Name as PureName};
ghost use Rattle.hep_warnings.specs.SingleOccurrences as once;

use hep_names::Symbols;
use hep_names::occurrences::occurrences;
use hep_source::{Name, Occurrence, Statement};
use indexmap::IndexMap;
use std::alloc::{AllocError, Global};

/// The standing of a name in a unit: the line where it occurs first, and whether it occurs once.
#[derive(Clone, Copy)]
pub struct FirstOccurrence {
    pub line: u32,
    pub is_once: bool,
}

// The names of a unit, each with its standing.
pub(crate) struct FirstOccurrences {
    pub(crate) map: IndexMap<Name, FirstOccurrence>,
}

impl Drop for FirstOccurrences {
    fn drop(self) {
        let FirstOccurrences { map } = self;
    }
}

fn also_at(line: u32, so_far: Option<FirstOccurrence>) -> FirstOccurrence
    ensures { result ≡ once.also_at line so_far }
{
    match so_far {
        None => FirstOccurrence {
            line,
            is_once: true,
        },
        Some(before) => FirstOccurrence {
            line: before.line,
            is_once: false,
        },
    }
}

// The standing of a name so far.
fn standing_of(map: &IndexMap<Name, FirstOccurrence>, name: &Name) -> Option<FirstOccurrence>
    ensures { result ≡ get name_eq map.now name.now }
{
    map.get(name).copied()
}

// Adds an occurrence of a name at a line.
fn add(map: &mut IndexMap<Name, FirstOccurrence>, name: Name, line: u32) -> Result<(), AllocError>
    ensures { OnOk result ((x : PureName) → get name_eq map.new x
        ≡ (if name_eq x name then Some (once.also_at line (get name_eq map.old x)) else get name_eq map.old x)) }
{
    let so_far = standing_of(map, &name);
    let standing = also_at(line, so_far);
    map.insert(name, standing)?;
    Ok(())
}

// Adds the names of a statement with this line.
fn add_all(
    map: &mut IndexMap<Name, FirstOccurrence>,
    line: u32,
    occurrences: &[Occurrence],
) -> Result<(), AllocError>
    ensures { OnOk result ((x : PureName) → get name_eq map.new x
        ≡ once.after_names x line (get name_eq map.old x) (names_of_occurrences occurrences.now)) }
{
    for occurrence in occurrences {
        add(map, occurrence.name, line)?;
    }
    Ok(())
}

// Adds the names of a statement of a unit.
fn add_statement(
    alloc: Global,
    symbols: &Symbols,
    map: &mut IndexMap<Name, FirstOccurrence>,
    statement: &Statement,
) -> Result<(), AllocError>
    ensures { OnOk result ((x : PureName) → get name_eq map.new x
        ≡ once.after_names x statement.now.line (get name_eq map.old x) (once.names_in symbols.now statement.now)) }
{
    let found = occurrences(alloc, symbols, statement)?;
    add_all(map, statement.line, &found)
}

// Adds the names of statements of a unit.
fn add_statements(
    alloc: Global,
    symbols: &Symbols,
    map: &mut IndexMap<Name, FirstOccurrence>,
    statements: &[Statement],
) -> Result<(), AllocError>
    ensures { OnOk result ((x : PureName) → get name_eq map.new x
        ≡ once.after_statements symbols.now x (get name_eq map.old x) statements.now) }
{
    for statement in statements {
        add_statement(alloc, symbols, map, statement)?;
    }
    Ok(())
}

impl FirstOccurrences {
    // Finds the standing of the names of a unit.
    pub(crate) fn new(alloc: Global, symbols: &Symbols) -> Result<FirstOccurrences, AllocError>
        ensures { IfOk result (λ standings. (x : PureName) → get name_eq standings.map x ≡ once.standing symbols.now x) }
    {
        let mut standings = FirstOccurrences {
            map: IndexMap::new(alloc),
        };
        add_statements(alloc, symbols, &mut standings.map, symbols.statements())?;
        Ok(standings)
    }
}
