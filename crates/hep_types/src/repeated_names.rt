//! Names that are used twice or in two ways, by their lines (X3.9-1978, 18.1 and 18.2).
ghost use Rattle.std.specs.Prelude.{◌≡◌, ◌||◌, IfOk, OnOk};
ghost use Rattle.indexmap.specs.IndexMap.{get};
ghost use Rattle.indexmap.specs.IndexSet.{contains};
ghost use Rattle.hep_machine.specs.Words.{same_name, name_eq, Name as PureName};
ghost use Rattle.hep_conditions.specs.Reported as reported;
ghost use Rattle.hep_types.specs.AmbiguityLines as passes;

use crate::uses::Use;
use hep_source::Name;
use indexmap::{IndexMap, IndexSet};
use std::alloc::{AllocError, Global};

/// The set of names seen so far.
pub(crate) struct SeenNames {
    pub(crate) set: IndexSet<Name>,
}

// This is written out so that the proof of a caller has one call of it at each exit.
impl Drop for SeenNames {
    fn drop(self) {
        let SeenNames { set } = self;
    }
}

/// The lines of names.
pub(crate) struct LinesByName {
    pub(crate) map: IndexMap<Name, u32>,
}

// This is written out so that the proof of a caller has one call of it at each exit.
impl Drop for LinesByName {
    fn drop(self) {
        let LinesByName { map } = self;
    }
}

/// Adds a name to those seen. The result is whether it was among them.
pub(crate) fn add(seen: &mut IndexSet<Name>, name: Name) -> Result<bool, AllocError>
    ensures added { OnOk result ((x : PureName) → contains name_eq seen.new x ≡ (same_name x name || contains name_eq seen.old x)) }
    ensures seen { IfOk result (λ was_there. was_there ≡ contains name_eq seen.old name) }
{
    Ok(!seen.insert(name)?)
}

fn lesser_line(other: Option<u32>, line: u32) -> u32
    ensures { Some result ≡ reported.least_line other (Some line) }
{
    match other {
        Some(other) => line.min(other),
        None => line,
    }
}

// Records a line of a name, and keeps the least one.
fn note_line(lines: &mut IndexMap<Name, u32>, name: Name, line: u32) -> Result<(), AllocError>
    ensures { OnOk result ((x : PureName) → get name_eq lines.new x
        ≡ reported.least_line (get name_eq lines.old x) (reported.line_when (same_name name x) line)) }
{
    let least = lesser_line(lines.get(&name).copied(), line);
    lines.insert(name, least)?;
    Ok(())
}

/// The least line at which each name is used.
pub(crate) fn lines_by_name(alloc: Global, uses: &[Use]) -> Result<LinesByName, AllocError>
    ensures { IfOk result (λ lines. (x : PureName) → get name_eq lines.map x ≡ passes.least_named uses.now x) }
{
    let mut lines = LinesByName {
        map: IndexMap::new(alloc),
    };
    for (name, line) in uses {
        note_line(&mut lines.map, *name, *line)?;
    }
    Ok(lines)
}
