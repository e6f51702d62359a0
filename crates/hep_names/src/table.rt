//! Tables of names.
ghost use Rattle.std.specs.Prelude.{◌≡◌, not, is_some, IfOk, OnOk};
ghost use Rattle.std.specs.Option.{option_or};
ghost use Rattle.indexmap.specs.IndexMap.{get};
ghost use Rattle.indexmap.specs.IndexSet.{contains};
ghost use Rattle.hep_machine.specs.Words.{same_name, name_eq, Name as PureName};
ghost use Rattle.hep_names.specs.Tables.{by_name, either};

use hep_source::Name;
use indexmap::{IndexMap, IndexSet};
use std::alloc::AllocError;

// A table of names. Its drop is a call, so that the proof of a function with several tables is ten times faster.
pub(crate) struct Table<V: Drop> {
    pub(crate) map: IndexMap<Name, V>,
}

impl<V: Drop> Drop for Table<V> {
    fn drop(self) {
        let Table { map } = self;
    }
}

// A set of names, as a table.
pub(crate) struct NameSet {
    pub(crate) set: IndexSet<Name>,
}

impl Drop for NameSet {
    fn drop(self) {
        let NameSet { set } = self;
    }
}

// Gives a name a value, unless it has one. The result is whether it had none.
pub(crate) fn note_first<V: Drop>(
    table: &mut IndexMap<Name, V>,
    name: Name,
    value: V,
) -> Result<bool, AllocError>
    ensures noted { OnOk result ((x : PureName) → get name_eq table.new x
        ≡ option_or (get name_eq table.old x) (by_name name value x)) }
    ensures new { IfOk result (λ is_new. is_new ≡ not (is_some (get name_eq table.old name))) }
{
    // This makes one look-up in the usual case, where the name is new.
    match table.insert(name, value)? {
        Some(before) => {
            table.insert(name, before)?;
            Ok(false)
        }
        None => Ok(true),
    }
}

/// Gives a name a value, unless it has one.
///
/// # Errors
///
/// Only where memory was refused.
pub fn note<V: Drop>(table: &mut IndexMap<Name, V>, name: Name, value: V) -> Result<(), AllocError>
    ensures { OnOk result ((x : PureName) → get name_eq table.new x
        ≡ option_or (get name_eq table.old x) (by_name name value x)) }
{
    note_first(table, name, value)?;
    Ok(())
}

// Adds a name to a set. The result is whether the set had the name.
pub(crate) fn add(set: &mut IndexSet<Name>, name: Name) -> Result<bool, AllocError>
    ensures added { OnOk result ((x : PureName) → contains name_eq set.new x
        ≡ either (contains name_eq set.old x) (same_name x name)) }
    ensures seen { IfOk result (λ was_there. was_there ≡ contains name_eq set.old name) }
{
    Ok(!set.insert(name)?)
}
