//! The names of a unit, and its local variables (X3.9-1978, 2.5 and 18).
ghost use Rattle.std.specs.Prelude.{◌≡◌, IfOk, OnOk};
ghost use Rattle.std.specs.List.{filter};
ghost use Rattle.indexmap.specs.IndexMap.{get};
ghost use Rattle.indexmap.specs.IndexSet.{contains};
ghost use Rattle.hep_machine.specs.Words.{name_eq, with_name, with_names, names_of_occurrences};
ghost use Rattle.hep_machine.specs.Variables as variables;
ghost use Rattle.hep_names.specs.Tables as tables;

use crate::list_table::ListTable;
use crate::occurrences::occurrences_of;
use crate::table::{NameSet, Table};
use hep_source::{Name, Occurrence};
use indexmap::IndexSet;
use std::alloc::{AllocError, Global};

fn add_name(names: &mut IndexSet<Name>, name: Name) -> Result<(), AllocError>
    ensures { OnOk result (names.new.keys ≡ with_name names.old.keys name) }
{
    names.insert(name)?;
    Ok(())
}

fn add_names(names: &mut IndexSet<Name>, occurrences: &[Occurrence]) -> Result<(), AllocError>
    ensures { OnOk result (names.new.keys ≡ with_names names.old.keys (names_of_occurrences occurrences.now)) }
{
    for occurrence in occurrences {
        add_name(names, occurrence.name)?;
    }
    Ok(())
}

// The names of variables and constants of a unit, each once, in order of first appearance.
pub(crate) fn names_of(alloc: Global, listed: &ListTable) -> Result<NameSet, AllocError>
    ensures { IfOk result (λ names. names.set.keys ≡ variables.names_of listed.now) }
{
    let occurrences = occurrences_of(alloc, listed)?;
    let mut names = NameSet {
        set: IndexSet::with_capacity(alloc, occurrences.len())?,
    };
    add_names(&mut names.set, &occurrences)?;
    Ok(names)
}

fn is_local(
    dummies: &Table<usize>,
    blocks: &Table<Option<Name>>,
    constants: &NameSet,
    name: &Name,
) -> bool
    ensures { result ≡ tables.is_local_by (get name_eq dummies.now.map) (get name_eq blocks.now.map)
        (contains name_eq constants.now.set) name.now }
{
    !dummies.map.contains_key(name)
        && !blocks.map.contains_key(name)
        && !constants.set.contains(name)
}

// Those of these names that are neither dummy arguments nor in COMMON nor constants.
pub(crate) fn locals_among(
    alloc: Global,
    dummies: &Table<usize>,
    blocks: &Table<Option<Name>>,
    constants: &NameSet,
    names: &[Name],
) -> Result<Vec<Name>, AllocError>
    ensures { IfOk result (λ locals. locals.items
        ≡ filter (tables.is_local_by (get name_eq dummies.now.map) (get name_eq blocks.now.map)
        (contains name_eq constants.now.set)) names.now) }
{
    let mut locals = Vec::new(alloc);
    for name in names {
        if is_local(dummies, blocks, constants, name) {
            locals.push(*name)?;
        }
    }
    Ok(locals)
}
