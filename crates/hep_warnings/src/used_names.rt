//! Lists of names with a fast test of membership.
ghost use Rattle.std.specs.Prelude.{◌≡◌, ◌||◌, IfOk, OnOk};
ghost use Rattle.std.specs.List.{list_any};
ghost use Rattle.indexmap.specs.IndexSet.{contains};
ghost use Rattle.hep_machine.specs.Words.{name_eq, Name as PureName};

use hep_source::Name;
use indexmap::IndexSet;
use std::alloc::{AllocError, Global};
use std::marker::Model;

// Names with their set. Contracts see the names.
pub(crate) struct UsedNames {
    names: Vec<Name>,
    set: IndexSet<Name>,
}

impl Drop for UsedNames {
    fn drop(self) {
        let UsedNames { names, set } = self;
    }
}

impl Model for UsedNames {
    ghost use Rattle.std.specs.Prelude.{◌≡◌, List};
    ghost use Rattle.std.specs.Coded.{codes};
    ghost use Rattle.std.specs.List.{list_any};
    ghost use Rattle.indexmap.specs.IndexSet.{contains};
    ghost use Rattle.hep_source.specs.declared.name.Name.{Name as PureName};
    ghost use Rattle.hep_source.specs.Names.{name_eq};

    ghost Value = { List PureName };

    ghost coded = { Prim.hlevel (codes) };

    ghost view = { λ s. s.names.items };

    ghost invariant = { λ s. (x : PureName) → contains name_eq s.set x ≡ list_any (name_eq x) s.names.items };
}

// Adds a name to a set.
fn add(set: &mut IndexSet<Name>, name: Name) -> Result<(), AllocError>
    ensures { OnOk result ((x : PureName) → contains name_eq set.new x ≡ (name_eq x name || contains name_eq set.old x)) }
{
    set.insert(name)?;
    Ok(())
}

// The set of these names.
fn set_of(alloc: Global, names: &[Name]) -> Result<IndexSet<Name>, AllocError>
    ensures { IfOk result (λ set. (x : PureName) → contains name_eq set x ≡ list_any (name_eq x) names.now) }
{
    let mut set = IndexSet::with_capacity(alloc, names.len())?;
    for name in names {
        add(&mut set, *name)?;
    }
    Ok(set)
}

impl UsedNames {
    pub(crate) fn new(alloc: Global, names: Vec<Name>) -> Result<UsedNames, AllocError>
        ensures { IfOk result (λ used. used ≡ names.items) }
    {
        let set = set_of(alloc, &names)?;
        Ok(UsedNames { names, set })
    }

    // Whether a name is one of them.
    pub(crate) fn has(&self, name: &Name) -> bool
        ensures { result ≡ list_any (name_eq name.now) self.now }
    {
        self.set.contains(name)
    }
}
