//! The elements that DATA has given values, and whether one is given a value twice (X3.9-1978, 9.2).
ghost use Rattle.std.specs.Prelude.{◌≡◌, ◌∷◌, [], List, IfOk, OnOk};
ghost use Rattle.std.specs.List.{list_any};
ghost use Rattle.indexmap.specs.IndexSet.{contains};
ghost use Rattle.hep_machine.specs.Words.{same_name, name_eq, Statement as PureStatement, Name as PureName, Stretch as PureStretch};
ghost use Rattle.hep_conditions.specs.Words.{share_element};
ghost use Rattle.hep_names.specs.Tables.{either};
ghost use Rattle.hep_storage.specs.InitializedElements.{IsGiven, IsNamed};

use hep_source::Name;
use indexmap::IndexSet;
use std::alloc::{AllocError, Global};

/// An element of an array, by its subscripts.
#[derive(PartialEq, Eq, Hash, Drop)]
pub struct Element {
    pub name: Name,
    pub subscripts: Vec<i64>,
}

/// The elements that a name in DATA denotes.
#[derive(Drop)]
pub enum DataElements {
    One(Element),
    /// A scalar or all elements of an array, with their number.
    All(Name, u32),
}

/// The elements that were given values so far.
pub struct InitializedElements {
    // The names of which at least one element was given a value.
    names: IndexSet<Name>,
    // The names of which all elements were given values at once.
    arrays: IndexSet<Name>,
    elements: IndexSet<Element>,
}

impl Drop for InitializedElements {
    fn drop(self) {
        let InitializedElements {
            names,
            arrays,
            elements,
        } = self;
    }
}

// Adds a name to a set.
fn add(set: &mut IndexSet<Name>, name: Name) -> Result<(), AllocError>
    ensures { OnOk result ((x : PureName) → contains name_eq set.new x
        ≡ either (contains name_eq set.old x) (same_name x name)) }
{
    set.insert(name)?;
    Ok(())
}

impl InitializedElements {
    /// Makes an empty set of elements.
    pub fn new(alloc: Global) -> InitializedElements
        ensures { (unit : List PureStatement) → IsGiven unit [] result }
    {
        InitializedElements {
            names: IndexSet::new(alloc),
            arrays: IndexSet::new(alloc),
            elements: IndexSet::new(alloc),
        }
    }

    /// Records that these elements get values. The result is whether one of them had a value.
    ///
    /// # Errors
    ///
    /// Only where memory was refused.
    pub fn give(&mut self, stretch: DataElements) -> Result<bool, AllocError>
        ensures was { IfOk result (λ was. (unit : List PureStatement) (given : List PureStretch) (e : PureStretch)
            → IsGiven unit given self.old → IsNamed unit stretch e → was ≡ list_any (share_element e) given) }
        ensures given { OnOk result ((unit : List PureStatement) (given : List PureStretch) (e : PureStretch)
            → IsGiven unit given self.old → IsNamed unit stretch e → IsGiven unit (e ∷ given) self.new) }
    {
        match stretch {
            DataElements::One(element) => {
                let was = self.elements.contains(&element) || self.arrays.contains(&element.name);
                add(&mut self.names, element.name)?;
                self.elements.insert(element)?;
                Ok(was)
            }
            DataElements::All(name, _) => {
                let was = self.names.contains(&name);
                add(&mut self.names, name)?;
                add(&mut self.arrays, name)?;
                Ok(was)
            }
        }
    }
}
