//! Named constants (X3.9-1978, 8.6): names with their values, and sets of names.
ghost use Rattle.std.specs.Prelude.{◌≡◌, [], ◌∷◌, if◌then◌else◌, is_some, OnOk, Some};
ghost use Rattle.hep_machine.specs.Words.{is_among, value_among, with_constant};

use hep_source::{Name, Value};
use indexmap::{IndexMap, IndexSet};
use std::alloc::{AllocError, Global};
use std::marker::Model;

/// Constants: names with their values. Contracts see the list of them, in the order in which they were added.
pub struct Constants {
    values: IndexMap<Name, Value>,
}

impl Drop for Constants {
    fn drop(self) {
        let Constants { values } = self;
    }
}

impl Model for Constants {
    ghost use Rattle.hep_machine.specs.Constants.{Constants as PureConstants};

    ghost Value = { PureConstants };

    ghost view = { λ a. a.values.entries };
}

impl Constants {
    /// Makes an empty table of constants.
    pub fn new(alloc: Global) -> Constants
        ensures { result ≡ [] }
    {
        Constants {
            values: IndexMap::new(alloc),
        }
    }

    /// The value of a name, if it is a constant.
    pub fn get(&self, name: &Name) -> Option<Value>
        ensures { result ≡ value_among self.now name.now }
    {
        self.values.get(name).copied()
    }

    /// Gives a name a value, unless it has one.
    ///
    /// # Errors
    ///
    /// Only where memory was refused.
    pub fn add(&mut self, name: Name, value: Value) -> Result<(), AllocError>
        ensures { OnOk result (self.new ≡ if is_some (value_among self.old name) then self.old
            else with_constant self.old name (Some value)) }
    {
        if !self.values.contains_key(&name) {
            self.values.insert(name, value)?;
        }
        Ok(())
    }
}

/// A set of names. Contracts see the list of them, the last one added first.
pub struct NameSet {
    names: IndexSet<Name>,
}

impl Drop for NameSet {
    fn drop(self) {
        let NameSet { names } = self;
    }
}

impl Model for NameSet {
    ghost use Rattle.std.specs.Prelude.{List, reverse};
    ghost use Rattle.hep_source.specs.declared.name.Name.{Name as PureName};

    ghost Value = { List PureName };

    ghost view = { λ a. reverse a.names.keys };
}

impl NameSet {
    /// Makes an empty set.
    pub fn new(alloc: Global) -> NameSet
        ensures { result ≡ [] }
    {
        NameSet {
            names: IndexSet::new(alloc),
        }
    }

    /// Whether the set has the name.
    pub fn contains(&self, name: &Name) -> bool
        ensures { result ≡ is_among name.now self.now }
    {
        self.names.contains(name)
    }

    /// Adds a name, unless the set has it.
    ///
    /// # Errors
    ///
    /// Only where memory was refused.
    pub fn add(&mut self, name: Name) -> Result<(), AllocError>
        ensures { OnOk result (self.new ≡ if is_among name self.old then self.old else name ∷ self.old) }
    {
        self.names.insert(name)?;
        Ok(())
    }
}
