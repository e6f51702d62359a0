//! The states that a search has found, each by its key.
ghost use Rattle.std.specs.Prelude.{◌≡◌, ◌≢◌, ◌++◌, ◌∷◌, [], ℕ, IfOk, OnErr, Some, length, slice_get, true, false};

use crate::key::Key;
use indexmap::IndexSet;
use std::alloc::{AllocError, Global};
use std::marker::Model;

/// The states that a search has found, in the order in which it found them. Contracts see the bytes of their keys.
pub struct States {
    keys: IndexSet<Key>,
}

impl Model for States {
    ghost use Rattle.std.specs.Prelude.{List, ℕ, map};
    ghost use Rattle.std.specs.Coded.{coded_list, coded_ℕ};
    ghost use Rattle.hep_explore.specs.FoundStates.{bytes_in};

    ghost Value = { List (List ℕ) };

    ghost coded = { coded_list (coded_list coded_ℕ) };

    ghost view = { λ a. bytes_in a.keys.keys };
}

impl Drop for States {
    fn drop(self) {
        let States { keys } = self;
    }
}

impl States {
    /// No states.
    pub fn new(alloc: Global) -> States
        ensures { result ≡ [] }
    {
        States {
            keys: IndexSet::new(alloc),
        }
    }

    /// How many states there are.
    pub fn len(&self) -> usize
        ensures { result ≡ length self.now }
    {
        self.keys.len()
    }

    /// Whether a state has this key.
    pub fn contains(&self, key: &Key) -> bool
        ensures seen { result ≡ true → (i : ℕ) × (slice_get self.now i ≡ Some key.now.bytes.items) }
        ensures unseen { result ≡ false → (i : ℕ) → slice_get self.now i ≢ Some key.now.bytes.items }
    {
        self.keys.contains(key)
    }

    /// Adds a state, if none has this key. Returns the index of the state with this key, and whether it is new.
    ///
    /// # Errors
    ///
    /// Only where memory was refused; nothing has changed then.
    pub fn insert(&mut self, key: Key) -> Result<(usize, bool), AllocError>
        ensures there { IfOk result (λ r. slice_get self.new r.0 ≡ Some key.bytes.items) }
        ensures seen { IfOk result (λ r. r.1 ≡ false → self.new ≡ self.old) }
        ensures added { IfOk result (λ r. r.1 ≡ true → (r.0 ≡ length self.old) × (self.new ≡ self.old ++ key.bytes.items ∷ [])) }
        ensures unseen { IfOk result (λ r. r.1 ≡ true → (i : ℕ) → slice_get self.old i ≢ Some key.bytes.items) }
        ensures refused { OnErr result (self.new ≡ self.old) }
    {
        Ok(self.keys.insert_full(key)?)
    }
}
