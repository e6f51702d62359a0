//! The first cells of names that follow one another in a frame (docs/MACHINE.md, "Variables and frames").
ghost use Rattle.std.specs.Prelude.{◌≡◌, ℕ, ◌+◌, ◌*◌, List, map, None, IfOk, OnOk};
ghost use Rattle.std.specs.Option.{option_or};
ghost use Rattle.indexmap.specs.IndexMap.{get};
ghost use Rattle.hep_machine.specs.Words.{name_eq, Statement, Name as PureName};
ghost use Rattle.hep_machine.specs.Constants as values;
ghost use Rattle.hep_storage.specs.Starts.{narrowed};
ghost use Rattle.hep_places.specs.StorageStarts as found;

use crate::cell_numbers::{behind_pairs, further};
use hep_names::{Symbols, adjustable_dimensions, cells_of, note};
use hep_source::{Name, Occurrence};
use indexmap::IndexMap;
use std::alloc::{AllocError, Global};

// A part of a frame that has a name.
pub(crate) trait FrameItem {
    ghost name_of: { Self → PureName };

    ghost cells_of: { List Statement → Self → ℕ };

    fn name(&self) -> Name
        ensures { result ≡ name_of self.now };

    // The cell after it, where `first` is its first one.
    fn behind(&self, alloc: Global, symbols: &Symbols, first: u32) -> Result<u32, AllocError>
        ensures { IfOk result (λ next. next ≡ narrowed (first + cells_of symbols.now self.now)) };
}

// A variable.
impl FrameItem for Name {
    ghost name_of = { λ x. x };

    ghost cells_of = { values.cells_of };

    fn name(&self) -> Name {
        *self
    }

    fn behind(&self, alloc: Global, symbols: &Symbols, first: u32) -> Result<u32, AllocError> {
        let cells = cells_of(alloc, symbols, self)?;
        Ok(further(first, cells))
    }
}

// The bounds of a dummy argument: a lower and an upper one for each dimension that is fixed anew at each call.
impl FrameItem for Occurrence {
    ghost name_of = { λ o. o.name };

    ghost cells_of = { λ unit o. 2 * values.adjustable_dimensions unit o.name };

    fn name(&self) -> Name {
        self.name
    }

    fn behind(&self, alloc: Global, symbols: &Symbols, first: u32) -> Result<u32, AllocError> {
        let pairs = adjustable_dimensions(alloc, symbols, &self.name)?;
        Ok(behind_pairs(first, pairs))
    }
}

// Names with their first cells.
pub(crate) struct FrameStarts {
    pub(crate) table: IndexMap<Name, u32>,
    // The cell after all of them.
    pub(crate) next: u32,
}

impl Drop for FrameStarts {
    fn drop(self) {
        let FrameStarts { table, next } = self;
    }
}

impl FrameStarts {
    // No names yet, with room for `names` names. The first one will begin at `first`.
    pub(crate) fn new(alloc: Global, first: u32, names: usize) -> Result<FrameStarts, AllocError>
        ensures table { IfOk result (λ starts. (x : PureName) → get name_eq starts.table x ≡ None) }
        ensures next { IfOk result (λ starts. starts.next ≡ first) }
    {
        Ok(FrameStarts {
            table: IndexMap::with_capacity(alloc, names)?,
            next: first,
        })
    }

    // Adds these names, each with its cells.
    pub(crate) fn add_all<T: FrameItem>(
        &mut self,
        alloc: Global,
        symbols: &Symbols,
        items: &[T],
    ) -> Result<(), AllocError>
        ensures table { OnOk result ((x : PureName) → get name_eq self.new.table x
            ≡ option_or (get name_eq self.old.table x)
            (found.start_among self.old.next (map (λ y. (T.name_of y, T.cells_of symbols.now y)) items.now) x)) }
        ensures next { OnOk result (self.new.next
            ≡ found.behind self.old.next (map (λ y. (T.name_of y, T.cells_of symbols.now y)) items.now)) }
    {
        for item in items {
            let next = item.behind(alloc, symbols, self.next)?;
            note(&mut self.table, item.name(), self.next)?;
            self.next = next;
        }
        Ok(())
    }
}
