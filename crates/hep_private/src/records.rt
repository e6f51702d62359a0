//! Records in a buffer of a fixed size.
ghost use Rattle.std.specs.Prelude.{◌≡◌, ◌≤◌, ◌<◌, ◌++◌, ◌∷◌, [], length};
ghost use Rattle.hep_private.specs.RecordRoom.{most_records};
ghost use Rattle.hep_private.specs.StoredValues.{stored_in};

use crate::last_stores::{LastStores, nothing, put_stores, recent_at};
use crate::record::Record;
use crate::write_log::stored;
use hep_source::Value;
use std::marker::Model;

/// The greatest number of private steps of a segment.
pub const MOST_RECORDS: usize = 1023;

/// The records of the steps of a segment, in order. Contracts see the list of them.
#[derive(Drop)]
pub struct Records {
    items: [Record; MOST_RECORDS],
    count: usize,
    recent: LastStores,
}

impl Model for Records {
    ghost use Rattle.std.specs.Prelude.{◌≤◌, List, take};
    ghost use Rattle.hep_private.specs.declared.record.Record.{Record as ARecord};
    ghost use Rattle.hep_private.specs.LastStores.{IsRecent};
    ghost use Rattle.hep_private.specs.RecordRoom.{most_records};

    ghost Value = { List ARecord };

    ghost view = { λ r. take r.count r.items };

    ghost invariant = { λ r. (r.count ≤ most_records) × IsRecent r.recent (take r.count r.items) };
}

impl Records {
    pub fn new() -> Records
        ensures { result ≡ [] }
    {
        Records {
            items: [Record::Goes { at: 0 }; MOST_RECORDS],
            count: 0,
            recent: nothing(),
        }
    }

    /// The records.
    #[inline(always)]
    pub fn as_slice(&self) -> &[Record]
        ensures records { result.now ≡ self.now }
        ensures few { length result.now ≤ most_records }
    {
        &self.items[..self.count]
    }

    /// The number of records.
    #[inline(always)]
    pub fn len(&self) -> usize
        ensures { result ≡ length self.now }
    {
        self.as_slice().len()
    }

    /// The value that the steps stored last in a cell, if one of them stored there.
    #[inline(always)]
    pub fn stored(&self, cell: usize) -> Option<Value>
        ensures { result ≡ stored_in self.now cell }
    {
        match recent_at(&self.recent, cell) {
            Some(last) => {
                if last.cell == cell {
                    Some(last.value)
                } else {
                    stored(self.as_slice(), cell)
                }
            }
            None => None,
        }
    }

    /// Appends a record.
    #[inline(always)]
    pub fn push(&mut self, note: Record)
        requires { length self.old < most_records }
        ensures { self.new ≡ self.old ++ note ∷ [] }
    {
        self.items[self.count] = note;
        self.count += 1;
        put_stores(&mut self.recent, note);
    }

    pub fn clear(&mut self)
        ensures { self.new ≡ [] }
    {
        self.count = 0;
        self.recent = nothing();
    }
}
