//! What a step reads: a value that an earlier step has stored, or else one that was there before the first step.
ghost use Rattle.std.specs.Prelude.{◌≡◌, ◌-◌, not, pos};
ghost use Rattle.hep_machine.specs.Words.{is_number_among, natural};
ghost use Rattle.hep_private.specs.OwnState.{stores_of};
ghost use Rattle.hep_private.specs.Stores.{last_stored, records_among, stored_in, stores_of_end, stores_of_entry, stores_of_store, values_now, written_now};
ghost use Rattle.hep_private.specs.OwnState.{values_at};
ghost use Rattle.hep_private.specs.BaseValues.{value_copied, values_of};

use crate::cell_copy::CellCopy;
use crate::record::Record;
use crate::records::Records;
use hep_source::Value;
use hep_step::Cell;

/// The values that are there before the first step.
#[derive(Clone, Copy)]
pub enum BaseValues<'a> {
    /// The values of a ticket's copies.
    Copies(&'a [CellCopy]),
    /// The values in the slots of the arena. `first` is the first cell of the frame.
    Slots { slots: &'a [Cell], first: usize },
}

/// The cells of an activation: which ones are private scalars, the values before the first step, and the records of
/// the steps since.
#[derive(Clone, Copy)]
pub struct WriteLog<'a> {
    pub private: &'a [u32],
    pub base: BaseValues<'a>,
    pub records: Option<&'a Records>,
}

#[tactic(auto, using(hep_source::proofs::Tests::drop_at))]
#[inline(never)]
fn copied(copies: &[CellCopy], cell: usize) -> Option<Value>
    ensures { result ≡ value_copied copies.now cell }
{
    for copy in copies {
        if copy.cell == cell {
            return copy.value;
        }
    }
    None
}

// The value of a frame's cell in the arena, if it has one.
fn held(slots: &[Cell], first: usize, cell: usize) -> Option<Value>
    ensures { result ≡ values_at slots.now first cell }
{
    match slots.get(first.checked_add(cell)?) {
        Some(held) => held.value(),
        None => None,
    }
}

impl BaseValues<'_> {
    /// The value of a cell, if it has one.
    #[inline(always)]
    pub fn value(self, cell: usize) -> Option<Value>
        ensures { result ≡ values_of self.entry cell }
    {
        match self {
            BaseValues::Copies(copies) => copied(copies, cell),
            BaseValues::Slots { slots, first } => held(slots, first, cell),
        }
    }
}

/// What a step of a DO stored: the value of its variable, and in its two cells the number of iterations left and the
/// increment.
#[derive(Clone, Copy)]
pub struct LoopStore {
    pub variable: u32,
    pub cells: u32,
    pub value: i64,
    pub left: i64,
    pub increment: i64,
}

fn stored_by_loop(store: LoopStore, cell: usize) -> Option<Value>
    ensures { result ≡ last_stored (stores_of_store store) cell }
{
    let first = store.cells as usize;
    if cell == first + 1 {
        Some(Value::Int(store.increment))
    } else if cell == first {
        Some(Value::Int(store.left))
    } else if cell == store.variable as usize {
        Some(Value::Int(store.value))
    } else {
        None
    }
}

/// A number of iterations: 0 in the place of a negative one.
#[inline(always)]
pub fn iterations(number: i64) -> i64
    ensures { result ≡ pos (natural number) }
{
    number.max(0)
}

/// One iteration less, and 0 where none is left.
#[inline(always)]
pub fn one_less(number: i64) -> i64
    ensures { result ≡ pos (natural number - 1) }
{
    number.max(1) - 1
}

// The value that the entry of a DO stored in a cell, if it stored there.
fn stored_by_entry(note: Record, cell: usize) -> Option<Value>
    ensures { result ≡ last_stored (stores_of_entry note) cell }
{
    let Record::Enters {
        variable,
        cells,
        initial,
        count,
        increment,
        ..
    } = note
    else {
        return None;
    };
    let store = LoopStore {
        variable,
        cells,
        value: initial,
        left: iterations(count),
        increment,
    };
    stored_by_loop(store, cell)
}

// The value that the end of an iteration stored in a cell, if it stored there.
fn stored_by_end(note: Record, cell: usize) -> Option<Value>
    ensures { result ≡ last_stored (stores_of_end note) cell }
{
    let Record::Ends {
        variable,
        cells,
        raised,
        count,
        increment,
        ..
    } = note
    else {
        return None;
    };
    let store = LoopStore {
        variable,
        cells,
        value: raised,
        left: one_less(count),
        increment,
    };
    stored_by_loop(store, cell)
}

// The value that a step stored in a cell, if it stored there.
fn stored_by(note: Record, cell: usize) -> Option<Value>
    ensures { result ≡ last_stored (stores_of note) cell }
{
    match note {
        Record::Goes { .. } | Record::Gives { .. } | Record::Reads { .. } => None,
        Record::Stores {
            cell: stored,
            value,
            ..
        } => {
            if cell == stored as usize {
                Some(value)
            } else {
                None
            }
        }
        Record::Enters { .. } => stored_by_entry(note, cell),
        Record::Ends { .. } => stored_by_end(note, cell),
    }
}

/// The value that these steps stored last in a cell, if one of them stored there. The search goes from the last step
/// to the first.
#[tactic(auto, using(crate::proofs::StoredValues::stored_last))]
#[inline(never)]
pub fn stored(records: &[Record], cell: usize) -> Option<Value>
    ensures { result ≡ stored_in records.now cell }
{
    let mut rest = records;
    while let Some((last, before)) = rest.split_last() {
        if let Some(value) = stored_by(*last, cell) {
            return Some(value);
        }
        rest = before;
    }
    None
}

impl WriteLog<'_> {
    /// Whether the cell is that of a private scalar of the unit.
    #[inline(always)]
    pub fn is_private(&self, cell: u32) -> bool
        ensures { result ≡ is_number_among cell self.now.private.now }
    {
        self.private.iter().any(|private| cell == *private)
    }

    // The value that was stored last in a cell, if a step stored there.
    #[inline(always)]
    fn stored(&self, cell: usize) -> Option<Value>
        ensures { result ≡ stored_in (records_among self.now.records) cell }
    {
        match self.records {
            Some(records) => records.stored(cell),
            None => None,
        }
    }

    /// The value of a cell. The flag is true where no step has stored in it.
    #[tactic(auto, using(crate::proofs::StoredValues::value_along, crate::proofs::StoredValues::written_here))]
    #[inline(always)]
    pub fn read(&self, cell: usize) -> (bool, Option<Value>)
        ensures first { result.0 ≡ not (is_number_among cell (written_now self.now)) }
        ensures value { result.1 ≡ values_now self.now cell }
    {
        match self.stored(cell) {
            Some(value) => (false, Some(value)),
            None => (true, self.base.value(cell)),
        }
    }
}
