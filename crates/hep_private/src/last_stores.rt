//! The values that steps stored last, in a small table by cell.
ghost use Rattle.std.specs.Prelude.{◌≡◌, None, Some, replicate, slice_index_or, slice_set};
ghost use Rattle.hep_machine.specs.Words.{Int};
ghost use Rattle.hep_private.specs.OwnState.{stores_of};
ghost use Rattle.hep_private.specs.LastStores.{place_of, with_recent};
ghost use Rattle.hep_private.specs.Stores.{stores_of_store};

use crate::record::Record;
use crate::write_log::{LoopStore, iterations, one_less};
use hep_source::Value;

/// The number of places in the table. Cells whose numbers differ by a multiple of it share a place.
pub const PLACES: usize = 64;

/// A value that was stored in a cell of a frame.
#[derive(Clone, Copy)]
pub struct LastStore {
    pub cell: usize,
    pub value: Value,
}

/// For each place, the cell and the value of the last store, if there was one.
pub type LastStores = [Option<LastStore>; PLACES];

/// The table before any store.
pub fn nothing() -> LastStores
    ensures { result ≡ replicate 64 None }
{
    [None; PLACES]
}

/// The entry at the place of a cell.
#[inline(always)]
pub fn recent_at(recent: &LastStores, cell: usize) -> Option<LastStore>
    ensures { result ≡ slice_index_or recent.now (place_of cell) None }
{
    recent[cell % PLACES]
}

// Notes that a value was stored in a cell.
#[inline(always)]
fn put(recent: &mut LastStores, cell: usize, value: Value)
    ensures { recent.new ≡ slice_set recent.old (place_of cell) (Some (record { cell = cell; value = value })) }
{
    recent[cell % PLACES] = Some(LastStore { cell, value });
}

// Notes the three stores of a step of a DO.
#[inline(always)]
fn put_loop(recent: &mut LastStores, store: LoopStore)
    ensures { recent.new ≡ with_recent recent.old (stores_of_store store) }
{
    let first = store.cells as usize;
    put(recent, store.variable as usize, Value::Int(store.value));
    put(recent, first, Value::Int(store.left));
    put(recent, first + 1, Value::Int(store.increment));
}

/// Notes the stores of a step.
#[inline(always)]
pub fn put_stores(recent: &mut LastStores, note: Record)
    ensures { recent.new ≡ with_recent recent.old (stores_of note) }
{
    match note {
        Record::Goes { .. } | Record::Gives { .. } | Record::Reads { .. } => {}
        Record::Stores { cell, value, .. } => put(recent, cell as usize, value),
        Record::Enters {
            variable,
            cells,
            initial,
            count,
            increment,
            ..
        } => put_loop(
            recent,
            LoopStore {
                variable,
                cells,
                value: initial,
                left: iterations(count),
                increment,
            },
        ),
        Record::Ends {
            variable,
            cells,
            raised,
            count,
            increment,
            ..
        } => put_loop(
            recent,
            LoopStore {
                variable,
                cells,
                value: raised,
                left: one_less(count),
                increment,
            },
        ),
    }
}
