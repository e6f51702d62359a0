//! Slots of the arena, and the stores of private steps in them.
ghost use Rattle.std.specs.Prelude.{◌≡◌, ◌<◌, ◌+◌, ◌++◌, ◌^◌, OnOk, pos, slice_set};
ghost use Rattle.hep_machine.specs.Words.{natural};
ghost use Rattle.hep_image.specs.Addressing.{cells_in};
ghost use Rattle.hep_layout.specs.Words.{number};
ghost use Rattle.hep_private.specs.OwnState.{contents_after, values_at};
ghost use Rattle.hep_step.specs.Effects.{with_counts, with_value_at};
ghost use Rattle.hep_commit.specs.BatchStarts.{slots_with};
ghost use Rattle.hep_commit.specs.SegmentStarts.{copies_of};
ghost use Rattle.hep_commit.specs.UndoLogs.{slots_of, with_slots};
ghost use Rattle.hep_private.specs.InPlace.{stored_with};

use hep_arena::{Arena, Cell};
use hep_machine::Slot;
use hep_private::{CellCopy, Record};
use hep_source::Value;
use std::alloc::AllocError;

// Gives a cell a value. Whether it is full doesn't change.
fn store(slots: &mut [Cell], at: usize, value: Value)
    ensures { slots.new ≡ with_value_at slots.old at value }
{
    if at < slots.len() {
        slots[at].store(value);
    }
}

fn put(slots: &mut [Cell], at: usize, slot: Slot)
    ensures { slots.new ≡ slice_set slots.old at slot }
{
    if at < slots.len() {
        slots[at] = Cell::new(slot);
    }
}

// Gives a cell of a DO a number.
fn put_number(slots: &mut [Cell], at: usize, integer: i64)
    ensures { slots.new ≡ slice_set slots.old at (number integer) }
{
    put(
        slots,
        at,
        Slot {
            value: Some(Value::Int(integer)),
            full: false,
        },
    );
}

// Gives the two cells of a DO, from the first one, the number of iterations left and the increment.
fn put_counts(slots: &mut [Cell], at: usize, count: i64, increment: i64)
    requires count { pos (natural count) ≡ count }
    requires few { at + 1 < 2 ^ 64 }
    ensures { slots.new ≡ with_counts slots.old at (natural count) increment }
{
    put_number(slots, at, count);
    put_number(slots, at + 1, increment);
}

// Stores what a step stored, in a frame that begins at `first`.
fn apply(slots: &mut [Cell], first: u32, note: Record)
    ensures { slots.new ≡ contents_after first slots.old note }
{
    let first = first as usize;
    match note {
        Record::Stores { cell, value, .. } => store(slots, first + cell as usize, value),
        Record::Enters {
            variable,
            cells,
            initial,
            count,
            increment,
            ..
        } => {
            store(slots, first + variable as usize, Value::Int(initial));
            put_counts(slots, first + cells as usize, count.max(0), increment);
        }
        Record::Ends {
            variable,
            cells,
            raised,
            count,
            increment,
            ..
        } => {
            store(slots, first + variable as usize, Value::Int(raised));
            put_counts(slots, first + cells as usize, count.max(1) - 1, increment);
        }
        Record::Goes { .. } | Record::Gives { .. } | Record::Reads { .. } => {}
    }
}

// Stores what steps stored, one after another.
fn apply_all(slots: &mut [Cell], first: u32, records: &[Record])
    ensures { slots.new ≡ stored_with first slots.old records.now }
{
    for note in records {
        apply(slots, first, *note);
    }
}

/// The slot of a cell of a frame. A cell past the end of the slots has no value and isn't full.
#[inline(always)]
pub(crate) fn slot_at(slots: &[Cell], first: u32, cell: usize) -> Slot
    ensures { result ≡ cells_in slots.now (first + cell) }
{
    const UNSET: Slot = Slot {
        value: None,
        full: false,
    };
    match (first as usize).checked_add(cell) {
        Some(at) => match slots.get(at) {
            Some(held) => held.slot(),
            None => UNSET,
        },
        None => UNSET,
    }
}

// Appends copies of these cells of a frame.
fn copy_cells(
    copies: &mut Vec<CellCopy>,
    slots: &[Cell],
    first: u32,
    cells: &[usize],
) -> Result<(), AllocError>
    ensures { OnOk result (copies.new.items ≡ copies.old.items ++ copies_of (values_at slots.now first) cells.now) }
{
    for cell in cells {
        let value = slot_at(slots, first, *cell).value;
        copies.push(CellCopy { cell: *cell, value })?;
    }
    Ok(())
}

// Appends the slots of these cells of a frame.
fn copy_slots(
    kept: &mut Vec<Slot>,
    slots: &[Cell],
    first: u32,
    cells: &[usize],
) -> Result<(), AllocError>
    ensures { OnOk result (kept.new.items ≡ kept.old.items ++ slots_of first cells.now slots.now) }
{
    for cell in cells {
        kept.push(slot_at(slots, first, *cell))?;
    }
    Ok(())
}

// Gives a cell of a frame a slot.
fn put_cell(slots: &mut [Cell], first: u32, cell: usize, slot: Slot)
    ensures { slots.new ≡ slice_set slots.old (first + cell) slot }
{
    if let Some(at) = (first as usize).checked_add(cell) {
        put(slots, at, slot);
    }
}

// Gives cells of a frame these slots.
#[tactic(auto, using(hep_source::proofs::Tests::drop_at))]
fn put_slots(slots: &mut [Cell], first: u32, cells: &[usize], kept: &[Slot])
    ensures { slots.new ≡ with_slots first cells.now kept.now slots.old }
{
    let mut rest = kept;
    for cell in cells {
        let Some((slot, behind)) = rest.split_first() else {
            return;
        };
        put_cell(slots, first, *cell, *slot);
        rest = behind;
    }
}

// Gives cells of a frame the values of their copies. They aren't full then.
fn put_values(slots: &mut [Cell], first: u32, cells: &[usize], copies: &[Cell])
    ensures { slots.new ≡ with_slots first cells.now (slots_with (values_at copies.now 0) cells.now) slots.old }
{
    for cell in cells {
        let value = slot_at(copies, 0, *cell).value;
        put_cell(slots, first, *cell, Slot { value, full: false });
    }
}

/// Stores what steps stored, in a frame that begins at `first` in an arena.
pub(crate) fn apply_over(arena: &mut Arena, first: u32, records: &[Record])
    ensures contents { arena.new.contents ≡ stored_with first arena.old.contents records.now }
    ensures holes { arena.new.holes ≡ arena.old.holes }
{
    apply_all(arena.slots_mut(), first, records);
}

/// Gives cells of a frame these slots. The frame begins at `first` in an arena.
pub(crate) fn put_over(arena: &mut Arena, first: u32, cells: &[usize], kept: &[Slot])
    ensures contents { arena.new.contents ≡ with_slots first cells.now kept.now arena.old.contents }
    ensures holes { arena.new.holes ≡ arena.old.holes }
{
    put_slots(arena.slots_mut(), first, cells, kept);
}

/// Gives cells of a frame the values of their copies. They aren't full then. The frame begins at `first` in an arena.
pub(crate) fn put_values_over(arena: &mut Arena, first: u32, cells: &[usize], copies: &[Cell])
    ensures contents { arena.new.contents ≡ with_slots first cells.now (slots_with (values_at copies.now 0) cells.now) arena.old.contents }
    ensures holes { arena.new.holes ≡ arena.old.holes }
{
    put_values(arena.slots_mut(), first, cells, copies);
}

/// Replaces the copies by copies of these cells of a frame.
pub(crate) fn keep_copies(
    copies: &mut Vec<CellCopy>,
    slots: &[Cell],
    first: u32,
    cells: &[usize],
) -> Result<(), AllocError>
    ensures { OnOk result (copies.new.items ≡ copies_of (values_at slots.now first) cells.now) }
{
    copies.clear();
    copy_cells(copies, slots, first, cells)
}

/// Replaces the kept slots by those of these cells of a frame.
pub(crate) fn keep_slots(
    kept: &mut Vec<Slot>,
    slots: &[Cell],
    first: u32,
    cells: &[usize],
) -> Result<(), AllocError>
    ensures { OnOk result (kept.new.items ≡ slots_of first cells.now slots.now) }
{
    kept.clear();
    copy_slots(kept, slots, first, cells)
}
