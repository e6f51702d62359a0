//! The parts of a key: values, cells, frames, and what was written.
ghost use Rattle.std.specs.Prelude.{◌≡◌, ◌≤◌, ◌++◌, ◌∷◌, [], ℕ, List, OnOk, Some, map, slice_get};
ghost use Rattle.hep_layout.specs.Words.{FrameNode};
ghost use Rattle.hep_proc.specs.Nodes.{nodes_of};
ghost use Rattle.hep_state.specs.Words.{node_under};
ghost use Rattle.hep_explore.specs.Contents.{cells_from, frame_at, number_at};
ghost use Rattle.hep_explore.specs.KeyParts.{AreCellsOut, IsFrameThere};
ghost use Rattle.hep_explore.specs.Keys as words;
ghost use Rattle.hep_explore.specs.Keys.{counted, fault_words, frame_words, held_kind, held_number, item_words, slot_words};
ghost use Rattle.hep_explore.specs.Keys.{value_kind, value_number, value_words};

use hep_machine::{Fault, Item, Kind, Record, Slot};
use hep_proc::Frames;
use hep_source::Value;
use std::alloc::AllocError;

// ---- values

// The kind of a value, and its number.
fn value_code(value: Value) -> (u64, u64)
    ensures kind { result.0 ≡ value_kind value }
    ensures number { result.1 ≡ value_number value }
    ensures few { result.0 ≤ 4 }
{
    match value {
        Value::Int(n) if n < 0 => (2, n.unsigned_abs()),
        Value::Int(n) => (1, n.unsigned_abs()),
        Value::Truth(truth) => (if truth { 4 } else { 3 }, 0),
    }
}

fn append_value(words: &mut Vec<u64>, value: Value) -> Result<(), AllocError>
    ensures { OnOk result (words.new.items ≡ words.old.items ++ value_words value) }
{
    let (kind, number) = value_code(value);
    words.extend_from_slice(&[kind, number])
}

// The kind of what a cell holds, and its number.
fn held_code(value: Option<Value>) -> (u64, u64)
    ensures kind { result.0 ≡ held_kind value }
    ensures number { result.1 ≡ held_number value }
    ensures few { result.0 ≤ 4 }
{
    match value {
        Some(value) => value_code(value),
        None => (0, 0),
    }
}

fn append_slot(words: &mut Vec<u64>, slot: Slot) -> Result<(), AllocError>
    ensures { OnOk result (words.new.items ≡ words.old.items ++ slot_words slot) }
{
    let (kind, number) = held_code(slot.value);
    let kind = if slot.full { kind + 5 } else { kind };
    words.extend_from_slice(&[kind, number])
}

/// Appends values, with their number before them.
///
/// # Errors
///
/// Only where memory was refused.
pub fn append_values(words: &mut Vec<u64>, values: &[Value]) -> Result<(), AllocError>
    ensures { OnOk result (words.new.items ≡ words.old.items ++ counted value_words values.now) }
{
    words.push(values.len() as u64)?;
    for value in values {
        append_value(words, *value)?;
    }
    Ok(())
}

// ---- cells and frames

/// Appends what cells hold, with their number before them.
///
/// # Errors
///
/// Only where memory was refused.
pub fn append_cells(
    words: &mut Vec<u64>,
    frames: &Frames,
    first: u32,
    count: u32,
) -> Result<(), AllocError>
    requires { AreCellsOut frames.now.arena first count }
    ensures { OnOk result (words.new.items ≡ words.old.items ++ counted slot_words (cells_from frames.now.arena.contents first count)) }
{
    words.push(u64::from(count))?;
    for index in 0..count {
        append_slot(words, frames.get(first + index))?;
    }
    Ok(())
}

// The number of the parent of the activation whose node is under a key, 0 where it has none.
fn parent_number(frames: &Frames, key: usize) -> u64
    requires { IsFrameThere frames.now key }
    ensures { result ≡ number_at (nodes_of frames.now.nodes) (node_under (nodes_of frames.now.nodes) key).parent }
{
    match frames.parent(key) {
        Some(above) => frames.activation(above),
        None => 0,
    }
}

fn append_frame(words: &mut Vec<u64>, frames: &Frames, key: usize) -> Result<(), AllocError>
    requires { IsFrameThere frames.now key }
    ensures { OnOk result (words.new.items
        ≡ words.old.items ++ frame_words (frame_at (nodes_of frames.now.nodes) frames.now.arena.contents key)) }
{
    let first = frames.first(key);
    let (activation, unit) = (frames.activation(key), u64::from(frames.unit(key)));
    words.extend_from_slice(&[
        activation,
        unit,
        u64::from(first),
        parent_number(frames, key),
    ])?;
    append_cells(words, frames, first, frames.cells(key))
}

/// Appends the frames whose nodes are under these keys, with their number before them.
///
/// # Errors
///
/// Only where memory was refused.
pub fn append_frames(
    words: &mut Vec<u64>,
    frames: &Frames,
    keys: &[usize],
) -> Result<(), AllocError>
    requires { (i key : ℕ) → slice_get keys.now i ≡ Some key → IsFrameThere frames.now key }
    ensures { OnOk result (words.new.items ≡ words.old.items
        ++ counted frame_words (map (frame_at (nodes_of frames.now.nodes) frames.now.arena.contents) keys.now)) }
{
    words.push(keys.len() as u64)?;
    for key in keys {
        append_frame(words, frames, *key)?;
    }
    Ok(())
}

// ---- what was written

fn append_text(words: &mut Vec<u64>, characters: &[u8]) -> Result<(), AllocError>
    ensures { OnOk result (words.new.items ≡ words.old.items ++ counted (λ c. c ∷ []) characters.now) }
{
    words.push(characters.len() as u64)?;
    for character in characters {
        words.push(u64::from(*character))?;
    }
    Ok(())
}

fn append_item(words: &mut Vec<u64>, item: &Item) -> Result<(), AllocError>
    ensures { OnOk result (words.new.items ≡ words.old.items ++ item_words item.now) }
{
    match item {
        Item::Int(integer) => append_value(words, Value::Int(*integer)),
        Item::Truth(truth) => append_value(words, Value::Truth(*truth)),
        Item::Text(characters) => {
            words.push(5)?;
            append_text(words, characters.as_slice())
        }
    }
}

fn append_items(words: &mut Vec<u64>, items: &[Item]) -> Result<(), AllocError>
    ensures { OnOk result (words.new.items ≡ words.old.items ++ counted item_words items.now) }
{
    words.push(items.len() as u64)?;
    for item in items {
        append_item(words, item)?;
    }
    Ok(())
}

/// Appends records, with their number before them.
///
/// # Errors
///
/// Only where memory was refused.
pub fn append_records(words: &mut Vec<u64>, records: &[Record]) -> Result<(), AllocError>
    ensures { OnOk result (words.new.items ≡ words.old.items ++ counted (counted item_words) records.now) }
{
    words.push(records.len() as u64)?;
    for record in records {
        append_items(words, record.as_slice())?;
    }
    Ok(())
}

fn kind_word(kind: Kind) -> u64
    ensures { result ≡ words.kind_word kind }
{
    match kind {
        Kind::Overflow => 0,
        Kind::Divide => 1,
        Kind::Range => 2,
        Kind::Undefined => 3,
        Kind::Shape => 4,
        Kind::Step => 5,
    }
}

/// Appends faults, with their number before them.
///
/// # Errors
///
/// Only where memory was refused.
pub fn append_faults(words: &mut Vec<u64>, faults: &[Fault]) -> Result<(), AllocError>
    ensures { OnOk result (words.new.items ≡ words.old.items ++ counted fault_words faults.now) }
{
    words.push(faults.len() as u64)?;
    for fault in faults {
        let (unit, line) = (u64::from(fault.unit), u64::from(fault.line));
        words.extend_from_slice(&[fault.process, unit, line, kind_word(fault.kind)])?;
    }
    Ok(())
}
