//! The lines of records.
ghost use Rattle.std.specs.Prelude.{◌≡◌, ◌++◌, IfOk, OnOk, false};
ghost use Rattle.hep_output.specs.Records as words;

use hep_base::append_number;
use hep_machine::{Item, Record};
use std::alloc::{AllocError, Global};

fn append_item(text: &mut Vec<u8>, item: &Item) -> Result<(), AllocError>
    ensures { OnOk result (text.new.items ≡ text.old.items ++ words.item_text item.now) }
{
    match item {
        Item::Int(integer) => append_number(text, *integer),
        Item::Truth(true) => text.extend_from_slice(b"T"),
        Item::Truth(false) => text.extend_from_slice(b"F"),
        Item::Text(characters) => text.extend_from_slice(characters.as_slice()),
    }
}

fn is_text(item: &Item) -> bool
    ensures { result ≡ words.is_text item.now }
{
    matches!(item, Item::Text(_))
}

// An item, with a blank before it where it follows another that is no character constant either.
fn append_next(text: &mut Vec<u8>, follows: bool, item: &Item) -> Result<(), AllocError>
    ensures { OnOk result (text.new.items
        ≡ text.old.items ++ (words.separator follows item.now ++ words.item_text item.now)) }
{
    if follows && !is_text(item) {
        text.extend_from_slice(b" ")?;
    }
    append_item(text, item)?;
    Ok(())
}

fn append_items(text: &mut Vec<u8>, items: &[Item]) -> Result<(), AllocError>
    ensures { OnOk result (text.new.items ≡ text.old.items ++ words.items_text false items.now) }
{
    let mut follows = false;
    for item in items {
        append_next(text, follows, item)?;
        follows = !is_text(item);
    }
    Ok(())
}

/// Appends the line of a record: a blank, then the items, with one blank between two neighbours
/// that are both no character constants.
///
/// # Errors
///
/// Only where memory was refused.
pub fn append_record(text: &mut Vec<u8>, line: &Record) -> Result<(), AllocError>
    ensures { OnOk result (text.new.items ≡ text.old.items ++ words.record_text line.now) }
{
    text.extend_from_slice(b" ")?;
    append_items(text, line.as_slice())?;
    text.extend_from_slice(b"\n")?;
    Ok(())
}

/// Appends the lines of records, in order.
///
/// # Errors
///
/// Only where memory was refused.
pub fn append_records(text: &mut Vec<u8>, records: &[Record]) -> Result<(), AllocError>
    ensures { OnOk result (text.new.items ≡ text.old.items ++ words.records_text records.now) }
{
    for record in records {
        append_record(text, record)?;
    }
    Ok(())
}

/// The line of a record.
///
/// # Errors
///
/// Only where memory was refused.
pub fn record_text(alloc: Global, line: &Record) -> Result<Vec<u8>, AllocError>
    ensures { IfOk result (λ text. text.items ≡ words.record_text line.now) }
{
    let mut text = Vec::new(alloc);
    append_record(&mut text, line)?;
    Ok(text)
}

/// The lines of records, in order.
///
/// # Errors
///
/// Only where memory was refused.
pub fn output_text(alloc: Global, records: &[Record]) -> Result<Vec<u8>, AllocError>
    ensures { IfOk result (λ text. text.items ≡ words.records_text records.now) }
{
    let mut text = Vec::new(alloc);
    append_records(&mut text, records)?;
    Ok(text)
}
