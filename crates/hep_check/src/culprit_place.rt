//! The text of the part at fault, and its position.
ghost use Rattle.std.specs.Prelude.{◌≡◌, ◌++◌, IfOk, OnOk};
ghost use Rattle.hep_check.specs.CulpritTexts as words;

use crate::culprit::Culprit;
use hep_base::Text;
use hep_source::Name;
use itoa::Buffer;
use std::alloc::{AllocError, Global};

// Appends a label in decimal.
fn append_label(text: &mut Vec<u8>, label: u32) -> Result<(), AllocError>
    ensures { OnOk result (text.new.items ≡ text.old.items ++ words.label_text label) }
{
    let mut buffer = Buffer::new();
    text.extend_from_slice(buffer.format(label).as_bytes())
}

fn append_name(alloc: Global, text: &mut Vec<u8>, name: &Name) -> Result<(), AllocError>
    ensures { OnOk result (text.new.items ≡ text.old.items ++ words.name_text name.now) }
{
    let spelling = name.spelling(alloc)?;
    text.extend_from_slice(spelling.as_slice())
}

// Appends a common block between slashes; blank COMMON has no name.
fn append_block(alloc: Global, text: &mut Vec<u8>, block: &Option<Name>) -> Result<(), AllocError>
    ensures { OnOk result (text.new.items ≡ text.old.items ++ words.block_text block.now) }
{
    text.extend_from_slice(b"/")?;
    if let Some(name) = block {
        append_name(alloc, text, name)?;
    }
    text.extend_from_slice(b"/")
}

// Appends a name, and what is wrong with it.
fn append_misused(
    alloc: Global,
    text: &mut Vec<u8>,
    name: &Name,
    said: &[u8],
) -> Result<(), AllocError>
    ensures { OnOk result (text.new.items ≡ text.old.items ++ (words.name_text name.now ++ said.now)) }
{
    append_name(alloc, text, name)?;
    text.extend_from_slice(said)
}

fn append_culprit(alloc: Global, text: &mut Vec<u8>, culprit: &Culprit) -> Result<(), AllocError>
    ensures { OnOk result (text.new.items ≡ text.old.items ++ words.culprit_text culprit.now) }
{
    match culprit {
        Culprit::Name(occurrence) => append_name(alloc, text, &occurrence.name),
        Culprit::Function(occurrence) => append_misused(
            alloc,
            text,
            &occurrence.name,
            b": a function, where a subroutine or an array is wanted",
        ),
        Culprit::Subroutine(occurrence) => append_misused(
            alloc,
            text,
            &occurrence.name,
            b": a subroutine, where an array or a function is wanted",
        ),
        Culprit::Label(label) => append_label(text, *label),
        Culprit::Block(block) => append_block(alloc, text, block),
    }
}

/// The text of the part at fault; empty where no single part is at fault.
///
/// # Errors
///
/// Only where memory was refused.
pub fn culprit_text(alloc: Global, culprit: Option<Culprit>) -> Result<Text, AllocError>
    ensures { IfOk result (λ text. text ≡ words.text_of culprit) }
{
    let mut text = Vec::new(alloc);
    if let Some(culprit) = &culprit {
        append_culprit(alloc, &mut text, culprit)?;
    }
    Ok(Text::from(text))
}

/// The number of characters of the statement before the part at fault, where that is known, and else 0.
pub fn position_of(culprit: Option<Culprit>) -> usize
    ensures { result ≡ words.position_of culprit }
{
    match culprit {
        Some(
            Culprit::Name(occurrence)
            | Culprit::Function(occurrence)
            | Culprit::Subroutine(occurrence),
        ) => occurrence.position,
        _ => 0,
    }
}
