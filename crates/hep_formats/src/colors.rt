//! A text with marks.
ghost use Rattle.std.specs.Prelude.{◌≡◌, ◌++◌, ◌∷◌, [], IfOk, OnOk};
ghost use Rattle.hep_formats.specs.Colors as words;

use crate::mark::{Mark, mark_bytes};
use crate::place::{Place, TextKind, step_at};
use std::alloc::{AllocError, Global};

// The mark at the end of a text.
fn last_mark(place: Place) -> Mark
    ensures { result ≡ words.last_mark place }
{
    match place {
        Place::Marked | Place::OneWord | Place::TwoWords => Mark::Plain,
        _ => Mark::Absent,
    }
}

// Appends a mark, and a byte.
fn append_marked(colored: &mut Vec<u8>, mark: Mark, byte: u8) -> Result<(), AllocError>
    ensures { OnOk result (colored.new.items ≡ colored.old.items ++ words.mark_text mark ++ byte ∷ []) }
{
    colored.extend_from_slice(mark_bytes(mark))?;
    colored.push(byte)?;
    Ok(())
}

// A text with marks.
#[tactic(auto, using(crate::proofs::Unmarked::more_colored))]
fn marked_text(alloc: Global, text: &[u8], kind: TextKind) -> Result<Vec<u8>, AllocError>
    ensures { IfOk result (λ colored. colored.items ≡ words.colored kind text.now) }
{
    let mut colored = Vec::new(alloc);
    let mut place = Place::Line;
    let mut rest = text;
    while let Some((byte, after)) = rest.split_first() {
        let next = step_at(kind, place, *byte, rest);
        append_marked(&mut colored, next.mark, *byte)?;
        place = next.place;
        rest = after;
    }
    colored.extend_from_slice(mark_bytes(last_mark(place)))?;
    Ok(colored)
}

/// A text with marks of color at the words that tell most.
///
/// # Errors
///
/// Only where memory was refused.
#[tactic(auto, using(crate::proofs::Unmarked::same_without))]
pub fn color_text(alloc: Global, text: &[u8], kind: TextKind) -> Result<Vec<u8>, AllocError>
    ensures exact { IfOk result (λ colored. colored.items ≡ words.colored kind text.now) }
    ensures same { IfOk result (λ colored. words.HasNoEscape text.now → words.uncolored colored.items ≡ text.now) }
{
    marked_text(alloc, text, kind)
}
