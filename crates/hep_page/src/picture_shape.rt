//! How the marks of a picture look, told apart by shape, and where columns are folded by height, and so in grey too.
ghost use Rattle.std.specs.Prelude.{◌≡◌, ◌++◌, OnOk};
ghost use Rattle.hep_page.specs.PictureShapes as words;

use hep_formats::TurnKind;
use std::alloc::AllocError;

/// The kinds, those that matter more over the others.
pub const KINDS: [TurnKind; 12] = [
    TurnKind::Begins,
    TurnKind::Other,
    TurnKind::Read,
    TurnKind::Call,
    TurnKind::Wait,
    TurnKind::Store,
    TurnKind::Create,
    TurnKind::Take,
    TurnKind::Fill,
    TurnKind::Print,
    TurnKind::End,
    TurnKind::Fault,
];

/// Appends the class of a kind in the style sheet.
///
/// # Errors
///
/// Only where memory was refused.
pub(crate) fn append_class(text: &mut Vec<u8>, kind: TurnKind) -> Result<(), AllocError>
    ensures { OnOk result (text.new.items ≡ text.old.items ++ words.class_of kind) }
{
    match kind {
        TurnKind::Idle => Ok(()),
        TurnKind::Begins => text.extend_from_slice(b"born"),
        TurnKind::Other => text.extend_from_slice(b"other"),
        TurnKind::Read => text.extend_from_slice(b"read"),
        TurnKind::Call => text.extend_from_slice(b"call"),
        TurnKind::Wait => text.extend_from_slice(b"wait"),
        TurnKind::Store => text.extend_from_slice(b"store"),
        TurnKind::Create => text.extend_from_slice(b"create"),
        TurnKind::Take => text.extend_from_slice(b"take"),
        TurnKind::Fill => text.extend_from_slice(b"fill"),
        TurnKind::Print => text.extend_from_slice(b"print"),
        TurnKind::End => text.extend_from_slice(b"end"),
        TurnKind::Fault => text.extend_from_slice(b"fault"),
    }
}

// Appends the path of a mark, from its middle.
fn append_sign(text: &mut Vec<u8>, kind: TurnKind) -> Result<(), AllocError>
    ensures { OnOk result (text.new.items ≡ text.old.items ++ words.sign_of kind) }
{
    match kind {
        TurnKind::Idle => Ok(()),
        TurnKind::Begins => text.extend_from_slice(b"m-4-4l4 4-4 4"),
        TurnKind::Other => text.extend_from_slice(b"m0-3v6"),
        TurnKind::Read => text.extend_from_slice(b"m-3 0a3 3 0 1 0 6 0a3 3 0 1 0-6 0z"),
        TurnKind::Call => text.extend_from_slice(b"m-4-2l4 5 4-5"),
        TurnKind::Wait => text.extend_from_slice(b"m0-6v12"),
        TurnKind::Store => text.extend_from_slice(b"m-5 0a5 5 0 1 0 10 0a5 5 0 1 0-10 0z"),
        TurnKind::Create => text.extend_from_slice(b"m-5 0h10m-5-5v10"),
        TurnKind::Take => text.extend_from_slice(b"m-4-4h8v8h-8z"),
        TurnKind::Fill => text.extend_from_slice(b"m-5-5h10v10h-10z"),
        TurnKind::Print => text.extend_from_slice(b"m0-6l6 6-6 6-6-6z"),
        TurnKind::End => text.extend_from_slice(b"m0-7v14"),
        TurnKind::Fault => text.extend_from_slice(b"m-5-5l10 10m0-10l-10 10"),
    }
}

// Appends that where columns are folded, from the line of its lane.
fn append_bar(text: &mut Vec<u8>, kind: TurnKind) -> Result<(), AllocError>
    ensures { OnOk result (text.new.items ≡ text.old.items ++ words.bar_of kind) }
{
    match kind {
        TurnKind::Idle => Ok(()),
        TurnKind::Begins => text.extend_from_slice(b"v-2"),
        TurnKind::Other => text.extend_from_slice(b"v-3"),
        TurnKind::Read => text.extend_from_slice(b"v-4"),
        TurnKind::Call => text.extend_from_slice(b"v-4"),
        TurnKind::Wait => text.extend_from_slice(b"v-3"),
        TurnKind::Store => text.extend_from_slice(b"v-6"),
        TurnKind::Create => text.extend_from_slice(b"v-7"),
        TurnKind::Take => text.extend_from_slice(b"v-9"),
        TurnKind::Fill => text.extend_from_slice(b"v-10"),
        TurnKind::Print => text.extend_from_slice(b"v-11"),
        TurnKind::End => text.extend_from_slice(b"v-12"),
        TurnKind::Fault => text.extend_from_slice(b"v-12"),
    }
}

/// Appends the path of a mark.
///
/// # Errors
///
/// Only where memory was refused.
pub(crate) fn append_mark_shape(
    text: &mut Vec<u8>,
    folded: bool,
    kind: TurnKind,
) -> Result<(), AllocError>
    ensures { OnOk result (text.new.items ≡ text.old.items ++ words.shape_of folded kind) }
{
    if folded {
        append_bar(text, kind)
    } else {
        append_sign(text, kind)
    }
}
