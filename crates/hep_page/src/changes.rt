//! The text of what a turn changes.
ghost use Rattle.std.specs.Prelude.{◌≡◌, ◌++◌, OnOk};
ghost use Rattle.hep_page.specs.Changes as words;

use crate::edit::append_edit;
use crate::state_view::Parts;
use std::alloc::{AllocError, Global};

/// Appends what changes from the text of a state to that of the next one: a line of its own, and the edit of each part that differs.
///
/// # Errors
///
/// Only where memory was refused.
pub fn append_change(
    alloc: Global,
    text: &mut Vec<u8>,
    old: &Parts,
    new: &Parts,
) -> Result<(), AllocError>
    ensures { OnOk result (text.new.items
        ≡ text.old.items ++ words.change_text (words.change_between (words.texts_of old.now) (words.texts_of new.now))) }
{
    text.extend_from_slice(b"=\n")?;
    append_edit(alloc, text, b"P", &old.processes, &new.processes)?;
    append_edit(alloc, text, b"B", &old.common, &new.common)?;
    append_edit(alloc, text, b"A", &old.activations, &new.activations)?;
    Ok(())
}
