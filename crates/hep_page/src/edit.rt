//! The edit that leads from the lines of a text to those of another one.
ghost use Rattle.std.specs.Prelude.{◌≡◌, ◌++◌, ◌≤◌, OnOk, length, map};
ghost use Rattle.hep_page.specs.Edits as words;

use crate::lines::lines_in;
use hep_output::append_number;
use std::alloc::{AllocError, Global};

// How many lines at the front are the same.
fn same_front(old: &[&[u8]], new: &[&[u8]]) -> usize
    ensures same { result ≡ words.same_front (map (λ line. line.now) old.now) (map (λ line. line.now) new.now) }
    ensures old { result ≤ length old.now }
    ensures new { result ≤ length new.now }
{
    let mut same = 0;
    while same < old.len() && same < new.len() && old[same] == new[same] {
        same += 1;
    }
    same
}

// How many lines at the end are the same.
fn same_end(old: &[&[u8]], new: &[&[u8]]) -> usize
    ensures same { result ≡ words.same_end (map (λ line. line.now) old.now) (map (λ line. line.now) new.now) }
    ensures old { result ≤ length old.now }
    ensures new { result ≤ length new.now }
{
    let mut same = 0;
    while same < old.len()
        && same < new.len()
        && old[old.len() - 1 - same] == new[new.len() - 1 - same]
    {
        same += 1;
    }
    same
}

// Appends lines that come, each with a mark before it.
fn append_lines(text: &mut Vec<u8>, lines: &[&[u8]]) -> Result<(), AllocError>
    ensures { OnOk result (text.new.items ≡ text.old.items ++ words.lines_text (map (λ line. line.now) lines.now)) }
{
    for line in lines {
        text.extend_from_slice(b"+")?;
        text.extend_from_slice(line)?;
    }
    Ok(())
}

// Appends an edit of the text with this name: how many lines stay and go, and the lines that come.
fn append_parts(
    text: &mut Vec<u8>,
    name: &[u8],
    stay: usize,
    go: usize,
    come: &[&[u8]],
) -> Result<(), AllocError>
    ensures { OnOk result (text.new.items
        ≡ text.old.items ++ words.edit_text name.now (Some (record { stay = stay; go = go; come = map (λ line. line.now) come.now }))) }
{
    text.extend_from_slice(name)?;
    text.extend_from_slice(b" ")?;
    append_number(text, stay)?;
    text.extend_from_slice(b" ")?;
    append_number(text, go)?;
    text.extend_from_slice(b"\n")?;
    append_lines(text, come)?;
    Ok(())
}

/// Appends the edit from a text to another one, which has this name: how many lines stay at its front, how many go after them, and the lines
/// that come in their place. Nothing is appended where the texts are the same.
///
/// # Errors
///
/// Only where memory was refused.
pub fn append_edit(
    alloc: Global,
    text: &mut Vec<u8>,
    name: &[u8],
    old: &[u8],
    new: &[u8],
) -> Result<(), AllocError>
    ensures { OnOk result (text.new.items
        ≡ text.old.items ++ words.edit_text name.now (words.edit_between old.now new.now)) }
{
    if old == new {
        return Ok(());
    }
    let before = lines_in(alloc, old)?;
    let after = lines_in(alloc, new)?;
    let stay = same_front(&before, &after);
    let (before, after) = (&before[stay..], &after[stay..]);
    let end = same_end(before, after);
    append_parts(
        text,
        name,
        stay,
        before.len() - end,
        &after[..after.len() - end],
    )?;
    Ok(())
}
