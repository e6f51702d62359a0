//! The lines of a text, each with the line feed that ends it.
ghost use Rattle.std.specs.Prelude.{◌≡◌, ◌<◌, ◌∷◌, IfOk, length, map};
ghost use Rattle.hep_page.specs.Edits as words;

use std::alloc::{AllocError, Global};

// The first line of a text that isn't empty, and the text after it.
#[tactic(auto, using(crate::proofs::Joined::goes_on, crate::proofs::Joined::ends, crate::proofs::Joined::is_last))]
fn first_line(text: &[u8]) -> (&[u8], &[u8])
    requires { 0 < length text.now }
    ensures cut { words.lines_in text.now ≡ result.0.now ∷ words.lines_in result.1.now }
    ensures less { length result.1.now < length text.now }
{
    for i in 0..text.len() {
        if text[i] == b'\n' {
            return text.split_at(i + 1);
        }
    }
    text.split_at(text.len())
}

/// The lines of a text.
///
/// # Errors
///
/// Only where memory was refused.
pub(crate) fn lines_in(alloc: Global, text: &[u8]) -> Result<Vec<&[u8]>, AllocError>
    ensures { IfOk result (λ found. map (λ line. line.now) found.items ≡ words.lines_in text.now) }
{
    let mut found = Vec::new(alloc);
    let mut rest = text;
    while !rest.is_empty() {
        let (line, after) = first_line(rest);
        found.push(line)?;
        rest = after;
    }
    Ok(found)
}
