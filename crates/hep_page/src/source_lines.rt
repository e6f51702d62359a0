//! The lines of a source as a page has them.
ghost use Rattle.std.specs.Prelude.{◌≡◌, ◌++◌, IfOk, OnOk, take};
ghost use Rattle.hep_page.specs.SourceLines as words;
ghost use Rattle.hep_text.specs.Line.{lines};

use hep_text::line::next_line;
use std::alloc::{AllocError, Global};

// The number of columns that a page shows.
const COLUMNS: usize = 80;

// Appends a line, to column 80.
fn append_line(text: &mut Vec<u8>, line: &[u8]) -> Result<(), AllocError>
    ensures { OnOk result (text.new.items ≡ text.old.items ++ words.source_line line.now) }
{
    text.extend_from_slice(&line[..line.len().min(COLUMNS)])?;
    text.extend_from_slice(b"\n")?;
    Ok(())
}

/// The lines of a source, each to column 80.
///
/// # Errors
///
/// Only where memory was refused.
pub(crate) fn source_text(alloc: Global, source: &[u8]) -> Result<Vec<u8>, AllocError>
    ensures { IfOk result (λ text. text.items ≡ words.source_text source.now) }
{
    let mut text = Vec::new(alloc);
    let mut rest = source;
    while !rest.is_empty() {
        let (line, after) = next_line(rest);
        append_line(&mut text, line)?;
        rest = after;
    }
    Ok(text)
}
