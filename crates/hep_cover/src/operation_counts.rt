//! The number of operations of each line's statement.
ghost use Rattle.std.specs.Prelude.{◌≡◌, IfOk};
ghost use Rattle.hep_cover.specs.StatementStarts as words;

use crate::remaining_operations::note_code;
use hep_image::Image;
use std::alloc::{AllocError, Global};

/// The number of operations of the statement of each line, 0 where there is no statement.
///
/// # Errors
///
/// Only where memory was refused.
pub fn operations_by_line(
    alloc: Global,
    image: &Image,
    lines: usize,
) -> Result<Vec<usize>, AllocError>
    ensures { IfOk result (λ found. found.items ≡ words.operations_by_line image.now lines) }
{
    let mut found = Vec::from_elem(alloc, 0, lines)?;
    for unit in 0..image.program().as_slice().len() {
        note_code(&mut found, image.unit(unit).code.as_slice());
    }
    Ok(found)
}
