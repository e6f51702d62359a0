//! The first cells of the common blocks of a program, in the order of an image.
ghost use Rattle.std.specs.Prelude.{◌≡◌, map, IfOk};
ghost use Rattle.hep_lower.specs.BlockStarts.{block_begun};

use hep_image::BlockStart;
use hep_storage::{CommonBlocks, CommonStarts};
use std::alloc::{AllocError, Global};

/// The common blocks with their first cells.
///
/// # Errors
///
/// Only where memory was refused.
pub(crate) fn starts_of(
    alloc: Global,
    blocks: &CommonBlocks,
    first_cells: &CommonStarts,
) -> Result<Vec<BlockStart>, AllocError>
    ensures { IfOk result (λ starts. starts.items ≡ map (block_begun blocks.now first_cells.now) blocks.now.blocks.keys) }
{
    let mut starts = Vec::new(alloc);
    for block in blocks.blocks() {
        starts.push(BlockStart {
            index: blocks.index(*block),
            first: first_cells.start(*block),
        })?;
    }
    Ok(starts)
}
