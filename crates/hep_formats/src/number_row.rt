//! Numbers in a row.
ghost use Rattle.std.specs.Prelude.{◌≡◌, ◌^◌, ◌<◌, ◌≤◌, IfOk};
ghost use Rattle.std.specs.List.{range_with_len};

use std::alloc::{AllocError, Global};

/// Numbers in a row, from 0 or 1 on.
///
/// # Errors
///
/// Only where memory was refused.
#[tactic(auto, using(crate::proofs::Ranges::range_cut))]
pub fn numbers(alloc: Global, first: u64, count: u64) -> Result<Vec<u64>, AllocError>
    requires first { first ≤ 1 }
    requires few { count < 2 ^ 63 }
    ensures { IfOk result (λ numbers. numbers.items ≡ range_with_len first count) }
{
    let mut numbers = Vec::new(alloc);
    for before in 0..count {
        numbers.push(first + before)?;
    }
    Ok(numbers)
}
