//! Counts that grow by one.
ghost use Rattle.std.specs.Prelude.{◌≡◌, ◌+◌, IfOk};

use std::alloc::AllocError;

/// One more than a count. No run can count so far that it is refused; a table with so many places would be refused too.
///
/// # Errors
///
/// Where it would pass 2^64 - 1.
pub(crate) fn successor(count: u64) -> Result<u64, AllocError>
    ensures { IfOk result (λ next. next ≡ count + 1) }
{
    count.checked_add(1).ok_or(AllocError)
}
