//! Copies of code, and of lists besides it.
ghost use Rattle.std.specs.Prelude.{◌≡◌, IfOk};

use hep_machine::Item;
use hep_source::Sequence;
use std::alloc::{AllocError, Global};

/// Values that can be copied into memory of their own.
pub trait Duplicate: Drop {
    /// The same value, in memory of its own.
    ///
    /// # Errors
    ///
    /// Only where memory was refused.
    fn copy(&self, alloc: Global) -> Result<Self, AllocError>
        ensures { IfOk result (λ copy. copy ≡ self.now) };
}

/// Copies of the items of a list.
///
/// # Errors
///
/// Only where memory was refused.
pub fn copy_all<T: Duplicate>(alloc: Global, items: &[T]) -> Result<Vec<T>, AllocError>
    ensures { IfOk result (λ copies. copies.items ≡ items.now) }
{
    let mut copies = Vec::new(alloc);
    for item in items {
        copies.push(item.copy(alloc)?)?;
    }
    Ok(copies)
}

impl<T: Duplicate> Duplicate for Sequence<T> {
    fn copy(&self, alloc: Global) -> Result<Sequence<T>, AllocError> {
        Ok(Sequence::from(copy_all(alloc, self.as_slice())?))
    }
}

impl Duplicate for u8 {
    fn copy(&self, _alloc: Global) -> Result<u8, AllocError> {
        Ok(*self)
    }
}

impl Duplicate for u32 {
    fn copy(&self, _alloc: Global) -> Result<u32, AllocError> {
        Ok(*self)
    }
}

impl Duplicate for Item {
    fn copy(&self, alloc: Global) -> Result<Item, AllocError> {
        Ok(match self {
            Item::Int(number) => Item::Int(*number),
            Item::Truth(truth) => Item::Truth(*truth),
            Item::Text(text) => Item::Text(text.copy(alloc)?),
        })
    }
}
