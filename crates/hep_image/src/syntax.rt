//! Copies and comparisons of trees.
ghost use Rattle.std.specs.Prelude.{◌≡◌, ◌↔◌, IfOk, IsTrue};

use hep_source::{Occurrence, Sequence};
use std::alloc::{AllocError, Global};

/// A part of a program's tree.
pub trait Syntax: Drop {
    /// The same part, in memory of its own.
    ///
    /// # Errors
    ///
    /// Only where memory was refused.
    fn copy(&self, alloc: Global) -> Result<Self, AllocError>
        ensures { IfOk result (λ copy. copy ≡ self.now) };

    /// Whether two parts are equal.
    fn same(&self, other: &Self) -> bool
        ensures { IsTrue result ↔ (self.now ≡ other.now) };
}

// Copies of parts in a row.
pub(crate) fn copy_all<T: Syntax>(alloc: Global, parts: &[T]) -> Result<Vec<T>, AllocError>
    ensures { IfOk result (λ copies. copies.items ≡ parts.now) }
{
    let mut copies = Vec::new(alloc);
    for part in parts {
        copies.push(part.copy(alloc)?)?;
    }
    Ok(copies)
}

// Whether parts in a row are the same.
pub(crate) fn same_all<T: Syntax>(a: &[T], b: &[T]) -> bool
    ensures { IsTrue result ↔ (a.now ≡ b.now) }
{
    if a.len() != b.len() {
        return false;
    }
    for i in 0..a.len() {
        if !a[i].same(&b[i]) {
            return false;
        }
    }
    true
}

impl<T: Syntax> Syntax for Sequence<T> {
    fn copy(&self, alloc: Global) -> Result<Sequence<T>, AllocError> {
        Ok(Sequence::from(copy_all(alloc, self.as_slice())?))
    }

    fn same(&self, other: &Sequence<T>) -> bool {
        same_all(self.as_slice(), other.as_slice())
    }
}

impl Syntax for u8 {
    fn copy(&self, _alloc: Global) -> Result<u8, AllocError> {
        Ok(*self)
    }

    fn same(&self, other: &u8) -> bool {
        self == other
    }
}

impl Syntax for Occurrence {
    fn copy(&self, _alloc: Global) -> Result<Occurrence, AllocError> {
        Ok(*self)
    }

    fn same(&self, other: &Occurrence) -> bool {
        self == other
    }
}

impl Syntax for u32 {
    fn copy(&self, _alloc: Global) -> Result<u32, AllocError> {
        Ok(*self)
    }

    fn same(&self, other: &u32) -> bool {
        self == other
    }
}

// Whether both are missing, or both are there and the same.
fn same_option<T: Syntax>(a: &Option<T>, b: &Option<T>) -> bool
    ensures { IsTrue result ↔ (a.now ≡ b.now) }
{
    match (a, b) {
        (None, None) => true,
        (Some(a), Some(b)) => a.same(b),
        _ => false,
    }
}

impl<T: Syntax> Syntax for Option<T> {
    fn copy(&self, alloc: Global) -> Result<Option<T>, AllocError> {
        match self {
            None => Ok(None),
            Some(part) => Ok(Some(part.copy(alloc)?)),
        }
    }

    fn same(&self, other: &Option<T>) -> bool {
        same_option(self, other)
    }
}
