//! Lines of an output.
ghost use Rattle.std.specs.Prelude.{◌≡◌, IfOk};
ghost use Rattle.hep_outcome.specs.Lines.{lines_text};

use std::alloc::{AllocError, Global};

/// Lines of an output: fixed ones, which take no memory, or others that were made.
#[derive(Drop)]
pub enum Lines {
    Fixed(&'static [u8]),
    Made(Vec<u8>),
}

impl Lines {
    /// Their bytes.
    pub fn as_slice(&self) -> &[u8]
        ensures { result.now ≡ lines_text self.now }
    {
        match self {
            Lines::Fixed(text) => *text,
            Lines::Made(text) => text.as_slice(),
        }
    }

    /// Their bytes, in a vector to which others may be added.
    ///
    /// # Errors
    ///
    /// Only where memory was refused.
    pub fn into_vec(self, alloc: Global) -> Result<Vec<u8>, AllocError>
        ensures { IfOk result (λ bytes. bytes.items ≡ lines_text self) }
    {
        match self {
            Lines::Fixed(text) => Vec::from_slice(alloc, text),
            Lines::Made(text) => Ok(text),
        }
    }
}
