//! The histories and the options of `cover`.
ghost use Rattle.std.specs.Prelude.{◌≤◌};

use crate::origin::Origin;

/// The histories and the options of `cover`.
#[derive(Clone, Copy)]
pub struct CoverOptions<'a> {
    /// Where the histories come from.
    pub origins: &'a [Origin<'a>],
    /// The name of the source's file, where a tracefile of lcov is written.
    pub tracefile: Option<&'a [u8]>,
    /// The arena's size in cells, 1 to 16,777,216.
    pub arena: u32,
    ghost some: { 1 ≤ arena },
    ghost few: { arena ≤ 16777216 },
}
