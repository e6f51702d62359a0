//! Options of a run by workers.
ghost use Rattle.std.specs.Prelude.{◌≤◌};

/// The options of a run by workers.
#[derive(Clone, Copy, Debug, PartialEq, Eq)]
pub struct WorkOptions {
    /// The arena's size in cells, 1 to 16,777,216.
    pub arena: u32,
    /// The greatest number of entries of the history.
    pub steps: u64,
    /// The number of workers, 1 to 16.
    pub workers: u32,
    ghost some: { 1 ≤ arena },
    ghost few: { arena ≤ 16777216 },
    ghost one: { 1 ≤ workers },
    ghost hands: { workers ≤ 16 },
}
