//! The options of runs.
ghost use Rattle.std.specs.Prelude.{◌≡◌, ◌≤◌, []};

use hep_replay::Choices;
use std::alloc::Global;

/// The options of a run by choices.
#[derive(Drop)]
pub struct Options {
    /// The arena's size in cells, 1 to 16,777,216.
    pub arena: u32,
    /// The greatest number of entries of the history. A caller should pass 1 to 2^40. The contracts hold for any
    /// other number too, so that a history without entries may be full before the first step.
    pub steps: u64,
    /// The choices that the scheduler makes first.
    pub choices: Choices,
    ghost some: { 1 ≤ arena },
    ghost few: { arena ≤ 16777216 },
}

impl Options {
    /// An arena of 65,536 cells, 10,000,000 entries, no choices.
    pub fn defaults(alloc: Global) -> Options
        ensures arena { result.arena ≡ 65536 }
        ensures steps { result.steps ≡ 10000000 }
        ensures choices { result.choices ≡ [] }
    {
        Options {
            arena: 65_536,
            steps: 10_000_000,
            choices: Choices::from(Vec::new(alloc)),
        }
    }
}

/// The options of a replay of a history.
#[derive(Clone, Copy)]
pub struct ReplayOptions<'a> {
    /// The text of the history.
    pub history: &'a [u8],
    /// The arena's size in cells, 1 to 16,777,216.
    pub arena: u32,
    ghost some: { 1 ≤ arena },
    ghost few: { arena ≤ 16777216 },
}

/// The options of a run by lots.
#[derive(Clone, Copy, Debug, PartialEq, Eq)]
pub struct LotOptions {
    /// The arena's size in cells, 1 to 16,777,216.
    pub arena: u32,
    /// The greatest number of entries of the history.
    pub steps: u64,
    /// The seed of the lots.
    pub seed: u64,
    ghost some: { 1 ≤ arena },
    ghost few: { arena ≤ 16777216 },
}

/// The options of a sample.
#[derive(Clone, Copy, Debug, PartialEq, Eq)]
pub struct SampleOptions {
    /// The arena's size in cells, 1 to 16,777,216.
    pub arena: u32,
    /// The greatest number of entries of the history of a run.
    pub steps: u64,
    /// The seed of the first run, 1 to 4,294,967,296.
    pub seed: u64,
    /// The number of runs.
    pub runs: u32,
    /// Whether the outcomes are written as objects of JSON.
    pub json: bool,
    ghost some: { 1 ≤ arena },
    ghost few: { arena ≤ 16777216 },
    ghost one: { 1 ≤ seed },
    ghost seeds: { seed ≤ 4294967296 },
}
