//! The summary of a common block in several units (X3.9-1978, 8.3).
ghost use Rattle.std.specs.Prelude.{◌≡◌};
ghost use Rattle.hep_storage.specs.BlockContents as blocks;
ghost use Rattle.hep_storage.specs.Agreement as agreement;

use crate::runs::{KnownRuns, place_count};
use crate::shared_prefix::SharedPrefix;
use hep_source::Name;
use std::alloc::Global;

// The lengths of the lists of a block that are known as a whole.
#[derive(Clone, Copy)]
pub(crate) enum BlockLengths {
    Open,
    One(u128),
    Several,
}

impl BlockLengths {
    fn with_count(self, count: u128) -> BlockLengths
        ensures { result ≡ agreement.with_count count self }
    {
        match self {
            BlockLengths::Open => BlockLengths::One(count),
            BlockLengths::One(other) if other == count => BlockLengths::One(other),
            _ => BlockLengths::Several,
        }
    }

    // Whether some list has a different length.
    fn is_other(self, count: u128) -> bool
        ensures { result ≡ agreement.is_other_count count self }
    {
        match self {
            BlockLengths::Open => false,
            BlockLengths::One(other) => other != count,
            BlockLengths::Several => true,
        }
    }
}

/// The summary of a common block in several units.
pub(crate) struct BlockSummary {
    pub(crate) shared: SharedPrefix,
    pub(crate) lengths: BlockLengths,
}

impl Drop for BlockSummary {
    fn drop(self) {
        let BlockSummary { shared, lengths } = self;
    }
}

impl BlockSummary {
    /// Makes the summary of no units.
    pub(crate) fn new(alloc: Global) -> BlockSummary
        ensures { agreement.summed result ≡ agreement.nothing_summed }
    {
        BlockSummary {
            shared: SharedPrefix::new(alloc),
            lengths: BlockLengths::Open,
        }
    }

    // Whether some list has a different length, where both are known as a whole.
    fn is_other_length(&self, known: &KnownRuns) -> bool
        ensures { result ≡ agreement.is_other_length (blocks.known known.now) self.now.lengths }
    {
        known.is_whole && self.lengths.is_other(place_count(&known.runs))
    }

    fn add_length(&mut self, known: &KnownRuns)
        ensures lengths { self.new.lengths ≡ agreement.with_length (blocks.known known.now) self.old.lengths }
        ensures shared { self.new.shared ≡ self.old.shared }
    {
        if known.is_whole {
            self.lengths = self.lengths.with_count(place_count(&known.runs));
        }
    }

    /// Adds a list, whose memory may be reused. The result is whether it differs from one of the lists before. The lengths of
    /// blank COMMON may differ.
    pub(crate) fn add(&mut self, block: Option<Name>, known: &mut KnownRuns) -> bool
        ensures differs { result ≡ agreement.differs_from block (agreement.summed self.old) (blocks.known known.old) }
        ensures added { agreement.summed self.new ≡ agreement.with_list (blocks.known known.old) (agreement.summed self.old) }
    {
        let is_other_length = block.is_some() && self.is_other_length(known);
        self.add_length(known);
        let departs = self.shared.add(&mut known.runs);
        departs || is_other_length
    }
}
