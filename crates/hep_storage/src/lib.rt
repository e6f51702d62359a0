//! The conditions 305, on common blocks of several units (X3.9-1978, 8.3), and 311, on DATA (section 9); the greatest length of
//! each common block, and its first cell in the arena (8.3; docs/MACHINE.md, "Layout").
//!
//! Begin with [`common_lines`], [`data_lines`], [`CommonBlocks`] and [`CommonStarts`]. The lists of COMMON and of DATA are
//! run-length encoded: a [`PositionRun`] is an item and the number of its repetitions. So long lists are compared as fast as they are read.
#![tactic(auto)]

mod agreement;
mod array_shapes;
mod block_contents;
mod block_summary;
mod block_table;
mod blocks;
mod common;
mod data_groups;
mod initialized_elements;
pub mod laws;
mod runs;
mod shared_prefix;
mod starts;
mod violation;

pub use agreement::common_lines;
pub use common::CommonBlocks;
pub use runs::{
    KnownRuns, MatchedPrefix, Position, PositionRun, RunPlace, agree, meet, place_count,
};
pub use starts::CommonStarts;
pub use violation::data_lines;
