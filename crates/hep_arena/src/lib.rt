//! The arena of a run: an allocator of blocks of cells, first fit and in logarithmic time.
//!
//! Begin with [`Arena`]. [`Arena::take`] allocates a block at the front of the lowest hole that is long enough, and [`Arena::give`] frees
//! blocks in any order. Only [`Arena::new`] allocates memory of the host.
//!
//! [`Lengths`] and [`Tree`] find the first place of a list with at least a given number, in logarithmic time. A [`Lengths`] has a fixed
//! number of places, and a [`Tree`] can grow.
#![tactic(auto)]

mod arena;
mod block;
mod cell;
mod holes;
pub mod laws;
mod lengths;
mod region;
mod tree;

pub use arena::Arena;
pub use block::Block;
pub use cell::Cell;
pub use hep_machine::Slot;
pub use lengths::Lengths;
pub use tree::Tree;
