//! The types that every crate shares: sequences that contracts see as lists, and the reason why a source is refused.
//!
//! Begin with [`Sequence`] and [`Refusal`].
#![tactic(auto)]

pub mod number;
pub mod refusal;
pub mod sequence;

pub use number::append_number;
pub use refusal::Refusal;
pub use sequence::{Sequence, Text};
