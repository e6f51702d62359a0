//! Readers of names, constants, labels and expressions, for texts without blanks.
//!
//! `specs/` states the grammar as relations between a part and a text that begins with it. Each reader
//! answers with the part at the front and the rest of the text. Begin with [`expression::expression_at`].
#![tactic(auto)]

pub mod characters;
pub mod expression;
pub mod label;
pub mod read_failure;

pub use characters::{Context, Sizes};
pub use read_failure::ReadFailure;
