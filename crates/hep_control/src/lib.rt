//! The structure of a program unit: its labels, DOs and block IFs (X3.9-1978, section 11).
//!
//! [`Control`] answers where control goes from a statement, and [`Labels`] is the table of labels. The functions named `_lines`
//! find the lines of all violations of 306, 307 and 308.
#![tactic(auto)]

pub(crate) mod blocks;
pub mod control;
pub mod labels;
pub(crate) mod loops;
pub(crate) mod nesting;
pub(crate) mod ranges;
pub(crate) mod region;
pub(crate) mod regions;
pub mod structure;
pub(crate) mod successors;
pub(crate) mod sweep;

pub use control::Control;
pub use labels::{Labels, jump_lines, label_lines};
pub use structure::structure_lines;
