//! The conditions that a program must meet before it runs, 301 to 312.
//!
//! `specs/` states each condition as the list of its violations in a program. A program without a violation is
//! accepted. Of any other program the first violation by line, number and position is reported. A [`Checked`]
//! is an accepted program, which `hep_check` makes.
#![tactic(auto)]

pub mod checked;
pub mod laws;
pub mod reported;
pub mod types;
pub mod violation;

pub use checked::Checked;
pub use violation::Violation;
