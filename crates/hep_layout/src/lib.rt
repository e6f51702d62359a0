//! The layout of COMMON and of frames in the arena: the purpose of each cell, and the address of each storage unit.
//!
//! This crate has no code that runs. `specs/` has the definitions; begin with `specs/Rows` and `specs/Addresses`. The contracts of the
//! functions in [`laws`] state the laws about them.
#![tactic(auto)]

pub mod laws;
