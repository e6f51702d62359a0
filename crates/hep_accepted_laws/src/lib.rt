//! Laws of every accepted program, of its code and of its runs, in the terms of the language. A program is accepted
//! if it violates none of the conditions 301 to 312.
//!
//! The functions do nothing: each contract is a law. [`code`] is about what the instructions name, [`runs`] about
//! what comes next of a statement in every run, and the other modules about the program's text.
#![tactic(auto)]

pub mod calls;
pub mod code;
pub mod control;
pub mod initial;
pub mod names;
pub mod runs;
pub mod types;
pub mod values;
