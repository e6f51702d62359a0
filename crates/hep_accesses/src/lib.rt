//! The order of the steps of several processes, races and the vector clocks that tell both; what the steps of a run access, its races, and
//! steps that can be exchanged.
//!
//! Each function of [`laws`] is a law and has no work to do: what is proved is its contract.
#![tactic(auto)]

pub mod laws;
