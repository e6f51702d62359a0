//! The source machine: the meaning of a program as steps of its processes, and the results of a run.
//!
//! `specs/` has the definitions, in files by subject; begin with `specs/State` and `specs/Step`. The contracts of the functions in
//! [`laws`] are laws about them. The code of this crate is what all later crates share: arithmetic, operators and functions on values, and
//! the types of records, faults and histories.
#![tactic(auto)]

pub mod arithmetic;
pub mod event;
pub mod intrinsics;
pub mod laws;
pub mod record;
pub mod shape;
pub mod slot;
pub mod values;

pub use event::{Entry, Fault, Kind};
pub use hep_source::{ArithmeticOperator, Value};
pub use record::{Item, Record};
pub use shape::Bound;
pub use slot::Slot;
