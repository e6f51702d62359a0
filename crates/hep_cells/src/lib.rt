//! The outcome of one access to one cell (reading, assignment, the functions of full and empty, and PURGE), and the
//! number of iterations of a DO.
//!
//! Nothing here takes memory or changes a cell: each function returns the outcome of an access, which the caller
//! makes. Begin with `src/access.rt`.
#![tactic(auto)]

pub mod access;
pub mod iteration_count;
pub mod iteration_end;
mod outcome;
mod want;

pub use iteration_count::{LoopParameters, iterations};
pub use iteration_end::{IterationEnd, end_iteration};
pub use outcome::AccessOutcome;
pub use want::Want;
