//! The waiting and the ready processes. A process waits for a cell of the arena to be full or to be empty.
//! [`roster::Roster`] has all living processes: wait queues, one for each thing that is waited for, and the ready
//! ones.
//!
//! A step that fills or empties a cell wakes the processes that wait for that, and looks at no others. The contracts
//! of [`laws`] say that the lists are those of the source machine after any turns, and those of [`need_laws`] what a
//! process needs to go on.
#![tactic(auto)]

pub mod laws;
pub mod need_laws;
mod ranking;
mod ready_set;
mod roster;
pub mod wait_queues;
mod waits;
mod wanted_cells;

pub use hep_cells::Want;
pub use ready_set::ReadySet;
pub use roster::Roster;
pub use waits::Waits;
