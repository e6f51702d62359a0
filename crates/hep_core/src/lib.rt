//! The core: a run of an image, one choice at a time, with its history. Begin with [`Core`]: `choose` makes one turn,
//! and `headline` says what every core is.
//!
//! Several workers may share a core. A worker checks a process out, makes its segment without the core, and commits
//! it. Meanwhile others check out, commit and choose other processes.
#![tactic(auto)]

mod commit_entries;
pub mod core_fault;
mod ready_lists;
pub mod run_core;
pub mod stop;

pub use core_fault::{ChooseFault, CommitFault, NewFault};
pub use hep_commit::{
    Breakpoints, DecodedImage, Offer, OwnCells, PrivateImage, Segment, Ticket, TicketId, UndoLog,
    compute, go_on, stands_watched, tables_of,
};
pub use hep_machine::{Entry, Fault, Kind};
pub use hep_views::{CoreState, Listed, Place, Whereabouts};
pub use run_core::Core;
pub use stop::{ChoiceStop, Turn, TurnAtOnce, Turns, Verdict};
