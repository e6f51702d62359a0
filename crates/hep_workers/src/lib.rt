//! Workers: threads that run one program together on a shared core (docs/MACHINE.md, "Workers"). Begin with
//! `run_workers` in `src/threads.rt`.
//!
//! Each worker commits its turns under the core's lock and notes them in a log of receipts (`src/turn.rt`). At the
//! end a [`report::Report`] says that the receipts of all logs are the entries of the core's history, each once.
#![tactic(auto)]

mod close_fault;
mod finder;
mod gate;
mod log_numbers;
mod options;
mod receipt;
mod report;
mod shared_core;
mod spans;
mod thread_safety;
mod threads;
mod turn;
mod work_fault;

pub use close_fault::CloseFault;
pub use finder::Finder;
pub use gate::{Gate, NoGate};
pub use hep_core::{
    ChoiceStop, ChooseFault, CommitFault, Core, CoreState, Entry, Fault, NewFault, Offer, OwnCells,
    Segment, Ticket, Turn, UndoLog, Verdict, compute,
};
pub use hep_private::{Batch, PrivateImage};
pub use log_numbers::are_of_workers;
pub use options::WorkOptions;
pub use receipt::{Log, Receipt};
pub use report::{Report, close};
pub use threads::{run_unlogged, run_workers};
pub use turn::{offer_turn, turn_at_once, turns_at_once, worker_turn};
pub use work_fault::WorkFault;
