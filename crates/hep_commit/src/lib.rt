//! How private steps of a process that is out are committed in the machine of a core (docs/MACHINE.md, "Private
//! steps" and "Workers").
//!
//! - [`start`] makes a ticket of a process. [`comes_next`] checks that the steps of a worker's segment or batch are
//!   the ones that come next, and [`take_private`] makes them at once.
//! - [`turn_in_place`] and [`run_in_place`] make private steps without a ticket, in the cells of the frame.
//! - [`UndoLog`] keeps the own cells of a process and puts them back where a turn is refused after its private steps.
//!
//! The functions of [`noninterference`] and of `commit_laws` do nothing: each contract is a law. They say that
//! private steps are steps of the source machine, and that other processes neither see nor disturb them.
#![tactic(auto)]

mod application;
mod batch_stores;
mod batch_validation;
pub mod commit_laws;
pub mod noninterference;
mod offer;
mod operands;
mod own_cells;
mod slots;
mod ticket_start;
mod top_activation;
mod turns_in_place;
mod undo_log;
mod validation;

pub use application::{make_private, take_private};
pub use hep_advance::{
    Breakpoints, CoreState, DecodedCode, DecodedImage, go_on, pass_on, place, rests,
    stands_watched, tables_of, turn_by_table,
};
pub use hep_private::step_laws::private_steps_depend_on_reads;
pub use hep_private::{
    Image, MOST_RECORDS, PrivateImage, Record, Segment, Ticket, TicketId, UnitCode, compute,
    segments_depend_on_reads,
};
pub use noninterference::{others_leave_what_is_read, private_steps_are_turns};
pub use offer::Offer;
pub use own_cells::{OwnCellTable, OwnCells, own_cells_of};
pub use ticket_start::start;
pub use turns_in_place::{PreparedProgram, run_in_place, stands_alone, turn_in_place};
pub use undo_log::UndoLog;
pub use validation::{comes_next, is_next_private};
