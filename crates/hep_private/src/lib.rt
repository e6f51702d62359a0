//! Private steps: steps that use nothing but the operands, the private scalars and the DOs of their activation
//! (docs/MACHINE.md, "Private steps").
//! A worker makes them without the core, from a ticket and the image alone.
//!
//! - A [`Ticket`] is the right to commit private steps of one process. It has the place, the operands and copies of
//!   the own cells.
//! - A [`Segment`] is made of a ticket by [`compute`]: the private steps that come next, with a [`Record`] of each.
//! - A [`Batch`] is a segment without records. [`make_batch`] makes it by the loop of the serial run (`hep_fast`),
//!   which is faster. [`make_in_place`] runs that loop in the cells of the frame themselves.
//!
//! Begin with `specs/StepRecords.antt`, which says what a private step is, and with `src/segment.rt`. The laws are the
//! contracts of the functions in [`step_laws`] and [`segment_laws`].
#![tactic(auto)]

mod activation_place;
pub mod batch;
pub mod batch_maker;
pub mod bounded_steps;
pub mod cell_copy;
mod frame_copies;
pub mod in_place;
pub mod last_stores;
mod loops;
pub mod operands;
pub mod operation_values;
pub mod private_step;
pub mod progress;
mod record;
mod record_equality;
pub mod records;
mod segment;
pub mod segment_laws;
pub mod step_laws;
pub mod table;
mod ticket;
mod tickets;
pub mod write_log;

pub use activation_place::{ActivationPlace, is_kept, is_made, is_next_private, same_values};
pub use batch::Batch;
pub use batch_maker::{PrivateImage, make_batch, make_behind, segment_of};
pub use bounded_steps::{take_steps, unit_of};
pub use cell_copy::CellCopy;
pub use hep_code::{Evaluation, Variable};
pub use hep_step::{Cell, Image, UnitCode};
pub use in_place::{FrameActivation, make_in_place};
pub use operands::{Operands, assign};
pub use operation_values::value_of;
pub use private_step::{PrivateStep, StepContext};
pub use progress::{StepProgress, StepSource, advance, is_first_private};
pub use record::Record;
pub use records::{MOST_RECORDS, Records};
pub use segment::{Segment, compute, compute_from, compute_into};
pub use segment_laws::segments_depend_on_reads;
pub use step_laws::private_steps_depend_on_reads;
pub use table::{PrivateTable, loop_at, private_tables_of};
pub use ticket::{Ticket, TicketId};
pub use tickets::{come_back, has_ticket, is_out};
pub use write_log::{BaseValues, WriteLog};
