//! The lines at the end of a run: those of faults ([`fault_text`](faults::fault_text)) and of waiting processes
//! ([`dump_text`](waiting::dump_text)), and the notes after them and after a stop (docs/MACHINE.md, "Lines of
//! processes that wait" and "Notes").
//!
//! The line of a process that waits for a position of COMMON names the block and the position. Each unit may have a
//! name of its own for it, with subscripts for an array; [`own_name`](naming::own_name) writes that name.
#![tactic(auto)]

pub mod common_names;
mod elements;
pub mod faults;
pub mod pending_calls;
pub mod stop_notes;
pub mod waiting;

pub use common_names::own_name;
pub use faults::{append_fault, append_faults, fault_text, name_of};
pub use hep_core::{Breakpoints, Core, Kind, Listed, Whereabouts};
pub use pending_calls::append_all_wants;
pub use stop_notes::{append_places, opening_notes, used_notes};
pub use waiting::{append_all_waiting, append_waiting, dump_text};
