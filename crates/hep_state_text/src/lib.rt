//! The text of `state`: the place of each process, what it waits for, and the values of the variables of common
//! blocks and of held activations (docs/RUNS.md, "What everything holds"). `state_text` of `specs/States` defines it;
//! this crate has the lines in parts, read from a core's machine. Begin with `src/lines.rt` and `src/variable.rt`.
#![tactic(auto)]

pub mod activation_lines;
pub mod activations;
pub mod associations;
pub mod block_names;
mod cell_slots;
pub mod common_variables;
pub mod held_activations;
pub mod laws;
pub mod lines;
pub mod process_lines;
pub mod storage;
mod subscripts;
pub mod values;
pub mod variable;
mod variables;
pub mod wait_text;

pub use activation_lines::append_activations;
pub use activations::{NamedUnit, append_locals, append_values, unit_name};
pub use associations::{StackedFrame, append_associations};
pub use block_names::{longest, names_in_block};
pub use common_variables::append_common;
pub use held_activations::{held_keys, stacked_keys};
pub use hep_text::Listing;
pub use hep_views::Place;
pub use hep_views::lookup::listed;
pub use lines::{
    append_activation, append_association, append_block, append_block_name, append_element,
    append_head, append_level, append_owner, append_waiting,
};
pub use process_lines::{SourceImage, append_process};
pub use storage::StateStorage;
pub use variable::{DisplayedVariable, append_variable};
pub use wait_text::{place_listed, place_text, waiting_text};
