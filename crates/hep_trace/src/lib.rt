//! The command `trace`: a line for each step of a history, which says what it did (docs/RUNS.md, "What each step
//! did"). [`trace_history`](reading::trace_history) makes the history again and writes the lines.
//! [`look`](looking::look) observes a process before its turn, and [`append_line`](turn_line::append_line) writes the
//! line after it.
#![tactic(auto)]

pub mod after_turn;
pub mod before_turn;
pub mod freed_frames;
mod held_activations;
pub mod line_filter;
pub mod name_filter;
pub mod next_operation;
pub mod observation;
pub mod observed_laws;
pub mod observing;
pub mod purge_targets;
pub mod redex_value;
pub mod reference;
pub mod target_filter;
pub mod trace;
mod trace_breakpoints;
mod trace_lines;
pub mod turn_laws;
pub mod turn_line;
pub mod woken_processes;

pub use after_turn::{append_wait, fault_since, line_of, printed};
pub use before_turn::{called, numbers_before, unit_name};
pub use freed_frames::{ancestry, append_freed_of};
pub use hep_event::line_laws::{prints_are_last_records, steps_are_told};
pub use hep_event::site_laws::operations_name_variables;
pub use hep_event::{
    Core, NextNumbers as TracingNumbers, StepObservation, Variables, append_fault, append_head,
    append_told, coming_of, named, site_of, value_at,
};
pub use hep_state::CoreState;
pub use hep_state::laws::{activations_are_few, tops_are_running};
pub use line_filter::LineFilter;
pub use name_filter::goes_by;
pub use observation::Observation;
pub use observing::look;
pub use purge_targets::append_targets;
pub use redex_value::value_ahead;
pub use reference::{LiveProcess, Reference, number_of, reference_ahead};
pub use trace::trace_history;
pub use turn_line::append_line;
pub use woken_processes::{append_woken_of, waiting_numbers};
