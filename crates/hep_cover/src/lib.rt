//! The command `cover`: how often the statement of each line began in histories (docs/RUNS.md, "How often lines
//! began"). [`count_history`] makes a history again and counts.
//!
//! A step begins a statement if no operation of that was made yet. [`marks_of`] makes a table that gives for each
//! index of a unit's code the line of the statement that a step from there begins. Steps that only move a process are
//! made as in `hep_advance`, and counted by that table ([`count_on`]).
#![tactic(auto)]

mod counted_run;
mod counted_top;
pub mod counted_turns;
pub mod coverage;
pub mod coverage_text;
pub mod laws;
pub mod lcov;
pub mod line_counts;
pub mod operation_counts;
pub mod remaining_operations;
pub mod statement_starts;
pub mod unbegun_lines;

pub use counted_turns::{begun, count_on};
pub use coverage::count_history;
pub use coverage_text::line_count;
pub use hep_why::{
    Choices, HistFault, History, HistoryPrefix, ReplayFault, read_text, replay, replay_first,
    why_text,
};
pub use lcov::append_counts;
pub use line_counts::{count, set_line};
pub use operation_counts::operations_by_line;
pub use remaining_operations::operations_ahead;
pub use statement_starts::{MarkedImage, StatementStarts, marks_of};
pub use unbegun_lines::unbegun;
