//! The command `diff`: what differs between two runs of a program, process by process (docs/RUNS.md, "What differs").
//! [`diff_text`](text::diff_text) makes the text from two cores that have made the histories; `specs/Differences`
//! defines it.
#![tactic(auto)]

mod cell_reading;
pub mod diff;
pub mod difference_text;
pub mod first_differences;
mod logged_replay;
mod next_process_step;
pub mod process_step;
mod step_logs;

pub use diff::diff_text;
pub use first_differences::{first_difference, same_front};
pub use hep_outcome::transcript::core_transcript;
pub use process_step::{CellReading, ProcessStep};
