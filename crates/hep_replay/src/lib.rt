//! Histories and choices as texts, and histories made again.
//!
//! A text has one line for each entry or choice. [`read_text`] and [`read_choices`] take just the texts
//! of histories and choices in range, each of which has one spelling. [`replay`] makes a history again on
//! a new core.
#![tactic(auto)]

pub mod choices;
pub mod history_choices;
pub mod history_prefix;
pub mod history_replay;
pub mod history_text;
pub mod laws;
mod lines;
pub mod replay_fault;

pub use choices::{Choices, read_choices};
pub use hep_core::{Breakpoints, DecodedImage, go_on, stands_watched, tables_of};
pub use history_choices::{choices_of_history, read_followed};
pub use history_prefix::HistoryPrefix;
pub use replay_fault::ReplayFault;
/// Why a text is refused: 601 for a history, 602 for choices, with the first bad line, and line 0
/// where the text is too long. Neither is about a name.
pub use hep_base::Refusal as HistFault;
pub use hep_core::{ChoiceStop, ChooseFault, Core, Fault, NewFault, Verdict};
pub use hep_history::History;
pub use history_replay::{make_run, replay, replay_first};
pub use history_text::{read_text, write_text};
