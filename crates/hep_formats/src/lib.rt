//! Other forms of the texts that commands write: strings and objects of JSON, lanes of processes, events of a timeline, and marks of color.
//!
//! [`append_json_string`] writes a text as a string of JSON. [`state_objects`] and [`why_objects`] write the lines of `state` and of `why` as
//! objects. [`mark_of`] reads a line of `trace`: its process, what the turn did, and the process that it created. [`lanes_of`] draws the lines
//! of a trace with a column for each process, and [`events_of`] writes them as the events of a timeline. [`color_text`] puts marks of the
//! terminal's own palette into a text: before the words that tell most, and after them.
#![tactic(auto)]

pub mod colors;
pub mod lane;
pub mod lane_row;
pub mod lanes;
pub mod laws;
pub mod mark;
mod members;
pub mod number_row;
pub mod place;
pub mod short_action;
pub mod state;
mod state_kind;
mod state_members;
pub mod string;
pub mod trace_event;
pub mod trace_line;
pub mod turn_mark;
pub mod why;
mod why_kind;
pub mod words;

pub use colors::color_text;
pub use lanes::lanes_of;
pub use number_row::numbers;
pub use place::TextKind;
pub use state::state_objects;
pub use string::{append_json_item, append_json_string};
pub use trace_event::events_of;
pub use trace_line::{line_of, lines_of, waits};
pub use turn_mark::{
    TurnKind, TurnMark, deed_of, first_word, from_unit, highest_process, kind_of, mark_of,
    marks_of, process_of, rank,
};
pub use why::why_objects;
pub use words::after_blank;
