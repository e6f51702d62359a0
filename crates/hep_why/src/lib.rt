//! The command `why`: why processes wait (docs/RUNS.md, "Why processes wait"). For each waiting process it shows who
//! changed last what the process waits for, and then the cycles of the wait-for graph: processes each of which waits
//! for what the next one changed last. Begin with [`why_text`](reading::why_text), which makes the history again.
#![tactic(auto)]

pub mod laws;
pub mod reason;
pub mod reason_text;
mod wait_cycles;
mod wait_graph;
mod wait_names;
mod watch;
mod watch_list;
mod watch_updates;
pub mod why;

pub use hep_event::site_laws::operations_name_variables;
pub use hep_event::{
    Listed, NextOperation, Site, Variables, append_reference, coming_of, listed, named, site_of,
    whereabouts,
};
pub use hep_replay::{
    Breakpoints, Choices, ChooseFault, Core, HistFault, History, HistoryPrefix, ReplayFault,
    make_run, read_text, replay, replay_first, stands_watched,
};
pub use reason::{Change, Reason};
pub use reason_text::append_reasons;
pub use why::why_text;
