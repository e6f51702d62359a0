//! From the bytes of a source to the bytes of the two outputs: `check`, `list`, `run`, `replay`, runs by lots and by
//! workers. Begin with `src/source.rt`, whose functions do all the work on one source; `specs/Outcome` says what they
//! write.
#![tactic(auto)]

pub mod checks;
pub mod command;
pub mod companion_files;
pub mod delivery;
mod diagnostic_lines;
pub mod diagnostics;
pub mod front_end;
pub mod input;
pub mod observer;
pub mod options;
pub mod refusal;
pub mod run_by_workers;
pub mod runs;
pub mod sample;
pub mod source;
pub mod transcript;

pub use checks::{Check, List, Warn};
pub use command::{Command, CommandRequest, deliver_source};
pub use companion_files::{
    answer, choices_of, followed_of, history_text, read_text_file, say_unread, say_unwritten,
};
pub use delivery::put_text;
pub use diagnostics::diagnostics_source;
pub use hep_check::{Checked, check};
pub use hep_lower::lower;
pub use hep_outcome::{
    LotOptions, MOST_SEED, Options, ReplayFault, ReplayOptions, SampleOptions, dump_text,
    read_text, write_text,
};
pub use hep_replay::replay as history_replay;
pub use hep_workers::{
    Batch, ChoiceStop, ChooseFault, CloseFault, CommitFault, Core, Entry, Fault, Gate, Log,
    NewFault, NoGate, Offer, PrivateImage, Receipt, Report, Segment, Ticket, Turn, Verdict,
    WorkFault, WorkOptions, close, compute, run_workers, worker_turn,
};
pub use input::ReadFault;
pub use observer::Observer;
pub use options::{DiagnosticFormat, DiagnosticsRequest, Run, WorkRequest};
pub use run_by_workers::{work_noted, work_source};
pub use sample::{Sample, SampleRequest, lots_history, sample_bytes};
pub use source::{check_source, list_source, lots_noted, replay_source, run_source, warn_source};
