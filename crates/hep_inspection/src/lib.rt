//! From the bytes of a source and of histories to the texts about their runs: `state`, `trace`, `page`, `picture` and `why`
//! ([`state_noted`](state::state_noted)), `diff` ([`diff_noted`](diff::diff_noted)), `cover`
//! ([`cover_noted`](cover::cover_noted)), and `races` ([`races_noted`](races::races_noted)).
#![tactic(auto)]

pub mod cover;
pub mod cover_options;
pub mod diff;
pub mod explore;
pub mod explore_options;
pub mod inspection;
pub mod origin;
pub mod races;
mod replay_result;
mod timeline;

pub use cover::cover_noted;
pub use cover_options::CoverOptions;
pub use diff::{DiffOptions, diff_noted};
pub use explore::{Explored, choices_history, explore_bytes};
pub use explore_options::{ExploreOptions, ExploreRequest};
pub use hep_core::Core;
pub use hep_cover::{Choices, HistFault, read_text};
pub use hep_explore::{MOST_STEPS, SearchObserver};
pub use hep_outcome::nth_options;
pub use hep_page::state_text;
pub use hep_run::{
    Check, Command, CommandRequest, DiagnosticFormat, DiagnosticsRequest, List, LotOptions, NoGate,
    Observer, Options, ReadFault, ReplayOptions, Run, Sample, SampleOptions, SampleRequest, Warn,
    WorkOptions, WorkRequest, answer, choices_of, deliver_source, diagnostics_source, followed_of,
    history_text, lots_history, put_text, read_text_file, sample_bytes, say_unread, say_unwritten,
    work_noted,
};
pub use hep_state_text::Listing;
pub use hep_trace::LineFilter;
pub use inspection::{Inspection, InspectionOptions, state_noted, state_source};
pub use origin::Origin;
pub use races::{RacesOptions, races_noted};
