//! The outcome of a run of an image, as a [`Transcript`](transcript::Transcript): by choices (`src/run_by_choices.rt`), by lots
//! (`src/run_by_lots.rt` and `src/random.rt`) or by a history (`src/run_by_history.rt`). `specs/Outcome` defines the outcomes.
#![tactic(auto)]

pub mod halt;
pub mod lines;
pub mod options;
pub mod random;
pub mod refusal_text;
pub mod run_by_choices;
pub mod run_by_history;
pub mod run_by_lots;
pub mod status;
pub mod tally;
pub mod transcript;

pub use hep_core::{Listed, Place, Whereabouts};
pub use hep_dump::{append_waiting, dump_text};
pub use hep_replay::history_text::MOST_BYTES;
pub use hep_replay::{
    Choices, ChooseFault, Core, NewFault, ReplayFault, read_choices, read_followed, read_text,
    replay as history_replay, write_text,
};
pub use lines::Lines;
pub use options::{LotOptions, Options, ReplayOptions, SampleOptions};
pub use random::Lots;
pub use refusal_text::put_refusal;
pub use run_by_history::image_transcript as replay_transcript;
pub use run_by_lots::image_transcript as lots_transcript;
pub use status::Status;
pub use tally::{MOST_SEED, Tally, count, nth_options, seeds_of, text_of};
pub use transcript::{
    Transcript, ended_transcript, full_transcript, history_transcript, opening_notes_when,
};
