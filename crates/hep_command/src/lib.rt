//! The command line, and the program's texts about itself: its help, its version, and the explanations of refusals,
//! faults, stops and statuses. Begin with [`read_request`](words::read_request).
#![tactic(auto)]

pub mod explanations;
pub mod fault_texts;
pub mod job;
mod program;
pub mod refusal_texts;
mod table;
mod usage_mistakes;
pub mod words;

pub use explanations::explain;
pub use fault_texts::meaning;
pub use job::{CheckForm, ColorWhen, Job, PageForm, Request, TraceForm, Usage, ViewedRun};
pub use refusal_texts::explanation;
pub use words::{
    FOLLOW_TOO, LOTS_TOO, SAME_FILE, SAME_PAGE, SAME_PICTURE, TWO_ORDERS, TWO_RUNS, read_request,
    read_words, same_page,
};
