//! The history of a run: its entries in order, kept as runs of equal entries. Begin with [`History`].
#![tactic(auto)]

mod entries;
mod entry_lookup;
mod history;
mod run;
mod runs;

pub use entries::Entries;
pub use history::History;
pub use run::Run;
pub use runs::Runs;
