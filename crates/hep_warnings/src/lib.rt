//! Warnings: parts of an accepted program that are probably mistakes.
//!
//! [`warnings`] finds them: characters after column 72, unused labels and units, DO variables that are passed to processes, names that
//! occur once, and asynchronous variables that are never filled or never read. [`warning_text`] writes their lines.
#![tactic(auto)]

pub mod all_warnings;
pub mod created_with_loop_variable;
mod filled_names;
pub mod merge;
mod needed_names;
pub mod occurrences;
pub mod past_column_72;
pub mod unused_labels;
pub mod unused_names;
pub mod unused_units;
mod used_names;
pub mod warning;

pub use all_warnings::warnings;
pub use warning::{Warning, WarningKind, append_kind, warning_text};
