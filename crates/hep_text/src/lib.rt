//! Source texts in fixed form, and the notes that `--long` adds to a refusal.
//!
//! A text is a sequence of lines of 72 columns (X3.9-1978, 3.2). [`statements`] divides it into its statements. Each statement has its
//! first line, its label, its characters without the blanks that don't matter, and the line and column of each character. Where the text
//! breaks a rule of fixed form, [`statements`] answers with the first fault.
//!
//! [`line_notes`], [`statement_notes`] and [`append_also`] write the notes: the line of the source, a caret under the fault, and the rule
//! in a few words. [`Listing`] finds a line by its number.
#![tactic(auto)]

pub mod constant;
pub mod line;
pub mod line_display;
pub mod listing;
pub mod place;
pub mod reading;
pub mod reason;
pub mod refusal;
pub mod statement;

pub use reading::statements;
pub use statement::{Span, Stmt};
/// The reason why a text is refused: one of the refusals 101 to 107, which name nothing.
pub use hep_base::Refusal as TextFault;
/// A sequence of items, such as the spans of a statement.
pub use hep_base::Sequence;
/// A text, one byte a character.
pub use hep_base::Text;
pub use line_display::append_words;
pub use listing::Listing;
pub use refusal::{Subject, append_also, line_notes, statement_notes};
