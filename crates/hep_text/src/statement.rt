//! Statements, and the line and column of each of their characters.
use hep_base::{Sequence, Text};

/// The place of a character in the source.
#[derive(Clone, Copy, Debug, PartialEq, Eq)]
pub struct Span {
    /// The line, counted from 1. Comment lines count too.
    pub line: u32,
    /// The column, counted from 1.
    pub column: u32,
}

/// A statement of the source (X3.9-1978, 3.3) as a text. `hep_parse` reads its form.
#[derive(Debug, Drop)]
pub struct Stmt {
    /// The line on which the statement begins, counted from 1.
    pub line: u32,
    /// Its label (X3.9-1978, 3.4): 1 to 99999, or none.
    pub label: Option<u32>,
    /// Its characters. Outside character constants there are no blanks and no lower-case letters.
    pub text: Text,
    /// The line and column of each of its characters.
    pub spans: Sequence<Span>,
}
