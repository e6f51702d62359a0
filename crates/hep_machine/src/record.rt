//! The records that PRINT writes.
use hep_source::{Sequence, Text};

/// One item of a record.
#[derive(Debug, Drop)]
pub enum Item {
    Int(i64),
    Truth(bool),
    /// The characters of a character constant, without its apostrophes.
    Text(Text),
}

/// A record: the items that one execution of a PRINT statement writes, in order.
pub type Record = Sequence<Item>;
