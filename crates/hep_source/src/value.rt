//! The values that a run computes with.

/// A value: an integer or a logical value (X3.9-1978, 4.3 and 4.7).
#[derive(Clone, Copy, Debug, PartialEq, Eq)]
pub enum Value {
    Int(i64),
    Truth(bool),
}
