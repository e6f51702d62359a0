//! The bounds of an array, where they are known (X3.9-1978, section 5).

/// The bounds of one dimension (X3.9-1978, 5.1.1).
#[derive(Clone, Copy, Debug, Default, PartialEq, Eq)]
pub struct Bound {
    /// The least subscript.
    pub lower: i64,
    /// The greatest subscript; none where `*` is written, as in an assumed-size array (5.1.2).
    pub upper: Option<i64>,
}
