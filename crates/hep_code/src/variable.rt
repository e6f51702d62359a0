//! Variables without their names.
ghost use Rattle.std.specs.Prelude.{◌≡◌};
ghost use Rattle.hep_code.specs.Replies as replies;

/// The place of a variable's storage units (X3.9-1978, 2.13, 8.3.2 and 15.9.3), as every activation of its unit finds
/// them, and whether it is asynchronous.
#[derive(Clone, Copy, PartialEq, Eq)]
pub enum Variable {
    /// A local scalar, by its cell, counted from the first one of the frame.
    Local { asynchronous: bool, cell: u32 },
    /// A scalar in COMMON, by its cell, counted from the first one of the arena, which begins with COMMON.
    Common { asynchronous: bool, cell: u32 },
    /// A scalar dummy argument, by the first of two cells, counted from that of the frame. They have the first
    /// storage unit that it is associated with, and the number of storage units from there on.
    Dummy { asynchronous: bool, cells: u32 },
    /// An array, by its index in a table, which has for each array the place of its elements, in one of these ways,
    /// and its shape (5.2).
    Array { asynchronous: bool, array: u32 },
    /// A name that has no storage units, and to which no statement assigns.
    Absent,
}

impl Variable {
    /// Whether its name has `$`.
    pub fn is_asynchronous(self) -> bool
        ensures { result ≡ replies.is_asynchronous self }
    {
        match self {
            Variable::Local { asynchronous, .. }
            | Variable::Common { asynchronous, .. }
            | Variable::Dummy { asynchronous, .. }
            | Variable::Array { asynchronous, .. } => asynchronous,
            Variable::Absent => false,
        }
    }
}
