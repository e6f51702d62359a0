//! The faults and the history of a run.

/// The kind of a fault: the reason why a process ended early.
#[derive(Clone, Copy, Debug, PartialEq, Eq)]
pub enum Kind {
    /// An integer above 9223372036854775807 or below -9223372036854775808.
    Overflow,
    /// A division by zero.
    Divide,
    /// A subscript outside its bounds, or an element past the end of the actual argument's array.
    Range,
    /// A variable that was read before a value was assigned to it.
    Undefined,
    /// A dummy array whose bounds make no shape, or that has more elements than its actual argument.
    Shape,
    /// A DO whose increment is zero.
    Step,
}

/// A fault: the process that ended early, the place in the source, and the reason.
#[derive(Clone, Copy, Debug, PartialEq, Eq)]
pub struct Fault {
    pub process: u64,
    /// The index of the unit in the program, counted from 0.
    pub unit: u32,
    /// The initial line of the statement, counted from 1.
    pub line: u32,
    pub kind: Kind,
}

/// An entry of the history: a process, and the number of its steps. The number is 0 where the process was found waiting.
#[derive(Clone, Copy, Debug, PartialEq, Eq)]
pub struct Entry {
    pub process: u64,
    pub steps: u32,
}
