//! The records of private steps.

use hep_source::Value;

/// A private step: the index of its operation in the code of its unit, and what it read and wrote.
///
/// Cells are counted from the first one of the frame. A `first` flag is true where no earlier step of the segment had
/// stored in the cell that was read.
#[derive(Clone, Copy, Debug, PartialEq, Eq)]
pub enum Record {
    /// The step read and wrote nothing. It only moved the activation.
    Goes {
        at: usize,
    },
    /// An operator or a function of integers gave a value, which was pushed.
    Gives {
        at: usize,
        value: Value,
    },
    /// A private scalar was read, and its value pushed.
    Reads {
        first: bool,
        cell: u32,
        at: usize,
        value: Value,
    },
    /// A value was stored in a private scalar.
    Stores {
        cell: u32,
        at: usize,
        value: Value,
    },
    /// A DO was entered: its variable got the initial value, and its two cells the iteration count and the increment.
    Enters {
        variable: u32,
        cells: u32,
        at: usize,
        initial: i64,
        count: i64,
        increment: i64,
    },
    /// An iteration of a DO ended: its variable was raised by the increment, and the number of iterations left was
    /// lowered by one.
    Ends {
        first_variable: bool,
        first_count: bool,
        first_increment: bool,
        variable: u32,
        cells: u32,
        at: usize,
        raised: i64,
        count: i64,
        increment: i64,
    },
}
