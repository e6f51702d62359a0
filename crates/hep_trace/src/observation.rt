//! What is observed of a process before its turn.

use crate::reference::Reference;
use hep_code::Operation;
use hep_event::NextNumbers;
use hep_source::Value;

/// What the line of a turn of a living process needs from before the turn.
pub(crate) struct BeforeTurn {
    /// The place of the process.
    pub(crate) unit: u32,
    pub(crate) line: u32,
    /// Its next operation, and the variable that this names.
    pub(crate) operation: Operation,
    pub(crate) operands: Vec<Value>,
    pub(crate) reference: Option<Reference>,
    /// The result of the operation.
    pub(crate) value: Option<Value>,
    /// The targets of a PURGE.
    pub(crate) list: Vec<u8>,
    pub(crate) numbers: NextNumbers,
    /// The processes that were found waiting and still wait; the top activation of the process and its ancestors; and
    /// the number of faults so far.
    pub(crate) waiting: Vec<u64>,
    pub(crate) ancestry: Vec<u64>,
    pub(crate) faults: usize,
}

// Written out, so that a caller's proof has one call of it at each exit.
impl Drop for BeforeTurn {
    fn drop(self) {
        let BeforeTurn {
            unit,
            line,
            operation,
            operands,
            reference,
            value,
            list,
            numbers,
            waiting,
            ancestry,
            faults,
        } = self;
    }
}

/// What was observed of a process before its turn, as far as the line of the turn needs it.
#[derive(Drop)]
pub struct Observation {
    pub(crate) process: u64,
    /// `None` where the line isn't shown.
    pub(crate) before: Option<BeforeTurn>,
}
