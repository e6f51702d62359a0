//! The effect of an operation.
ghost use Rattle.std.specs.Prelude.{◌≡◌};
ghost use Rattle.hep_step.specs.PerformedSteps.{changed_in};

use hep_cells::Want;
use hep_machine::{Kind, Record};
use hep_source::Value;

/// The effect of the next operation of an activation.
#[derive(Drop)]
pub enum Effect {
    /// The activation has gone on. `changed` is the cell that was filled or emptied, if one was.
    Moved { changed: Option<Want> },
    /// A PRINT has printed this record, and the activation has gone on (X3.9-1978, 12.8).
    Printed(Record),
    /// A fault in the statement with this initial line. Nothing has changed.
    Failed { line: u32, kind: Kind },
    /// The process waits until a cell is full, or is empty (`docs/LANGUAGE.md`). Nothing has changed.
    Waits(Want),
    /// The activation ends, by RETURN or END of its unit (15.8 and 11.14).
    Returned,
    /// The activation of a function ends with this value, by RETURN or END of its unit (15.5.3).
    Answered(Value),
    /// All processes end, by STOP (11.12).
    Stopped,
    /// A CALL, CREATE, reference, PURGE or RESUME comes next, which isn't made here, or no operation. Nothing has
    /// changed.
    LeftOut,
}

impl Effect {
    /// The cell that was filled or emptied, if one was.
    pub fn changed(&self) -> Option<Want>
        ensures { result ≡ changed_in self.now }
    {
        match self {
            Effect::Moved { changed } => *changed,
            _ => None,
        }
    }
}
