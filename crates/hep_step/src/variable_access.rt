//! The outcomes of accesses to the cell of a variable.
ghost use Rattle.std.specs.Prelude.{◌≡◌};
ghost use Rattle.hep_machine.specs.Step as machine;
ghost use Rattle.hep_cells.specs.Outcomes.{outcome_meant};
ghost use Rattle.hep_code.specs.Replies as replies;

use hep_cells::{AccessOutcome, access};
use hep_machine::Slot;
use hep_source::{StateFunction, Value};

/// Reads a variable with this cell (X3.9-1978, 5.3, and `docs/LANGUAGE.md` for names with `$`).
pub fn read(asynchronous: bool, slot: Slot) -> AccessOutcome
    ensures { outcome_meant result ≡ replies.read asynchronous slot }
{
    if asynchronous {
        access::async_read(slot)
    } else {
        access::read(slot)
    }
}

/// FULL, EMPTY, VALUE, SETE or WAITF of a variable with this cell (`docs/LANGUAGE.md`).
pub fn tested(function: StateFunction, slot: Slot) -> AccessOutcome
    ensures { outcome_meant result ≡ replies.tested function slot }
{
    match function {
        StateFunction::IsFull => AccessOutcome::Gives(Value::Truth(slot.full)),
        StateFunction::IsEmpty => AccessOutcome::Gives(Value::Truth(!slot.full)),
        StateFunction::ValueOf => access::read(slot),
        StateFunction::SetEmpty => access::set_empty(slot),
        StateFunction::WaitFull => access::wait_read(slot),
    }
}

/// Assigns a value to a variable with this cell (X3.9-1978, 10.1 and 10.2).
pub fn written(asynchronous: bool, value: Value, slot: Slot) -> AccessOutcome
    ensures { outcome_meant result ≡ machine.written asynchronous value slot }
{
    if asynchronous {
        access::async_write(slot, value)
    } else {
        access::write(slot, value)
    }
}
