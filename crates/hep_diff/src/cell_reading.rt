//! The values that the next step of a process reads.
ghost use Rattle.std.specs.Prelude.{◌≡◌, ℕ, List, Some};
ghost use Rattle.hep_event.specs.NextOperations.{IsNextOperationOf};
ghost use Rattle.hep_diff.specs.ProcessSteps as words;
ghost use Rattle.hep_machine.specs.Words.{Level, Process, run};
ghost use Rattle.hep_event.specs.Sites.{IsSomeSite, LivesAfter};
ghost use Rattle.hep_diff.specs.CellReadings as asking;
ghost use Rattle.hep_diff.specs.CellReadings.{HasFound};

use crate::process_step::CellReading;
use hep_code::{Evaluation, Operation};
use hep_image::Image;
use hep_machine::Slot;
use hep_source::{StateFunction, Value};
use hep_state::CoreState;
use hep_state::laws::tops_are_running;
use hep_why::{NextOperation, Site, named, operations_name_variables, site_of};

// How an operation reads the variable that it names, if it does.
fn asked_by(operation: Operation) -> Option<StateFunction>
    ensures { result ≡ asking.asked_by operation }
{
    match operation {
        Operation::Evaluate(Evaluation::Load { .. })
        | Operation::EndLoop { .. }
        | Operation::Answer { .. } => Some(StateFunction::ValueOf),
        Operation::Evaluate(Evaluation::Test { function, .. }) => Some(function),
        _ => None,
    }
}

// What is read from a cell.
fn answer_of(function: StateFunction, slot: Slot) -> Option<Value>
    ensures { result ≡ words.answer_of function slot }
{
    match function {
        StateFunction::IsFull => Some(Value::Truth(slot.full)),
        StateFunction::IsEmpty => Some(Value::Truth(!slot.full)),
        StateFunction::ValueOf | StateFunction::SetEmpty | StateFunction::WaitFull => slot.value,
    }
}

// What is read at a site, if there is one.
fn found_at(machine: &CoreState, site: Option<Site>, function: StateFunction) -> Option<CellReading>
    requires { IsSomeSite machine.now site }
    ensures { HasFound machine.now site function result }
{
    match site {
        Some(site) => Some(CellReading {
            place: site.place,
            value: answer_of(function, machine.frames.get(site.cell)),
        }),
        None => None,
    }
}

// What the next step of process p reads, if its operation reads so.
fn answered(
    machine: &CoreState,
    image: &Image,
    p: u64,
    coming: &NextOperation<'_>,
    function: StateFunction,
) -> Option<CellReading>
    requires lives { (cells : ℕ) × (choices : List ℕ) × (top : Level × Process) × LivesAfter image.now cells choices machine.now p top }
    requires coming { IsNextOperationOf image.now machine.now p coming.now }
    requires asked { asking.asked_by coming.now.operation ≡ Some function }
    ensures { (cells : ℕ) (choices : List ℕ) (top : Level × Process) → LivesAfter image.now cells choices machine.now p top
        → result ≡ words.found_of image.now (run image.now choices) top.0 }
{
    image.is_runnable();
    tops_are_running();
    operations_name_variables();
    match named(coming.operation, &coming.operands) {
        Some((variable, subscripts)) => found_at(
            machine,
            site_of(machine, image, p, variable, subscripts),
            function,
        ),
        None => None,
    }
}

/// What the next step of process p, which lives, reads.
pub(crate) fn found(
    machine: &CoreState,
    image: &Image,
    p: u64,
    coming: &NextOperation<'_>,
) -> Option<CellReading>
    requires lives { (cells : ℕ) × (choices : List ℕ) × (top : Level × Process) × LivesAfter image.now cells choices machine.now p top }
    requires coming { IsNextOperationOf image.now machine.now p coming.now }
    ensures { (cells : ℕ) (choices : List ℕ) (top : Level × Process) → LivesAfter image.now cells choices machine.now p top
        → result ≡ words.found_of image.now (run image.now choices) top.0 }
{
    image.is_runnable();
    tops_are_running();
    match asked_by(coming.operation) {
        Some(function) => answered(machine, image, p, coming, function),
        None => None,
    }
}
