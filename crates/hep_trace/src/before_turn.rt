//! What is observed of a turn before it.
ghost use Rattle.std.specs.Prelude.{◌≡◌, ◌<◌, ◌+◌, ◌^◌, ℕ, List};
ghost use Rattle.hep_machine.specs.Words.{Level, Process as SourceProcess, unit_at};
ghost use Rattle.hep_source.specs.Units as units;
ghost use Rattle.hep_trace.specs.References.{IsAhead, top_after};
ghost use Rattle.hep_event.specs.PlainTexts.{IsNameOfCalled};
ghost use Rattle.hep_event.specs.StepObservations as seen;

use crate::reference::LiveProcess;
use hep_code::Operation;
use hep_event::NextNumbers;
use hep_image::Image;
use hep_source::MAIN_NAME;

/// The name of a unit by its number.
pub fn unit_name(image: &Image, unit: u32) -> &[u8]
    ensures { result.now ≡ units.unit_name (unit_at image.now unit) }
{
    if image.program().as_slice().len() <= unit as usize {
        return MAIN_NAME;
    }
    match image.name(unit) {
        Some(name) => name,
        None => MAIN_NAME,
    }
}

/// The name of the unit that an operation calls, creates or refers to; empty for other operations.
pub fn called(image: &Image, operation: Operation) -> &[u8]
    ensures { IsNameOfCalled image.now operation result.now }
{
    match operation {
        Operation::Call { unit, .. } => unit_name(image, unit),
        Operation::Create { unit, .. } => unit_name(image, unit),
        Operation::Refer { unit, .. } => unit_name(image, unit),
        _ => b"",
    }
}

/// The numbers of the next activation and of the next process, and whether the process has only one activation.
pub fn numbers_before(ahead: &LiveProcess<'_>) -> NextNumbers
    requires ahead { (cells : ℕ) × (choices : List ℕ) × (top : Level × SourceProcess) × IsAhead cells choices ahead.now top }
    requires activations { ahead.now.machine.now.activations + 1 < 2 ^ 64 }
    requires processes { ahead.now.machine.now.made + 1 < 2 ^ 64 }
    ensures { (cells : ℕ) (choices : List ℕ) (top : Level × SourceProcess) → IsAhead cells choices ahead.now top
        → result ≡ seen.numbers_before (top_after ahead.now.image.now choices ahead.now.process top) }
{
    let machine = ahead.machine;
    let process = &machine.processes[machine.place(ahead.process)];
    NextNumbers {
        activation: machine.activations + 1,
        process: machine.made + 1,
        alone: process.levels.len() == 1,
    }
}
