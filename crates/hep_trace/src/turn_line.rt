//! The lines of turns that were made.
ghost use Rattle.std.specs.Prelude.{◌≡◌, ◌++◌, ℕ, IfOk, List, OnOk, Option, option_map};
ghost use Rattle.hep_core.specs.CoreValues.{CoreValue, state_of};
ghost use Rattle.hep_machine.specs.Words.{Top, progress_after, step_result_of};
ghost use Rattle.hep_event.specs.StepTexts.{deed_text};
ghost use Rattle.hep_event.specs.Traces.{line_text};
ghost use Rattle.hep_trace.specs.Observations.{IsListSeen, IsObservation, IsStepSeen, IsTurnMade, IsTurnSeen, IsValueSeen, name_referred, place_referred};

use crate::after_turn::{append_wait, fault_since, line_of, printed};
use crate::before_turn::{called, unit_name};
use crate::freed_frames::append_freed_of;
use crate::observation::{BeforeTurn, Observation};
use crate::reference::Reference;
use crate::woken_processes::append_woken_of;
use hep_code::Operation;
use hep_event::line_laws::prints_are_last_records;
use hep_event::{Core, StepObservation, append_fault, append_head, append_told, site_of, value_at};
use hep_image::Image;
use hep_source::Value;
use std::alloc::{AllocError, Global};

// The unit's name for the variable that was named.
fn variable_name<'a>(image: &'a Image, reference: &Option<Reference>) -> &'a [u8]
    ensures { result.now ≡ name_referred image.now reference.now }
{
    match reference {
        Some(reference) => image.name(reference.name).unwrap_or(b""),
        None => b"",
    }
}

// Words for its owner.
fn place_of(reference: &Option<Reference>) -> Option<&[u8]>
    ensures { option_map (λ place. place.now) result ≡ place_referred reference.now }
{
    match reference {
        Some(reference) => match &reference.place {
            Some(place) => Some(place.as_slice()),
            None => None,
        },
        None => None,
    }
}

// The result of a step of process p, or the value of a DO's variable after it.
fn value_after(core: &Core, p: u64, before: &BeforeTurn) -> Option<Value>
    requires { (old : CoreValue) × (t : Top) × (t.process ≡ p) × IsStepSeen old t before.now core.now.core }
    ensures { (old : CoreValue) (t : Top) → t.process ≡ p → IsStepSeen old t before.now core.now.core
        → IsValueSeen old.program t before.now (state_of core.now.core) result before.now.operation }
{
    match before.operation {
        Operation::EndLoop { variable, .. } => {
            let machine = core.machine();
            value_at(machine, site_of(machine, core.image(), p, variable, &[]))
        }
        _ => before.value,
    }
}

// What a step printed, or the targets that it emptied, in words.
fn list_after(alloc: Global, core: &Core, before: &BeforeTurn) -> Result<Vec<u8>, AllocError>
    ensures { IfOk result (λ list. (old : CoreValue) (t : Top) → IsStepSeen old t before.now core.now.core
        → IsListSeen old.program t before.now list.items before.now.operation) }
{
    prints_are_last_records();
    match before.operation {
        Operation::Print { .. } => printed(alloc, core),
        _ => before.list.as_slice().to_vec(alloc),
    }
}

// Appends the words for a step that was no fault.
fn append_step(
    alloc: Global,
    text: &mut Vec<u8>,
    core: &Core,
    p: u64,
    before: &BeforeTurn,
) -> Result<(), AllocError>
    requires { (old : CoreValue) × (t : Top) × (t.process ≡ p) × IsStepSeen old t before.now core.now.core }
    ensures { OnOk result ((old : CoreValue) (t : Top) → t.process ≡ p → IsStepSeen old t before.now core.now.core
        → text.new.items ≡ text.old.items ++ deed_text old.program t (step_result_of old.program t.process t.state)) }
{
    let list = list_after(alloc, core, before)?;
    let image = core.image();
    let seen = StepObservation {
        unit: unit_name(image, before.unit),
        called: called(image, before.operation),
        variable: variable_name(image, &before.reference),
        place: place_of(&before.reference),
        value: value_after(core, p, before),
        line: line_of(core, p),
        list: &list,
        numbers: before.numbers,
    };
    append_told(text, &seen, before.operation, &before.operands)
}

// Appends the words for a turn.
fn append_deed(
    alloc: Global,
    text: &mut Vec<u8>,
    core: &Core,
    p: u64,
    before: &BeforeTurn,
) -> Result<(), AllocError>
    requires { (old : CoreValue) × (t : Top) × (t.process ≡ p) × IsTurnSeen old t before.now core.now.core }
    ensures { OnOk result ((old : CoreValue) (t : Top) → t.process ≡ p → IsTurnSeen old t before.now core.now.core
        → text.new.items ≡ text.old.items ++ deed_text old.program t (step_result_of old.program t.process t.state)) }
{
    if core.want(p).is_some() {
        return append_wait(alloc, text, core, p);
    }
    match fault_since(core, before.faults) {
        Some(kind) => append_fault(text, kind),
        None => append_step(alloc, text, core, p, before),
    }
}

/// Appends the line of a turn that was made after process p was observed, with the number of its entry; nothing where
/// the line isn't shown.
///
/// # Errors
///
/// Only where memory was refused.
pub fn append_line(
    alloc: Global,
    text: &mut Vec<u8>,
    core: &Core,
    sight: &Observation,
    entry: u64,
) -> Result<(), AllocError>
    requires { (old : CoreValue) × (p : ℕ) × (cell : Option (List ℕ)) × IsObservation old p cell sight.now × IsTurnMade old p core.now.core }
    ensures { OnOk result ((old : CoreValue) (p : ℕ) (cell : Option (List ℕ)) → IsObservation old p cell sight.now → IsTurnMade old p core.now.core
        → text.new.items ≡ text.old.items ++ line_text old.program cell entry p (progress_after old.program old.history)
        (progress_after core.now.core.program core.now.core.history)) }
{
    let Some(before) = &sight.before else {
        return Ok(());
    };
    let p = sight.process;
    let unit = unit_name(core.image(), before.unit);
    append_head(text, entry, p, unit, before.line)?;
    append_deed(alloc, text, core, p, before)?;
    append_woken_of(alloc, text, core, &before.waiting, p)?;
    append_freed_of(alloc, text, core, p, &before.ancestry)?;
    text.extend_from_slice(b"\n")?;
    Ok(())
}
