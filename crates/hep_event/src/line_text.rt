//! The words of a step's line, by names, numbers and values.
ghost use Rattle.std.specs.Prelude.{◌≡◌, ◌++◌, OnOk};
ghost use Rattle.std.specs.Option.{option_map};
ghost use Rattle.hep_dump.specs.Faults as faults;
ghost use Rattle.hep_event.specs.LineTexts as words;

use crate::value_text::{
    append_list, append_value, function_text, operator_text, sign_text, state_function_text, verb,
};
use hep_dump::faults::kind_text;
use hep_machine::Kind;
use hep_output::append_number;
use hep_source::{Operator, PureFunction, Sign, StateFunction, Value};
use hep_state_text::values::state_text;
use std::alloc::AllocError;

fn append_entry(text: &mut Vec<u8>, entry: u64, process: u64) -> Result<(), AllocError>
    ensures { OnOk result (text.new.items ≡ text.old.items ++ words.entry_text entry process) }
{
    append_number(text, entry)?;
    text.extend_from_slice(b" PROCESS ")?;
    append_number(text, process)?;
    text.extend_from_slice(b" ")?;
    Ok(())
}

// The place: a unit of this name, and a line.
fn append_where(text: &mut Vec<u8>, unit: &[u8], line: u32) -> Result<(), AllocError>
    ensures { OnOk result (text.new.items ≡ text.old.items ++ words.where_text unit.now line) }
{
    text.extend_from_slice(unit)?;
    text.extend_from_slice(b" LINE ")?;
    append_number(text, line)?;
    text.extend_from_slice(b" ")?;
    Ok(())
}

/// Appends the front of a line: the entry, its process, and the place, in a unit of this name.
///
/// # Errors
///
/// Only where memory was refused.
pub fn append_head(
    text: &mut Vec<u8>,
    entry: u64,
    process: u64,
    unit: &[u8],
    line: u32,
) -> Result<(), AllocError>
    ensures { OnOk result (text.new.items ≡ text.old.items ++ words.head_text entry process unit.now line) }
{
    append_entry(text, entry, process)?;
    append_where(text, unit, line)?;
    Ok(())
}

// A value after the word for where it comes from.
fn append_given(text: &mut Vec<u8>, value: Value) -> Result<(), AllocError>
    ensures { OnOk result (text.new.items ≡ text.old.items ++ words.given_text value) }
{
    text.extend_from_slice(b" = ")?;
    append_value(text, value)?;
    Ok(())
}

/// Appends the operation of a sign on a value, and its result.
///
/// # Errors
///
/// Only where memory was refused.
pub fn append_signed(
    text: &mut Vec<u8>,
    sign: Sign,
    operand: Value,
    value: Value,
) -> Result<(), AllocError>
    ensures { OnOk result (text.new.items ≡ text.old.items ++ words.signed_text sign operand value) }
{
    text.extend_from_slice(b"sign ")?;
    text.extend_from_slice(sign_text(sign))?;
    text.extend_from_slice(b" ")?;
    append_value(text, operand)?;
    append_given(text, value)?;
    Ok(())
}

/// Appends the operation of `.NOT.` on a value, and its result.
///
/// # Errors
///
/// Only where memory was refused.
pub fn append_negated(text: &mut Vec<u8>, operand: Value, value: Value) -> Result<(), AllocError>
    ensures { OnOk result (text.new.items ≡ text.old.items ++ words.negated_text operand value) }
{
    text.extend_from_slice(b"negate .NOT. ")?;
    append_value(text, operand)?;
    append_given(text, value)?;
    Ok(())
}

/// Appends the operation of an operator on two values, and its result.
///
/// # Errors
///
/// Only where memory was refused.
pub fn append_combined(
    text: &mut Vec<u8>,
    operator: Operator,
    first: Value,
    second: Value,
    value: Value,
) -> Result<(), AllocError>
    ensures { OnOk result (text.new.items ≡ text.old.items ++ words.combined_text operator first second value) }
{
    text.extend_from_slice(verb(operator))?;
    append_value(text, first)?;
    text.extend_from_slice(b" ")?;
    text.extend_from_slice(operator_text(operator))?;
    text.extend_from_slice(b" ")?;
    append_value(text, second)?;
    append_given(text, value)?;
    Ok(())
}

/// Appends a function of integers with its arguments, and its result.
///
/// # Errors
///
/// Only where memory was refused.
pub fn append_applied(
    text: &mut Vec<u8>,
    function: PureFunction,
    arguments: &[Value],
    value: Value,
) -> Result<(), AllocError>
    ensures { OnOk result (text.new.items ≡ text.old.items ++ words.applied_text function arguments.now value) }
{
    text.extend_from_slice(b"apply ")?;
    text.extend_from_slice(function_text(function))?;
    append_list(text, arguments)?;
    append_given(text, value)?;
    Ok(())
}

// The place of a cell, where it has to be named.
fn append_place(text: &mut Vec<u8>, place: Option<&[u8]>) -> Result<(), AllocError>
    ensures { OnOk result (text.new.items ≡ text.old.items ++ words.place_text (option_map (λ place. place.now) place.entry)) }
{
    let Some(place) = place else {
        return Ok(());
    };
    text.extend_from_slice(b" [")?;
    text.extend_from_slice(place)?;
    text.extend_from_slice(b"]")?;
    Ok(())
}

/// A variable or an element: its name in the unit, the values of its subscripts, and its place, where that has to be
/// named.
#[derive(Clone, Copy)]
pub struct AccessedVariable<'a> {
    pub name: &'a [u8],
    pub subscripts: &'a [Value],
    pub place: Option<&'a [u8]>,
}

/// Appends an access to a variable or an element, and the value that was read or stored.
///
/// # Errors
///
/// Only where memory was refused.
pub fn append_accessed(
    text: &mut Vec<u8>,
    action: &[u8],
    accessed: &AccessedVariable<'_>,
    value: Value,
) -> Result<(), AllocError>
    ensures { OnOk result (text.new.items
        ≡ text.old.items ++ words.accessed_text action.now (words.reference_text accessed.now.name.now accessed.now.subscripts.now) value
        (option_map (λ place. place.now) accessed.now.place)) }
{
    text.extend_from_slice(action)?;
    append_reference(text, accessed.name, accessed.subscripts)?;
    append_given(text, value)?;
    append_place(text, accessed.place)?;
    Ok(())
}

/// Appends FULL, EMPTY, VALUE, SETE or WAITF of a variable or an element, and its result.
///
/// # Errors
///
/// Only where memory was refused.
pub fn append_tested(
    text: &mut Vec<u8>,
    function: StateFunction,
    accessed: &AccessedVariable<'_>,
    value: Value,
) -> Result<(), AllocError>
    ensures { OnOk result (text.new.items
        ≡ text.old.items ++ words.tested_text function (words.reference_text accessed.now.name.now accessed.now.subscripts.now) value
        (option_map (λ place. place.now) accessed.now.place)) }
{
    text.extend_from_slice(b"ask ")?;
    text.extend_from_slice(state_function_text(function))?;
    text.extend_from_slice(b"(")?;
    append_reference(text, accessed.name, accessed.subscripts)?;
    text.extend_from_slice(b")")?;
    append_given(text, value)?;
    append_place(text, accessed.place)?;
    Ok(())
}

/// Appends that a process waits until what is at a place is full, or is empty.
///
/// # Errors
///
/// Only where memory was refused.
pub fn append_waits(text: &mut Vec<u8>, full: bool, place: &[u8]) -> Result<(), AllocError>
    ensures { OnOk result (text.new.items ≡ text.old.items ++ words.waits_text full place.now) }
{
    text.extend_from_slice(b"waits FOR")?;
    text.extend_from_slice(state_text(full))?;
    text.extend_from_slice(b" ")?;
    text.extend_from_slice(place)?;
    Ok(())
}

/// Appends that the step was a fault, which ended the process.
///
/// # Errors
///
/// Only where memory was refused.
pub fn append_fault(text: &mut Vec<u8>, kind: Kind) -> Result<(), AllocError>
    ensures { OnOk result (text.new.items ≡ text.old.items ++ words.fault_text (faults.kind_text kind)) }
{
    text.extend_from_slice(b"FAULT ")?;
    text.extend_from_slice(kind_text(kind))?;
    Ok(())
}

/// Appends the label that a computed GO TO took, of `labels` labels.
///
/// # Errors
///
/// Only where memory was refused.
pub fn append_choice(text: &mut Vec<u8>, labels: u32, value: Value) -> Result<(), AllocError>
    ensures { OnOk result (text.new.items ≡ text.old.items ++ words.choice_text labels value) }
{
    text.extend_from_slice(b"choose ")?;
    append_value(text, value)?;
    text.extend_from_slice(b" of ")?;
    append_number(text, labels)?;
    Ok(())
}

/// Appends the value by which an arithmetic IF branched.
///
/// # Errors
///
/// Only where memory was refused.
pub fn append_branch(text: &mut Vec<u8>, value: Value) -> Result<(), AllocError>
    ensures { OnOk result (text.new.items ≡ text.old.items ++ words.branch_text value) }
{
    text.extend_from_slice(b"branch by ")?;
    append_value(text, value)?;
    Ok(())
}

/// Appends the value of an IF's condition.
///
/// # Errors
///
/// Only where memory was refused.
pub fn append_condition(text: &mut Vec<u8>, value: Value) -> Result<(), AllocError>
    ensures { OnOk result (text.new.items ≡ text.old.items ++ words.condition_text value) }
{
    text.extend_from_slice(b"test ")?;
    append_value(text, value)?;
    Ok(())
}

/// Appends the line at which the process goes on.
///
/// # Errors
///
/// Only where memory was refused.
pub fn append_jump(text: &mut Vec<u8>, line: u32) -> Result<(), AllocError>
    ensures { OnOk result (text.new.items ≡ text.old.items ++ words.jump_text line) }
{
    text.extend_from_slice(b"go to LINE ")?;
    append_number(text, line)?;
    Ok(())
}

/// Appends that a DO begins, by its variable, initial value, limit and increment.
///
/// # Errors
///
/// Only where memory was refused.
pub fn append_loop(
    text: &mut Vec<u8>,
    variable: &[u8],
    initial: Value,
    limit: Value,
    increment: Value,
) -> Result<(), AllocError>
    ensures { OnOk result (text.new.items ≡ text.old.items ++ words.loop_text variable.now initial limit increment) }
{
    text.extend_from_slice(b"begin DO ")?;
    text.extend_from_slice(variable)?;
    append_given(text, initial)?;
    text.extend_from_slice(b", ")?;
    append_value(text, limit)?;
    text.extend_from_slice(b", ")?;
    append_value(text, increment)?;
    Ok(())
}

/// Appends that an iteration of a DO ended, with its variable and the value of that afterwards.
///
/// # Errors
///
/// Only where memory was refused.
pub fn append_next(text: &mut Vec<u8>, variable: &[u8], value: Value) -> Result<(), AllocError>
    ensures { OnOk result (text.new.items ≡ text.old.items ++ words.next_text variable.now value) }
{
    text.extend_from_slice(b"next ")?;
    text.extend_from_slice(variable)?;
    append_given(text, value)?;
    Ok(())
}

/// Appends the value with which a function of this name ends.
///
/// # Errors
///
/// Only where memory was refused.
pub fn append_answer(text: &mut Vec<u8>, unit: &[u8], value: Value) -> Result<(), AllocError>
    ensures { OnOk result (text.new.items ≡ text.old.items ++ words.answer_text unit.now value) }
{
    text.extend_from_slice(b"returns ")?;
    text.extend_from_slice(unit)?;
    append_given(text, value)?;
    Ok(())
}

/// Appends a variable or an element by its name in the unit, with the values of its subscripts.
///
/// # Errors
///
/// Only where memory was refused.
pub fn append_reference(
    text: &mut Vec<u8>,
    name: &[u8],
    subscripts: &[Value],
) -> Result<(), AllocError>
    ensures { OnOk result (text.new.items ≡ text.old.items ++ words.reference_text name.now subscripts.now) }
{
    text.extend_from_slice(name)?;
    append_list(text, subscripts)?;
    Ok(())
}

/// Appends that an activation ends: the only one of its process, or one above another.
///
/// # Errors
///
/// Only where memory was refused.
pub fn append_end(text: &mut Vec<u8>, alone: bool) -> Result<(), AllocError>
    ensures { OnOk result (text.new.items ≡ text.old.items ++ words.end_text alone) }
{
    if alone {
        text.extend_from_slice(b"ends")
    } else {
        text.extend_from_slice(b"returns")
    }
}

/// Appends that a subroutine goes on as another process, or was one already.
///
/// # Errors
///
/// Only where memory was refused.
pub fn append_resume(text: &mut Vec<u8>, process: Option<u64>) -> Result<(), AllocError>
    ensures { OnOk result (text.new.items ≡ text.old.items ++ words.resume_text process) }
{
    text.extend_from_slice(b"resumes")?;
    let Some(process) = process else {
        return Ok(());
    };
    text.extend_from_slice(b" as ")?;
    append_number(text, process)?;
    Ok(())
}

/// Appends that STOP ended all processes.
///
/// # Errors
///
/// Only where memory was refused.
pub fn append_stop(text: &mut Vec<u8>) -> Result<(), AllocError>
    ensures { OnOk result (text.new.items ≡ text.old.items ++ words.stop_text) }
{
    text.extend_from_slice(b"stop")
}

// An activation of a unit of this name.
fn append_named(text: &mut Vec<u8>, unit: &[u8], activation: u64) -> Result<(), AllocError>
    ensures { OnOk result (text.new.items ≡ text.old.items ++ words.named_text unit.now activation) }
{
    text.extend_from_slice(unit)?;
    text.extend_from_slice(b" as ")?;
    append_number(text, activation)?;
    Ok(())
}

/// Appends that an activation of a unit of this name begins on the process.
///
/// # Errors
///
/// Only where memory was refused.
pub fn append_call(text: &mut Vec<u8>, unit: &[u8], activation: u64) -> Result<(), AllocError>
    ensures { OnOk result (text.new.items ≡ text.old.items ++ words.call_text unit.now activation) }
{
    text.extend_from_slice(b"calls ")?;
    append_named(text, unit, activation)?;
    Ok(())
}

/// Appends that an activation of a unit of this name begins as a process of its own.
///
/// # Errors
///
/// Only where memory was refused.
pub fn append_create(
    text: &mut Vec<u8>,
    process: u64,
    unit: &[u8],
    activation: u64,
) -> Result<(), AllocError>
    ensures { OnOk result (text.new.items ≡ text.old.items ++ words.create_text process unit.now activation) }
{
    text.extend_from_slice(b"creates ")?;
    append_number(text, process)?;
    text.extend_from_slice(b" ")?;
    append_named(text, unit, activation)?;
    Ok(())
}

// A number after others.
fn append_further(text: &mut Vec<u8>, number: u64) -> Result<(), AllocError>
    ensures { OnOk result (text.new.items ≡ text.old.items ++ words.further_text number) }
{
    text.extend_from_slice(b", ")?;
    append_number(text, number)?;
    Ok(())
}

fn append_numbers(text: &mut Vec<u8>, numbers: &[u64]) -> Result<(), AllocError>
    ensures { OnOk result (text.new.items ≡ text.old.items ++ words.numbers_text numbers.now) }
{
    for number in numbers {
        append_further(text, *number)?;
    }
    Ok(())
}

/// Appends the processes that have stopped waiting, and nothing where there are none.
///
/// # Errors
///
/// Only where memory was refused.
pub fn append_woken(text: &mut Vec<u8>, processes: &[u64]) -> Result<(), AllocError>
    ensures { OnOk result (text.new.items ≡ text.old.items ++ words.woken_text processes.now) }
{
    let Some((first, others)) = processes.split_first() else {
        return Ok(());
    };
    text.extend_from_slice(b", wakes ")?;
    append_number(text, *first)?;
    append_numbers(text, others)?;
    Ok(())
}

// An activation whose frame was given back.
fn append_one_freed(text: &mut Vec<u8>, activation: u64) -> Result<(), AllocError>
    ensures { OnOk result (text.new.items ≡ text.old.items ++ words.freed_text activation) }
{
    text.extend_from_slice(b", frame of ")?;
    append_number(text, activation)?;
    text.extend_from_slice(b" given back")?;
    Ok(())
}

/// Appends the activations whose frames were given back.
///
/// # Errors
///
/// Only where memory was refused.
pub fn append_freed(text: &mut Vec<u8>, activations: &[u64]) -> Result<(), AllocError>
    ensures { OnOk result (text.new.items ≡ text.old.items ++ words.all_freed_text activations.now) }
{
    for activation in activations {
        append_one_freed(text, *activation)?;
    }
    Ok(())
}
