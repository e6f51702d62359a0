//! Steps of any operation, by what was seen of them.
ghost use Rattle.std.specs.Prelude.{◌≡◌, ◌++◌, ◌-◌, drop, OnOk};
ghost use Rattle.std.specs.Option.{option_map};
ghost use Rattle.hep_code.specs.Words.{first_operand, is_asynchronous};
ghost use Rattle.hep_event.specs.StepTexts.{told_of};
ghost use Rattle.hep_event.specs.LineTexts as lines;
ghost use Rattle.hep_event.specs.OperationTexts as words;

use crate::line_text::{
    AccessedVariable, append_accessed, append_answer, append_jump, append_loop, append_next,
    append_tested,
};
use crate::plain_text::{NextNumbers, append_plain};
use crate::reduction_text::second;
use crate::sites::last;
use hep_code::operands::first_operand;
use hep_code::{Evaluation, Operation, Variable};
use hep_source::{StateFunction, Value};
use std::alloc::AllocError;

/// What was observed of a step, as far as the words for its operation need it.
#[derive(Clone, Copy)]
pub struct StepObservation<'a> {
    /// The name of the unit of the process's top activation, and of the unit that is called, created or referred to.
    pub unit: &'a [u8],
    pub called: &'a [u8],
    /// The unit's name for the variable that the operation names, and the place of that, unless it is the
    /// activation's own.
    pub variable: &'a [u8],
    pub place: Option<&'a [u8]>,
    /// The result of an access or a function, or the value of a DO's variable after the step.
    pub value: Option<Value>,
    /// The line of the process after the step.
    pub line: u32,
    /// The items that were printed, or the targets that were emptied, in words.
    pub list: &'a [u8],
    pub numbers: NextNumbers,
}

// Those behind the first one.
fn others(operands: &[Value]) -> &[Value]
    ensures { result.now ≡ drop 1 operands.now }
{
    match operands {
        [] => operands,
        [_, others @ ..] => others,
    }
}

fn read_verb(asynchronous: bool) -> &'static [u8]
    ensures { result.now ≡ lines.read_verb asynchronous }
{
    if asynchronous { b"take " } else { b"read " }
}

fn store_verb(asynchronous: bool) -> &'static [u8]
    ensures { result.now ≡ lines.store_verb asynchronous }
{
    if asynchronous { b"fill " } else { b"store " }
}

// The variable that the operation names, or its element with these subscripts.
fn accessed<'a>(seen: &StepObservation<'a>, subscripts: &'a [Value]) -> AccessedVariable<'a>
    ensures name { result.name.now ≡ seen.now.variable.now }
    ensures subscripts { result.subscripts.now ≡ subscripts.now }
    ensures place { option_map (λ place. place.now) result.place ≡ words.place_seen seen.now }
{
    AccessedVariable {
        name: seen.variable,
        subscripts,
        place: seen.place,
    }
}

// The words for a read, if there was a value.
fn append_load(
    text: &mut Vec<u8>,
    seen: &StepObservation<'_>,
    variable: Variable,
    subscripts: &[Value],
) -> Result<(), AllocError>
    ensures { OnOk result (text.new.items ≡ text.old.items
        ++ told_of seen.now.value (words.load_text seen.now (is_asynchronous variable) subscripts.now)) }
{
    let Some(value) = seen.value else {
        return Ok(());
    };
    let action = read_verb(variable.is_asynchronous());
    append_accessed(text, action, &accessed(seen, subscripts), value)
}

// The words for FULL, EMPTY, VALUE, SETE or WAITF, if it gave a value.
fn append_test(
    text: &mut Vec<u8>,
    seen: &StepObservation<'_>,
    function: StateFunction,
    subscripts: &[Value],
) -> Result<(), AllocError>
    ensures { OnOk result (text.new.items ≡ text.old.items
        ++ told_of seen.now.value (words.test_text seen.now function subscripts.now)) }
{
    let Some(value) = seen.value else {
        return Ok(());
    };
    append_tested(text, function, &accessed(seen, subscripts), value)
}

// The words for an assignment of the first operand. The others are subscripts.
fn append_store(
    text: &mut Vec<u8>,
    seen: &StepObservation<'_>,
    variable: Variable,
    operands: &[Value],
) -> Result<(), AllocError>
    ensures { OnOk result (text.new.items ≡ text.old.items ++ words.store_text seen.now (is_asynchronous variable) operands.now) }
{
    let action = store_verb(variable.is_asynchronous());
    append_accessed(
        text,
        action,
        &accessed(seen, others(operands)),
        first_operand(operands),
    )
}

// The DO that begins, with its first three operands.
fn append_entered(
    text: &mut Vec<u8>,
    seen: &StepObservation<'_>,
    operands: &[Value],
) -> Result<(), AllocError>
    ensures { OnOk result (text.new.items ≡ text.old.items ++ words.entered_text seen.now operands.now) }
{
    let increment = second(others(operands));
    append_loop(
        text,
        seen.variable,
        first_operand(operands),
        second(operands),
        increment,
    )
}

// The words for the end of an iteration, if the variable has a value then.
fn append_iteration(text: &mut Vec<u8>, seen: &StepObservation<'_>) -> Result<(), AllocError>
    ensures { OnOk result (text.new.items ≡ text.old.items ++ told_of seen.now.value (lines.next_text seen.now.variable.now)) }
{
    let Some(value) = seen.value else {
        return Ok(());
    };
    append_next(text, seen.variable, value)
}

// The value with which a function ended, if it had one.
fn append_result(text: &mut Vec<u8>, seen: &StepObservation<'_>) -> Result<(), AllocError>
    ensures { OnOk result (text.new.items ≡ text.old.items ++ told_of seen.now.value (lines.answer_text seen.now.unit.now)) }
{
    let Some(value) = seen.value else {
        return Ok(());
    };
    append_answer(text, seen.unit, value)
}

// What was printed or emptied, after the word for it.
fn append_listed(text: &mut Vec<u8>, word: &[u8], list: &[u8]) -> Result<(), AllocError>
    ensures { OnOk result (text.new.items ≡ text.old.items ++ (word.now ++ list.now)) }
{
    text.extend_from_slice(word)?;
    text.extend_from_slice(list)?;
    Ok(())
}

/// Appends the words for a step that was no fault, by its operation, its operands, and what was observed of it.
///
/// # Errors
///
/// Only where memory was refused.
pub fn append_told(
    text: &mut Vec<u8>,
    seen: &StepObservation<'_>,
    operation: Operation,
    operands: &[Value],
) -> Result<(), AllocError>
    ensures { OnOk result (text.new.items ≡ text.old.items ++ words.told_text seen.now operation operands.now) }
{
    match operation {
        Operation::Evaluate(
            Evaluation::Load {
                variable,
                subscripts,
            },
        ) => append_load(text, seen, variable, last(operands, subscripts)),
        Operation::Evaluate(
            Evaluation::Test {
                function,
                subscripts,
                ..
            },
        ) => append_test(text, seen, function, last(operands, subscripts)),
        Operation::Store { variable, .. } => append_store(text, seen, variable, operands),
        Operation::Jump { .. } => append_jump(text, seen.line),
        Operation::EnterLoop { .. } => append_entered(text, seen, operands),
        Operation::EndLoop { .. } => append_iteration(text, seen),
        Operation::Answer { .. } => append_result(text, seen),
        Operation::Purge { .. } => append_listed(text, b"purge", seen.list),
        Operation::Print { .. } => append_listed(text, b"print ", seen.list),
        _ => append_plain(text, seen.called, seen.numbers, operation, operands),
    }
}
