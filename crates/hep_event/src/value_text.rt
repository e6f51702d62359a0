//! Values, operators and functions, as Fortran writes them.
ghost use Rattle.std.specs.Prelude.{◌≡◌, ◌++◌, OnOk};
ghost use Rattle.hep_event.specs.ValueTexts as words;

use hep_output::append_number;
use hep_source::{
    ArithmeticOperator, LogicalOperator, Operator, PureFunction, RelationalOperator, Sign,
    StateFunction, Value,
};
use std::alloc::AllocError;

/// Appends a value as PRINT writes it.
///
/// # Errors
///
/// Only where memory was refused.
pub fn append_value(text: &mut Vec<u8>, value: Value) -> Result<(), AllocError>
    ensures { OnOk result (text.new.items ≡ text.old.items ++ words.value_text value) }
{
    match value {
        Value::Int(integer) => append_number(text, integer),
        Value::Truth(true) => text.extend_from_slice(b"T"),
        Value::Truth(false) => text.extend_from_slice(b"F"),
    }
}

// A value after another one.
fn append_further(text: &mut Vec<u8>, value: Value) -> Result<(), AllocError>
    ensures { OnOk result (text.new.items ≡ text.old.items ++ words.further_text value) }
{
    text.extend_from_slice(b",")?;
    append_value(text, value)?;
    Ok(())
}

fn append_all_further(text: &mut Vec<u8>, values: &[Value]) -> Result<(), AllocError>
    ensures { OnOk result (text.new.items ≡ text.old.items ++ words.further_texts values.now) }
{
    for value in values {
        append_further(text, *value)?;
    }
    Ok(())
}

/// Appends values in parentheses, and nothing where there are none.
///
/// # Errors
///
/// Only where memory was refused.
pub fn append_list(text: &mut Vec<u8>, values: &[Value]) -> Result<(), AllocError>
    ensures { OnOk result (text.new.items ≡ text.old.items ++ words.list_text values.now) }
{
    let Some((first, others)) = values.split_first() else {
        return Ok(());
    };
    text.extend_from_slice(b"(")?;
    append_value(text, *first)?;
    append_all_further(text, others)?;
    text.extend_from_slice(b")")?;
    Ok(())
}

pub(crate) fn sign_text(sign: Sign) -> &'static [u8]
    ensures { result.now ≡ words.sign_text sign }
{
    match sign {
        Sign::Plus => b"+",
        Sign::Minus => b"-",
    }
}

fn arithmetic_text(operator: ArithmeticOperator) -> &'static [u8]
    ensures { result.now ≡ words.arithmetic_text operator }
{
    match operator {
        ArithmeticOperator::Add => b"+",
        ArithmeticOperator::Subtract => b"-",
        ArithmeticOperator::Multiply => b"*",
        ArithmeticOperator::Divide => b"/",
        ArithmeticOperator::Power => b"**",
    }
}

fn relational_text(operator: RelationalOperator) -> &'static [u8]
    ensures { result.now ≡ words.relational_text operator }
{
    match operator {
        RelationalOperator::Less => b".LT.",
        RelationalOperator::LessOrEqual => b".LE.",
        RelationalOperator::Equal => b".EQ.",
        RelationalOperator::NotEqual => b".NE.",
        RelationalOperator::Greater => b".GT.",
        RelationalOperator::GreaterOrEqual => b".GE.",
    }
}

fn logical_text(operator: LogicalOperator) -> &'static [u8]
    ensures { result.now ≡ words.logical_text operator }
{
    match operator {
        LogicalOperator::And => b".AND.",
        LogicalOperator::Or => b".OR.",
        LogicalOperator::Equivalent => b".EQV.",
        LogicalOperator::NotEquivalent => b".NEQV.",
    }
}

pub(crate) fn operator_text(operator: Operator) -> &'static [u8]
    ensures { result.now ≡ words.operator_text operator }
{
    match operator {
        Operator::Arithmetic(operator) => arithmetic_text(operator),
        Operator::Relational(operator) => relational_text(operator),
        Operator::Logical(operator) => logical_text(operator),
    }
}

fn arithmetic_verb(operator: ArithmeticOperator) -> &'static [u8]
    ensures { result.now ≡ words.arithmetic_verb operator }
{
    match operator {
        ArithmeticOperator::Add => b"add ",
        ArithmeticOperator::Subtract => b"subtract ",
        ArithmeticOperator::Multiply => b"multiply ",
        ArithmeticOperator::Divide => b"divide ",
        ArithmeticOperator::Power => b"raise ",
    }
}

// The verb of an operator.
pub(crate) fn verb(operator: Operator) -> &'static [u8]
    ensures { result.now ≡ words.verb operator }
{
    match operator {
        Operator::Arithmetic(operator) => arithmetic_verb(operator),
        Operator::Relational(_) => b"compare ",
        Operator::Logical(_) => b"combine ",
    }
}

pub(crate) fn function_text(function: PureFunction) -> &'static [u8]
    ensures { result.now ≡ words.function_text function }
{
    match function {
        PureFunction::AbsoluteValue => b"ABS",
        PureFunction::Remainder => b"MOD",
        PureFunction::TransferOfSign => b"SIGN",
        PureFunction::PositiveDifference => b"DIM",
        PureFunction::Largest => b"MAX",
        PureFunction::Smallest => b"MIN",
    }
}

pub(crate) fn state_function_text(function: StateFunction) -> &'static [u8]
    ensures { result.now ≡ words.state_function_text function }
{
    match function {
        StateFunction::IsFull => b"FULL",
        StateFunction::IsEmpty => b"EMPTY",
        StateFunction::ValueOf => b"VALUE",
        StateFunction::SetEmpty => b"SETE",
        StateFunction::WaitFull => b"WAITF",
    }
}
