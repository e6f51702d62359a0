//! Reading statements: the form that a statement's text has.
ghost use Rattle.std.specs.Prelude.{◌≡◌, if◌then◌else◌, None, Some, length};
ghost use Rattle.hep_expression.specs.Reading.{Gives};
ghost use Rattle.hep_parse.specs.ReadingProgram as programs;
ghost use Rattle.hep_parse.specs.ReadingStatement as reading;
ghost use Rattle.hep_parse.specs.Rules as rules;

use crate::constant::constant_after;
use crate::declaration::{
    common, data_statement, declare, dimension, function_header, implicit, parameter,
    program_header, subroutine_header,
};
use crate::keyword::{Keyword, keyword_at, left_out_word_at};
use crate::list::{Readable, after_optional_comma, enclosed, listed, name_and_arguments};
use crate::rule::{Rule, after_if, rule_of};
use hep_expression::ReadFailure;
use hep_expression::characters::{Context, Sizes, after, after_text, all_read, occurrence_at};
use hep_expression::expression::{expression_at, whole_expression};
use hep_expression::label::{few_digits_at, label_at};
use hep_source::{
    DoControl, Expr, Form, PrintItem, Sequence, SignLabels, Target, ValueType, is_executable,
};
use std::alloc::Global;

/// The list of `PRINT *` (X3.9-1978, 12.8), after the star.
///
/// # Errors
///
/// [`ReadFailure::NoReading`] where the text has no such form, or [`ReadFailure::NoMemory`].
#[tactic(auto, unfolding(crate::specs::ReadingStatement::print))]
fn print(alloc: Global, context: Context, s: &[u8]) -> Result<Form, ReadFailure>
    ensures { Gives (λ x. x) result (reading.print context s.now) }
{
    let Some(list) = after(b',', s) else {
        let nothing = Sequence::from(Vec::new(alloc));
        return all_read(Form::Print(nothing), s);
    };
    let (items, rest) = listed::<PrintItem>(alloc, context, list)?;
    all_read(Form::Print(Sequence::from(items)), rest)
}

/// A whole assignment (10.1 and 10.2).
///
/// # Errors
///
/// [`ReadFailure::NoReading`] where the text has no such form, or [`ReadFailure::NoMemory`].
#[tactic(auto, unfolding(crate::specs::ReadingStatement::assignment))]
fn assignment(alloc: Global, context: Context, s: &[u8]) -> Result<Form, ReadFailure>
    ensures { Gives (λ x. x) result (reading.assignment context s.now) }
{
    let (target, rest) = Target::read(alloc, context, s)?;
    let rest_after = after(b'=', rest).ok_or(ReadFailure::NoReading)?;
    let value = whole_expression(alloc, context, rest_after)?;
    Ok(Form::Assign(target, value))
}

/// The labels of a computed GO TO and its expression (11.2).
#[tactic(auto, unfolding(crate::specs::ReadingStatement::computed_go_to))]
fn computed_go_to(alloc: Global, context: Context, s: &[u8]) -> Result<Form, ReadFailure>
    ensures { Gives (λ x. x) result (reading.computed_go_to context s.now) }
{
    let (labels, rest) = enclosed::<u32>(alloc, context, s)?;
    let index = whole_expression(alloc, context, after_optional_comma(rest))?;
    Ok(Form::ComputedGoTo(Sequence::from(labels), index))
}

/// What follows GO TO: a label (11.1), or labels in parentheses and an expression (11.2).
///
/// # Errors
///
/// [`ReadFailure::NoReading`] where the text has no such form, or [`ReadFailure::NoMemory`].
#[tactic(auto, unfolding(crate::specs::ReadingStatement::go_to))]
fn go_to(alloc: Global, context: Context, s: &[u8]) -> Result<Form, ReadFailure>
    ensures { Gives (λ x. x) result (reading.go_to context s.now) }
{
    match label_at(s) {
        Some((label, rest)) => all_read(Form::GoTo(label), rest),
        None => computed_go_to(alloc, context, s),
    }
}

/// The labels of an arithmetic IF (11.4): three labels with commas between them, up to the end of the text.
fn sign_labels(s: &[u8]) -> Option<SignLabels>
    ensures { result ≡ reading.sign_labels s.now }
{
    let (negative, rest) = label_at(s)?;
    let (zero, rest) = label_at(after(b',', rest)?)?;
    let (positive, rest) = label_at(after(b',', rest)?)?;
    let labels = SignLabels {
        negative,
        zero,
        positive,
    };
    match rest {
        [] => Some(labels),
        _ => None,
    }
}

/// A condition and its closing parenthesis, and what follows them.
#[tactic(auto, unfolding(crate::specs::ReadingStatement::condition_at))]
fn condition_at(alloc: Global, context: Context, s: &[u8]) -> Result<(Expr, &[u8]), ReadFailure>
    ensures { Gives (λ x. (x.0, x.1.now)) result (reading.condition_at context s.now) }
{
    let (condition, rest) = expression_at(alloc, context, s)?;
    match after(b')', rest) {
        Some(rest_after) => Ok((condition, rest_after)),
        None => Err(ReadFailure::NoReading),
    }
}

/// The condition of an IF, with which the text begins, and what follows its closing parenthesis.
///
/// # Errors
///
/// [`ReadFailure::NoReading`] where the text has no such form, or [`ReadFailure::NoMemory`].
fn if_condition_at(alloc: Global, context: Context, s: &[u8]) -> Result<(Expr, &[u8]), ReadFailure>
    ensures { Gives (λ x. (x.0, x.1.now)) result (reading.if_condition_at context s.now) }
{
    match after_text(b"IF(", s) {
        Some(inside) => condition_at(alloc, context, inside),
        None => Err(ReadFailure::NoReading),
    }
}

/// A whole arithmetic IF (11.4).
///
/// # Errors
///
/// [`ReadFailure::NoReading`] where the text has no such form, or [`ReadFailure::NoMemory`].
#[tactic(auto, unfolding(crate::specs::ReadingStatement::arithmetic_if))]
fn arithmetic_if(alloc: Global, context: Context, s: &[u8]) -> Result<Form, ReadFailure>
    ensures { Gives (λ x. x) result (reading.arithmetic_if context s.now) }
{
    let (condition, rest) = if_condition_at(alloc, context, s)?;
    match sign_labels(rest) {
        Some(labels) => Ok(Form::ArithmeticIf(condition, labels)),
        None => Err(ReadFailure::NoReading),
    }
}

/// The condition, where THEN and nothing else follows it.
fn before_then(condition: Expr, rest: &[u8]) -> Result<Expr, ReadFailure>
    ensures { Gives (λ x. x) result (reading.before_then (condition, rest.now)) }
{
    match after_text(b"THEN", rest) {
        Some(rest_after) => all_read(condition, rest_after),
        None => Err(ReadFailure::NoReading),
    }
}

/// A whole block IF statement (11.6).
///
/// # Errors
///
/// [`ReadFailure::NoReading`] where the text has no such form, or [`ReadFailure::NoMemory`].
#[tactic(auto, unfolding(crate::specs::ReadingStatement::if_then))]
fn if_then(alloc: Global, context: Context, s: &[u8]) -> Result<Form, ReadFailure>
    ensures { Gives (λ x. x) result (reading.if_then context s.now) }
{
    let (condition, rest) = if_condition_at(alloc, context, s)?;
    let condition = before_then(condition, rest)?;
    Ok(Form::IfThen(condition))
}

/// What follows `ELSEIF(` (11.7).
///
/// # Errors
///
/// [`ReadFailure::NoReading`] where the text has no such form, or [`ReadFailure::NoMemory`].
#[tactic(auto, unfolding(crate::specs::ReadingStatement::else_if))]
fn else_if(alloc: Global, context: Context, s: &[u8]) -> Result<Form, ReadFailure>
    ensures { Gives (λ x. x) result (reading.else_if context s.now) }
{
    let (condition, rest) = condition_at(alloc, context, s)?;
    let condition = before_then(condition, rest)?;
    Ok(Form::ElseIf(condition))
}

/// The terminal value of a DO and its increment, if it has one.
#[tactic(auto, unfolding(crate::specs::ReadingStatement::limits))]
fn limits(alloc: Global, context: Context, s: &[u8]) -> Result<(Expr, Option<Expr>), ReadFailure>
    ensures { Gives (λ x. x) result (reading.limits context s.now) }
{
    let (limit, rest) = expression_at(alloc, context, s)?;
    match after(b',', rest) {
        Some(rest_after) => {
            let increment = whole_expression(alloc, context, rest_after)?;
            Ok((limit, Some(increment)))
        }
        None => all_read((limit, None), rest),
    }
}

/// What follows DO (11.10).
///
/// # Errors
///
/// [`ReadFailure::NoReading`] where the text has no such form, or [`ReadFailure::NoMemory`].
#[tactic(auto, unfolding(crate::specs::ReadingStatement::do_loop))]
fn do_loop(alloc: Global, context: Context, s: &[u8]) -> Result<Form, ReadFailure>
    ensures { Gives (λ x. x) result (reading.do_loop context s.now) }
{
    let (terminal, rest) = label_at(s).ok_or(ReadFailure::NoReading)?;
    let (variable, rest) = occurrence_at(context, after_optional_comma(rest)).ok_or(
        ReadFailure::NoReading,
    )?;
    let rest = after(b'=', rest).ok_or(ReadFailure::NoReading)?;
    let (initial, rest) = expression_at(alloc, context, rest)?;
    let rest = after(b',', rest).ok_or(ReadFailure::NoReading)?;
    let (limit, increment) = limits(alloc, context, rest)?;
    Ok(Form::Do(DoControl {
        terminal,
        variable,
        initial,
        limit,
        increment,
    }))
}

/// What follows CALL (15.6.2): the name of a subroutine, and arguments.
///
/// # Errors
///
/// [`ReadFailure::NoReading`] where the text has no such form, or [`ReadFailure::NoMemory`].
#[tactic(auto, unfolding(crate::specs::ReadingStatement::call))]
fn call(alloc: Global, context: Context, s: &[u8]) -> Result<Form, ReadFailure>
    ensures { Gives (λ x. x) result (reading.call context s.now) }
{
    let (subroutine, actuals) = name_and_arguments::<Expr>(alloc, context, s)?;
    Ok(Form::Call(subroutine, Sequence::from(actuals)))
}

/// What follows CREATE (docs/LANGUAGE.md): the name of a subroutine, and arguments.
///
/// # Errors
///
/// [`ReadFailure::NoReading`] where the text has no such form, or [`ReadFailure::NoMemory`].
#[tactic(auto, unfolding(crate::specs::ReadingStatement::create))]
fn create(alloc: Global, context: Context, s: &[u8]) -> Result<Form, ReadFailure>
    ensures { Gives (λ x. x) result (reading.create context s.now) }
{
    let (subroutine, actuals) = name_and_arguments::<Expr>(alloc, context, s)?;
    Ok(Form::Create(subroutine, Sequence::from(actuals)))
}

/// What follows PURGE (docs/LANGUAGE.md): the variables, elements and arrays that become empty.
///
/// # Errors
///
/// [`ReadFailure::NoReading`] where the text has no such form, or [`ReadFailure::NoMemory`].
#[tactic(auto, unfolding(crate::specs::ReadingStatement::purge))]
fn purge(alloc: Global, context: Context, s: &[u8]) -> Result<Form, ReadFailure>
    ensures { Gives (λ x. x) result (reading.purge context s.now) }
{
    let (targets, rest) = listed::<Target>(alloc, context, s)?;
    all_read(Form::Purge(Sequence::from(targets)), rest)
}

/// What follows STOP (11.12): nothing, one to five digits, or a character constant.
///
/// # Errors
///
/// [`ReadFailure::NoReading`] where the text has no such form, or [`ReadFailure::NoMemory`].
#[tactic(auto, unfolding(crate::specs::ReadingStatement::stop))]
fn stop(alloc: Global, s: &[u8]) -> Result<Form, ReadFailure>
    ensures { Gives (λ x. x) result (reading.stop s.now) }
{
    let [_, ..] = s else { return Ok(Form::Stop) };
    if let Some((_digits, rest)) = few_digits_at(s) {
        return all_read(Form::Stop, rest);
    }
    let rest_after = after(b'\'', s).ok_or(ReadFailure::NoReading)?;
    let (_characters, rest) = constant_after(alloc, rest_after)?;
    all_read(Form::Stop, rest)
}

/// The form of a header, a specification statement or DATA, from its word and the text after the word.
fn declaration(
    alloc: Global,
    context: Context,
    keyword: Keyword,
    s: &[u8],
) -> Result<Form, ReadFailure>
    ensures { Gives (λ x. x) result (reading.declaration context keyword s.now) }
{
    match keyword {
        Keyword::Program => program_header(context, s),
        Keyword::Subroutine => subroutine_header(alloc, context, s),
        Keyword::IntegerFunction => { function_header(alloc, context, Some(ValueType::Integer), s) }
        Keyword::LogicalFunction => { function_header(alloc, context, Some(ValueType::Logical), s) }
        Keyword::Function => function_header(alloc, context, None, s),
        Keyword::Implicit => implicit(alloc, context, s),
        Keyword::Integer => declare(alloc, context, ValueType::Integer, s),
        Keyword::Logical => declare(alloc, context, ValueType::Logical, s),
        Keyword::Dimension => dimension(alloc, context, s),
        Keyword::Common => common(alloc, context, s),
        Keyword::Parameter => parameter(alloc, context, s),
        Keyword::Data => data_statement(alloc, context, s),
        _ => Err(ReadFailure::NoReading),
    }
}

/// The form of a statement, from its word and the text after the word.
fn after_word(
    alloc: Global,
    context: Context,
    keyword: Keyword,
    s: &[u8],
) -> Result<Form, ReadFailure>
    ensures { Gives (λ x. x) result (reading.after_word context keyword s.now) }
{
    match keyword {
        Keyword::GoTo => go_to(alloc, context, s),
        Keyword::ElseIf => else_if(alloc, context, s),
        Keyword::Else => all_read(Form::Else, s),
        Keyword::EndIf => all_read(Form::EndIf, s),
        Keyword::End => all_read(Form::End, s),
        Keyword::Do => do_loop(alloc, context, s),
        Keyword::Call => call(alloc, context, s),
        Keyword::Create => create(alloc, context, s),
        Keyword::Purge => purge(alloc, context, s),
        Keyword::Print => print(alloc, context, s),
        Keyword::Continue => all_read(Form::Continue, s),
        Keyword::Return => all_read(Form::Return, s),
        Keyword::Resume => all_read(Form::Resume, s),
        Keyword::Stop => stop(alloc, s),
        Keyword::Program
        | Keyword::Subroutine
        | Keyword::IntegerFunction
        | Keyword::LogicalFunction
        | Keyword::Function
        | Keyword::Implicit
        | Keyword::Integer
        | Keyword::Logical
        | Keyword::Dimension
        | Keyword::Common
        | Keyword::Parameter
        | Keyword::Data => declaration(alloc, context, keyword, s),
    }
}

/// The form of a statement that begins with a word.
#[tactic(auto, unfolding(crate::specs::ReadingStatement::worded))]
fn worded(alloc: Global, context: Context, s: &[u8]) -> Result<Form, ReadFailure>
    ensures { Gives (λ x. x) result (reading.worded context s.now) }
{
    match keyword_at(s) {
        Some((keyword, rest)) => after_word(alloc, context, keyword, rest),
        None => Err(ReadFailure::NoReading),
    }
}

/// The form of a statement that is no logical IF, by its rule.
fn form_by_rule(alloc: Global, context: Context, s: &[u8]) -> Result<Form, ReadFailure>
    ensures { Gives (λ x. x) result (reading.form_by context (rules.rule_of s.now) s.now) }
{
    match rule_of(s) {
        Rule::Assignment => assignment(alloc, context, s),
        Rule::BlockIf => if_then(alloc, context, s),
        Rule::SignIf => arithmetic_if(alloc, context, s),
        Rule::LogicalIf | Rule::Unclosed => Err(ReadFailure::NoReading),
        Rule::Worded => worded(alloc, context, s),
    }
}

/// The condition of a logical IF (X3.9-1978, 11.5), and the text of the statement within it.
///
/// # Errors
///
/// [`ReadFailure::NoReading`] where the text has no such form, or [`ReadFailure::NoMemory`].
#[tactic(auto, unfolding(crate::specs::ReadingStatement::logical_if))]
pub fn logical_if(alloc: Global, context: Context, s: &[u8]) -> Result<(Expr, &[u8]), ReadFailure>
    ensures { Gives (λ x. (x.0, x.1.now)) result (reading.logical_if context s.now) }
{
    let Rule::LogicalIf = rule_of(s) else {
        return Err(ReadFailure::NoReading);
    };
    let (condition, rest) = if_condition_at(alloc, context, s)?;
    match after_if(s) {
        Some(held) if rest == held => Ok((condition, rest)),
        _ => Err(ReadFailure::NoReading),
    }
}

/// The conditions of logical IFs, each within the one before, and the text of the innermost statement. This is
/// the whole text where the statement is no logical IF.
#[tactic(auto, using(crate::proofs::ConditionLoops::ends, crate::proofs::ConditionLoops::is_over))]
fn conditions(alloc: Global, context: Context, s: &[u8]) -> Result<(Vec<Expr>, &[u8]), ReadFailure>
    ensures { Gives (λ x. (x.0.items, x.1.now)) result (Some (reading.conditions context (length s.now) s.now)) }
{
    let mut conditions = Vec::new(alloc);
    let mut rest = s;
    for _turn in 0..s.len() {
        match logical_if(alloc, context, rest) {
            Ok((condition, held)) => {
                conditions.push(condition)?;
                rest = held;
            }
            Err(ReadFailure::NoReading) => return Ok((conditions, rest)),
            Err(ReadFailure::NoMemory) => return Err(ReadFailure::NoMemory),
        }
    }
    Ok((conditions, rest))
}

/// Whether a form may stand after these conditions.
fn may_stand(conditions: &[Expr], form: &Form) -> bool
    ensures { result ≡ reading.may_stand conditions.now form.now }
{
    conditions.is_empty() || is_executable(form)
}

/// Answers with what was read, where it is allowed, and else with [`ReadFailure::NoReading`].
fn standing<T: Drop>(is_allowed: bool, read: T) -> Result<T, ReadFailure>
    ensures { Gives (λ x. x) result (if is_allowed then Some read else None) }
{
    if is_allowed {
        Ok(read)
    } else {
        Err(ReadFailure::NoReading)
    }
}

/// The conditions of logical IFs and the form of the statement within them, from a whole text. A logical IF contains an executable
/// statement.
///
/// # Errors
///
/// [`ReadFailure::NoReading`] where the text has no such form, or [`ReadFailure::NoMemory`].
#[tactic(auto, unfolding(crate::specs::ReadingStatement::form))]
pub fn form(alloc: Global, sizes: Sizes, text: &[u8]) -> Result<(Vec<Expr>, Form), ReadFailure>
    ensures { Gives (λ x. (x.0.items, x.1)) result (reading.form sizes text.now) }
{
    let context = Context {
        sizes,
        length: text.len(),
    };
    let (conditions, statement) = conditions(alloc, context, text)?;
    let form = form_by_rule(alloc, context, statement)?;
    standing(may_stand(&conditions, &form), (conditions, form))
}

/// The name of the word with which the innermost statement begins, after the conditions of logical IFs. The language leaves
/// that statement out.
///
/// # Errors
///
/// [`ReadFailure::NoReading`] where it begins with no such word, or [`ReadFailure::NoMemory`].
#[tactic(auto, using(crate::proofs::LeftOut::goes_on, crate::proofs::LeftOut::condition_fails, crate::proofs::LeftOut::begins_with_word, crate::proofs::LeftOut::begins_otherwise, crate::proofs::LeftOut::turns_are_over))]
pub fn left_out(alloc: Global, context: Context, s: &[u8]) -> Result<&'static [u8], ReadFailure>
    ensures { Gives (λ x. x.now) result (programs.left_out context (length s.now) s.now) }
{
    let mut rest = s;
    for _turn in 0..s.len() {
        match rule_of(rest) {
            Rule::LogicalIf => {
                let (_, rest_after) = logical_if(alloc, context, rest)?;
                rest = rest_after;
            }
            Rule::Worded => return left_out_word_at(rest),
            _ => return Err(ReadFailure::NoReading),
        }
    }
    Err(ReadFailure::NoReading)
}
