//! Reading programs: the statements in order, divided into units.
ghost use Rattle.std.specs.Prelude.{◌≡◌, ℕ, List, IfOk, IfErr};
ghost use Rattle.hep_source.specs.declared.statement.Statement.{Statement};
ghost use Rattle.hep_text.specs.declared.statement.Stmt.{Stmt};
ghost use Rattle.hep_parse.specs.Program as grammar;
ghost use Rattle.hep_parse.specs.Program.{IsProgram, IsFirstFault, IsRead, IsReported, IsTrueFault};
ghost use Rattle.hep_parse.specs.ReadingProgram as reading;
ghost use Rattle.hep_base.specs.Refusals.{Reports};
ghost use Rattle.hep_parse.specs.ReadingProgram.{Answers};

use crate::statement::{form, left_out};
use hep_base::Refusal as ParseFault;
use hep_expression::ReadFailure;
use hep_expression::characters::{Context, Sizes};
use hep_source::{Expr, Form, Program, Sequence, Statement, Unit};
use hep_text::Stmt;
use std::alloc::Global;

/// The part of a program unit to which a statement belongs (X3.9-1978, 3.5).
#[derive(Clone, Copy, PartialEq, Eq)]
pub enum StatementClass {
    /// PROGRAM and SUBROUTINE.
    Header,
    /// IMPLICIT.
    Implicit,
    /// PARAMETER.
    Parameter,
    /// Types, DIMENSION and COMMON.
    Specification,
    /// Executable statements but END, and DATA.
    Action,
    /// END.
    End,
}

impl StatementClass {
    /// The part to which a statement with these conditions and this form belongs. A logical IF is an action.
    fn of(conditions: &[Expr], form: &Form) -> StatementClass
        ensures { result ≡ grammar.class_of conditions.now form.now }
    {
        if !conditions.is_empty() {
            return StatementClass::Action;
        }
        match form {
            Form::Program(_) | Form::Subroutine(_, _) | Form::Function(..) =>
                StatementClass::Header,
            Form::Implicit(_) => StatementClass::Implicit,
            Form::Parameter(_) => StatementClass::Parameter,
            Form::Declare(_, _) | Form::Dimension(_) | Form::Common(_) =>
                StatementClass::Specification,
            Form::End => StatementClass::End,
            _ => StatementClass::Action,
        }
    }
}

/// Whether a unit whose first statement has this form is a main program (X3.9-1978, 14.1).
fn begins_main(form: &Form) -> bool
    ensures { result ≡ grammar.begins_main form.now }
{
    !matches!(form, Form::Subroutine(_, _) | Form::Function(..))
}

/// Which parts of a unit have been read (X3.9-1978, 3.5).
#[derive(Clone, Copy, PartialEq, Eq)]
enum Stage {
    /// No part.
    Start,
    /// Only the header, IMPLICIT or PARAMETER statements.
    Opening,
    /// Specification statements, but no actions.
    Specification,
    /// Actions.
    Actions,
}

impl Stage {
    /// Whether no part has been read.
    fn is_start(self) -> bool
        ensures { result ≡ reading.is_start self }
    {
        matches!(self, Stage::Start)
    }

    /// Whether a part may come next.
    fn admits(self, part: StatementClass) -> bool
        ensures { result ≡ reading.may_follow self part }
    {
        match self {
            Stage::Start => true,
            Stage::Opening => part != StatementClass::Header,
            Stage::Specification => part != StatementClass::Header
                && part != StatementClass::Implicit,
            Stage::Actions => matches!(part, StatementClass::Action | StatementClass::End),
        }
    }

    /// The stage after one more part. After END another unit begins.
    fn rest_after(self, part: StatementClass) -> Stage
        ensures { result ≡ reading.stage_after self part }
    {
        match (self, part) {
            (_, StatementClass::Action) => Stage::Actions,
            (_, StatementClass::End) => Stage::Start,
            (_, StatementClass::Specification) | (Stage::Specification, _) => Stage::Specification,
            _ => Stage::Opening,
        }
    }
}

/// How far a source has been read.
#[derive(Clone, Copy, PartialEq, Eq)]
struct State {
    /// Which parts of the unit have been read.
    stage: Stage,
    /// Whether a main program was read, or has begun.
    has_main: bool,
}

impl State {
    /// The state after one more statement; none where the statement is out of order.
    fn rest_after(self, part: StatementClass, begins_main: bool) -> Option<State>
        ensures { result ≡ reading.state_after_statement self part begins_main }
    {
        let main_begins = self.stage.is_start() && begins_main;
        if !self.stage.admits(part) || main_begins && self.has_main {
            return None;
        }
        Some(State {
            stage: self.stage.rest_after(part),
            has_main: self.has_main || main_begins,
        })
    }
}

/// The refusal of a statement that has no reading even with constants of any size: 202 where the
/// language leaves it out, and else 201. Where memory is refused, the result says so.
#[tactic(auto, unfolding(crate::specs::ReadingProgram::nameless_refusal))]
fn nameless_refusal(alloc: Global, given: &Stmt) -> ParseFault
    ensures { Reports result (reading.nameless_refusal given.now) }
{
    let text = given.text.as_slice();
    let context = Context {
        sizes: Sizes::Any,
        length: text.len(),
    };
    match left_out(alloc, context, text) {
        Ok(word) => ParseFault::named(alloc, 202, given.line, word),
        Err(ReadFailure::NoReading) => ParseFault::refused(alloc, 201, given.line),
        Err(ReadFailure::NoMemory) => ParseFault::NoMemory,
    }
}

/// The refusal of a statement that has no reading: 203 where it has one with constants of any size,
/// and else 202 or 201. Where memory is refused, the result says so.
#[tactic(auto, unfolding(crate::specs::ReadingProgram::refusal_of))]
fn refusal_of(alloc: Global, given: &Stmt) -> ParseFault
    ensures { Reports result (reading.refusal_of given.now) }
{
    match form(alloc, Sizes::Any, given.text.as_slice()).err() {
        None => ParseFault::refused(alloc, 203, given.line),
        Some(ReadFailure::NoReading) => nameless_refusal(alloc, given),
        Some(ReadFailure::NoMemory) => ParseFault::NoMemory,
    }
}

/// Reads a statement from its text, with its line and label.
///
/// # Errors
///
/// 201, 202 or 203 where the text has no reading; [`ParseFault::NoMemory`].
#[tactic(auto, unfolding(crate::specs::ReadingProgram::statement))]
fn statement(alloc: Global, given: &Stmt) -> Result<Statement, ParseFault>
    ensures { Answers (λ x. x) result (reading.statement given.now) }
{
    match form(alloc, Sizes::Fitting, given.text.as_slice()) {
        Ok((conditions, form)) => Ok(Statement {
            line: given.line,
            label: given.label,
            conditions: Sequence::from(conditions),
            form,
        }),
        Err(ReadFailure::NoReading) => Err(refusal_of(alloc, given)),
        Err(ReadFailure::NoMemory) => Err(ParseFault::NoMemory),
    }
}

/// A statement, and the state after it.
///
/// # Errors
///
/// 201, 202 or 203 where the text has no reading; 205 where the statement is out of order; [`ParseFault::NoMemory`].
#[tactic(auto, unfolding(crate::specs::ReadingProgram::placed))]
fn placed(alloc: Global, state: State, given: &Stmt) -> Result<(Statement, State), ParseFault>
    ensures { Answers (λ x. x) result (reading.placed state given.now) }
{
    let read = statement(alloc, given)?;
    let part = StatementClass::of(read.conditions.as_slice(), &read.form);
    match state.rest_after(part, begins_main(&read.form)) {
        Some(next) => Ok((read, next)),
        None => Err(ParseFault::refused(alloc, 205, given.line)),
    }
}

/// Reads the units of the program that these statements form.
///
/// # Errors
///
/// The first refusal, or [`ParseFault::NoMemory`].
fn units(alloc: Global, statements: &[Stmt]) -> Result<Vec<Unit>, ParseFault>
    ensures { Answers (λ x. x.items) result (reading.program statements.now) }
{
    let mut units = Vec::new(alloc);
    let mut unit = Vec::new(alloc);
    let mut state = State {
        stage: Stage::Start,
        has_main: false,
    };
    let mut last_line = 0;
    for given in statements {
        let (read, next) = placed(alloc, state, given)?;
        unit.push(read)?;
        if next.stage.is_start() {
            units.push(Unit::from(unit))?;
            unit = Vec::new(alloc);
        }
        state = next;
        last_line = given.line;
    }
    if !state.stage.is_start() {
        return Err(ParseFault::refused(alloc, 205, last_line));
    }
    if !state.has_main {
        return Err(ParseFault::refused(alloc, 204, 0));
    }
    Ok(units)
}

/// Reads the program that these statements form.
///
/// # Errors
///
/// The first refusal, or [`ParseFault::NoMemory`].
fn program(alloc: Global, statements: &[Stmt]) -> Result<Program, ParseFault>
    ensures { Answers (λ p. p) result (reading.program statements.now) }
{
    let units = units(alloc, statements)?;
    Ok(Program::from(units))
}

/// Reads the program that the statements of a source form.
///
/// # Errors
///
/// [`ParseFault::Refused`] with the first fault, in the order of the statements:
/// - 203 where only the size of its integer constants keeps a statement from being read;
/// - 202 with the word of a statement that the language leaves out;
/// - 201 for any other statement without a reading;
/// - 205 for a statement out of order in its unit, for the first statement of a second main program, and for a last statement that
///   isn't END;
/// - 204 at line 0 where no statement is refused and there is no main program.
///
/// [`ParseFault::NoMemory`] where memory was refused.
pub fn parse(alloc: Global, statements: &[Stmt]) -> Result<Program, ParseFault>
    // The result is the program that the statements form.
    ensures accepted { IfOk result (λ p. IsProgram statements.now p) }
    // Where the statements form a program, the result is that program, unless memory was refused.
    ensures complete { (p : List (List Statement)) → IsProgram statements.now p → IsRead p result }
    // A refusal reports the first fault.
    ensures refused { IfErr result (λ e. IsTrueFault statements.now e) }
    // Where there is a first fault, it is reported, unless memory was refused.
    ensures reported { (number line : ℕ) (name : List ℕ) → IsFirstFault statements.now number line name
        → IsReported number line name result }
{
    program(alloc, statements)
}

/// The statements of a source form at most one program.
pub fn at_most_one_program()
    ensures { (statements : List Stmt) (p q : List (List Statement)) → IsProgram statements p → IsProgram statements q → p ≡ q }
{}
