//! The name at fault in a statement that violates 302: the first name of a part that has the wrong type, or that is an array where a
//! scalar is needed (X3.9-1978, sections 10 to 12).
ghost use Rattle.std.specs.Prelude.{◌≡◌};
ghost use Rattle.hep_conditions.specs.Statements as types;
ghost use Rattle.hep_conditions.specs.Words.{function_types};
ghost use Rattle.hep_check.specs.FormCulprits as words;

use crate::expression_culprits::{
    either, first_name, unlike, wrong_actual, wrong_in, wrong_in_list,
};
use crate::sole_names::lone_declared;
use hep_names::{Meaning, ProgramSymbols, Symbols, function_type};
use hep_source::{
    Declarator, DoControl, Expr, Form, Name, Occurrence, PrintItem, Statement, Target, ValueType,
};
use hep_types::KnownType;
use hep_types::forms::is_scalar_target;
use hep_types::types::{agree, is_of, type_of_name, type_of_tree};

// The name at fault in an expression that must have a type.
fn wrong_as(
    program: &ProgramSymbols,
    symbols: &Symbols,
    wanted: ValueType,
    expression: &Expr,
) -> Option<Occurrence>
    ensures { result ≡ words.wrong_as (function_types program.now) symbols.now wanted expression.now }
{
    either(
        wrong_in(program, symbols, expression),
        unlike(program, symbols, wanted, expression),
    )
}

// The name at fault in the subscripts of a target. A name without subscripts has none.
fn wrong_in_target(
    program: &ProgramSymbols,
    symbols: &Symbols,
    target: &Target,
) -> Option<Occurrence>
    ensures { result ≡ words.wrong_in_target (function_types program.now) symbols.now target.now }
{
    let subscripts = target.subscripts.as_slice();
    if subscripts.is_empty() {
        return None;
    }
    let listed = if symbols.is_array(&target.occurrence.name) {
        Meaning::Element
    } else {
        Meaning::External
    };
    wrong_in_list(program, symbols, listed, &target.occurrence, subscripts)
}

fn type_of_target(program: &ProgramSymbols, symbols: &Symbols, target: &Target) -> KnownType
    ensures { result ≡ types.type_of_target (function_types program.now) symbols.now target.now }
{
    let name = &target.occurrence.name;
    if target.subscripts.as_slice().is_empty() {
        type_of_name(Some(program), symbols, name)
    } else if symbols.is_array(name) {
        Some(symbols.type_of(name))
    } else {
        None
    }
}

// The name, where a test fails.
fn unless(is_met: bool, occurrence: &Occurrence) -> Option<Occurrence>
    ensures { result ≡ words.unless is_met occurrence.now }
{
    if is_met { None } else { Some(*occurrence) }
}

// The name at fault in an assignment: in its target, or else in its value.
fn wrong_assignment(
    program: &ProgramSymbols,
    symbols: &Symbols,
    target: &Target,
    value: &Expr,
) -> Option<Occurrence>
    ensures { result ≡ words.wrong_assignment (function_types program.now) symbols.now target.now value.now }
{
    let place = either(
        unless(is_scalar_target(symbols, target), &target.occurrence),
        wrong_in_target(program, symbols, target),
    );
    let is_agreed = agree(
        type_of_target(program, symbols, target),
        type_of_tree(Some(program), symbols, value),
    );
    let stored = either(
        wrong_in(program, symbols, value),
        unless(is_agreed, &target.occurrence),
    );
    either(place, stored)
}

fn wrong_increment(
    program: &ProgramSymbols,
    symbols: &Symbols,
    increment: &Option<Expr>,
) -> Option<Occurrence>
    ensures { result ≡ words.wrong_increment (function_types program.now) symbols.now increment.now }
{
    match increment {
        Some(expression) => wrong_as(program, symbols, ValueType::Integer, expression),
        None => None,
    }
}

// The name at fault in a DO: in its variable, initial value, terminal value or increment.
fn wrong_control(
    program: &ProgramSymbols,
    symbols: &Symbols,
    control: &DoControl,
) -> Option<Occurrence>
    ensures { result ≡ words.wrong_control (function_types program.now) symbols.now control.now }
{
    let is_scalar = !symbols.is_array(&control.variable.name);
    let initial = wrong_as(program, symbols, ValueType::Integer, &control.initial);
    let limit = wrong_as(program, symbols, ValueType::Integer, &control.limit);
    let increment = wrong_increment(program, symbols, &control.increment);
    either(
        unless(is_scalar, &control.variable),
        either(initial, either(limit, increment)),
    )
}

// Whether a type statement gives a function that the unit references its own type (15.5.1).
fn is_type_of(
    program: &ProgramSymbols,
    symbols: &Symbols,
    value_type: ValueType,
    name: &Name,
) -> bool
    ensures { result ≡ types.is_type_of (function_types program.now) symbols.now value_type name.now }
{
    !symbols.is_referenced(name)
        || agree(Some(Some(value_type)), function_type(Some(program), name))
}

// The first function to which a type statement gives a different type.
fn wrong_declared(
    program: &ProgramSymbols,
    symbols: &Symbols,
    value_type: ValueType,
    declarators: &[Declarator],
) -> Option<Occurrence>
    ensures { result ≡ words.wrong_declared (function_types program.now) symbols.now value_type declarators.now }
{
    for declarator in declarators {
        let occurrence = &declarator.occurrence;
        if !is_type_of(program, symbols, value_type, &occurrence.name) {
            return Some(*occurrence);
        }
    }
    None
}

fn wrong_targets(
    program: &ProgramSymbols,
    symbols: &Symbols,
    targets: &[Target],
) -> Option<Occurrence>
    ensures { result ≡ words.wrong_targets (function_types program.now) symbols.now targets.now }
{
    let mut found = None;
    for target in targets {
        found = either(found, wrong_in_target(program, symbols, target));
    }
    found
}

// The name at fault in an item of PRINT, whose expression must be an integer or logical (12.8.2).
fn wrong_item(program: &ProgramSymbols, symbols: &Symbols, item: &PrintItem) -> Option<Occurrence>
    ensures { result ≡ words.wrong_item (function_types program.now) symbols.now item.now }
{
    match item {
        PrintItem::Expression(expression) => {
            let known_type = type_of_tree(Some(program), symbols, expression);
            let is_printed = is_of(ValueType::Integer, known_type)
                || is_of(ValueType::Logical, known_type);
            let whole = if is_printed {
                None
            } else {
                first_name(expression)
            };
            either(wrong_in(program, symbols, expression), whole)
        }
        PrintItem::Characters(_) => None,
    }
}

fn wrong_items(
    program: &ProgramSymbols,
    symbols: &Symbols,
    items: &[PrintItem],
) -> Option<Occurrence>
    ensures { result ≡ words.wrong_items (function_types program.now) symbols.now items.now }
{
    let mut found = None;
    for item in items {
        found = either(found, wrong_item(program, symbols, item));
    }
    found
}

fn wrong_in_form(program: &ProgramSymbols, symbols: &Symbols, form: &Form) -> Option<Occurrence>
    ensures { result ≡ words.wrong_in_form (function_types program.now) symbols.now form.now }
{
    match form {
        Form::Assign(target, value) => wrong_assignment(program, symbols, target, value),
        Form::ComputedGoTo(_, selector) => {
            wrong_as(program, symbols, ValueType::Integer, selector)
        }
        Form::ArithmeticIf(tested, _) => wrong_as(program, symbols, ValueType::Integer, tested),
        Form::IfThen(condition) | Form::ElseIf(condition) => {
            wrong_as(program, symbols, ValueType::Logical, condition)
        }
        Form::Do(control) => wrong_control(program, symbols, control),
        Form::Declare(value_type, declarators) => {
            wrong_declared(program, symbols, *value_type, declarators.as_slice())
        }
        Form::Call(_, actuals) | Form::Create(_, actuals) => {
            wrong_actual(program, symbols, actuals.as_slice())
        }
        Form::Purge(targets) => wrong_targets(program, symbols, targets.as_slice()),
        Form::Print(items) => wrong_items(program, symbols, items.as_slice()),
        _ => None,
    }
}

fn wrong_conditions(
    program: &ProgramSymbols,
    symbols: &Symbols,
    conditions: &[Expr],
) -> Option<Occurrence>
    ensures { result ≡ words.wrong_conditions (function_types program.now) symbols.now conditions.now }
{
    let mut found = None;
    for condition in conditions {
        found = either(
            found,
            wrong_as(program, symbols, ValueType::Logical, condition),
        );
    }
    found
}

/// The first name of a part of a statement that has the wrong type, or that is an array where a scalar is needed. Else the only name of
/// a specification or DATA statement, if it has a single one.
pub(crate) fn mistyped(
    program: &ProgramSymbols,
    symbols: &Symbols,
    statement: &Statement,
) -> Option<Occurrence>
    ensures { result ≡ words.mistyped (function_types program.now) symbols.now statement.now }
{
    let tested = wrong_conditions(program, symbols, statement.conditions.as_slice());
    let form = wrong_in_form(program, symbols, &statement.form);
    either(tested, either(form, lone_declared(&statement.form)))
}
