//! Types in executable statements, and of functions in type statements (X3.9-1978, sections 10, 11, 12 and 15.5); the arguments of
//! FULL, EMPTY, VALUE, SETE and WAITF, and the targets of PURGE (docs/LANGUAGE.md, 8 and 9).
ghost use Rattle.std.specs.Prelude.{◌≡◌, option_to_list, map};
ghost use Rattle.std.specs.List.{list_all};
ghost use Rattle.hep_machine.specs.Words.{names_declared, trees_of};
ghost use Rattle.hep_conditions.specs.Statements as types;
ghost use Rattle.hep_conditions.specs.Arguments as conditions;
ghost use Rattle.hep_conditions.specs.Words.{function_types, targets_purged};
ghost use Rattle.hep_names.specs.Functions.{functions_of};
ghost use Rattle.hep_names.specs.Meanings.{meaning};
ghost use Rattle.hep_names.specs.Lists.{listed};
ghost use Rattle.hep_types.specs.CallPasses as passes;

use crate::argument_association::fits_reference;
use crate::types::{
    KnownType, agree, are_actuals, is_list_typed, is_of, is_typed, is_typed_as, type_of_name,
    type_of_tree,
};
use hep_names::{Meaning, NameWithList, ProgramSymbols, Symbols, function_type, is_function_in};
use hep_source::{Declarator, DoControl, Expr, Form, Name, Node, PrintItem, Target, ValueType};

/// Whether the subscripts of a target have the right types.
pub fn is_target_typed(
    functions: Option<&ProgramSymbols>,
    symbols: &Symbols,
    target: &Target,
) -> bool
    ensures { result ≡ types.is_target_typed (functions_of functions.entry) symbols.now target.now }
{
    let name = &target.occurrence.name;
    let subscripts = target.subscripts.as_slice();
    if subscripts.is_empty() {
        return true;
    }
    let listed = if symbols.is_array(name) {
        Meaning::Element
    } else {
        Meaning::External
    };
    is_list_typed(functions, symbols, listed, name, subscripts)
}

fn are_targets_typed(
    functions: Option<&ProgramSymbols>,
    symbols: &Symbols,
    targets: &[Target],
) -> bool
    ensures { result ≡ list_all (types.is_target_typed (functions_of functions.entry) symbols.now) targets.now }
{
    for target in targets {
        if !is_target_typed(functions, symbols, target) {
            return false;
        }
    }
    true
}

/// A target is a scalar: a variable that is no array, or an element of one.
pub fn is_scalar_target(symbols: &Symbols, target: &Target) -> bool
    ensures { result ≡ types.is_scalar_target symbols.now target.now }
{
    !target.subscripts.as_slice().is_empty() || !symbols.is_array(&target.occurrence.name)
}

fn type_of_target(
    functions: Option<&ProgramSymbols>,
    symbols: &Symbols,
    target: &Target,
) -> KnownType
    ensures { result ≡ types.type_of_target (functions_of functions.entry) symbols.now target.now }
{
    let name = &target.occurrence.name;
    if target.subscripts.as_slice().is_empty() {
        type_of_name(functions, symbols, name)
    } else if symbols.is_array(name) {
        Some(symbols.type_of(name))
    } else {
        None
    }
}

// Whether an assignment has the same type on both sides (10.1 and 10.2).
fn is_assignment_typed(
    functions: Option<&ProgramSymbols>,
    symbols: &Symbols,
    target: &Target,
    value: &Expr,
) -> bool
    ensures { result ≡ types.is_form_typed (functions_of functions.entry) symbols.now (Form.Assign target.now value.now) }
{
    is_scalar_target(symbols, target)
        && is_target_typed(functions, symbols, target)
        && is_typed(functions, symbols, value)
        && agree(
            type_of_target(functions, symbols, target),
            type_of_tree(functions, symbols, value),
        )
}

fn is_some_integer(
    functions: Option<&ProgramSymbols>,
    symbols: &Symbols,
    expression: &Option<Expr>,
) -> bool
    ensures { result ≡ list_all (types.is_typed_as (functions_of functions.entry) symbols.now ValueType.Integer) (option_to_list expression.now) }
{
    match expression {
        Some(expression) => is_typed_as(functions, symbols, ValueType::Integer, expression),
        None => true,
    }
}

fn is_control_typed(
    functions: Option<&ProgramSymbols>,
    symbols: &Symbols,
    control: &DoControl,
) -> bool
    ensures { result ≡ types.is_form_typed (functions_of functions.entry) symbols.now (Form.Do control.now) }
{
    !symbols.is_array(&control.variable.name)
        && is_typed_as(functions, symbols, ValueType::Integer, &control.initial)
        && is_typed_as(functions, symbols, ValueType::Integer, &control.limit)
        && is_some_integer(functions, symbols, &control.increment)
}

// Whether a printed expression is an integer or logical (12.8.2).
fn is_item_typed(functions: Option<&ProgramSymbols>, symbols: &Symbols, item: &PrintItem) -> bool
    ensures { result ≡ types.is_item_typed (functions_of functions.entry) symbols.now item.now }
{
    match item {
        PrintItem::Expression(expression) => {
            let known_type = type_of_tree(functions, symbols, expression);
            is_typed(functions, symbols, expression)
                && (is_of(ValueType::Integer, known_type) || is_of(ValueType::Logical, known_type))
        }
        PrintItem::Characters(_) => true,
    }
}

fn are_items_typed(
    functions: Option<&ProgramSymbols>,
    symbols: &Symbols,
    items: &[PrintItem],
) -> bool
    ensures { result ≡ list_all (types.is_item_typed (functions_of functions.entry) symbols.now) items.now }
{
    for item in items {
        if !is_item_typed(functions, symbols, item) {
            return false;
        }
    }
    true
}

// Whether a type statement gives a function that the unit references its own type (15.5.1).
fn is_type_of(
    functions: Option<&ProgramSymbols>,
    symbols: &Symbols,
    value_type: ValueType,
    name: &Name,
) -> bool
    ensures { result ≡ types.is_type_of (functions_of functions.entry) symbols.now value_type name.now }
{
    !symbols.is_referenced(name) || agree(Some(Some(value_type)), function_type(functions, name))
}

fn are_types_of(
    functions: Option<&ProgramSymbols>,
    symbols: &Symbols,
    value_type: ValueType,
    declarators: &[Declarator],
) -> bool
    ensures { result ≡ list_all (types.is_type_of (functions_of functions.entry) symbols.now value_type) (names_declared declarators.now) }
{
    for declarator in declarators {
        if !is_type_of(functions, symbols, value_type, &declarator.occurrence.name) {
            return false;
        }
    }
    true
}

/// Whether the operands of an executable statement have the right types, and a type statement gives functions their own types.
pub fn is_form_typed(functions: Option<&ProgramSymbols>, symbols: &Symbols, form: &Form) -> bool
    ensures { result ≡ types.is_form_typed (functions_of functions.entry) symbols.now form.now }
{
    match form {
        Form::Assign(target, value) => is_assignment_typed(functions, symbols, target, value),
        Form::ComputedGoTo(_, selector) => is_typed_as(
            functions,
            symbols,
            ValueType::Integer,
            selector,
        ),
        Form::ArithmeticIf(tested, _) => is_typed_as(
            functions,
            symbols,
            ValueType::Integer,
            tested,
        ),
        Form::IfThen(condition) => is_typed_as(functions, symbols, ValueType::Logical, condition),
        Form::ElseIf(condition) => is_typed_as(functions, symbols, ValueType::Logical, condition),
        Form::Do(control) => is_control_typed(functions, symbols, control),
        Form::Declare(value_type, declarators) => {
            are_types_of(functions, symbols, *value_type, declarators.as_slice())
        }
        Form::Call(_, actuals) => are_actuals(functions, symbols, actuals.as_slice()),
        Form::Create(_, actuals) => are_actuals(functions, symbols, actuals.as_slice()),
        Form::Purge(targets) => are_targets_typed(functions, symbols, targets.as_slice()),
        Form::Print(items) => are_items_typed(functions, symbols, items.as_slice()),
        _ => true,
    }
}

// Whether an argument is an asynchronous variable, or an element of an asynchronous array. Its class isn't computed:
// the class has a type, which isn't needed here.
#[tactic(auto, using(crate::proofs::CallPasses::element_given))]
fn is_asynchronous_scalar(program: &ProgramSymbols, symbols: &Symbols, actual: &Expr) -> bool
    ensures { result ≡ conditions.is_asynchronous_scalar (function_types program.now) (conditions.actual_class (function_types program.now) symbols.now actual.now) }
{
    match &actual.node {
        Node::Occurrence(occurrence) => {
            let name = &occurrence.name;
            name.asynchronous
                && !symbols.is_constant_name(name)
                && !is_function_in(Some(program), symbols, name)
                && !symbols.is_array(name)
        }
        Node::WithList(occurrence, _) => {
            occurrence.name.asynchronous && symbols.is_array(&occurrence.name)
        }
        _ => false,
    }
}

fn is_test_typed(
    program: &ProgramSymbols,
    symbols: &Symbols,
    listed: Meaning,
    arguments: &[Expr],
) -> bool
    ensures { result ≡ conditions.is_test_typed (function_types program.now) symbols.now (meaning listed) (trees_of arguments.now) }
{
    match (listed, arguments) {
        (Meaning::State(_), [tested, ..]) => is_asynchronous_scalar(program, symbols, tested),
        _ => true,
    }
}

// Whether the argument of FULL, EMPTY, VALUE, SETE or WAITF is an asynchronous scalar.
fn is_reference_given(program: &ProgramSymbols, symbols: &Symbols, reference: &NameWithList) -> bool
    ensures { result ≡ conditions.is_reference_given (function_types program.now) symbols.now (listed reference.now) }
{
    is_test_typed(
        program,
        symbols,
        symbols.listed_meaning(&reference.occurrence.name),
        reference.arguments,
    )
}

/// Whether the list of a name fits the function: one of the program, or FULL, EMPTY, VALUE, SETE or WAITF.
pub fn is_given(program: &ProgramSymbols, symbols: &Symbols, reference: &NameWithList) -> bool
    ensures { result ≡ passes.is_given program.now symbols.now (listed reference.now) }
{
    fits_reference(program, symbols, reference) && is_reference_given(program, symbols, reference)
}

pub(crate) fn are_references_given(
    program: &ProgramSymbols,
    symbols: &Symbols,
    references: &[NameWithList],
) -> bool
    ensures { result ≡ list_all (conditions.is_reference_given (function_types program.now) symbols.now) (map listed references.now) }
{
    for reference in references {
        if !is_reference_given(program, symbols, reference) {
            return false;
        }
    }
    true
}

/// Whether a target may be purged: it is an asynchronous variable, array or element, and no named constant.
pub fn is_purgeable(symbols: &Symbols, target: &Target) -> bool
    ensures { result ≡ passes.is_purgeable symbols.now target.now }
{
    let name = &target.occurrence.name;
    name.asynchronous
        && !symbols.is_constant_name(name)
        && (target.subscripts.as_slice().is_empty() || symbols.is_array(name))
}

fn are_purgeable(symbols: &Symbols, targets: &[Target]) -> bool
    ensures { result ≡ list_all (passes.is_purgeable symbols.now) targets.now }
{
    for target in targets {
        if !is_purgeable(symbols, target) {
            return false;
        }
    }
    true
}

// Whether a statement purges only such targets.
pub(crate) fn are_targets_purgeable(symbols: &Symbols, form: &Form) -> bool
    ensures { result ≡ list_all (passes.is_purgeable symbols.now) (targets_purged form.now) }
{
    match form {
        Form::Purge(targets) => are_purgeable(symbols, targets.as_slice()),
        _ => true,
    }
}
