//! Types of expressions (X3.9-1978, 6.1.4, 6.3.3, 6.4.2, 15.5 and 15.10). The functions of the program are an optional argument: for
//! constant expressions there are none.
ghost use Rattle.std.specs.Prelude.{◌≡◌};
ghost use Rattle.hep_machine.specs.Words.{trees_of};
ghost use Rattle.hep_conditions.specs.Statements as types;
ghost use Rattle.hep_names.specs.Functions.{functions_of};
ghost use Rattle.hep_names.specs.Meanings.{meaning};
ghost use Rattle.hep_types.specs.Types as walks;

use hep_conditions::types::same_declared;
use hep_names::{Meaning, ProgramSymbols, Symbols, function_type, is_function_in};
use hep_source::{Expr, Name, Node, Operator, StateFunction, Value, ValueType};

/// The type of an expression, as far as it is known: integer, logical, or `Some(None)` for real, which the language
/// leaves out. None where another violation leaves the type open.
pub type KnownType = Option<Option<ValueType>>;

// The result of the walk over an expression.
#[derive(Clone, Copy)]
struct Operand {
    // The type of the expression.
    known_type: KnownType,
    // Whether each operand in it has the right type and no array is used as a scalar.
    is_typed: bool,
}

impl Operand {
    fn is_typed_as(self, value_type: ValueType) -> bool
        ensures { result ≡ walks.is_typed_by self.is_typed value_type self.known_type }
    {
        self.is_typed && is_of(value_type, self.known_type)
    }
}

/// Whether two types agree. An open type agrees with every type.
pub fn agree(first: KnownType, second: KnownType) -> bool
    ensures { result ≡ types.agree first second }
{
    match (first, second) {
        (Some(first), Some(second)) => same_declared(first, second),
        _ => true,
    }
}

/// Whether a type is this one, or open.
pub fn is_of(value_type: ValueType, known_type: KnownType) -> bool
    ensures { result ≡ types.is_of value_type known_type }
{
    agree(known_type, Some(Some(value_type)))
}

/// The type of a value.
pub fn type_of_value(value: Value) -> ValueType
    ensures { result ≡ types.type_of_value value }
{
    match value {
        Value::Int(_) => ValueType::Integer,
        Value::Truth(_) => ValueType::Logical,
    }
}

fn type_of_operation(operator: Operator) -> ValueType
    ensures { result ≡ types.type_of_operation operator }
{
    match operator {
        Operator::Arithmetic(_) => ValueType::Integer,
        Operator::Relational(_) | Operator::Logical(_) => ValueType::Logical,
    }
}

/// The type that an operator wants of its operands (X3.9-1978, 6.1 to 6.4).
pub fn type_of_operands(operator: Operator) -> ValueType
    ensures { result ≡ types.type_of_operands operator }
{
    match operator {
        Operator::Arithmetic(_) | Operator::Relational(_) => ValueType::Integer,
        Operator::Logical(_) => ValueType::Logical,
    }
}

/// The type of a name by itself. That of a function is open, because the name is no operand.
pub fn type_of_name(functions: Option<&ProgramSymbols>, symbols: &Symbols, name: &Name) -> KnownType
    ensures { result ≡ types.type_of_name (functions_of functions.entry) symbols.now name.now }
{
    if is_function_in(functions, symbols, name) {
        None
    } else {
        Some(symbols.type_of(name))
    }
}

// The type of the argument of FULL, EMPTY, VALUE, SETE or WAITF.
fn type_of_tested(
    functions: Option<&ProgramSymbols>,
    symbols: &Symbols,
    arguments: &[Expr],
) -> KnownType
    ensures { result ≡ types.type_of_tested (functions_of functions.entry) symbols.now (trees_of arguments.now) }
{
    let [argument, ..] = arguments else {
        return None;
    };
    match &argument.node {
        Node::Occurrence(occurrence) => type_of_name(functions, symbols, &occurrence.name),
        Node::WithList(occurrence, _) if symbols.is_array(&occurrence.name) => {
            Some(symbols.type_of(&occurrence.name))
        }
        _ => None,
    }
}

// The type of a state function: FULL and EMPTY are logical, and VALUE, SETE and WAITF have the type of their first argument.
fn type_of_test(
    functions: Option<&ProgramSymbols>,
    symbols: &Symbols,
    function: StateFunction,
    arguments: &[Expr],
) -> KnownType
    ensures { result ≡ types.type_of_test (functions_of functions.entry) symbols.now function (trees_of arguments.now) }
{
    match function {
        StateFunction::IsFull | StateFunction::IsEmpty => Some(Some(ValueType::Logical)),
        _ => type_of_tested(functions, symbols, arguments),
    }
}

// The type of a name with a list.
fn type_of_listed(
    functions: Option<&ProgramSymbols>,
    symbols: &Symbols,
    listed: Meaning,
    name: &Name,
    arguments: &[Expr],
) -> KnownType
    ensures { result ≡ types.type_of_listed (functions_of functions.entry) symbols.now (meaning listed) name.now (trees_of arguments.now) }
{
    match listed {
        Meaning::Element => Some(symbols.type_of(name)),
        Meaning::Pure(_) => Some(Some(ValueType::Integer)),
        Meaning::State(function) => type_of_test(functions, symbols, function, arguments),
        Meaning::External => function_type(functions, name),
    }
}

// Whether an array has as many subscripts as dimensions (5.4.1).
#[tactic(auto, using(hep_names::proofs::Passes::count_is_length))]
fn has_dimensions(symbols: &Symbols, name: &Name, subscripts: &[Expr]) -> bool
    ensures { result ≡ types.has_dimensions symbols.now name.now (trees_of subscripts.now) }
{
    subscripts.len() == symbols.dimensions(name).len()
}

/// Whether the list of a name has the right types. Subscripts are as many as the dimensions. They and the arguments of pure functions
/// are integers. Arguments of FULL, EMPTY, VALUE, SETE, WAITF and of any other name may be names by themselves.
#[cycle(typing)]
pub fn is_list_typed(
    functions: Option<&ProgramSymbols>,
    symbols: &Symbols,
    listed: Meaning,
    name: &Name,
    list: &[Expr],
) -> bool
    ensures { result ≡ types.is_list_typed symbols.now (meaning listed) name.now (trees_of list.now)
        (types.are_integers (functions_of functions.entry) symbols.now (trees_of list.now)) (types.are_actuals (functions_of functions.entry) symbols.now (trees_of list.now)) }
{
    match listed {
        Meaning::Element => has_dimensions(symbols, name, list)
            && are_integers(functions, symbols, list),
        Meaning::Pure(_) => are_integers(functions, symbols, list),
        Meaning::State(_) | Meaning::External => are_actuals(functions, symbols, list),
    }
}

#[cycle(typing)]
fn typing(functions: Option<&ProgramSymbols>, symbols: &Symbols, expression: &Expr) -> Operand
    ensures known_type { result.known_type ≡ types.type_of_tree (functions_of functions.entry) symbols.now expression.now }
    ensures is_typed { result.is_typed ≡ types.is_typed (functions_of functions.entry) symbols.now expression.now }
{
    match &expression.node {
        Node::Constant(value) => Operand {
            known_type: Some(Some(type_of_value(*value))),
            is_typed: true,
        },
        Node::Occurrence(occurrence) => Operand {
            known_type: type_of_name(functions, symbols, &occurrence.name),
            is_typed: !symbols.is_array(&occurrence.name),
        },
        Node::WithList(occurrence, list) => {
            let name = &occurrence.name;
            let listed = symbols.listed_meaning(name);
            Operand {
                known_type: type_of_listed(functions, symbols, listed, name, list),
                is_typed: is_list_typed(functions, symbols, listed, name, list),
            }
        }
        Node::Parenthesized(inner) => typing(functions, symbols, inner),
        Node::Signed(_, term) => Operand {
            known_type: Some(Some(ValueType::Integer)),
            is_typed: typing(functions, symbols, term).is_typed_as(ValueType::Integer),
        },
        Node::Negated(operand) => Operand {
            known_type: Some(Some(ValueType::Logical)),
            is_typed: typing(functions, symbols, operand).is_typed_as(ValueType::Logical),
        },
        Node::Binary(operator, left, right) => {
            let operands = type_of_operands(*operator);
            Operand {
                known_type: Some(Some(type_of_operation(*operator))),
                is_typed: typing(functions, symbols, left).is_typed_as(operands)
                    && typing(functions, symbols, right).is_typed_as(operands),
            }
        }
    }
}

/// Whether expressions are right as subscripts or as arguments of a function of integers.
#[cycle(typing)]
pub fn are_integers(functions: Option<&ProgramSymbols>, symbols: &Symbols, list: &[Expr]) -> bool
    ensures { result ≡ types.are_integers (functions_of functions.entry) symbols.now (trees_of list.now) }
{
    match list {
        [] => true,
        [first, rest @ ..] => {
            typing(functions, symbols, first).is_typed_as(ValueType::Integer)
                && are_integers(functions, symbols, rest)
        }
    }
}

/// Whether expressions are right as actual arguments. A name by itself is no operand there.
#[cycle(typing)]
pub fn are_actuals(functions: Option<&ProgramSymbols>, symbols: &Symbols, list: &[Expr]) -> bool
    ensures { result ≡ types.are_actuals (functions_of functions.entry) symbols.now (trees_of list.now) }
{
    match list {
        [] => true,
        [first, rest @ ..] => is_actual(functions, symbols, first)
            && are_actuals(functions, symbols, rest),
    }
}

#[cycle(typing)]
fn is_actual(functions: Option<&ProgramSymbols>, symbols: &Symbols, actual: &Expr) -> bool
    ensures { result ≡ walks.is_actual (functions_of functions.entry) symbols.now actual.now }
{
    match &actual.node {
        Node::Occurrence(_) => true,
        _ => typing(functions, symbols, actual).is_typed,
    }
}

/// The type of an expression of a unit.
#[cycle(type_of_tree)]
pub fn type_of_tree(
    functions: Option<&ProgramSymbols>,
    symbols: &Symbols,
    expression: &Expr,
) -> KnownType
    ensures { result ≡ types.type_of_tree (functions_of functions.entry) symbols.now expression.now }
{
    match &expression.node {
        Node::Constant(value) => Some(Some(type_of_value(*value))),
        Node::Occurrence(occurrence) => type_of_name(functions, symbols, &occurrence.name),
        Node::WithList(occurrence, list) => {
            let listed = symbols.listed_meaning(&occurrence.name);
            type_of_listed(functions, symbols, listed, &occurrence.name, list)
        }
        Node::Parenthesized(inner) => type_of_tree(functions, symbols, inner),
        Node::Signed(..) => Some(Some(ValueType::Integer)),
        Node::Negated(_) => Some(Some(ValueType::Logical)),
        Node::Binary(operator, _, _) => Some(Some(type_of_operation(*operator))),
    }
}

/// Whether each operand in an expression has the right type and no array is used as a scalar.
pub fn is_typed(functions: Option<&ProgramSymbols>, symbols: &Symbols, expression: &Expr) -> bool
    ensures { result ≡ types.is_typed (functions_of functions.entry) symbols.now expression.now }
{
    typing(functions, symbols, expression).is_typed
}

/// Whether an expression has this type and its operands have the right types.
pub fn is_typed_as(
    functions: Option<&ProgramSymbols>,
    symbols: &Symbols,
    value_type: ValueType,
    expression: &Expr,
) -> bool
    ensures { result ≡ types.is_typed_as (functions_of functions.entry) symbols.now value_type expression.now }
{
    typing(functions, symbols, expression).is_typed_as(value_type)
}
