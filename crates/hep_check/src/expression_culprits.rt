//! The name at fault in an expression: the first name of a part that has the wrong type, or that is an array where a scalar is needed
//! (X3.9-1978, sections 5 and 6).
ghost use Rattle.std.specs.Prelude.{◌≡◌};
ghost use Rattle.hep_machine.specs.Words.{trees_of};
ghost use Rattle.hep_conditions.specs.Words.{function_types};
ghost use Rattle.hep_names.specs.Meanings.{meaning};
ghost use Rattle.hep_check.specs.ExpressionCulprits as words;

use hep_names::{Meaning, ProgramSymbols, Symbols};
use hep_source::{Expr, Node, Occurrence, ValueType};
use hep_types::types::{is_of, type_of_operands, type_of_tree};

// The first of two names, each of which may be missing.
pub(crate) fn either(first: Option<Occurrence>, second: Option<Occurrence>) -> Option<Occurrence>
    ensures { result ≡ words.either first second }
{
    match first {
        Some(occurrence) => Some(occurrence),
        None => second,
    }
}

/// The first name in an expression.
#[cycle(first_name)]
pub(crate) fn first_name(expression: &Expr) -> Option<Occurrence>
    ensures { result ≡ words.first_name expression.now }
{
    match &expression.node {
        Node::Constant(_) => None,
        Node::Occurrence(occurrence) | Node::WithList(occurrence, _) => Some(*occurrence),
        Node::Parenthesized(inner) => first_name(inner),
        Node::Signed(_, term) => first_name(term),
        Node::Negated(operand) => first_name(operand),
        Node::Binary(_, left, right) => either(first_name(left), first_name(right)),
    }
}

/// The first name of an expression, where the expression doesn't have the wanted type.
pub(crate) fn unlike(
    program: &ProgramSymbols,
    symbols: &Symbols,
    wanted: ValueType,
    expression: &Expr,
) -> Option<Occurrence>
    ensures { result ≡ words.unlike (function_types program.now) symbols.now wanted expression.now }
{
    if is_of(wanted, type_of_tree(Some(program), symbols, expression)) {
        None
    } else {
        first_name(expression)
    }
}

// An array by its name alone.
fn whole_array(symbols: &Symbols, occurrence: &Occurrence) -> Option<Occurrence>
    ensures { result ≡ words.whole_array symbols.now occurrence.now }
{
    if symbols.is_array(&occurrence.name) {
        Some(*occurrence)
    } else {
        None
    }
}

// The name of an array, where the numbers of subscripts and dimensions differ.
#[tactic(auto, using(hep_names::proofs::Passes::count_is_length))]
fn misdimensioned(symbols: &Symbols, occurrence: &Occurrence, list: &[Expr]) -> Option<Occurrence>
    ensures { result ≡ words.misdimensioned symbols.now occurrence.now (trees_of list.now) }
{
    if list.len() == symbols.dimensions(&occurrence.name).len() {
        None
    } else {
        Some(*occurrence)
    }
}

/// The name at fault in an expression by itself.
#[cycle(wrong_in)]
pub(crate) fn wrong_in(
    program: &ProgramSymbols,
    symbols: &Symbols,
    expression: &Expr,
) -> Option<Occurrence>
    ensures { result ≡ words.wrong_in (function_types program.now) symbols.now expression.now }
{
    match &expression.node {
        Node::Constant(_) => None,
        Node::Occurrence(occurrence) => whole_array(symbols, occurrence),
        Node::WithList(occurrence, list) => {
            let listed = symbols.listed_meaning(&occurrence.name);
            wrong_in_list(program, symbols, listed, occurrence, list)
        }
        Node::Parenthesized(inner) => wrong_in(program, symbols, inner),
        Node::Signed(_, term) => either(
            wrong_in(program, symbols, term),
            unlike(program, symbols, ValueType::Integer, term),
        ),
        Node::Negated(operand) => either(
            wrong_in(program, symbols, operand),
            unlike(program, symbols, ValueType::Logical, operand),
        ),
        Node::Binary(operator, left, right) => {
            let wanted = type_of_operands(*operator);
            let in_left = either(
                wrong_in(program, symbols, left),
                unlike(program, symbols, wanted, left),
            );
            let in_right = either(
                wrong_in(program, symbols, right),
                unlike(program, symbols, wanted, right),
            );
            either(in_left, in_right)
        }
    }
}

/// The name at fault in the list of a name.
#[cycle(wrong_in)]
pub(crate) fn wrong_in_list(
    program: &ProgramSymbols,
    symbols: &Symbols,
    listed: Meaning,
    occurrence: &Occurrence,
    list: &[Expr],
) -> Option<Occurrence>
    ensures { result ≡ words.wrong_in_list symbols.now (meaning listed) occurrence.now (trees_of list.now)
        (words.wrong_among (function_types program.now) symbols.now (trees_of list.now))
        (words.wrong_actual (function_types program.now) symbols.now (trees_of list.now)) }
{
    match listed {
        Meaning::Element => either(
            misdimensioned(symbols, occurrence, list),
            wrong_among(program, symbols, list),
        ),
        Meaning::Pure(_) => wrong_among(program, symbols, list),
        Meaning::State(_) | Meaning::External => wrong_actual(program, symbols, list),
    }
}

/// The name at fault in subscripts, or in arguments of a function of integers.
#[cycle(wrong_in)]
pub(crate) fn wrong_among(
    program: &ProgramSymbols,
    symbols: &Symbols,
    list: &[Expr],
) -> Option<Occurrence>
    ensures { result ≡ words.wrong_among (function_types program.now) symbols.now (trees_of list.now) }
{
    match list {
        [] => None,
        [first, rest @ ..] => {
            let here = either(
                wrong_in(program, symbols, first),
                unlike(program, symbols, ValueType::Integer, first),
            );
            either(here, wrong_among(program, symbols, rest))
        }
    }
}

/// The name at fault in actual arguments. A name by itself is no operand there.
#[cycle(wrong_in)]
pub(crate) fn wrong_actual(
    program: &ProgramSymbols,
    symbols: &Symbols,
    list: &[Expr],
) -> Option<Occurrence>
    ensures { result ≡ words.wrong_actual (function_types program.now) symbols.now (trees_of list.now) }
{
    match list {
        [] => None,
        [first, rest @ ..] => either(
            wrong_in_actual(program, symbols, first),
            wrong_actual(program, symbols, rest),
        ),
    }
}

#[cycle(wrong_in)]
fn wrong_in_actual(program: &ProgramSymbols, symbols: &Symbols, actual: &Expr) -> Option<Occurrence>
    ensures { result ≡ words.wrong_in_actual (function_types program.now) symbols.now actual.now }
{
    match &actual.node {
        Node::Occurrence(_) => None,
        _ => wrong_in(program, symbols, actual),
    }
}
