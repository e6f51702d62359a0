//! Actual arguments (X3.9-1978, 15.9.2).
ghost use Rattle.std.specs.Prelude.{◌≡◌};
ghost use Rattle.hep_machine.specs.Words.{external};
ghost use Rattle.hep_conditions.specs.Arguments as conditions;
ghost use Rattle.hep_conditions.specs.Words.{function_types};
ghost use Rattle.hep_types.specs.Actuals.{class};

use crate::types::{KnownType, type_of_tree};
use hep_names::{Meaning, ProgramSymbols, Symbols, function_type, is_function_in};
use hep_source::{Expr, Name, Node, ValueType};

/// The class of an actual argument (15.9.2).
#[derive(Clone, Copy)]
pub enum ActualClass {
    /// An expression, or the name of a constant. The type is open for the name of a function (309).
    Value(KnownType),
    /// A variable or an element of an array.
    Variable {
        asynchronous: bool,
        is_element: bool,
        value_type: Option<ValueType>,
    },
    WholeArray {
        asynchronous: bool,
        value_type: Option<ValueType>,
    },
    /// A name with a list that is no array and no function, so that its class isn't known.
    UnknownList,
}

fn class_of_name(program: &ProgramSymbols, symbols: &Symbols, name: &Name) -> ActualClass
    ensures { class result ≡ conditions.given_name (function_types program.now) symbols.now name.now }
{
    let value_type = symbols.type_of(name);
    if symbols.is_constant_name(name) {
        ActualClass::Value(Some(value_type))
    } else if is_function_in(Some(program), symbols, name) {
        ActualClass::Value(None)
    } else if symbols.is_array(name) {
        ActualClass::WholeArray {
            asynchronous: name.asynchronous,
            value_type,
        }
    } else {
        ActualClass::Variable {
            asynchronous: name.asynchronous,
            is_element: false,
            value_type,
        }
    }
}

// The class of a name with a list: an expression for a function of the program, and unknown for a name that is no function.
fn class_of_reference(program: &ProgramSymbols, symbols: &Symbols, name: &Name) -> ActualClass
    ensures { class result ≡ conditions.given_with_list (function_types program.now) symbols.now external name.now (function_types program.now name.now) }
{
    match function_type(Some(program), name) {
        Some(value_type) => ActualClass::Value(Some(value_type)),
        None => ActualClass::UnknownList,
    }
}

/// The class of an actual argument in a unit of a program.
pub fn actual_class(program: &ProgramSymbols, symbols: &Symbols, actual: &Expr) -> ActualClass
    ensures { class result ≡ conditions.actual_class (function_types program.now) symbols.now actual.now }
{
    match &actual.node {
        Node::Occurrence(occurrence) => class_of_name(program, symbols, &occurrence.name),
        Node::WithList(occurrence, _) => match symbols.listed_meaning(&occurrence.name) {
            Meaning::Element => ActualClass::Variable {
                asynchronous: occurrence.name.asynchronous,
                is_element: true,
                value_type: symbols.type_of(&occurrence.name),
            },
            Meaning::Pure(_) | Meaning::State(_) => {
                ActualClass::Value(type_of_tree(Some(program), symbols, actual))
            }
            Meaning::External => class_of_reference(program, symbols, &occurrence.name),
        },
        _ => ActualClass::Value(type_of_tree(Some(program), symbols, actual)),
    }
}
