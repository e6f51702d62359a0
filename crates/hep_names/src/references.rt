//! The functions that a unit references (X3.9-1978, 15.5).
ghost use Rattle.std.specs.Prelude.{◌≡◌};
ghost use Rattle.hep_conditions.specs.Statements as conditions;
ghost use Rattle.hep_names.specs.Functions.{functions_of};

use crate::program::ProgramSymbols;
use crate::symbols::Symbols;
use hep_source::{Name, ValueType};

/// The type of the function with a name; `Some(None)` for real, and none where there is no such function. Without a program, as for
/// constant expressions, there is no function.
pub fn function_type(program: Option<&ProgramSymbols>, name: &Name) -> Option<Option<ValueType>>
    ensures { result ≡ functions_of program.entry name.now }
{
    match program {
        Some(program) => type_in(program, name),
        None => None,
    }
}

fn type_in(program: &ProgramSymbols, name: &Name) -> Option<Option<ValueType>>
    ensures { result ≡ conditions.function_types program.now name.now }
{
    match program.function(name) {
        Some(function) => Some(function.type_of(name)),
        None => None,
    }
}

/// Whether the name is that of a function which the unit references.
pub fn is_function_in(program: Option<&ProgramSymbols>, symbols: &Symbols, name: &Name) -> bool
    ensures { result ≡ conditions.is_function_in (functions_of program.entry) symbols.now name.now }
{
    function_type(program, name).is_some() && symbols.is_referenced(name)
}
