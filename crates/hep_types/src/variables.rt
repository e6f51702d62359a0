//! Variables that may be DO variables, or that bounds may use (X3.9-1978, 5.5.1 and 11.10).
ghost use Rattle.std.specs.Prelude.{◌≡◌, IfOk};
ghost use Rattle.hep_machine.specs.Declarations as declarations;
ghost use Rattle.hep_conditions.specs.Statements as types;
ghost use Rattle.hep_conditions.specs.Words.{function_types, is_loop_variable, loop_variables, has_loop_variable};

use hep_conditions::types::same_declared;
use hep_names::{ProgramSymbols, Symbols, is_function_in};
use hep_source::{Form, Name, ValueType};
use std::alloc::{AllocError, Global};

/// A dummy argument of the unit.
#[tactic(auto, using(hep_source::proofs::NameTests::index_there))]
pub fn is_dummy(symbols: &Symbols, name: &Name) -> bool
    ensures { result ≡ declarations.is_dummy symbols.now name.now }
{
    symbols.dummy_position(name).is_some()
}

/// Whether a name is an integer scalar variable without `$`. The name of a constant is no variable.
pub fn is_plain_integer_scalar(symbols: &Symbols, name: &Name) -> bool
    ensures { result ≡ types.is_plain_integer_scalar symbols.now name.now }
{
    !symbols.is_constant_name(name)
        && !name.asynchronous
        && !symbols.is_array(name)
        && same_declared(symbols.type_of(name), Some(ValueType::Integer))
}

/// A DO variable is a plain integer scalar, and no function.
pub fn is_loop_variable(program: &ProgramSymbols, symbols: &Symbols, name: &Name) -> bool
    ensures { result ≡ is_loop_variable (function_types program.now) symbols.now name.now }
{
    is_plain_integer_scalar(symbols, name) && !is_function_in(Some(program), symbols, name)
}

fn has_loop_variable(program: &ProgramSymbols, symbols: &Symbols, form: &Form) -> bool
    ensures { result ≡ has_loop_variable (function_types program.now) symbols.now form.now }
{
    match form {
        Form::Do(control) => is_loop_variable(program, symbols, &control.variable.name),
        _ => true,
    }
}

/// For each statement of a unit, whether its DO variable is an integer scalar without `$` and no
/// function. True for a statement without a DO variable.
///
/// # Errors
///
/// Only where memory was refused.
pub fn loop_variables(
    alloc: Global,
    program: &ProgramSymbols,
    symbols: &Symbols,
) -> Result<Vec<bool>, AllocError>
    ensures { IfOk result (λ variables. variables.items ≡ loop_variables (function_types program.now) symbols.now) }
{
    let mut variables = Vec::new(alloc);
    for statement in symbols.statements() {
        variables.push(has_loop_variable(program, symbols, &statement.form))?;
    }
    Ok(variables)
}
