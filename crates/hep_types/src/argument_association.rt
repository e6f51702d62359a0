//! Actual arguments for the dummy arguments of a subroutine or function (X3.9-1978, 15.9.3).
ghost use Rattle.std.specs.Prelude.{◌≡◌, ◌&&◌, map};
ghost use Rattle.std.specs.List.{list_all};
ghost use Rattle.hep_machine.specs.Words.{same_logical, names_of_occurrences};
ghost use Rattle.hep_conditions.specs.Arguments as conditions;
ghost use Rattle.hep_conditions.specs.Statements as statements;
ghost use Rattle.hep_conditions.specs.Words.{function_types};
ghost use Rattle.hep_names.specs.Lists.{listed};
ghost use Rattle.hep_names.specs.Parts.{unit_called, unit_referred};
ghost use Rattle.hep_types.specs.Actuals.{class};
ghost use Rattle.hep_types.specs.CallPasses as passes;

use crate::actuals::{ActualClass, actual_class};
use crate::types::agree;
use hep_conditions::types::same_declared;
use hep_names::{Meaning, NameWithList, ProgramSymbols, Symbols};
use hep_source::{Expr, Form, Name, Occurrence, ValueType};

// Whether both or neither are asynchronous, and both have the same type.
fn are_alike(
    asynchronous: bool,
    value_type: Option<ValueType>,
    is_asynchronous: bool,
    given_type: Option<ValueType>,
) -> bool
    ensures { result ≡ (same_logical asynchronous is_asynchronous && statements.same_declared value_type given_type) }
{
    asynchronous == is_asynchronous && same_declared(value_type, given_type)
}

// Whether the actual argument fits a scalar dummy argument of this type.
fn fits_scalar(asynchronous: bool, value_type: Option<ValueType>, actual: ActualClass) -> bool
    ensures { result ≡ conditions.fits_scalar asynchronous value_type (class actual) }
{
    match actual {
        ActualClass::Value(known_type) => !asynchronous && agree(known_type, Some(value_type)),
        ActualClass::Variable {
            asynchronous: is_asynchronous,
            value_type: given_type,
            ..
        } => are_alike(asynchronous, value_type, is_asynchronous, given_type),
        ActualClass::WholeArray { .. } => false,
        ActualClass::UnknownList => true,
    }
}

// Whether the actual argument fits an array dummy argument of this type: it is an array or an element of an array.
fn fits_array(asynchronous: bool, value_type: Option<ValueType>, actual: ActualClass) -> bool
    ensures { result ≡ conditions.fits_array asynchronous value_type (class actual) }
{
    match actual {
        ActualClass::Variable {
            asynchronous: is_asynchronous,
            is_element,
            value_type: given_type,
        } => is_element && are_alike(asynchronous, value_type, is_asynchronous, given_type),
        ActualClass::WholeArray {
            asynchronous: is_asynchronous,
            value_type: given_type,
        } => are_alike(asynchronous, value_type, is_asynchronous, given_type),
        ActualClass::Value(_) | ActualClass::UnknownList => false,
    }
}

// Whether the actual argument fits a dummy argument, by the table of the called unit.
fn fits_dummy(called: &Symbols, dummy: &Name, actual: ActualClass) -> bool
    ensures { result ≡ conditions.fits_dummy called.now dummy.now (class actual) }
{
    let value_type = called.type_of(dummy);
    if called.is_array(dummy) {
        fits_array(dummy.asynchronous, value_type, actual)
    } else {
        fits_scalar(dummy.asynchronous, value_type, actual)
    }
}

// Whether the actual arguments of a unit fit the dummy arguments of a subroutine or function, as far as there are both.
fn fit_dummies(
    program: &ProgramSymbols,
    called: &Symbols,
    dummies: &[Occurrence],
    symbols: &Symbols,
    actuals: &[Expr],
) -> bool
    ensures { result ≡ conditions.fit_dummies called.now (names_of_occurrences dummies.now) (conditions.all_given (function_types program.now) symbols.now actuals.now) }
{
    for (dummy, actual) in dummies.iter().zip(actuals) {
        if !fits_dummy(called, &dummy.name, actual_class(program, symbols, actual)) {
            return false;
        }
    }
    true
}

// Another condition reports a name that is no subroutine.
#[tactic(auto, using(crate::proofs::CallPasses::fits_unit_called))]
fn fits_call(program: &ProgramSymbols, symbols: &Symbols, name: &Name, actuals: &[Expr]) -> bool
    ensures { result ≡ passes.fits_unit (function_types program.now) symbols.now (unit_called program.now name.now) actuals.now }
{
    match program.called(name) {
        Some(called) => fit_dummies(program, called, called.dummies(), symbols, actuals),
        None => true,
    }
}

// Another condition reports a name that is no function.
#[tactic(auto, using(crate::proofs::CallPasses::fits_unit_called))]
fn fits_function(program: &ProgramSymbols, symbols: &Symbols, name: &Name, actuals: &[Expr]) -> bool
    ensures { result ≡ passes.fits_unit (function_types program.now) symbols.now (unit_referred program.now name.now) actuals.now }
{
    match program.function(name) {
        Some(function) => fit_dummies(program, function, function.dummies(), symbols, actuals),
        None => true,
    }
}

pub(crate) fn fits_reference(
    program: &ProgramSymbols,
    symbols: &Symbols,
    reference: &NameWithList,
) -> bool
    ensures { result ≡ conditions.fits_reference (function_types program.now) program.now symbols.now (listed reference.now) }
{
    let name = &reference.occurrence.name;
    match symbols.listed_meaning(name) {
        Meaning::External => fits_function(program, symbols, name, reference.arguments),
        _ => true,
    }
}

// Whether the actual arguments fit in all references of functions in a statement.
pub(crate) fn are_references_fitting(
    program: &ProgramSymbols,
    symbols: &Symbols,
    references: &[NameWithList],
) -> bool
    ensures { result ≡ list_all (conditions.fits_reference (function_types program.now) program.now symbols.now) (map listed references.now) }
{
    for reference in references {
        if !fits_reference(program, symbols, reference) {
            return false;
        }
    }
    true
}

/// Whether the actual arguments fit the subroutines that a statement calls or creates.
#[tactic(auto, using(crate::proofs::CallPasses::fits_called))]
pub fn are_calls_fitting(program: &ProgramSymbols, symbols: &Symbols, form: &Form) -> bool
    ensures { result ≡ list_all (conditions.fits_call (function_types program.now) program.now symbols.now) (statements.calls_in form.now) }
{
    match form {
        Form::Call(occurrence, actuals) | Form::Create(occurrence, actuals) => {
            fits_call(program, symbols, &occurrence.name, actuals.as_slice())
        }
        _ => true,
    }
}
