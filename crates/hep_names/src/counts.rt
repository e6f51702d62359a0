//! 303: numbers of arguments (X3.9-1978, 15.6.2.3 and 15.10).
ghost use Rattle.std.specs.Prelude.{◌≡◌, length, map, IfOk};
ghost use Rattle.std.specs.List.{list_all};
ghost use Rattle.hep_conditions.specs.Counts as conditions;
ghost use Rattle.hep_conditions.specs.Statements as statements;
ghost use Rattle.hep_conditions.specs.Reported as reported;
ghost use Rattle.hep_conditions.specs.Words.{first_of};
ghost use Rattle.hep_names.specs.Meanings.{meaning};
ghost use Rattle.hep_names.specs.Lists.{listed};
ghost use Rattle.hep_names.specs.Parts as passes;

use crate::functions::Meaning;
use crate::list_table::ListTable;
use crate::lists::{NameWithList, names_with_lists};
use crate::program::ProgramSymbols;
use crate::symbols::Symbols;
use hep_conditions::Violation;
use hep_conditions::reported::{lesser, line_when, reported};
use hep_source::{Expr, Form, Name, PureFunction, Statement};
use std::alloc::{AllocError, Global};

fn takes(function: PureFunction, count: usize) -> bool
    ensures { result ≡ conditions.takes function count }
{
    match function {
        PureFunction::AbsoluteValue => count == 1,
        PureFunction::Remainder | PureFunction::TransferOfSign | PureFunction::PositiveDifference =>
            count == 2,
        PureFunction::Largest | PureFunction::Smallest => 2 <= count,
    }
}

fn takes_list(listed: Meaning, count: usize) -> bool
    ensures { result ≡ conditions.takes_list (meaning listed) count }
{
    match listed {
        Meaning::Pure(function) => takes(function, count),
        Meaning::State(_) => count == 1,
        Meaning::Element | Meaning::External => true,
    }
}

/// Whether a function of the language has the right number of arguments. True for any other name with a list.
#[tactic(auto, using(crate::proofs::Passes::count_is_length))]
pub fn is_counted(table: &ListTable, name: &NameWithList) -> bool
    ensures { result ≡ conditions.is_counted table.now (listed name.now) }
{
    takes_list(
        table.listed_meaning(&name.occurrence.name),
        name.arguments.len(),
    )
}

fn are_counted(symbols: &Symbols, names: &[NameWithList]) -> bool
    ensures { result ≡ list_all (conditions.is_counted symbols.now) (map listed names.now) }
{
    for name in names {
        if !is_counted(symbols.listed(), name) {
            return false;
        }
    }
    true
}

// Whether a reference has as many actual arguments as its function has dummy arguments.
#[tactic(auto, using(crate::proofs::Passes::dummies_counted))]
fn takes_actuals(program: &ProgramSymbols, name: &Name, count: usize) -> bool
    ensures { result ≡ passes.takes_dummies (passes.unit_referred program.now name.now) count }
{
    match program.function(name) {
        Some(symbols) => count == symbols.dummies().len(),
        None => true,
    }
}

/// A reference to a function of the program has as many actual arguments as the function has dummy arguments.
pub fn is_reference_counted(
    program: &ProgramSymbols,
    symbols: &Symbols,
    name: &NameWithList,
) -> bool
    ensures { result ≡ conditions.is_reference_counted program.now symbols.now (listed name.now) }
{
    match symbols.listed_meaning(&name.occurrence.name) {
        Meaning::External => takes_actuals(program, &name.occurrence.name, name.arguments.len()),
        _ => true,
    }
}

fn are_references_counted(
    program: &ProgramSymbols,
    symbols: &Symbols,
    names: &[NameWithList],
) -> bool
    ensures { result ≡ list_all (conditions.is_reference_counted program.now symbols.now) (map listed names.now) }
{
    for name in names {
        if !is_reference_counted(program, symbols, name) {
            return false;
        }
    }
    true
}

// Whether a call has as many actual arguments as its subroutine has dummy arguments.
#[tactic(auto, using(crate::proofs::Passes::dummies_counted))]
pub fn is_call_counted(program: &ProgramSymbols, name: &Name, actuals: &[Expr]) -> bool
    ensures { result ≡ passes.takes_dummies (passes.unit_called program.now name.now) (length actuals.now) }
{
    match program.called(name) {
        Some(symbols) => actuals.len() == symbols.dummies().len(),
        None => true,
    }
}

#[tactic(auto, using(crate::proofs::Passes::takes_called))]
fn are_calls_counted(program: &ProgramSymbols, form: &Form) -> bool
    ensures { result ≡ list_all (conditions.is_call_counted program.now) (statements.calls_in form.now) }
{
    match form {
        Form::Call(occurrence, actuals) | Form::Create(occurrence, actuals) => {
            is_call_counted(program, &occurrence.name, actuals.as_slice())
        }
        _ => true,
    }
}

fn is_miscounted(
    alloc: Global,
    program: &ProgramSymbols,
    symbols: &Symbols,
    statement: &Statement,
) -> Result<bool, AllocError>
    ensures { IfOk result (λ is_miscounted. is_miscounted ≡ passes.is_miscounted program.now symbols.now statement.now) }
{
    let names = names_with_lists(alloc, statement)?;
    Ok(
        !(are_counted(symbols, &names)
            && are_references_counted(program, symbols, &names)
            && are_calls_counted(program, &statement.form)),
    )
}

fn least_miscounted(
    alloc: Global,
    program: &ProgramSymbols,
    symbols: &Symbols,
) -> Result<Option<u32>, AllocError>
    ensures { IfOk result (λ line. line
        ≡ reported.least_line_where (passes.is_miscounted program.now symbols.now) passes.line_of symbols.now) }
{
    let mut least = None;
    for statement in symbols.statements() {
        let is_reported = is_miscounted(alloc, program, symbols, statement)?;
        least = lesser(least, line_when(is_reported, statement.line));
    }
    Ok(least)
}

/// The first violation of 303 in a unit of a program: a call or a function has a wrong number of arguments.
///
/// # Errors
///
/// Only where memory was refused.
pub fn count_violation(
    alloc: Global,
    program: &ProgramSymbols,
    symbols: &Symbols,
) -> Result<Option<Violation>, AllocError>
    ensures { IfOk result (λ violation. violation ≡ first_of (conditions.count_violations program.now symbols.now)) }
{
    Ok(reported(303, least_miscounted(alloc, program, symbols)?))
}
