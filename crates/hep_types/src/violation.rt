//! 302: types, constants and bounds (X3.9-1978, sections 5, 6, 8, 9, 10 and 11).
ghost use Rattle.std.specs.Prelude.{◌≡◌, IfOk, OnOk};
ghost use Rattle.std.specs.List.{list_all};
ghost use Rattle.hep_conditions.specs.Constants as conditions;
ghost use Rattle.hep_conditions.specs.Statements as types;
ghost use Rattle.hep_conditions.specs.Words.{first_of, function_types};
ghost use Rattle.hep_names.specs.Statements.{rest_after};
ghost use Rattle.hep_types.specs.Passes as passes;

use crate::bounds::has_bounds;
use crate::forms::{is_form_typed, is_target_typed};
use crate::parameters::{Parameters, is_constant_of};
use crate::scope::Scope;
use crate::types::is_typed_as;
use hep_conditions::Violation;
use hep_conditions::reported::{lesser, line_when, reported};
use hep_names::data::groups_in;
use hep_names::named_constants::constants_in;
use hep_names::specification::array_declarators;
use hep_names::{ProgramSymbols, Symbols};
use hep_source::{DataGroup, Declarator, Expr, Statement, Target, ValueType};
use std::alloc::{AllocError, Global};

fn are_conditions(program: &ProgramSymbols, symbols: &Symbols, conditions: &[Expr]) -> bool
    ensures { result ≡ list_all (types.is_typed_as (function_types program.now) symbols.now ValueType.Logical) conditions.now }
{
    for condition in conditions {
        if !is_typed_as(Some(program), symbols, ValueType::Logical, condition) {
            return false;
        }
    }
    true
}

fn are_bounded(scope: &Scope, declarators: &[&Declarator]) -> Result<bool, AllocError>
    ensures { IfOk result (λ are_bounded. are_bounded
        ≡ list_all (conditions.has_bounds scope.now.symbols.now scope.now.parameters.now) (rest_after declarators.now)) }
{
    for declarator in declarators {
        if !has_bounds(scope, declarator)? {
            return Ok(false);
        }
    }
    Ok(true)
}

fn are_constant(scope: &Scope, subscripts: &[Expr]) -> Result<bool, AllocError>
    ensures { IfOk result (λ are_constant. are_constant
        ≡ list_all (conditions.is_constant_of scope.now.symbols.now scope.now.parameters.now ValueType.Integer) subscripts.now) }
{
    for subscript in subscripts {
        if !is_constant_of(scope, ValueType::Integer, subscript)? {
            return Ok(false);
        }
    }
    Ok(true)
}

// Whether the subscripts of a target in DATA are constant expressions (9.2).
fn has_constant_subscripts(scope: &Scope, target: &Target) -> Result<bool, AllocError>
    ensures { IfOk result (λ has_them. has_them
        ≡ conditions.has_constant_subscripts scope.now.symbols.now scope.now.parameters.now target.now) }
{
    let are_constant = are_constant(scope, target.subscripts.as_slice())?;
    Ok(is_target_typed(None, scope.symbols, target) && are_constant)
}

fn are_targets_typed(scope: &Scope, targets: &[Target]) -> Result<bool, AllocError>
    ensures { IfOk result (λ are_typed. are_typed
        ≡ list_all (conditions.has_constant_subscripts scope.now.symbols.now scope.now.parameters.now) targets.now) }
{
    for target in targets {
        if !has_constant_subscripts(scope, target)? {
            return Ok(false);
        }
    }
    Ok(true)
}

fn are_groups_typed(scope: &Scope, groups: &[DataGroup]) -> Result<bool, AllocError>
    ensures { IfOk result (λ are_typed. are_typed
        ≡ list_all (conditions.is_group_typed scope.now.symbols.now scope.now.parameters.now) groups.now) }
{
    for group in groups {
        if !are_targets_typed(scope, group.targets.as_slice())? {
            return Ok(false);
        }
    }
    Ok(true)
}

/// Whether a statement doesn't violate 302, by the constants given before it. The constants that it gives are added to them.
///
/// # Errors
///
/// Only where memory was refused.
#[tactic(auto, using(crate::proofs::BoundedArrays::bounded_arrays))]
pub fn is_statement_typed(
    alloc: Global,
    program: &ProgramSymbols,
    symbols: &Symbols,
    parameters: &mut Parameters,
    statement: &Statement,
) -> Result<bool, AllocError>
    ensures typed { IfOk result (λ is_typed. is_typed ≡ conditions.is_statement_typed (function_types program.now) symbols.now parameters.old statement.now) }
    ensures taken { OnOk result (parameters.new ≡ passes.parameters_after symbols.now parameters.old statement.now) }
{
    let form = &statement.form;
    let declarators = array_declarators(alloc, form)?;
    let are_conditions = are_conditions(program, symbols, statement.conditions.as_slice());
    let is_form = is_form_typed(Some(program), symbols, form);
    let scope = Scope {
        alloc,
        symbols,
        parameters,
    };
    let are_bounded = are_bounded(&scope, &declarators)?;
    let are_groups = are_groups_typed(&scope, groups_in(form))?;
    let are_given = parameters.add_all(alloc, symbols, constants_in(form))?;
    Ok(are_conditions && is_form && are_given && are_bounded && are_groups)
}

fn least_untyped(
    alloc: Global,
    program: &ProgramSymbols,
    symbols: &Symbols,
) -> Result<Option<u32>, AllocError>
    ensures { IfOk result (λ line. line ≡ passes.least_untyped (function_types program.now) symbols.now conditions.no_parameters symbols.now) }
{
    let mut parameters = Parameters::new(alloc);
    let mut least = None;
    for statement in symbols.statements() {
        let is_typed = is_statement_typed(alloc, program, symbols, &mut parameters, statement)?;
        least = lesser(least, line_when(!is_typed, statement.line));
    }
    Ok(least)
}

/// The first violation of 302 in a unit of a program: in an expression, a constant or the bounds of an array.
///
/// # Errors
///
/// Only where memory was refused.
pub fn type_violation(
    alloc: Global,
    program: &ProgramSymbols,
    symbols: &Symbols,
) -> Result<Option<Violation>, AllocError>
    ensures { IfOk result (λ violation. violation ≡ first_of (conditions.type_violations (function_types program.now) symbols.now)) }
{
    Ok(reported(302, least_untyped(alloc, program, symbols)?))
}
