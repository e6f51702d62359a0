//! The constants that PARAMETER gave before a statement (X3.9-1978, 8.6), and constant expressions.
ghost use Rattle.std.specs.Prelude.{◌≡◌, if◌then◌else◌, is_some, map, IfOk, OnOk};
ghost use Rattle.std.specs.List.{list_all};
ghost use Rattle.hep_conditions.specs.Constants as conditions;
ghost use Rattle.hep_conditions.specs.Statements.{NameWithList as PureReference};
ghost use Rattle.hep_machine.specs.Words.{value_among, with_constant, listed_meaning, Occurrence as PureOccurrence};
ghost use Rattle.hep_names.specs.Lists.{listed};
ghost use Rattle.hep_names.specs.Evaluation as walks;

use crate::scope::Scope;
use crate::types::{agree, is_typed, is_typed_as, type_of_tree};
use hep_names::evaluation::{ExpressionValue, evaluate};
use hep_names::{Constants, Meaning, NameSet, NameWithList, Symbols, lists, occurrences};
use hep_source::{Expr, Name, NamedConstant, Occurrence, Value, ValueType};
use std::alloc::{AllocError, Global};
use std::marker::Model;

/// The constants that PARAMETER gave before a statement: the known ones, and the names of those whose value a
/// violation leaves open.
pub struct Parameters {
    known: Constants,
    doubtful: NameSet,
}

impl Drop for Parameters {
    fn drop(self) {
        let Parameters { known, doubtful } = self;
    }
}

impl Model for Parameters {
    ghost use Rattle.hep_conditions.specs.Constants.{Parameters as PureParameters};
    ghost use Rattle.hep_names.specs.Evaluation.{parameters};

    ghost Value = { PureParameters };

    ghost view = { λ a. parameters a.known a.doubtful };
}

impl Parameters {
    /// Makes an empty list of constants.
    pub fn new(alloc: Global) -> Parameters
        ensures { result ≡ conditions.no_parameters }
    {
        Parameters {
            known: Constants::new(alloc),
            doubtful: NameSet::new(alloc),
        }
    }

    /// The constants that are known.
    pub fn known(&self) -> &Constants
        ensures { result.now ≡ self.now.known }
    {
        &self.known
    }

    /// Whether a name was given a value before, known or open.
    pub fn is_given(&self, name: &Name) -> bool
        ensures { result ≡ conditions.is_given self.now name.now }
    {
        self.doubtful.contains(name) || self.known.get(name).is_some()
    }

    /// Evaluates an expression of a unit in one walk.
    ///
    /// # Errors
    ///
    /// Only where memory was refused.
    pub fn evaluate(
        &self,
        alloc: Global,
        symbols: &Symbols,
        expression: &Expr,
    ) -> Result<ExpressionValue, AllocError>
        ensures value { IfOk result (λ e. e.value ≡ conditions.value_by symbols.now self.now expression.now) }
        ensures is_open { IfOk result (λ e. e.is_open ≡ conditions.is_open symbols.now self.now expression.now) }
        ensures are_parts_known { IfOk result (λ e. e.are_parts_known ≡ walks.are_parts_known symbols.now self.now expression.now) }
    {
        evaluate(
            alloc,
            symbols.listed(),
            &self.known,
            &self.doubtful,
            expression,
        )
    }
}

fn are_given(parameters: &Parameters, occurrences: &[Occurrence]) -> bool
    ensures { result ≡ list_all (λ (p : PureOccurrence). conditions.is_given parameters.now p.name) occurrences.now }
{
    for occurrence in occurrences {
        if !parameters.is_given(&occurrence.name) {
            return false;
        }
    }
    true
}

fn is_pure(symbols: &Symbols, name: &NameWithList) -> bool
    ensures { result ≡ conditions.is_pure (listed_meaning symbols.now name.now.occurrence.name) }
{
    match symbols.listed_meaning(&name.occurrence.name) {
        Meaning::Pure(_) => true,
        _ => false,
    }
}

fn are_pure(symbols: &Symbols, names: &[NameWithList]) -> bool
    ensures { result ≡ list_all (λ (r : PureReference). conditions.is_pure (listed_meaning symbols.now r.occurrence.name))
        (map listed names.now) }
{
    for name in names {
        if !is_pure(symbols, name) {
            return false;
        }
    }
    true
}

/// Whether an expression has only constants, names that were given a value before, and references of pure functions: docs/LANGUAGE.md,
/// 7.
///
/// # Errors
///
/// Only where memory was refused.
pub fn is_constant_expression(scope: &Scope, expression: &Expr) -> Result<bool, AllocError>
    ensures { IfOk result (λ is_constant. is_constant
        ≡ conditions.is_constant_expression scope.now.symbols.now scope.now.parameters.now expression.now) }
{
    let mut found = Vec::new(scope.alloc);
    occurrences::add_in_expression(scope.symbols, &mut found, expression)?;
    let mut names = Vec::new(scope.alloc);
    lists::add_in(&mut names, expression)?;
    Ok(are_given(scope.parameters, &found) && are_pure(scope.symbols, &names))
}

/// Whether each part of a constant expression has a value, or a violation leaves that part open.
///
/// # Errors
///
/// Only where memory was refused.
pub fn has_value(scope: &Scope, expression: &Expr) -> Result<bool, AllocError>
    ensures { IfOk result (λ has_value. has_value ≡ conditions.has_value scope.now.symbols.now scope.now.parameters.now expression.now) }
{
    let is_constant = is_constant_expression(scope, expression)?;
    let evaluation = scope
        .parameters
        .evaluate(scope.alloc, scope.symbols, expression)?;
    Ok(is_constant && evaluation.are_parts_known)
}

/// Whether an expression has this type and a value, by the constants given before.
///
/// # Errors
///
/// Only where memory was refused.
pub fn is_constant_of(
    scope: &Scope,
    value_type: ValueType,
    expression: &Expr,
) -> Result<bool, AllocError>
    ensures { IfOk result (λ is_constant. is_constant
        ≡ conditions.is_constant_of scope.now.symbols.now scope.now.parameters.now value_type expression.now) }
{
    let has_value = has_value(scope, expression)?;
    Ok(is_typed_as(None, scope.symbols, value_type, expression) && has_value)
}

/// Whether the expression of a named constant is constant and has the type of the name (6.1.3, 6.4.4 and 8.6).
///
/// # Errors
///
/// Only where memory was refused.
pub fn is_constant_given(scope: &Scope, constant: &NamedConstant) -> Result<bool, AllocError>
    ensures { IfOk result (λ is_given. is_given
        ≡ conditions.is_constant_given scope.now.symbols.now scope.now.parameters.now constant.now) }
{
    let has_value = has_value(scope, &constant.value)?;
    let declared = Some(scope.symbols.type_of(&constant.occurrence.name));
    Ok(
        is_typed(None, scope.symbols, &constant.value)
            && has_value
            && agree(declared, type_of_tree(None, scope.symbols, &constant.value)),
    )
}

impl Parameters {
    // Gives a name a value, known or open, unless it has one.
    fn note(&mut self, name: Name, value: Option<Value>) -> Result<(), AllocError>
        ensures { OnOk result (self.new ≡ record self.old {
          known = if is_some (value_among self.old.known name) then self.old.known
              else with_constant self.old.known name value;
        }) }
    {
        match value {
            Some(value) => self.known.add(name, value),
            None => Ok(()),
        }
    }

    /// Adds a constant of PARAMETER. The result is whether it is a constant expression of the type of its name.
    ///
    /// # Errors
    ///
    /// Only where memory was refused.
    pub fn add(
        &mut self,
        alloc: Global,
        symbols: &Symbols,
        constant: &NamedConstant,
    ) -> Result<bool, AllocError>
        ensures given { IfOk result (λ is_given. is_given ≡ conditions.is_constant_given symbols.now self.old constant.now) }
        ensures taken { OnOk result (self.new ≡ conditions.with_parameter symbols.now self.old constant.now) }
    {
        let scope = Scope {
            alloc,
            symbols: &*symbols,
            parameters: self,
        };
        let is_given = is_constant_given(&scope, constant)?;
        let evaluation = self.evaluate(alloc, symbols, &constant.value)?;
        let name = constant.occurrence.name;
        if !self.is_given(&name) {
            if is_given && !evaluation.is_open {
                self.note(name, evaluation.value)?;
            } else {
                self.doubtful.add(name)?;
            }
        }
        Ok(is_given)
    }

    /// Adds the constants of a PARAMETER statement, each by those before it. The result is whether all are
    /// constant expressions of the types of their names.
    ///
    /// # Errors
    ///
    /// Only where memory was refused.
    pub fn add_all(
        &mut self,
        alloc: Global,
        symbols: &Symbols,
        constants: &[NamedConstant],
    ) -> Result<bool, AllocError>
        ensures given { IfOk result (λ are_given. are_given ≡ conditions.are_constants_given symbols.now self.old constants.now) }
        ensures taken { OnOk result (self.new ≡ conditions.with_parameters symbols.now self.old constants.now) }
    {
        let mut are_given = true;
        for constant in constants {
            let is_given = self.add(alloc, symbols, constant)?;
            are_given = are_given && is_given;
        }
        Ok(are_given)
    }
}
