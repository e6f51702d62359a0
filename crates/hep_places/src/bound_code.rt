//! The code of bounds (X3.9-1978, 5.5.1).
ghost use Rattle.std.specs.Prelude.{◌≡◌, ◌++◌, ◌∷◌, [], OnOk};
ghost use Rattle.hep_machine.specs.Words.{trees_of, constant_value};
ghost use Rattle.hep_code.specs.BoundCode as codes;
ghost use Rattle.hep_code.specs.DimensionCode.{code_of_lower, code_of_dimensions};
ghost use Rattle.hep_code.specs.Words.{count};
ghost use Rattle.hep_names.specs.Meanings.{meaning};
ghost use Rattle.hep_places.specs.DummyArguments.{source_in};

use crate::cell_numbers::further;
use crate::storage_starts::StorageStarts;
use hep_code::BoundOperation;
use hep_names::{Meaning, Symbols};
use hep_source::{Dimension, Expr, Name, Node, UpperBound, Value};
use hep_storage::CommonStarts;
use std::alloc::AllocError;

// The tables for the names of a unit.
#[derive(Clone, Copy)]
pub(crate) struct BoundContext<'a> {
    pub(crate) symbols: &'a Symbols<'a>,
    pub(crate) common: &'a CommonStarts,
    pub(crate) tables: &'a StorageStarts,
}

// The value of a named constant (8.6).
fn constant(symbols: &Symbols, name: &Name) -> Option<Value>
    ensures { result ≡ constant_value symbols.now name.now }
{
    symbols.constants().get(name)
}

// The source of a name's value: for a named constant it is known (8.6); otherwise a dummy argument or a name in
// COMMON has it (8.3).
#[tactic(auto, unfolding(crate::specs::DummyArguments::source_in))]
fn source(known: &BoundContext, name: &Name) -> BoundOperation
    ensures { result ≡ source_in known.now name.now }
{
    if let Some(value) = constant(known.symbols, name) {
        return BoundOperation::Value(value);
    }
    if let Some(position) = known.symbols.dummy_position(name) {
        return BoundOperation::InDummy(position);
    }
    match known.symbols.common_block(name) {
        Some(block) => {
            let offset = known.tables.offsets.get(name).copied().unwrap_or(0);
            BoundOperation::InCommon(further(known.common.start(block), offset))
        }
        None => BoundOperation::Nowhere,
    }
}

// Appends an operation.
fn add(code: &mut Vec<BoundOperation>, operation: BoundOperation) -> Result<(), AllocError>
    ensures { OnOk result (code.new.items ≡ code.old.items ++ operation ∷ []) }
{
    code.push(operation)?;
    Ok(())
}

// The code of an expression (section 6): operands from left to right, and then the operation on them.
#[cycle(add_expression)]
fn add_expression(
    code: &mut Vec<BoundOperation>,
    known: &BoundContext,
    expression: &Expr,
) -> Result<(), AllocError>
    ensures { OnOk result (code.new.items ≡ code.old.items
        ++ codes.code_of_bound (source_in known.now) known.now.symbols.now expression.now) }
{
    match &expression.node {
        Node::Constant(value) => add(code, BoundOperation::Value(*value)),
        Node::Occurrence(occurrence) => add(code, source(known, &occurrence.name)),
        Node::WithList(occurrence, list) => {
            let listed = known.symbols.listed_meaning(&occurrence.name);
            add_listed(code, known, listed, list)
        }
        Node::Parenthesized(inner) => add_expression(code, known, inner),
        Node::Signed(sign, term) => {
            add_expression(code, known, term)?;
            add(code, BoundOperation::Sign(*sign))
        }
        Node::Negated(operand) => {
            add_expression(code, known, operand)?;
            add(code, BoundOperation::Not)
        }
        Node::Binary(operator, left, right) => {
            add_expression(code, known, left)?;
            add_expression(code, known, right)?;
            add(code, BoundOperation::Combine(*operator))
        }
    }
}

// The code of a name with a list, which has a value only where it is a function of integers (15.10).
#[cycle(add_expression)]
#[tactic(auto, using(std::proofs::lemmas::Grind::common_steps, hep_code::proofs::ListLengths::count_length))]
fn add_listed(
    code: &mut Vec<BoundOperation>,
    known: &BoundContext,
    listed: Meaning,
    list: &[Expr],
) -> Result<(), AllocError>
    ensures { OnOk result (code.new.items ≡ code.old.items
        ++ codes.code_of_listed (meaning listed) (count (trees_of list.now))
        (codes.code_of_bounds (source_in known.now) known.now.symbols.now (trees_of list.now))) }
{
    match listed {
        Meaning::Pure(function) => {
            add_all(code, known, list)?;
            let arguments = list.len();
            add(
                code,
                BoundOperation::Apply {
                    function,
                    arguments,
                },
            )
        }
        Meaning::Element | Meaning::State(_) | Meaning::External => {
            add(code, BoundOperation::Nowhere)
        }
    }
}

// The code of expressions in a list.
#[cycle(add_expression)]
fn add_all(
    code: &mut Vec<BoundOperation>,
    known: &BoundContext,
    list: &[Expr],
) -> Result<(), AllocError>
    ensures { OnOk result (code.new.items ≡ code.old.items
        ++ codes.code_of_bounds (source_in known.now) known.now.symbols.now (trees_of list.now)) }
{
    match list {
        [] => Ok(()),
        [first, rest @ ..] => {
            add_expression(code, known, first)?;
            add_all(code, known, rest)
        }
    }
}

// A lower bound, which is 1 where none is written (5.1.1.1).
fn add_lower(
    code: &mut Vec<BoundOperation>,
    known: &BoundContext,
    lower: &Option<Expr>,
) -> Result<(), AllocError>
    ensures { OnOk result (code.new.items ≡ code.old.items ++ code_of_lower (source_in known.now) known.now.symbols.now lower.now) }
{
    match lower {
        Some(lower) => add_expression(code, known, lower),
        None => add(code, BoundOperation::Value(Value::Int(1))),
    }
}

/// The code of dimensions: for each one the lower and the upper bound, but for an open last one only the lower (5.1.1
/// and 5.1.2).
pub(crate) fn add_dimensions(
    code: &mut Vec<BoundOperation>,
    known: &BoundContext,
    dimensions: &[Dimension],
) -> Result<(), AllocError>
    ensures { OnOk result (code.new.items ≡ code.old.items
        ++ code_of_dimensions (source_in known.now) known.now.symbols.now dimensions.now) }
{
    match dimensions {
        [] => Ok(()),
        [first, rest @ ..] => {
            add_lower(code, known, &first.lower)?;
            match &first.upper {
                UpperBound::Expression(upper) => {
                    add_expression(code, known, upper)?;
                    add_dimensions(code, known, rest)
                }
                UpperBound::Open => match rest {
                    [] => Ok(()),
                    [_, ..] => add(code, BoundOperation::Nowhere),
                },
            }
        }
    }
}
