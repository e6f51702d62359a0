//! The code of expressions: operands from left to right, and then the operation on them (X3.9-1978, 6.6). An actual
//! argument that is a variable, an element or an array isn't read (15.9.2 and 15.9.3).
ghost use Rattle.std.specs.Prelude.{◌≡◌, ◌<◌, ◌+◌, ◌++◌, length, option_map, IfErr, IfOk, IfSome, OnOk};
ghost use Rattle.hep_machine.specs.Words.{trees, no_trees, trees_of};
ghost use Rattle.hep_names.specs.Meanings.{meaning};
ghost use Rattle.hep_code.specs.ExpressionCode as code_words;
ghost use Rattle.hep_lower.specs.StateFunctionSubscripts.{subscripts_asked, subscripts_asked_listed};
ghost use Rattle.hep_lower.specs.declared.fault.EmitFault.TheVariants.{NoMemory};
ghost use Rattle.hep_lower.specs.ArgumentLimits.{IsTooLong, subscripts_of_all};
ghost use Rattle.hep_lower.specs.Names.{greatest, names_in};
ghost use Rattle.hep_lower.specs.Uses.{evaluation_listed, operands_listed, reference_code, subscripts_referred};

use crate::emit::{Code, counted, emit_evaluation, emit_step, emit_value};
use crate::fault::EmitFault;
use crate::name_lookup::NameLookup;
use crate::operation_lists::emit_passed;
use hep_code::{Evaluation, Operation};
use hep_names::Meaning;
use hep_source::{Expr, Name, Node, Occurrence};

// A name that no variable has.
const NO_NAME: Name = Name {
    asynchronous: false,
    letters: *b"      ",
};

// A constant or a variable.
fn emit_name(code: &mut Code, names: &NameLookup, line: u32, name: &Name) -> Result<(), EmitFault>
    ensures code { OnOk result (code.new.items ≡ code.old.items
        ++ code_words.name_code (names_in names.now) line ((names_in names.now).constants name.now) name.now) }
    ensures refused { IfErr result (λ fault. fault ≡ NoMemory) }
{
    match names.constant(name) {
        Some(value) => emit_value(code, value),
        None => {
            let variable = names.variable(name);
            let load = Evaluation::Load {
                variable,
                subscripts: 0,
            };
            emit_evaluation(code, line, load)
        }
    }
}

// The element of an array, or else a name without storage units.
fn asked_listed<'a>(
    listed: Meaning,
    occurrence: &Occurrence,
    list: &'a [Expr],
) -> (Name, &'a [Expr])
    ensures name { result.0 ≡ (code_words.asked_listed (meaning listed) occurrence.now.name (code_words.count (trees_of list.now))).0 }
    ensures subscripts { trees_of result.1.now ≡ subscripts_asked_listed (meaning listed) (trees_of list.now) }
{
    match listed {
        Meaning::Element => (occurrence.name, list),
        _ => (NO_NAME, &[]),
    }
}

// The name and the subscripts of one expression as the argument of FULL, EMPTY, VALUE, SETE or WAITF.
fn asked_of<'a>(names: &NameLookup, argument: &'a Expr) -> (Name, &'a [Expr])
    ensures name { result.0 ≡ (code_words.asked (names_in names.now) (trees argument.now no_trees)).0 }
    ensures subscripts { trees_of result.1.now ≡ subscripts_asked (names_in names.now) (trees argument.now no_trees) }
{
    match &argument.node {
        Node::Occurrence(occurrence) => (occurrence.name, &[]),
        Node::WithList(occurrence, list) => {
            asked_listed(names.meaning(&occurrence.name), occurrence, list)
        }
        _ => (NO_NAME, &[]),
    }
}

// The name and the subscripts of the argument of FULL, EMPTY, VALUE, SETE or WAITF. In accepted programs their list
// has one expression.
fn asked<'a>(names: &NameLookup, list: &'a [Expr]) -> (Name, &'a [Expr])
    ensures name { result.0 ≡ (code_words.asked (names_in names.now) (trees_of list.now)).0 }
    ensures subscripts { trees_of result.1.now ≡ subscripts_asked (names_in names.now) (trees_of list.now) }
{
    match list {
        [] => (NO_NAME, &[]),
        [first, rest @ ..] => match rest {
            [] => asked_of(names, first),
            [_, ..] => (NO_NAME, &[]),
        },
    }
}

// What is done with the values of a list, by what its name is, and the expressions that they are of: those of the list, or the
// subscripts of what FULL, EMPTY, VALUE, SETE or WAITF is asked of. Nothing for a function of the program.
#[tactic(auto, using(hep_code::proofs::ListLengths::count_length, crate::proofs::StateFunctionCode::asked_count))]
fn listed_use<'a>(
    names: &NameLookup,
    listed: Meaning,
    name: &Name,
    list: &'a [Expr],
) -> Result<Option<(Evaluation, &'a [Expr])>, EmitFault>
    ensures evaluation { IfOk result (λ used. option_map (λ x. x.0) used
        ≡ evaluation_listed (names_in names.now) (meaning listed) name.now (trees_of list.now)) }
    ensures operands { IfOk result (λ used. IfSome used (λ x. trees_of x.1.now
        ≡ operands_listed (names_in names.now) (meaning listed) (trees_of list.now))) }
    ensures refused { IfErr result (λ fault. greatest
        < code_words.count (operands_listed (names_in names.now) (meaning listed) (trees_of list.now))) }
{
    match listed {
        Meaning::Element => {
            let variable = names.variable(name);
            let subscripts = counted(list.len())?;
            let load = Evaluation::Load {
                variable,
                subscripts,
            };
            Ok(Some((load, list)))
        }
        Meaning::Pure(function) => {
            let arguments = counted(list.len())?;
            let apply = Evaluation::Apply {
                function,
                arguments,
            };
            Ok(Some((apply, list)))
        }
        Meaning::State(function) => {
            let (name, list) = asked(names, list);
            let variable = names.variable(&name);
            let subscripts = counted(list.len())?;
            let test = Evaluation::Test {
                function,
                variable,
                subscripts,
            };
            Ok(Some((test, list)))
        }
        Meaning::External => Ok(None),
    }
}

// A reference of a function of the program, behind its actual arguments, and how these are passed.
#[tactic(auto, using(hep_code::proofs::ListLengths::count_length, crate::proofs::CodeLengths::passes_map))]
fn emit_reference(
    code: &mut Code,
    names: &NameLookup,
    line: u32,
    name: &Name,
    list: &[Expr],
) -> Result<(), EmitFault>
    ensures code { OnOk result (code.new.items
        ≡ code.old.items ++ reference_code (names_in names.now) line name.now (trees_of list.now)) }
    ensures refused { IfErr result (IsTooLong
        (length list.now + subscripts_of_all (code_words.argument_of (names_in names.now)) list.now)) }
{
    let unit = names.function(name);
    let count = counted(list.len())?;
    emit_step(code, line, Operation::Refer { unit, count })?;
    emit_passed(code, names, list)
}

// The subscripts of an actual argument that is referred to: a variable, an element or an array.
fn referred<'a>(names: &NameLookup, actual: &'a Expr) -> Option<&'a [Expr]>
    ensures { option_map (λ subscripts. trees_of subscripts.now) result ≡ subscripts_referred (names_in names.now) actual.now }
{
    match &actual.node {
        Node::Occurrence(occurrence) => match names.constant(&occurrence.name) {
            Some(_) => None,
            None => Some(&[]),
        },
        Node::WithList(occurrence, list) => match names.meaning(&occurrence.name) {
            Meaning::Element => Some(list),
            _ => None,
        },
        _ => None,
    }
}

/// The code of an expression.
#[cycle(emit_expression)]
pub fn emit_expression(
    code: &mut Code,
    names: &NameLookup,
    line: u32,
    expression: &Expr,
) -> Result<(), EmitFault>
    ensures code { OnOk result (code.new.items ≡ code.old.items ++ code_words.tree_code (names_in names.now) line expression.now) }
    ensures refused { IfErr result (IsTooLong (length (code_words.tree_code (names_in names.now) line expression.now))) }
{
    match &expression.node {
        Node::Constant(value) => emit_value(code, *value),
        Node::Occurrence(occurrence) => emit_name(code, names, line, &occurrence.name),
        Node::WithList(occurrence, list) => {
            let listed = names.meaning(&occurrence.name);
            emit_listed(code, names, line, listed, &occurrence.name, list)
        }
        Node::Parenthesized(inner) => emit_expression(code, names, line, inner),
        Node::Signed(sign, term) => {
            emit_expression(code, names, line, term)?;
            emit_evaluation(code, line, Evaluation::Sign(*sign))
        }
        Node::Negated(operand) => {
            emit_expression(code, names, line, operand)?;
            emit_evaluation(code, line, Evaluation::Not)
        }
        Node::Binary(operator, left, right) => {
            emit_expression(code, names, line, left)?;
            emit_expression(code, names, line, right)?;
            emit_evaluation(code, line, Evaluation::Combine(*operator))
        }
    }
}

// The code of a name with a list, by the meaning of the name.
#[cycle(emit_expression)]
#[tactic(auto, using(crate::proofs::Uses::operands_nodes))]
fn emit_listed(
    code: &mut Code,
    names: &NameLookup,
    line: u32,
    listed: Meaning,
    name: &Name,
    list: &[Expr],
) -> Result<(), EmitFault>
    ensures code { OnOk result (code.new.items ≡ code.old.items
        ++ code_words.listed_code (names_in names.now) (meaning listed) line name.now (trees_of list.now)
        (code_words.trees_code (names_in names.now) line (trees_of list.now))
        (code_words.asked_code (names_in names.now) line (trees_of list.now))
        (code_words.actuals_code_in (names_in names.now) line (trees_of list.now))) }
    ensures refused { IfErr result (IsTooLong
        (length (code_words.listed_code (names_in names.now) (meaning listed) line name.now (trees_of list.now)
        (code_words.trees_code (names_in names.now) line (trees_of list.now))
        (code_words.asked_code (names_in names.now) line (trees_of list.now))
        (code_words.actuals_code_in (names_in names.now) line (trees_of list.now))))) }
{
    let used = listed_use(names, listed, name, list)?;
    match used {
        Some((evaluation, operands)) => {
            emit_all(code, names, line, operands)?;
            emit_evaluation(code, line, evaluation)
        }
        None => {
            emit_actuals(code, names, line, list)?;
            emit_reference(code, names, line, name, list)
        }
    }
}

/// The code of expressions in a list.
#[cycle(emit_expression)]
pub fn emit_all(
    code: &mut Code,
    names: &NameLookup,
    line: u32,
    list: &[Expr],
) -> Result<(), EmitFault>
    ensures code { OnOk result (code.new.items ≡ code.old.items ++ code_words.trees_code (names_in names.now) line (trees_of list.now)) }
    ensures refused { IfErr result (IsTooLong (length (code_words.trees_code (names_in names.now) line (trees_of list.now)))) }
{
    match list {
        [] => Ok(()),
        [first, rest @ ..] => {
            emit_expression(code, names, line, first)?;
            emit_all(code, names, line, rest)
        }
    }
}

/// The value of an actual argument, or its subscripts.
#[cycle(emit_expression)]
#[tactic(auto, using(crate::proofs::Uses::actual_referred, crate::proofs::Uses::actual_evaluated, crate::proofs::Uses::referred_nodes))]
pub fn emit_actual(
    code: &mut Code,
    names: &NameLookup,
    line: u32,
    actual: &Expr,
) -> Result<(), EmitFault>
    ensures code { OnOk result (code.new.items ≡ code.old.items ++ code_words.actual_code (names_in names.now) line actual.now) }
    ensures refused { IfErr result (IsTooLong (length (code_words.actual_code (names_in names.now) line actual.now))) }
{
    match referred(names, actual) {
        Some(subscripts) => emit_all(code, names, line, subscripts),
        None => emit_expression(code, names, line, actual),
    }
}

// The actual arguments of a reference of a function.
#[cycle(emit_expression)]
fn emit_actuals(
    code: &mut Code,
    names: &NameLookup,
    line: u32,
    list: &[Expr],
) -> Result<(), EmitFault>
    ensures code { OnOk result (code.new.items ≡ code.old.items
        ++ code_words.actuals_code_in (names_in names.now) line (trees_of list.now)) }
    ensures refused { IfErr result (IsTooLong (length (code_words.actuals_code_in (names_in names.now) line (trees_of list.now)))) }
{
    match list {
        [] => Ok(()),
        [first, rest @ ..] => {
            emit_actual(code, names, line, first)?;
            emit_actuals(code, names, line, rest)
        }
    }
}
