//! The code of a statement: its operands and conditions, then its operation with its entries.
ghost use Rattle.std.specs.Prelude.{◌≡◌, ◌++◌, ◌∷◌, ◌<◌, ℕ, length, map, OnOk, IfErr};
ghost use Rattle.hep_code.specs.declared.instruction.Instruction.TheVariants as instruction;
ghost use Rattle.hep_code.specs.Words.{operands_code, form_code, operation_code, conditions_code, loop_end_code, statement_code};
ghost use Rattle.hep_lower.specs.ArgumentLimits.{IsTooLong};
ghost use Rattle.hep_lower.specs.Operations as operations;
ghost use Rattle.hep_lower.specs.Names.{names_in};
ghost use Rattle.hep_lower.specs.Tables.{table_in};

use crate::emit::{Code, counted, emit, emit_step};
use crate::expressions::{emit_all, emit_expression};
use crate::fault::EmitFault;
use crate::operands::{HasOperands, emit_each};
use crate::operation_lists::{emit_passed, emit_printed};
use crate::tables::Tables;
use hep_code::{Instruction, Operation};
use hep_source::{Expr, Form, Statement};
use std::alloc::{AllocError, Global};

// The length of the list that the operation of a form counts: subscripts, labels, arguments, or targets of PURGE or
// items of PRINT.
fn list_length(form: &Form) -> usize
    ensures { result ≡ operations.list_length form.now }
{
    match form {
        Form::Assign(target, _) => target.subscripts.as_slice().len(),
        Form::ComputedGoTo(labels, _) => labels.as_slice().len(),
        Form::Call(_, actuals) | Form::Create(_, actuals) => actuals.as_slice().len(),
        Form::Purge(targets) => targets.as_slice().len(),
        Form::Print(items) => items.as_slice().len(),
        _ => 0,
    }
}

// What is done with the operands of the statement at an index, whose list is so long (X3.9-1978, sections 10 to 12 and 15).
// What isn't executable is passed over.
#[tactic(auto, using(hep_code::proofs::ListLengths::count_length))]
fn operation_of(tables: &Tables, index: usize, form: &Form, count: u32) -> Operation
    requires inside { index < length tables.now.control.now }
    requires counted { count ≡ operations.list_length form.now }
    ensures { (line : ℕ) → operation_code (table_in tables.now) line index form.now
        ≡ instruction.Step line result ∷ operations.list_code (table_in tables.now) form.now }
{
    let next = tables.next(index);
    match form {
        Form::Assign(target, _) => Operation::Store {
            variable: tables.names.variable(&target.occurrence.name),
            subscripts: count,
            next,
        },
        Form::GoTo(label) => Operation::Jump {
            next: tables.label(*label),
        },
        Form::ComputedGoTo(_, _) => Operation::Choose { count, next },
        Form::ArithmeticIf(_, labels) => Operation::BySign {
            negative: tables.label(labels.negative),
            zero: tables.label(labels.zero),
            positive: tables.label(labels.positive),
        },
        Form::IfThen(_) | Form::ElseIf(_) => Operation::Branch {
            inside: tables.inside(index),
            otherwise: tables.otherwise(index),
        },
        Form::Do(control) => Operation::EnterLoop {
            variable: tables.names.variable(&control.variable.name),
            cells: tables.cells(index),
            inside: tables.inside(index),
            behind: tables.behind(index),
        },
        Form::Call(called, _) => Operation::Call {
            unit: tables.subroutine(&called.name),
            count,
            next,
        },
        Form::Create(called, _) => Operation::Create {
            unit: tables.subroutine(&called.name),
            count,
            next,
        },
        Form::Purge(_) => Operation::Purge { count, next },
        Form::Print(_) => Operation::Print { count, next },
        Form::Return | Form::End => tables.ending(),
        Form::Resume => Operation::Resume { next },
        Form::Stop => Operation::Stop,
        _ => Operation::Jump { next },
    }
}

// Appends the indexes of the labels of a computed GO TO.
fn emit_labels(code: &mut Code, tables: &Tables, labels: &[u32]) -> Result<(), AllocError>
    ensures { OnOk result (code.new.items ≡ code.old.items ++ map (λ l. instruction.To ((table_in tables.now).labels l)) labels.now) }
{
    for label in labels {
        emit(code, Instruction::To(tables.label(*label)))?;
    }
    Ok(())
}

// Appends the entries of an operation: the indexes of labels, how arguments are passed, or what is purged or printed.
fn emit_list(alloc: Global, code: &mut Code, tables: &Tables, form: &Form) -> Result<(), EmitFault>
    ensures code { OnOk result (code.new.items ≡ code.old.items ++ operations.list_code (table_in tables.now) form.now) }
    ensures refused { IfErr result (IsTooLong (operations.list_subscripts (names_in tables.now.names) form.now)) }
{
    let names = &tables.names;
    match form {
        Form::ComputedGoTo(labels, _) => Ok(emit_labels(code, tables, labels.as_slice())?),
        Form::Call(_, actuals) | Form::Create(_, actuals) => {
            emit_passed(code, names, actuals.as_slice())
        }
        Form::Purge(targets) => emit_passed(code, names, targets.as_slice()),
        Form::Print(items) => Ok(emit_printed(alloc, code, items.as_slice())?),
        _ => Ok(()),
    }
}

/// Appends the operation on the operands of the statement at an index.
pub fn emit_operation(
    alloc: Global,
    code: &mut Code,
    tables: &Tables,
    line: u32,
    index: usize,
    form: &Form,
) -> Result<(), EmitFault>
    requires { index < length tables.now.control.now }
    ensures code { OnOk result (code.new.items ≡ code.old.items ++ operation_code (table_in tables.now) line index form.now) }
    ensures refused { IfErr result (IsTooLong (length (form_code (table_in tables.now) line index form.now))) }
{
    let count = counted(list_length(form))?;
    emit_step(code, line, operation_of(tables, index, form, count))?;
    emit_list(alloc, code, tables, form)
}

// The end of a DO, with the line of its terminal statement (11.10.6 and 11.10.7).
fn loop_end(tables: &Tables, index: usize, form: &Form) -> Option<(u32, Operation)>
    requires { index < length tables.now.control.now }
    ensures { loop_end_code (table_in tables.now) index form.now ≡ operations.step_if_any result }
{
    let Form::Do(control) = form else {
        return None;
    };
    let end = Operation::EndLoop {
        variable: tables.names.variable(&control.variable.name),
        cells: tables.cells(index),
        inside: tables.inside(index),
        behind: tables.behind(index),
    };
    Some((tables.end_line(index), end))
}

/// Appends the end of a DO, after its statement; nothing for other statements.
pub fn emit_loop_end(
    code: &mut Code,
    tables: &Tables,
    index: usize,
    form: &Form,
) -> Result<(), AllocError>
    requires { index < length tables.now.control.now }
    ensures { OnOk result (code.new.items ≡ code.old.items ++ loop_end_code (table_in tables.now) index form.now) }
{
    match loop_end(tables, index, form) {
        Some((line, end)) => emit_step(code, line, end),
        None => Ok(()),
    }
}

fn emit_operands(code: &mut Code, tables: &Tables, line: u32, form: &Form) -> Result<(), EmitFault>
    ensures code { OnOk result (code.new.items ≡ code.old.items ++ operands_code (table_in tables.now) line form.now) }
    ensures refused { IfErr result (IsTooLong (length (operands_code (table_in tables.now) line form.now))) }
{
    let names = &tables.names;
    match form {
        Form::Assign(target, value) => {
            emit_expression(code, names, line, value)?;
            emit_all(code, names, line, target.subscripts.as_slice())
        }
        Form::ComputedGoTo(_, tested)
        | Form::ArithmeticIf(tested, _)
        | Form::IfThen(tested)
        | Form::ElseIf(tested) => emit_expression(code, names, line, tested),
        Form::Do(control) => control.emit(code, names, line),
        Form::Call(_, actuals) | Form::Create(_, actuals) => {
            emit_each(code, names, line, actuals.as_slice())
        }
        Form::Purge(targets) => emit_each(code, names, line, targets.as_slice()),
        Form::Print(items) => emit_each(code, names, line, items.as_slice()),
        _ => Ok(()),
    }
}

// The conditions of a logical IF, each before its statement (X3.9-1978, 11.5).
fn emit_conditions(
    alloc: Global,
    code: &mut Code,
    tables: &Tables,
    line: u32,
    index: usize,
    conditions: &[Expr],
    form: &Form,
) -> Result<(), EmitFault>
    requires { index < length tables.now.control.now }
    ensures code { OnOk result (code.new.items ≡ code.old.items
        ++ conditions_code (table_in tables.now) line index conditions.now form.now) }
    ensures refused { IfErr result (IsTooLong (length (conditions_code (table_in tables.now) line index conditions.now form.now))) }
{
    match conditions {
        [] => {
            emit_operands(code, tables, line, form)?;
            emit_operation(alloc, code, tables, line, index, form)
        }
        [first, rest @ ..] => {
            emit_expression(code, &tables.names, line, first)?;
            let otherwise = tables.next(index);
            emit_step(code, line, Operation::Condition { otherwise })?;
            emit_conditions(alloc, code, tables, line, index, rest, form)
        }
    }
}

/// The code of the statement at an index.
pub(crate) fn emit_statement(
    alloc: Global,
    code: &mut Code,
    tables: &Tables,
    index: usize,
    statement: &Statement,
) -> Result<(), EmitFault>
    requires { index < length tables.now.control.now }
    ensures code { OnOk result (code.new.items ≡ code.old.items ++ statement_code (table_in tables.now) index statement.now) }
    ensures refused { IfErr result (IsTooLong (length (statement_code (table_in tables.now) index statement.now))) }
{
    let conditions = statement.conditions.as_slice();
    emit_conditions(
        alloc,
        code,
        tables,
        statement.line,
        index,
        conditions,
        &statement.form,
    )?;
    Ok(emit_loop_end(code, tables, index, &statement.form)?)
}
