//! The operands of a statement: parameters of a DO, items of a PRINT, actual arguments and targets of a PURGE.
ghost use Rattle.std.specs.Prelude.{◌≡◌, ◌++◌, ◌<◌, ℕ, List, length, OnOk, IfErr};
ghost use Rattle.std.specs.List.{flat_map};
ghost use Rattle.hep_code.specs.declared.instruction.Instruction.{Instruction as PureInstruction};
ghost use Rattle.hep_code.specs.ExpressionCode as code_words;
ghost use Rattle.hep_code.specs.Words.{NameTable};
ghost use Rattle.hep_lower.specs.ArgumentLimits.{IsTooLong};
ghost use Rattle.hep_lower.specs.Names.{names_in};

use crate::emit::{Code, emit_value};
use crate::expressions::{emit_actual, emit_all, emit_expression};
use crate::fault::EmitFault;
use crate::name_lookup::NameLookup;
use hep_source::{DoControl, Expr, PrintItem, Target, Value};

/// A part of a statement that has operands.
pub(crate) trait HasOperands {
    ghost code_of: { NameTable → ℕ → Self → List PureInstruction };

    fn emit(&self, code: &mut Code, names: &NameLookup, line: u32) -> Result<(), EmitFault>
        ensures code { OnOk result (code.new.items ≡ code.old.items ++ code_of (names_in names.now) line self.now) }
        ensures refused { IfErr result (IsTooLong (length (code_of (names_in names.now) line self.now))) };
}

impl HasOperands for DoControl {
    ghost code_of = { code_words.control_code };

    fn emit(&self, code: &mut Code, names: &NameLookup, line: u32) -> Result<(), EmitFault> {
        emit_expression(code, names, line, &self.initial)?;
        emit_expression(code, names, line, &self.limit)?;
        match &self.increment {
            Some(increment) => emit_expression(code, names, line, increment),
            None => emit_value(code, Value::Int(1)),
        }
    }
}

impl HasOperands for PrintItem {
    ghost code_of = { code_words.item_code };

    fn emit(&self, code: &mut Code, names: &NameLookup, line: u32) -> Result<(), EmitFault> {
        match self {
            PrintItem::Expression(expression) => emit_expression(code, names, line, expression),
            PrintItem::Characters(_) => Ok(()),
        }
    }
}

// The subscripts of a target of PURGE.
impl HasOperands for Target {
    ghost code_of = { code_words.target_code };

    fn emit(&self, code: &mut Code, names: &NameLookup, line: u32) -> Result<(), EmitFault> {
        emit_all(code, names, line, self.subscripts.as_slice())
    }
}

// The value of an actual argument, or its subscripts.
impl HasOperands for Expr {
    ghost code_of = { code_words.actual_code };

    fn emit(&self, code: &mut Code, names: &NameLookup, line: u32) -> Result<(), EmitFault> {
        emit_actual(code, names, line, self)
    }
}

/// The operands of a CALL, CREATE, PURGE or PRINT.
pub(crate) fn emit_each<T: HasOperands>(
    code: &mut Code,
    names: &NameLookup,
    line: u32,
    items: &[T],
) -> Result<(), EmitFault>
    ensures code { OnOk result (code.new.items ≡ code.old.items ++ flat_map (T.code_of (names_in names.now) line) items.now) }
    ensures refused { IfErr result (IsTooLong (length (flat_map (T.code_of (names_in names.now) line) items.now))) }
{
    for item in items {
        item.emit(code, names, line)?;
    }
    Ok(())
}
