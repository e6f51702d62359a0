//! The entries after an operation: how arguments are passed, and what is purged or printed.
ghost use Rattle.std.specs.Prelude.{◌≡◌, ◌++◌, ◌<◌, map, IfOk, OnOk, IfErr};
ghost use Rattle.hep_code.specs.declared.instruction.Argument.{Argument as PureArgument};
ghost use Rattle.hep_code.specs.declared.instruction.Instruction.TheVariants as instruction;
ghost use Rattle.hep_code.specs.ExpressionCode as code_words;
ghost use Rattle.hep_code.specs.Words.{NameTable};
ghost use Rattle.hep_lower.specs.ArgumentLimits.{IsTooLong, subscripts_of, subscripts_of_all};
ghost use Rattle.hep_lower.specs.Names.{greatest, names_in};

use crate::emit::{Code, counted, emit};
use crate::fault::EmitFault;
use crate::name_lookup::NameLookup;
use hep_code::{Argument, BoxedText, Duplicate, Instruction, Printed};
use hep_names::Meaning;
use hep_source::{Expr, Node, PrintItem, Target};
use std::alloc::{AllocError, Global};

/// An item that is passed to a procedure or purged.
pub trait PassedItem {
    ghost argument_of: { NameTable → Self → PureArgument };

    fn argument(&self, names: &NameLookup) -> Result<Argument, EmitFault>
        ensures argument { IfOk result (λ argument. argument ≡ argument_of (names_in names.now) self.now) }
        ensures refused { IfErr result (λ fault. greatest < subscripts_of (argument_of (names_in names.now) self.now)) };
}

// A variable, an array or an element.
impl PassedItem for Target {
    ghost argument_of = { code_words.argument_of_target };

    #[tactic(auto, using(hep_code::proofs::ListLengths::count_length))]
    fn argument(&self, names: &NameLookup) -> Result<Argument, EmitFault> {
        Ok(Argument::Referred {
            variable: names.variable(&self.occurrence.name),
            subscripts: counted(self.subscripts.as_slice().len())?,
        })
    }
}

// How an actual argument is passed.
impl PassedItem for Expr {
    ghost argument_of = { code_words.argument_of };

    #[tactic(auto, using(hep_code::proofs::ListLengths::count_length))]
    fn argument(&self, names: &NameLookup) -> Result<Argument, EmitFault> {
        match &self.node {
            Node::Occurrence(occurrence) => match names.constant(&occurrence.name) {
                Some(_) => Ok(Argument::Evaluated),
                None => Ok(Argument::Referred {
                    variable: names.variable(&occurrence.name),
                    subscripts: 0,
                }),
            },
            Node::WithList(occurrence, list) => match names.meaning(&occurrence.name) {
                Meaning::Element => Ok(Argument::Referred {
                    variable: names.variable(&occurrence.name),
                    subscripts: counted(list.len())?,
                }),
                _ => Ok(Argument::Evaluated),
            },
            _ => Ok(Argument::Evaluated),
        }
    }
}

/// Appends the entries of a CALL, CREATE or reference of a function, for its actual arguments, or those of a PURGE,
/// for its targets.
pub fn emit_passed<T: PassedItem>(
    code: &mut Code,
    names: &NameLookup,
    items: &[T],
) -> Result<(), EmitFault>
    ensures code { OnOk result (code.new.items
        ≡ code.old.items ++ map (λ t. instruction.Pass (T.argument_of (names_in names.now) t)) items.now) }
    ensures refused { IfErr result (IsTooLong (subscripts_of_all (T.argument_of (names_in names.now)) items.now)) }
{
    for item in items {
        let argument = item.argument(names)?;
        emit(code, Instruction::Pass(argument))?;
    }
    Ok(())
}

fn printed(alloc: Global, item: &PrintItem) -> Result<Printed, AllocError>
    ensures { IfOk result (λ printed. printed ≡ code_words.printed_of item.now) }
{
    match item {
        PrintItem::Expression(_) => Ok(Printed::Operand),
        PrintItem::Characters(text) => {
            let text = BoxedText::new(alloc, text.copy(alloc)?)?;
            Ok(Printed::Characters(text))
        }
    }
}

/// Appends the entries of a PRINT, for its items.
pub fn emit_printed(alloc: Global, code: &mut Code, items: &[PrintItem]) -> Result<(), AllocError>
    ensures { OnOk result (code.new.items ≡ code.old.items ++ map (λ i. instruction.Show (code_words.printed_of i)) items.now) }
{
    for item in items {
        let printed = printed(alloc, item)?;
        emit(code, Instruction::Show(printed))?;
    }
    Ok(())
}
