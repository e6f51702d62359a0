//! Appends instructions.
ghost use Rattle.std.specs.Prelude.{◌≡◌, ◌++◌, ◌∷◌, [], ◌<◌, IfOk, OnOk, IfErr};
ghost use Rattle.hep_code.specs.Words.{evaluating};
ghost use Rattle.hep_lower.specs.declared.fault.EmitFault.TheVariants.{NoMemory};
ghost use Rattle.hep_lower.specs.Names.{greatest};

use crate::fault::EmitFault;
use hep_code::{Evaluation, Instruction, Operation};
use hep_source::Value;
use std::alloc::AllocError;

/// The code so far.
pub type Code = Vec<Instruction>;

/// Appends an instruction.
pub fn emit(code: &mut Code, instruction: Instruction) -> Result<(), AllocError>
    ensures { OnOk result (code.new.items ≡ code.old.items ++ instruction ∷ []) }
{
    code.push(instruction)?;
    Ok(())
}

/// Appends an operation of a statement with this line.
pub fn emit_step(code: &mut Code, line: u32, operation: Operation) -> Result<(), AllocError>
    ensures { OnOk result (code.new.items ≡ code.old.items ++ Instruction.Step line operation ∷ []) }
{
    emit(code, Instruction::Step { line, operation })
}

/// Appends an operation that gives a value.
pub fn emit_evaluation(code: &mut Code, line: u32, evaluation: Evaluation) -> Result<(), EmitFault>
    ensures code { OnOk result (code.new.items ≡ code.old.items ++ evaluating line evaluation) }
    ensures refused { IfErr result (λ fault. fault ≡ NoMemory) }
{
    emit_step(code, line, Operation::Evaluate(evaluation))?;
    Ok(())
}

/// Appends an instruction that pushes a value.
pub fn emit_value(code: &mut Code, value: Value) -> Result<(), EmitFault>
    ensures code { OnOk result (code.new.items ≡ code.old.items ++ Instruction.Push value ∷ []) }
    ensures refused { IfErr result (λ fault. fault ≡ NoMemory) }
{
    emit(code, Instruction::Push(value))?;
    Ok(())
}

/// The length of a list in 32 bits.
pub fn counted(length: usize) -> Result<u32, EmitFault>
    ensures count { IfOk result (λ count. count ≡ length) }
    ensures refused { IfErr result (λ fault. greatest < length) }
{
    match u32::try_from(length) {
        Ok(count) => Ok(count),
        Err(_) => Err(EmitFault::TooLong),
    }
}
