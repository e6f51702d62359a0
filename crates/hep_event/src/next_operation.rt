//! The next operation of a process.
ghost use Rattle.std.specs.Prelude.{◌≡◌, ◌+◌, ◌≤◌, ◌∷◌, ℕ, List, IfOk, length, vec_capacity};
ghost use Rattle.hep_code.specs.declared.instruction.Instruction.TheVariants.{Step};
ghost use Rattle.hep_state.specs.Words.{HasLevels, IsMachineAfter, snapshot_of};
ghost use Rattle.hep_event.specs.NextOperations.{HasStep, IsNextOperationOf};

use hep_code::laws::operations_stand_ahead;
use hep_code::operands::settle;
use hep_code::{Instruction, Operation};
use hep_image::Image;
use hep_proc::Local;
use hep_source::Value;
use hep_state::CoreState;
use std::alloc::{AllocError, Global};

/// The next operation of a process, in a statement with this initial line, with its operands and the instructions
/// after it, its entries first.
#[derive(Drop)]
pub struct NextOperation<'a> {
    pub line: u32,
    pub operation: Operation,
    pub operands: Vec<Value>,
    pub behind: &'a [Instruction],
}

// The first of these instructions, which is an operation, with these operands.
fn in_front(ahead: &[Instruction], operands: Vec<Value>) -> NextOperation<'_>
    requires { HasStep ahead.now }
    ensures operands { result.operands ≡ operands }
    ensures ahead { ahead.now ≡ Step result.line result.operation ∷ result.behind.now }
{
    let [Instruction::Step { line, operation }, behind @ ..] = ahead else {
        unreachable!()
    };
    NextOperation {
        line: *line,
        operation: *operation,
        operands,
        behind,
    }
}

// A copy of operands, with room for `more` further ones.
fn copied(alloc: Global, operands: &[Value], more: u32) -> Result<Vec<Value>, AllocError>
    ensures items { IfOk result (λ copy. copy.items ≡ operands.now) }
    ensures room { IfOk result (λ copy. length operands.now + more ≤ vec_capacity copy) }
{
    // One request for all of it, since this is done for each line.
    let mut copy = Vec::new(alloc);
    copy.reserve(operands.len() + more as usize)?;
    copy.extend_from_slice(operands)?;
    Ok(copy)
}

/// The next operation of process p, which lives, by a core's machine, whether a STOP was executed or not.
///
/// # Errors
///
/// Only where memory was refused.
pub fn coming_of<'a>(
    alloc: Global,
    machine: &CoreState,
    image: &'a Image,
    p: u64,
) -> Result<NextOperation<'a>, AllocError>
    requires levels { HasLevels (snapshot_of machine.now) p }
    requires after { (cells : ℕ) × (choices : List ℕ) × IsMachineAfter image.now cells choices machine.now }
    ensures { IfOk result (IsNextOperationOf image.now machine.now p) }
{
    operations_stand_ahead();
    let at = machine.place(p);
    let process = &machine.processes[at];
    let Local { unit, index, .. } = process.top();
    let unit = image.unit(unit as usize);
    let code = unit.code.as_slice();
    let mut operands = copied(alloc, &process.operands, unit.operands)?;
    let mut index = index;
    settle(code, &mut operands, &mut index);
    Ok(in_front(&code[index..], operands))
}
