//! The number of operations left of a statement in the code.
ghost use Rattle.std.specs.Prelude.{◌≡◌, ◌<◌, ◌≤◌, ◌+◌, ◌^◌, drop};
ghost use Rattle.hep_cover.specs.RemainingOperations as words;

use hep_code::{Instruction, Operation};

// The number from an operation on, where `behind` follow it.
fn ahead_by(operation: Operation, behind: usize) -> usize
    requires { behind < 2 ^ 63 }
    ensures number { result ≡ words.ahead_by operation behind }
    ensures few { result ≤ behind + 1 }
{
    match operation {
        Operation::Evaluate(_) | Operation::Refer { .. } | Operation::Condition { .. } => {
            behind + 1
        }
        Operation::EndLoop { .. } => 0,
        _ => 1,
    }
}

// The same from an instruction on.
fn ahead_of(instruction: &Instruction, behind: usize) -> usize
    requires { behind < 2 ^ 63 }
    ensures number { result ≡ words.ahead_of instruction.now behind }
    ensures few { result ≤ behind + 1 }
{
    match instruction {
        Instruction::Step { operation, .. } => ahead_by(*operation, behind),
        _ => behind,
    }
}

// Notes the number of operations of a line, if the line exists and the number is above 0.
fn note_line(found: &mut Vec<usize>, line: u32, ahead: usize)
    ensures { found.new.items ≡ words.with_line found.old.items line ahead }
{
    if line == 0 {
        return;
    }
    let index = line as usize - 1;
    if index < found.len() {
        found[index] = ahead;
    }
}

fn note(found: &mut Vec<usize>, instruction: &Instruction, ahead: usize)
    ensures { found.new.items ≡ words.noted instruction.now ahead found.old.items }
{
    match instruction {
        Instruction::Step {
            operation: Operation::EndLoop { .. },
            ..
        } => {}
        Instruction::Step { line, .. } => note_line(found, *line, ahead),
        _ => {}
    }
}

/// Notes for each line whose statement has operations in a unit's code how many these are.
pub fn note_code(found: &mut Vec<usize>, code: &[Instruction])
    ensures { found.new.items ≡ words.noted_from code.now found.old.items }
{
    let mut ahead = 0;
    for passed in 0..code.len() {
        let instruction = &code[code.len() - 1 - passed];
        ahead = ahead_of(instruction, ahead);
        note(found, instruction, ahead);
    }
}

/// The number of operations of a statement that are left from an index of a unit's code on.
pub fn operations_ahead(code: &[Instruction], index: usize) -> usize
    ensures { result ≡ words.operations_ahead (drop index code.now) }
{
    let mut at = index;
    let mut made = 0;
    while let Some(instruction) = code.get(at) {
        if let Instruction::Step { operation, .. } = instruction {
            match operation {
                Operation::Evaluate(_) | Operation::Refer { .. } | Operation::Condition { .. } => {
                    made += 1;
                }
                Operation::EndLoop { .. } => return made,
                _ => return made + 1,
            }
        }
        at += 1;
    }
    made
}
