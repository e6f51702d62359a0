//! Instructions, the next index after an operation (X3.9-1978, section 11), and the greatest number of operands in a
//! unit's code. The code of each statement is a list of instructions: those that give its operands, then one operation
//! that chooses the next index, and then its entries, such as the labels of a computed GO TO.
//!
//! Indexes of instructions are counted from the first one of the unit.
ghost use Rattle.std.specs.Prelude.{◌≡◌, ◌≤◌, ◌<◌, ◌+◌, ◌-◌, ◌*◌, ◌^◌, ◌∷◌, ℕ, ℤ, pos, ◌-ℤ◌, List, nat_lt, if◌then◌else◌, drop, take, Some, None, length};
ghost use Rattle.hep_machine.specs.Words.{Name, Value, Work, Action, does, entering_loop, ending_loop, next_of, loop_at, natural, Level};
ghost use Rattle.hep_code.specs.ControlFlow as leads_words;
ghost use Rattle.hep_code.specs.ControlTransfer as spec;
ghost use Rattle.hep_code.specs.Words.{Counts, IsAt, Stands, AddressedUnit, code_of, most_instructions, most_operands};

use crate::boxed_text::BoxedText;
use crate::duplicate::Duplicate;
use crate::operands::first_operand;
use crate::variable::Variable;
use hep_machine::values::{integer_of, logical_of};
use hep_source::{Operator, PureFunction, Sign, StateFunction, Value};
use std::alloc::{AllocError, Global};

/// An operation that puts a value in the place of its operands, which are the last ones.
#[derive(Clone, Copy)]
pub enum Evaluation {
    /// Reads a variable, or the element with these subscripts (X3.9-1978, 5.3).
    Load {
        variable: Variable,
        subscripts: u32,
    },
    /// Puts a sign before an operand (6.1.2).
    Sign(Sign),
    /// `.NOT.` (6.4.1).
    Not,
    /// Combines two operands (6.1.1, 6.3.1 and 6.4.1).
    Combine(Operator),
    /// A function of integers (15.10).
    Apply {
        function: PureFunction,
        arguments: u32,
    },
    /// FULL, EMPTY, VALUE, SETE or WAITF of a variable, or of the element with these subscripts
    /// (`docs/LANGUAGE.md`).
    Test {
        function: StateFunction,
        variable: Variable,
        subscripts: u32,
    },
}

/// One step of a statement. `next` and the other indexes are those of instructions.
#[derive(Clone, Copy)]
pub enum Operation {
    Evaluate(Evaluation),
    /// Assigns the first operand to a variable, or to the element whose subscripts are the other ones
    /// (X3.9-1978, 10.1 and 10.2).
    Store {
        variable: Variable,
        subscripts: u32,
        next: u32,
    },
    /// An unconditional GO TO (11.1), and each statement that only goes on, such as CONTINUE (11.11).
    Jump {
        next: u32,
    },
    /// A computed GO TO (11.2), followed by `count` [`Instruction::To`].
    Choose {
        count: u32,
        next: u32,
    },
    /// An arithmetic IF (11.4).
    BySign {
        negative: u32,
        zero: u32,
        positive: u32,
    },
    /// The condition of a logical IF (11.5). If it is true, the statement of the IF comes next.
    Condition {
        otherwise: u32,
    },
    /// The condition of an IF THEN or ELSE IF (11.6 and 11.7).
    Branch {
        inside: u32,
        otherwise: u32,
    },
    /// A DO, with the initial value, the limit and the increment as operands, and the first of the two cells for its
    /// iteration count and its increment (11.10.3).
    EnterLoop {
        variable: Variable,
        cells: u32,
        inside: u32,
        behind: u32,
    },
    /// The end of a DO (11.10.6 and 11.10.7).
    EndLoop {
        variable: Variable,
        cells: u32,
        inside: u32,
        behind: u32,
    },
    /// CALL of a unit (15.6.2), followed by `count` [`Instruction::Pass`].
    Call {
        unit: u32,
        count: u32,
        next: u32,
    },
    /// CREATE of a unit (`docs/LANGUAGE.md`), followed by `count` [`Instruction::Pass`].
    Create {
        unit: u32,
        count: u32,
        next: u32,
    },
    /// A reference of a function, of this unit (15.5.2), followed by `count` [`Instruction::Pass`], and then by the
    /// code that goes on with its value.
    Refer {
        unit: u32,
        count: u32,
    },
    /// PURGE (`docs/LANGUAGE.md`), followed by `count` [`Instruction::Pass`].
    Purge {
        count: u32,
        next: u32,
    },
    /// PRINT (12.8), followed by `count` [`Instruction::Show`].
    Print {
        count: u32,
        next: u32,
    },
    /// RETURN (15.8), and END of a unit (11.14).
    Return,
    /// RETURN, and END of a function, whose value is in a variable (15.5.3).
    Answer {
        variable: Variable,
    },
    /// RESUME (`docs/LANGUAGE.md`).
    Resume {
        next: u32,
    },
    /// STOP (11.12).
    Stop,
}

/// The way in which an actual argument is passed (X3.9-1978, 15.9.3), or a target is purged.
#[derive(Clone, Copy, PartialEq, Eq)]
pub enum Argument {
    /// The value of an expression, which is an operand.
    Evaluated,
    /// A variable, an array, or the element whose subscripts are operands.
    Referred { variable: Variable, subscripts: u32 },
}

/// An item of a record (X3.9-1978, 12.8.2).
#[derive(Drop)]
pub enum Printed {
    /// The value of an expression, which is an operand.
    Operand,
    /// The characters of a character constant.
    Characters(BoxedText),
}

/// An instruction in the code of a unit.
#[derive(Drop)]
pub enum Instruction {
    /// Pushes a value, which is no step.
    Push(Value),
    /// An operation, with the initial line of its statement.
    Step { line: u32, operation: Operation },
    /// The index of one of the labels of a computed GO TO.
    To(u32),
    /// One of the actual arguments, or of the targets of a PURGE.
    Pass(Argument),
    /// One of the items of a PRINT.
    Show(Printed),
}

/// The greatest number of operands that there may be at once.
pub const MOST_OPERANDS: u128 = 256;

/// The deepest stack of operands of a unit.
#[derive(Clone, Copy, PartialEq, Eq)]
pub struct Depth {
    /// The greatest number of operands.
    pub operands: u128,
    /// The line of the first statement that has more than 256 of them.
    pub too_deep: Option<u32>,
}

impl Duplicate for Printed {
    fn copy(&self, alloc: Global) -> Result<Printed, AllocError> {
        match self {
            Printed::Operand => Ok(Printed::Operand),
            Printed::Characters(text) => Ok(Printed::Characters(text.copy(alloc)?)),
        }
    }
}

impl Duplicate for Instruction {
    fn copy(&self, alloc: Global) -> Result<Instruction, AllocError> {
        match self {
            Instruction::Push(value) => Ok(Instruction::Push(*value)),
            Instruction::Step { line, operation } => Ok(Instruction::Step {
                line: *line,
                operation: *operation,
            }),
            Instruction::To(index) => Ok(Instruction::To(*index)),
            Instruction::Pass(argument) => Ok(Instruction::Pass(*argument)),
            Instruction::Show(printed) => Ok(Instruction::Show(printed.copy(alloc)?)),
        }
    }
}

// The entry of this number, counted from 1, of so many.
fn index_chosen(entries: &[Instruction], count: u32, next: u32, number: i64) -> usize
    ensures { result ≡ spec.index_chosen entries.now count next number }
{
    if number < 1 {
        return next as usize;
    }
    let entry = (number - 1) as usize;
    if entry < count as usize {
        match entries.get(entry) {
            Some(Instruction::To(index)) => *index as usize,
            _ => next as usize,
        }
    } else {
        next as usize
    }
}

fn index_after(
    entries: &[Instruction],
    index: usize,
    operation: Operation,
    operands: &[Value],
) -> usize
    requires { index + 1 < 2 ^ 64 }
    ensures { result ≡ spec.led_to operation entries.now operands.now index }
{
    match operation {
        Operation::Store { next, .. }
        | Operation::Jump { next }
        | Operation::Call { next, .. }
        | Operation::Create { next, .. }
        | Operation::Purge { next, .. }
        | Operation::Resume { next }
        | Operation::Print { next, .. } => next as usize,
        Operation::Choose { count, next } => {
            index_chosen(entries, count, next, integer_of(first_operand(operands)))
        }
        Operation::BySign {
            negative,
            zero,
            positive,
        } => {
            let number = integer_of(first_operand(operands));
            if number < 0 {
                negative as usize
            } else if number == 0 {
                zero as usize
            } else {
                positive as usize
            }
        }
        Operation::Condition { otherwise } => {
            if logical_of(first_operand(operands)) {
                index + 1
            } else {
                otherwise as usize
            }
        }
        Operation::Branch { inside, otherwise } => {
            if logical_of(first_operand(operands)) {
                inside as usize
            } else {
                otherwise as usize
            }
        }
        _ => index,
    }
}

fn index_counted(operation: Operation, index: usize, count: i64) -> usize
    ensures { result ≡ spec.led_by_count operation (natural count) index }
{
    match operation {
        Operation::EnterLoop { inside, behind, .. } | Operation::EndLoop { inside, behind, .. } => {
            if count > 0 {
                inside as usize
            } else {
                behind as usize
            }
        }
        _ => index,
    }
}

/// The index that the operation at an index leads to, with its entries and its operands. The machine's activation is
/// at the same place after the action of that operation; for a CALL, after the subroutine has returned.
pub fn led_to(
    entries: &[Instruction],
    index: usize,
    operation: Operation,
    operands: &[Value],
) -> usize
    requires { index + 1 < 2 ^ 64 }
    ensures value { result ≡ spec.led_to operation entries.now operands.now index }
    ensures leads { (addressed : AddressedUnit) (level : Level) (counts : Counts) (line : ℕ) (a : Action)
        → IsAt addressed level operands.now counts index → drop index (code_of addressed) ≡ Instruction.Step line operation ∷ entries.now
        → next_of addressed.unit level.work ≡ does a → leads_words.Leads addressed level counts a result }
{
    index_after(entries, index, operation, operands)
}

/// The index that a DO or its end leads to, by the number of iterations left. The machine's activation is at the same
/// place after the DO has its count and its variable is set.
pub fn led_by_count(operation: Operation, index: usize, count: i64) -> usize
    ensures value { result ≡ spec.led_by_count operation (natural count) index }
    ensures enters { (addressed : AddressedUnit) (level : Level) (operands : List Value)
        (old new : Counts) (line : ℕ) (behind : List Instruction) (x : Name) (m n i : Value) (increment : ℤ)
        → IsAt addressed level operands old index → drop index (code_of addressed) ≡ Instruction.Step line operation ∷ behind
        → next_of addressed.unit level.work ≡ does (entering_loop x m n i)
        → leads_words.LeadsCounted addressed level
        (record { statement = level.statement; count = count; increment = increment }) old new result }
    ensures ends { (addressed : AddressedUnit) (level : Level) (operands : List Value)
        (old new : Counts) (line : ℕ) (behind : List Instruction) (d : ℕ) → IsAt addressed level operands old index
        → drop index (code_of addressed) ≡ Instruction.Step line operation ∷ behind
        → next_of addressed.unit level.work ≡ does (ending_loop d) → natural count ≡ natural (loop_at level.loops d).count - 1
        → leads_words.LeadsCounted addressed level
        (record {
          statement = (loop_at level.loops d).statement;
          count = (loop_at level.loops d).count -ℤ pos 1;
          increment =
              (loop_at level.loops d).increment;
        }) old new result }
{
    index_counted(operation, index, count)
}

/// The number of operands of an entry, which follows its operation: of an argument, or of an item of PRINT.
pub fn operands_of_entry(instruction: &Instruction) -> usize
    ensures number { result ≡ spec.operands_of_entry instruction.now }
    ensures bound { result ≤ 4294967295 }
{
    match instruction {
        Instruction::Pass(argument) => match argument {
            Argument::Evaluated => 1,
            Argument::Referred { subscripts, .. } => *subscripts as usize,
        },
        Instruction::Show(printed) => match printed {
            Printed::Operand => 1,
            Printed::Characters(_) => 0,
        },
        _ => 0,
    }
}

fn operands_of_entries(entries: &[Instruction]) -> usize
    requires { length entries.now ≤ most_instructions }
    ensures number { result ≡ spec.operands_of_entries entries.now }
    ensures bound { result ≤ 4294967295 * length entries.now }
{
    let mut operands = 0;
    for entry in entries {
        operands += operands_of_entry(entry);
    }
    operands
}

fn first_of(list: &[Instruction], count: u32) -> &[Instruction]
    ensures { result.now ≡ take count list.now }
{
    let count = count as usize;
    if count < list.len() {
        &list[..count]
    } else {
        list
    }
}

// The number of operands before an operation, where the instructions after it begin with `operands` operands.
fn operands_by(operation: Operation, operands: u128, behind: &[Instruction]) -> u128
    requires length { length behind.now ≤ most_instructions }
    requires operands { operands ≤ 4503599627370496 * length behind.now }
    ensures number { result ≡ spec.operands_by operation operands behind.now }
    ensures bound { result ≤ 4503599627370496 * (length behind.now + 1) }
{
    match operation {
        Operation::Evaluate(evaluation) => {
            u128::from(evaluation.arity()) + operands.saturating_sub(1)
        }
        Operation::Store { subscripts, .. } => 1 + u128::from(subscripts),
        Operation::Choose { .. }
        | Operation::BySign { .. }
        | Operation::Condition { .. }
        | Operation::Branch { .. } => 1,
        Operation::EnterLoop { .. } => 3,
        Operation::Refer { count, .. } => {
            operands_of_entries(first_of(behind, count)) as u128 + operands.saturating_sub(1)
        }
        Operation::Call { count, .. }
        | Operation::Create { count, .. }
        | Operation::Purge { count, .. }
        | Operation::Print { count, .. } => operands_of_entries(first_of(behind, count)) as u128,
        _ => 0,
    }
}

// The number of operands before an instruction, where those after it begin with `operands` operands.
fn operands_before(first: &Instruction, operands: u128, behind: &[Instruction]) -> u128
    requires length { length behind.now ≤ most_instructions }
    requires operands { operands ≤ 4503599627370496 * length behind.now }
    ensures number { result ≡ spec.operands_before first.now operands behind.now }
    ensures bound { result ≤ 4503599627370496 * (length behind.now + 1) }
{
    match first {
        Instruction::Push(_) => operands.saturating_sub(1),
        Instruction::Step { operation, .. } => operands_by(*operation, operands, behind),
        Instruction::Pass(_) => operands,
        _ => 0,
    }
}

fn line_before(first: &Instruction, line: u32) -> u32
    ensures { result ≡ spec.line_before first.now line }
{
    match first {
        Instruction::Step { line, .. } => *line,
        _ => line,
    }
}

impl Depth {
    // The depth with one more instruction, with this number of operands and this line.
    fn with(self, operands: u128, line: u32) -> Depth
        ensures operands { result.operands ≡ spec.deeper self.operands operands }
        ensures too_deep { result.too_deep ≡ if nat_lt most_operands operands then Some line else self.too_deep }
    {
        Depth {
            operands: if self.operands < operands {
                operands
            } else {
                self.operands
            },
            too_deep: if MOST_OPERANDS < operands {
                Some(line)
            } else {
                self.too_deep
            },
        }
    }
}

// The instruction at an index, and those after it.
#[tactic(auto, using(hep_source::proofs::Tests::drop_at))]
fn from_index(code: &[Instruction], index: usize) -> (&Instruction, &[Instruction])
    requires { index < length code.now }
    ensures from { drop index code.now ≡ result.0.now ∷ result.1.now }
    ensures length { length code.now ≡ index + 1 + length result.1.now }
{
    (&code[index], &code[index + 1..])
}

/// The deepest stack of operands of a unit, by one pass over its code from its end.
pub fn depth_of(code: &[Instruction]) -> Depth
    requires { length code.now ≤ most_instructions }
    ensures operands { result.operands ≡ spec.deepest code.now }
    ensures line { result.too_deep ≡ spec.line_too_deep code.now }
    // An activation at any place in the code of a unit has no more operands.
    ensures stands { (addressed : AddressedUnit) (k : ℕ) (work : Work) (operands : List Value) (index : ℕ) → code.now ≡ code_of addressed
        → Stands addressed k work operands index → length operands ≤ result.operands }
    // If no statement has more than 256, neither has the unit.
    ensures few { result.too_deep ≡ None → result.operands ≤ most_operands }
{
    let mut operands: u128 = 0;
    let mut line = 0;
    let mut depth = Depth {
        operands: 0,
        too_deep: None,
    };
    for passed in 0..code.len() {
        let (first, behind) = from_index(code, code.len() - 1 - passed);
        operands = operands_before(first, operands, behind);
        line = line_before(first, line);
        depth = depth.with(operands, line);
    }
    depth
}
