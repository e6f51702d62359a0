//! The next operation of a process: a CALL, CREATE or reference, a PURGE, RESUME, RETURN, END, or another one
//! (X3.9-1978, 15.5.2, 15.6.2 and 15.8, and docs/LANGUAGE.md, 9).
ghost use Rattle.std.specs.Prelude.{◌≡◌, ◌<◌, ◌^◌, ◌∷◌, List, drop, length};
ghost use Rattle.hep_code.specs.declared.instruction.Instruction.{Instruction as AnInstruction};
ghost use Rattle.hep_code.specs.declared.instruction.Instruction.TheVariants.{Step};
ghost use Rattle.hep_state.specs.Words.{IsItsTurn, HasLevels, HasSettledTop, IsAhead, IsInFront, IsSeenSame, IsSettledTurn, KeepsState};
ghost use Rattle.hep_state.specs.Words.{snapshot_of};

use crate::core_state::CoreState;
use crate::top_code::settle_top;
use hep_code::{Instruction, Operation, Variable};
use hep_proc::Local;
use hep_step::{CallKind, Image};

/// A CALL, CREATE or reference that comes next.
#[derive(Clone, Copy)]
pub struct NextCall {
    /// The initial line of its statement.
    pub line: u32,
    /// Which of them it is.
    pub way: CallKind,
    /// The index of the called unit in the program.
    pub unit: u32,
    /// The number of its actual arguments.
    pub count: u32,
    /// The index in the code at which the calling activation goes on.
    pub next: usize,
}

/// A PURGE that comes next.
#[derive(Clone, Copy)]
pub struct NextPurge {
    /// The initial line of its statement.
    pub line: u32,
    /// The number of its targets.
    pub count: u32,
    /// The index in the code at which its process goes on.
    pub next: u32,
}

/// The END of a function that comes next.
#[derive(Clone, Copy)]
pub struct NextFunctionReturn {
    /// The initial line of its statement.
    pub line: u32,
    /// The variable whose value is the result.
    pub variable: Variable,
}

/// The next operation of a process.
#[derive(Clone, Copy)]
pub enum NextStep {
    /// A CALL, CREATE or reference.
    Call(NextCall),
    /// A PURGE.
    Purge(NextPurge),
    /// RESUME, and the index in the code at which its activation goes on.
    Resume { next: u32 },
    /// RETURN, or the END of a subroutine.
    Return,
    /// The END of a function, or RETURN in one.
    Answer(NextFunctionReturn),
    /// None of them.
    Other,
}

// The kind of the next operation, at an index of the code, in a statement with this initial line.
#[inline(always)]
fn as_ahead(line: u32, index: usize, operation: Operation) -> NextStep
    requires { index < 2 ^ 63 }
    ensures { (behind : List AnInstruction) → IsInFront index (Step line operation ∷ behind) result }
{
    match operation {
        Operation::Call { unit, count, next } => NextStep::Call(NextCall {
            line,
            way: CallKind::Calls,
            unit,
            count,
            next: next as usize,
        }),
        Operation::Create { unit, count, next } => NextStep::Call(NextCall {
            line,
            way: CallKind::Creates,
            unit,
            count,
            next: next as usize,
        }),
        Operation::Refer { unit, count } => NextStep::Call(NextCall {
            line,
            way: CallKind::Refers,
            unit,
            count,
            next: index + 1 + count as usize,
        }),
        Operation::Purge { count, next } => NextStep::Purge(NextPurge { line, count, next }),
        Operation::Resume { next } => NextStep::Resume { next },
        Operation::Return => NextStep::Return,
        Operation::Answer { variable } => NextStep::Answer(NextFunctionReturn { line, variable }),
        _ => NextStep::Other,
    }
}

// The next operation at an index of a unit's code.
#[inline(always)]
fn ahead_at(code: &[Instruction], index: usize) -> NextStep
    requires { length code.now < 2 ^ 63 }
    ensures { IsInFront index (drop index code.now) result }
{
    match code.get(index) {
        Some(Instruction::Step { line, operation }) => as_ahead(*line, index, *operation),
        _ => NextStep::Other,
    }
}

impl CoreState {
    // The next operation of process p, after its leading constants are pushed.
    pub(crate) fn step_ahead(&mut self, image: &Image, p: u64) -> NextStep
        requires { IsItsTurn image.now p self.old }
        ensures ahead { IsAhead image.now p self.old (snapshot_of self.new) result }
        ensures after { KeepsState image.now self.old self.new }
        ensures same { IsSeenSame (snapshot_of self.old) (snapshot_of self.new) }
        ensures top { HasSettledTop image.now p (snapshot_of self.old) (snapshot_of self.new) }
        ensures living { HasLevels (snapshot_of self.new) p }
    {
        image.is_runnable();
        let at = self.place(p);
        let process = &mut self.processes[at];
        let Local { unit, .. } = process.top();
        let code = image.unit(unit as usize).code.as_slice();
        settle_top(process, code);
        ahead_at(code, process.top().index)
    }

    // The next operation of process p, which has no leading constants.
    #[inline(always)]
    pub(crate) fn ahead_now(&self, image: &Image, p: u64) -> NextStep
        requires { IsSettledTurn image.now p self.now }
        ensures { IsAhead image.now p self.now (snapshot_of self.now) result }
    {
        let at = self.place(p);
        let Local { unit, index, .. } = self.processes[at].top();
        ahead_at(image.unit(unit as usize).code.as_slice(), index)
    }

    /// Pushes the leading constants of process p, which has its turn. The machine keeps the same state, with the same
    /// view.
    ///
    /// After that, a refused turn of process p changes nothing.
    pub fn settle(&mut self, image: &Image, p: u64)
        requires { IsItsTurn image.now p self.old }
        ensures after { KeepsState image.now self.old self.new }
        ensures top { HasSettledTop image.now p (snapshot_of self.old) (snapshot_of self.new) }
        ensures made { self.new.made ≡ self.old.made }
        ensures living { HasLevels (snapshot_of self.new) p }
    {
        self.step_ahead(image, p);
    }
}
