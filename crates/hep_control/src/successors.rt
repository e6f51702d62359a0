//! The successors of each statement (X3.9-1978, 11.6 to 11.9).
ghost use Rattle.std.specs.Prelude.{◌≡◌, IfOk, OnOk, map, reverse};
ghost use Rattle.hep_control.specs.Successors as spec;

use hep_source::{Form, Statement, is_executable};
use std::alloc::{AllocError, Global};
use std::marker::Model;

/// The successors of a statement: the statement that is executed next, the statement where control goes if the condition of an
/// IF THEN or ELSE IF is false, and the END IF of the block IF.
#[derive(Clone, Copy)]
pub(crate) struct Successors {
    pub following: usize,
    pub alternative: usize,
    pub end_if: usize,
}

/// The state of the pass from the end of the unit, before a statement. Contracts see the innermost block IFs first.
struct Continuation {
    executable: usize,
    // The statement that is executed next: the first executable one, or the END IF where that one ends a block.
    next: usize,
    // The END IFs of the block IFs that begin before.
    end_ifs: Vec<usize>,
    alternatives: Vec<usize>,
    // The index after the last statement.
    past: usize,
}

impl Drop for Continuation {
    fn drop(self) {
        let Continuation {
            executable,
            next,
            end_ifs,
            alternatives,
            past,
        } = self;
    }
}

impl Model for Continuation {
    ghost use Rattle.std.specs.Prelude.{reverse};
    ghost use Rattle.hep_control.specs.Successors as spec;

    ghost Value = { spec.Continuation };

    ghost view = { λ s. record {
      executable = s.executable;
      next = s.next;
      end_ifs = reverse s.end_ifs.items;
      alternatives = reverse s.alternatives.items;
      past = s.past;
    } };
}

impl Continuation {
    fn at_end(alloc: Global, past: usize) -> Continuation
        ensures { result ≡ spec.at_end past }
    {
        Continuation {
            executable: past,
            next: past,
            end_ifs: Vec::new(alloc),
            alternatives: Vec::new(alloc),
            past,
        }
    }

    // The successors of the statement before.
    fn successors(&self) -> Successors
        ensures { spec.successors_seen result ≡ spec.successors_before self.now }
    {
        Successors {
            following: self.next,
            alternative: innermost(&self.alternatives, self.past),
            end_if: innermost(&self.end_ifs, self.past),
        }
    }

    fn read(&mut self, index: usize, statement: &Statement) -> Result<(), AllocError>
        ensures { OnOk result (self.new ≡ spec.with_statement self.old index statement.now) }
    {
        if !is_executable(&statement.form) {
            return Ok(());
        }
        if !statement.conditions.as_slice().is_empty() {
            self.go_to(index);
            return Ok(());
        }
        match statement.form {
            Form::IfThen(_) => {
                self.open(index);
                Ok(())
            }
            Form::ElseIf(_) => self.divide(index, index),
            Form::Else => {
                let target = self.executable;
                self.divide(index, target)
            }
            Form::EndIf => self.close(index),
            _ => {
                self.go_to(index);
                Ok(())
            }
        }
    }

    fn go_to(&mut self, index: usize)
        ensures { self.new ≡ spec.with_plain self.old index }
    {
        self.executable = index;
        self.next = index;
    }

    fn open(&mut self, index: usize)
        ensures { self.new ≡ spec.with_block_if self.old index }
    {
        self.end_ifs.pop();
        self.alternatives.pop();
        self.executable = index;
        self.next = index;
    }

    fn divide(&mut self, index: usize, target: usize) -> Result<(), AllocError>
        ensures { OnOk result (self.new ≡ spec.with_division self.old index target) }
    {
        self.alternatives.pop();
        self.alternatives.push(target)?;
        self.executable = index;
        self.next = innermost(&self.end_ifs, self.past);
        Ok(())
    }

    fn close(&mut self, index: usize) -> Result<(), AllocError>
        ensures { OnOk result (self.new ≡ spec.with_end_if self.old index) }
    {
        self.end_ifs.push(index)?;
        self.alternatives.push(index)?;
        self.executable = index;
        self.next = index;
        Ok(())
    }
}

// The last of these indices, which is that of the innermost block IF, or `past` where there is none.
fn innermost(indexes: &[usize], past: usize) -> usize
    ensures { result ≡ spec.innermost (reverse indexes.now) past }
{
    indexes.last().copied().unwrap_or(past)
}

/// The successors of each statement of a unit.
pub(crate) fn successors_of(
    alloc: Global,
    unit: &[Statement],
) -> Result<Vec<Successors>, AllocError>
    ensures { IfOk result (λ all. map spec.successors_seen all.items ≡ spec.successors_from unit.now 0 unit.now) }
{
    let past = unit.len();
    let mut ahead = Continuation::at_end(alloc, past);
    let mut all = Vec::with_capacity(alloc, past)?;
    for read in 0..past {
        let index = past - 1 - read;
        all.push(ahead.successors())?;
        ahead.read(index, &unit[index])?;
    }
    all.reverse();
    Ok(all)
}
