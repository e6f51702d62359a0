//! The flow of control in a unit (X3.9-1978, section 11).
ghost use Rattle.std.specs.Prelude.{◌≡◌, ◌<◌, ◌≤◌, length, slice_get, IfOk};
ghost use Rattle.hep_machine.specs.Control as control;
ghost use Rattle.hep_control.specs.Successors as spec;

use crate::labels::Labels;
use crate::loops::{Loops, loops_of};
use crate::successors::{Successors, successors_of};
use hep_source::{Form, Statement};
use std::alloc::{AllocError, Global};
use std::marker::Model;

/// A unit with tables of its flow of control. Contracts see the unit.
pub struct Control<'a> {
    labels: Labels<'a>,
    successors: Vec<Successors>,
    loops: Loops,
}

impl<'a> Drop for Control<'a> {
    fn drop(self) {
        let Control {
            labels,
            successors,
            loops,
        } = self;
    }
}

impl<'a> Model for Control<'a> {
    ghost use Rattle.std.specs.Prelude.{◌≡◌, ◌<◌, ◌≤◌, ℕ, Some, length, map, slice_get, List};
    ghost use Rattle.hep_source.specs.declared.statement.Statement.{Statement};
    ghost use Rattle.hep_control.specs.Successors as spec;
    ghost use Rattle.hep_control.specs.Loops.{innermost_loop, outer_loop};
    ghost use Rattle.std.specs.Coded.{codes};
    ghost use Rattle.hep_source.specs.contracts.expression.Expr as expression;

    ghost Value = { List Statement };

    ghost coded = { Prim.hlevel (codes, expression.the_row.coded) };

    ghost view = { λ s. s.labels };

    ghost invariant = { λ s. record {
      successors : map spec.successors_seen s.successors.items ≡ spec.successors_from s.labels 0 s.labels;
      innermost : (k : ℕ) → k ≤ length s.labels → slice_get s.loops.innermost.items k ≡ Some (innermost_loop s.labels k);
      outer : (d : ℕ) → d < length s.labels → slice_get s.loops.outer.items d ≡ Some (outer_loop s.labels d);
    } };
}

impl<'a> Control<'a> {
    /// Makes the tables of a unit in one pass over its statements.
    ///
    /// # Errors
    ///
    /// Only where memory was refused.
    pub fn new(alloc: Global, labels: Labels<'a>) -> Result<Control<'a>, AllocError>
        ensures { IfOk result (λ control. control ≡ labels.entry) }
    {
        let successors = successors_of(alloc, labels.unit())?;
        let loops = loops_of(alloc, &labels)?;
        Ok(Control {
            labels,
            successors,
            loops,
        })
    }

    /// The statements of the unit.
    pub fn unit(&self) -> &'a [Statement]
        ensures { result.now ≡ self.now }
    {
        self.labels.unit()
    }

    /// The index of the first executable statement with a label, or the index after the last statement where
    /// there is none.
    pub fn index_of_label(&self, label: u32) -> usize
        ensures { result ≡ control.index_of_label self.now label }
    {
        self.labels.index_of_label(label)
    }

    /// The index of the terminal statement of the DO at an index.
    pub fn terminal_of(&self, index: usize) -> usize
        ensures { result ≡ control.terminal_of self.now index }
    {
        match self.unit().get(index) {
            Some(statement) => match &statement.form {
                Form::Do(control) => self.index_of_label(control.terminal),
                _ => self.unit().len(),
            },
            None => self.unit().len(),
        }
    }

    /// The index of the statement that is executed after the one at an index.
    pub fn following(&self, index: usize) -> usize
        requires { index < length self.now }
        ensures { result ≡ control.following self.now index }
    {
        self.successors_at(index).following
    }

    /// The index where control goes if the condition of the IF THEN or ELSE IF at an index is false: the next ELSE IF, the
    /// statement after ELSE, or the END IF.
    pub fn alternative_of(&self, index: usize) -> usize
        requires { index < length self.now }
        ensures { result ≡ control.alternative_of self.now index }
    {
        self.successors_at(index).alternative
    }

    /// The index of the END IF of the block IF that contains the statement after an index.
    pub fn end_if_after(&self, index: usize) -> usize
        requires { index < length self.now }
        ensures { result ≡ control.end_if_after self.now index }
    {
        self.successors_at(index).end_if
    }

    /// The innermost DO that ends at the statement at an index. A DO whose label no statement has ends at the index after
    /// the last statement.
    pub fn innermost_loop(&self, index: usize) -> Option<usize>
        requires { index ≤ length self.now }
        ensures { result ≡ slice_get (control.loops_ending_at self.now index) 0 }
    {
        self.loops.innermost.get(index).copied().flatten()
    }

    /// The innermost DO that is around the DO at an index and ends at the same statement.
    pub fn outer_loop(&self, index: usize) -> Option<usize>
        requires { index < length self.now }
        ensures { result ≡ slice_get (control.loops_around index
            (control.loops_ending_at self.now (control.terminal_of self.now index))) 0 }
    {
        self.loops.outer.get(index).copied().flatten()
    }

    fn successors_at(&self, index: usize) -> Successors
        requires { index < length self.now }
        ensures { spec.successors_seen result ≡ spec.successors_at self.now index }
    {
        self.successors[index]
    }
}
