//! The block IFs of a unit (X3.9-1978, 11.6 to 11.9).
ghost use Rattle.std.specs.Prelude.{◌≡◌, IfOk, OnOk, map, reverse};
ghost use Rattle.hep_machine.specs.Words.{role_of};
ghost use Rattle.hep_conditions.specs.Nesting as nesting;
ghost use Rattle.hep_control.specs.Ranges.{block_if};

use hep_source::{Form, Statement};
use std::alloc::{AllocError, Global};
use std::marker::Model;

/// A block IF: its index, those of its ELSE IF and ELSE statements, and that of its END IF, if there is one.
pub(crate) struct BlockIf {
    pub start: usize,
    // The indices of the ELSE IF and ELSE statements, the first one first.
    pub divisions: Vec<usize>,
    pub has_else: bool,
    pub end: Option<usize>,
}

// This is written out so that the proof of a caller has one call of it at each exit.
impl Drop for BlockIf {
    fn drop(self) {
        let BlockIf {
            start,
            divisions,
            has_else,
            end,
        } = self;
    }
}

/// The block IFs of the statements read so far, and the ELSE IF, ELSE and END IF statements of no block IF. Contracts see
/// the last one read first.
pub(crate) struct BlockIfs {
    unclosed: Vec<BlockIf>,
    closed: Vec<BlockIf>,
    stray: Vec<usize>,
}

impl Drop for BlockIfs {
    fn drop(self) {
        let BlockIfs {
            unclosed,
            closed,
            stray,
        } = self;
    }
}

impl Model for BlockIfs {
    ghost use Rattle.std.specs.Prelude.{map, reverse};
    ghost use Rattle.hep_conditions.specs.Nesting as nesting;
    ghost use Rattle.hep_control.specs.Ranges.{block_if};

    ghost Value = { nesting.BlockIfs };

    ghost view = { λ s. record {
      unclosed = reverse (map block_if s.unclosed.items);
      closed = reverse (map block_if s.closed.items);
      stray = reverse s.stray.items;
    } };
}

impl BlockIfs {
    // The block IFs with an END IF, in the order of their END IFs.
    pub(crate) fn closed(&self) -> &[BlockIf]
        ensures { reverse (map block_if result.now) ≡ self.now.closed }
    {
        &self.closed
    }

    // The block IFs without an END IF.
    pub(crate) fn unclosed(&self) -> &[BlockIf]
        ensures { reverse (map block_if result.now) ≡ self.now.unclosed }
    {
        &self.unclosed
    }

    // The ELSE IF, ELSE and END IF statements of no block IF.
    pub(crate) fn stray(&self) -> &[usize]
        ensures { reverse result.now ≡ self.now.stray }
    {
        &self.stray
    }

    fn open(&mut self, alloc: Global, index: usize) -> Result<(), AllocError>
        ensures { OnOk result (self.new ≡ nesting.with_block_if self.old index) }
    {
        self.unclosed.push(BlockIf {
            start: index,
            divisions: Vec::new(alloc),
            has_else: false,
            end: None,
        })?;
        Ok(())
    }

    fn divide(&mut self, index: usize, is_else: bool) -> Result<(), AllocError>
        ensures { OnOk result (self.new ≡ nesting.with_division self.old index is_else self.old.unclosed) }
    {
        match self.unclosed.pop() {
            Some(mut block) => {
                if block.has_else {
                    self.stray.push(index)?;
                } else {
                    block.divisions.push(index)?;
                    block.has_else = is_else;
                }
                self.unclosed.push(block)?;
            }
            None => self.stray.push(index)?,
        }
        Ok(())
    }

    fn close(&mut self, index: usize) -> Result<(), AllocError>
        ensures { OnOk result (self.new ≡ nesting.with_end_if self.old index self.old.unclosed) }
    {
        match self.unclosed.pop() {
            Some(mut block) => {
                block.end = Some(index);
                self.closed.push(block)?;
            }
            None => self.stray.push(index)?,
        }
        Ok(())
    }

    fn read(&mut self, alloc: Global, index: usize, statement: &Statement) -> Result<(), AllocError>
        ensures { OnOk result (self.new ≡ nesting.with_role self.old index (role_of statement.now)) }
    {
        if !statement.conditions.as_slice().is_empty() {
            return Ok(());
        }
        match statement.form {
            Form::IfThen(_) => self.open(alloc, index),
            Form::ElseIf(_) => self.divide(index, false),
            Form::Else => self.divide(index, true),
            Form::EndIf => self.close(index),
            _ => Ok(()),
        }
    }
}

/// The block IFs of a unit.
pub(crate) fn block_ifs_of(alloc: Global, unit: &[Statement]) -> Result<BlockIfs, AllocError>
    ensures { IfOk result (λ blocks. blocks ≡ nesting.block_ifs_of unit.now) }
{
    let mut blocks = BlockIfs {
        unclosed: Vec::new(alloc),
        closed: Vec::new(alloc),
        stray: Vec::new(alloc),
    };
    for (index, statement) in unit.iter().enumerate() {
        blocks.read(alloc, index, statement)?;
    }
    Ok(blocks)
}
