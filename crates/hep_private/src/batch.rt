//! Batches: private steps without a record of each.
ghost use Rattle.std.specs.Prelude.{◌≡◌, ◌≤◌, [], IfOk, length, nat_eq};
ghost use Rattle.hep_code.specs.Words.{most_operands};
ghost use Rattle.hep_private.specs.RecordRoom.{most_records};
ghost use Rattle.hep_private.specs.Batches.{batch_value};

use crate::operands::Operands;
use crate::records::MOST_RECORDS;
use crate::table::{MOST_CELLS, MOST_OPERANDS};
use crate::ticket::TicketId;
use hep_arena::Cell;
use hep_source::Value;
use std::alloc::{AllocError, Global};
use std::marker::Model;

/// Private steps of a process that is out, which a worker made without the core and without a record of each.
/// Contracts see the ticket that it is made of, the activation's place, operands and cells at the start and at the
/// end, and the number of steps.
#[derive(Drop)]
pub struct Batch {
    pub(crate) id: TicketId,
    pub(crate) unit: u32,
    pub(crate) index: usize,
    pub(crate) operands: Operands,
    pub(crate) start: Vec<Cell>,
    pub(crate) steps: u32,
    pub(crate) end_index: usize,
    pub(crate) end_operands: Vec<Value>,
    pub(crate) end: Vec<Cell>,
}

impl Model for Batch {
    ghost use Rattle.std.specs.Prelude.{◌≤◌};
    ghost use Rattle.hep_private.specs.RecordRoom.{most_records};
    ghost use Rattle.hep_private.specs.Batches.{BatchValue, batch_value};

    ghost Value = { BatchValue };

    ghost view = { λ s. batch_value s.id s.unit s.index s.operands s.start.items s.steps s.end_index s.end_operands.items s.end.items };

    ghost invariant = { λ s. s.steps ≤ most_records };
}

impl Batch {
    /// A batch without steps, which is then overwritten with others. It has room for all cells and operands of a
    /// batch.
    ///
    /// # Errors
    ///
    /// Only where memory was refused.
    pub fn new(alloc: Global) -> Result<Batch, AllocError>
        ensures { IfOk result (λ batch. batch ≡ batch_value (record { number = 0; process = 0 }) 0 0 [] [] 0 0 [] []) }
    {
        let start = Vec::with_capacity(alloc, MOST_CELLS as usize)?;
        let end = Vec::with_capacity(alloc, MOST_CELLS as usize)?;
        let end_operands = Vec::with_capacity(alloc, MOST_OPERANDS)?;
        Ok(Batch {
            id: TicketId {
                number: 0,
                process: 0,
            },
            unit: 0,
            index: 0,
            operands: Operands::new(),
            start,
            steps: 0,
            end_index: 0,
            end_operands,
            end,
        })
    }

    /// The ticket that it is made of.
    pub fn ticket(&self) -> TicketId
        ensures { result ≡ self.now.id }
    {
        self.id
    }

    /// Gives the batch another ticket. The activation of that ticket has to be where the batch begins.
    pub fn give_ticket(&mut self, id: TicketId)
        ensures { self.new ≡ record self.old { id = id } }
    {
        self.id = id;
    }

    /// The unit of the activation.
    pub fn unit(&self) -> u32
        ensures { result ≡ self.now.unit }
    {
        self.unit
    }

    /// The activation's index in the unit's code at the start.
    pub fn index(&self) -> usize
        ensures { result ≡ self.now.index }
    {
        self.index
    }

    /// The activation's operands at the start.
    pub fn operands(&self) -> &[Value]
        ensures operands { result.now ≡ self.now.operands }
        ensures few { length result.now ≤ most_operands }
    {
        self.operands.as_slice()
    }

    /// The cells of its frame at the start, from the first one on, as far as the ticket has copies.
    pub fn start(&self) -> &[Cell]
        ensures { result.now ≡ self.now.start }
    {
        &self.start
    }

    /// The number of its steps, 1,023 at most.
    pub fn steps(&self) -> u32
        ensures steps { result ≡ self.now.steps }
        ensures few { result ≤ most_records }
    {
        self.steps
    }

    /// The batch has 1,023 steps, as many as a batch may have.
    pub fn is_full(&self) -> bool
        ensures { result ≡ nat_eq self.now.steps most_records }
    {
        self.steps == MOST_RECORDS as u32
    }

    /// The activation's index in the unit's code at the end.
    pub fn end_index(&self) -> usize
        ensures { result ≡ self.now.end_index }
    {
        self.end_index
    }

    /// The activation's operands at the end.
    pub fn end_operands(&self) -> &[Value]
        ensures { result.now ≡ self.now.end_operands }
    {
        &self.end_operands
    }

    /// The cells of its frame at the end, the same number as at the start.
    pub fn end(&self) -> &[Cell]
        ensures { result.now ≡ self.now.end }
    {
        &self.end
    }
}
