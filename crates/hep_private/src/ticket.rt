//! Tickets.
ghost use Rattle.std.specs.Prelude.{◌≡◌, ◌≤◌, [], length};
ghost use Rattle.hep_code.specs.Words.{most_operands};
ghost use Rattle.hep_private.specs.Segments.{ticket_value};

use crate::cell_copy::CellCopy;
use hep_source::Value;
use std::alloc::Global;
use std::marker::Model;

/// The identity of a ticket.
#[derive(Clone, Copy, Debug, PartialEq, Eq)]
pub struct TicketId {
    /// The number of the ticket. A core numbers its tickets from 1 in the order in which it gives them, and uses no
    /// number twice.
    pub number: u64,
    /// The process that is out with it.
    pub process: u64,
}

/// The right to commit a segment of a process, with all that the segment is made from. Contracts see all of it.
#[derive(Drop)]
pub struct Ticket {
    id: TicketId,
    unit: u32,
    index: usize,
    operands: Vec<Value>,
    copies: Vec<CellCopy>,
}

impl Model for Ticket {
    ghost use Rattle.std.specs.Prelude.{◌≤◌, length};
    ghost use Rattle.hep_code.specs.Words.{most_operands};
    ghost use Rattle.hep_private.specs.Segments.{TicketValue, ticket_value};

    ghost Value = { TicketValue };

    ghost view = { λ t. ticket_value t.id t.unit t.index t.operands.items t.copies.items };

    ghost invariant = { λ t. length t.operands.items ≤ most_operands };
}

impl Ticket {
    /// A ticket of a process, whose top activation is of unit `unit`, counted from 0 in the order of the source, at
    /// `index` of its code. The activation has these operands and these values in its cells. A cell without a copy
    /// has no value.
    pub fn new(
        id: TicketId,
        unit: u32,
        index: usize,
        operands: Vec<Value>,
        copies: Vec<CellCopy>,
    ) -> Ticket
        requires { length operands.items ≤ most_operands }
        ensures { result ≡ ticket_value id unit index operands.items copies.items }
    {
        Ticket {
            id,
            unit,
            index,
            operands,
            copies,
        }
    }

    /// A ticket of no process, whose buffers another one can take over. This takes no memory.
    pub fn blank(alloc: Global) -> Ticket
        ensures { result ≡ ticket_value (record { number = 0; process = 0 }) 0 0 [] [] }
    {
        Ticket {
            id: TicketId {
                number: 0,
                process: 0,
            },
            unit: 0,
            index: 0,
            operands: Vec::new(alloc),
            copies: Vec::new(alloc),
        }
    }

    /// The buffers of operands and of copies, which another ticket can take over.
    pub fn into_parts(self) -> (Vec<Value>, Vec<CellCopy>)
        ensures operands { result.0.items ≡ self.operands }
        ensures copies { result.1.items ≡ self.copies }
    {
        let Ticket {
            id,
            unit,
            index,
            operands,
            copies,
        } = self;
        (operands, copies)
    }

    /// The identity of the ticket.
    pub fn id(&self) -> TicketId
        ensures { result ≡ self.now.id }
    {
        self.id
    }

    /// The unit of the top activation.
    pub fn unit(&self) -> u32
        ensures { result ≡ self.now.unit }
    {
        self.unit
    }

    /// Its index in the unit's code.
    pub fn index(&self) -> usize
        ensures { result ≡ self.now.index }
    {
        self.index
    }

    /// Its operands.
    pub fn operands(&self) -> &[Value]
        ensures operands { result.now ≡ self.now.operands }
        ensures few { length result.now ≤ most_operands }
    {
        &self.operands
    }

    /// The copies of its cells. Where a cell has two copies, the first one counts.
    pub fn copies(&self) -> &[CellCopy]
        ensures { result.now ≡ self.now.copies }
    {
        &self.copies
    }
}
