//! Tickets of processes.
ghost use Rattle.std.specs.Prelude.{◌≡◌, IfOk};
ghost use Rattle.hep_commit.specs.Application.{CanStart, IsTicketOf};

use crate::own_cells::OwnCellTable;
use crate::top_activation::ticket_of;
use hep_advance::CoreState;
use hep_private::{Ticket, TicketId};
use std::alloc::AllocError;

/// Makes the ticket of a process whose turn it is: the place of its top activation, its operands, and copies of its
/// own cells. The ticket takes over the buffers of an older one. The machine doesn't change.
///
/// # Errors
///
/// Only where memory was refused.
pub fn start(
    machine: &mut CoreState,
    owned: &OwnCellTable<'_>,
    id: TicketId,
    used: Ticket,
) -> Result<Ticket, AllocError>
    requires { CanStart owned.now id.process machine.old }
    ensures ticket { IfOk result (IsTicketOf owned.now.image.now id machine.old) }
    ensures same { machine.new ≡ machine.old }
{
    let at = machine.place(id.process);
    let process = &machine.processes[at];
    ticket_of(process, &mut machine.frames, owned, id, used)
}
