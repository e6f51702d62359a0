//! Lists of tickets that are out. Each process has one at most.
ghost use Rattle.std.specs.Prelude.{◌≡◌};
ghost use Rattle.hep_private.specs.Tickets as spec;
ghost use Rattle.hep_private.specs.Tickets.{without_process};

use crate::ticket::TicketId;

/// Whether process p is out.
pub fn is_out(out: &[TicketId], p: u64) -> bool
    ensures { result ≡ spec.is_out p out.now }
{
    out.iter().any(|id| id.process == p)
}

/// Whether a ticket is the one that is out for its process.
pub fn has_ticket(out: &[TicketId], id: TicketId) -> bool
    ensures { result ≡ spec.has_ticket id out.now }
{
    out.iter()
        .any(|out| out.process == id.process && out.number == id.number)
}

/// Takes process p off the list: it isn't out any more. The others stay.
pub fn come_back(out: &mut Vec<TicketId>, p: u64)
    ensures { out.new.items ≡ without_process p out.old.items }
{
    out.retain(|id| id.process != p);
}
