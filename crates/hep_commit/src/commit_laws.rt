//! Laws of tickets, of the steps of segments in a machine, and of what is restored.
ghost use Rattle.std.specs.Prelude.{◌≡◌, ℕ, List, drop};
ghost use Rattle.hep_machine.specs.Words.{Units, Value};
ghost use Rattle.hep_source.specs.declared.value.Value.{Value as AValue};
ghost use Rattle.hep_private.specs.declared.ticket.TicketId.{TicketId as ATicketId};
ghost use Rattle.hep_private.specs.Segments.{IsComputed, IsMadeFrom, SegmentValue, Start};
ghost use Rattle.hep_state.specs.Words.{HasLevels, IsSameButTop, Snapshot};
ghost use Rattle.hep_commit.specs.SegmentStarts.{snapshot_taken, start_in, ticket_of};
ghost use Rattle.hep_commit.specs.OwnCells.{own_cells_of};
ghost use Rattle.hep_commit.specs.UndoLogs.{saved_of, snapshot_restored};

/// A segment that is computed of a ticket with copies of all own cells has the steps that come next where the ticket is from.
pub fn tickets_have_what_is_read()
    ensures { (program : Units) (start : Start) (id : ATicketId) (s : SegmentValue)
        → IsComputed program (ticket_of id start (own_cells_of program start.unit)) s → IsMadeFrom program start s }
{
    hep_private::step_laws::private_steps_depend_on_reads();
}

/// Let the steps of a segment be made, and then nothing change but the operands and the index of the process. Then
/// what was saved of the process before, with all its own cells, restores the whole machine.
pub fn restored_machines_are_as_before()
    ensures { (program : Units) (m new : Snapshot) (p : ℕ) (s : SegmentValue) (levels : HasLevels m p) (after : HasLevels new p)
        → IsMadeFrom program (start_in levels) s → IsSameButTop program p (snapshot_taken levels s) new
        → snapshot_restored after (own_cells_of program levels.level.unit) (saved_of levels (own_cells_of program levels.level.unit)) ≡ m }
{
    crate::noninterference::private_steps_store_in_own_cells();
    crate::noninterference::saved_cells_undo_stores();
}
