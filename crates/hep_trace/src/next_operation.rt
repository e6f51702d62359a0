//! The next operation of a process, as far as the line of its turn needs it before the turn.
ghost use Rattle.std.specs.Prelude.{◌≡◌, ℕ, List, IfOk};
ghost use Rattle.hep_machine.specs.Words.{Level, Process as SourceProcess};
ghost use Rattle.hep_trace.specs.References.{IsAhead, IsReferenceAhead, top_after};
ghost use Rattle.hep_event.specs.AccessedNames as cells_of;
ghost use Rattle.hep_event.specs.Traces as traces;
ghost use Rattle.hep_trace.specs.Observations as sights;

use crate::purge_targets::append_targets;
use crate::redex_value::value_ahead;
use crate::reference::{LiveProcess, Reference};
use crate::target_filter::{is_called, is_target};
use crate::turn_laws::operations_come_next;
use hep_code::{Evaluation, Operation};
use hep_event::site_laws::operations_name_variables;
use hep_event::{named, value_at};
use hep_source::Value;
use hep_state::CoreState;
use std::alloc::{AllocError, Global};

// Whether an operation reads or stores a variable, asks for its state, or counts by it.
fn is_access(operation: Operation) -> bool
    ensures { result ≡ sights.is_access operation }
{
    match operation {
        Operation::Evaluate(Evaluation::Load { .. } | Evaluation::Test { .. }) => true,
        Operation::Store { .. } | Operation::EnterLoop { .. } | Operation::EndLoop { .. } => true,
        _ => false,
    }
}

// Whether the next operation of a process accesses a variable of this name.
fn touches(ahead: &LiveProcess<'_>, name: &[u8]) -> bool
    requires { (cells : ℕ) × (choices : List ℕ) × (top : Level × SourceProcess) × IsAhead cells choices ahead.now top }
    ensures { (cells : ℕ) (choices : List ℕ) (top : Level × SourceProcess) → IsAhead cells choices ahead.now top
        → result ≡ cells_of.touches ahead.now.image.now (top_after ahead.now.image.now choices ahead.now.process top) name.now }
{
    ahead.image.is_runnable();
    operations_come_next();
    operations_name_variables();
    if let Operation::Purge { count, .. } = ahead.coming.operation {
        return is_target(ahead, count, name);
    }
    if !is_access(ahead.coming.operation) {
        return false;
    }
    let Some((variable, subscripts)) = named(ahead.coming.operation, &ahead.coming.operands) else {
        return false;
    };
    is_called(ahead, variable, subscripts, name)
}

/// Whether the next operation of a process accesses a variable of a name, where one is given. This takes no memory.
pub(crate) fn is_shown(ahead: &LiveProcess<'_>, cell: Option<&[u8]>) -> bool
    requires { (cells : ℕ) × (choices : List ℕ) × (top : Level × SourceProcess) × IsAhead cells choices ahead.now top }
    ensures { (cells : ℕ) (choices : List ℕ) (top : Level × SourceProcess) → IsAhead cells choices ahead.now top
        → result ≡ traces.is_accessed ahead.now.image.now (sights.name_sought cell.entry)
        (top_after ahead.now.image.now choices ahead.now.process top) }
{
    match cell {
        Some(name) => touches(ahead, name),
        None => true,
    }
}

// The value of a reference, if it has one.
fn value_referred(machine: &CoreState, reference: &Option<Reference>) -> Option<Value>
    requires { sights.IsSomeReference machine.now reference.now }
    ensures { sights.HasReferredValue machine.now reference.now result }
{
    match reference {
        Some(reference) => value_at(machine, reference.site),
        None => None,
    }
}

/// The value of a redex that comes next of a process, or of the function that ends next, if there is one.
pub(crate) fn value_before(ahead: &LiveProcess<'_>, reference: &Option<Reference>) -> Option<Value>
    requires { (cells : ℕ) × (choices : List ℕ) × (top : Level × SourceProcess) × IsAhead cells choices ahead.now top
        × IsReferenceAhead cells choices ahead.now (top_after ahead.now.image.now choices ahead.now.process top) reference.now }
    ensures { (cells : ℕ) (choices : List ℕ) (top : Level × SourceProcess) → IsAhead cells choices ahead.now top
        → IsReferenceAhead cells choices ahead.now (top_after ahead.now.image.now choices ahead.now.process top) reference.now
        → sights.IsValueAhead ahead.now.image.now (top_after ahead.now.image.now choices ahead.now.process top) result }
{
    ahead.image.is_runnable();
    operations_come_next();
    operations_name_variables();
    match ahead.coming.operation {
        Operation::Answer { .. } => value_referred(ahead.machine, reference),
        _ => value_ahead(ahead),
    }
}

/// The targets of a PURGE that comes next of a process, in words; nothing for other operations.
pub(crate) fn targets(alloc: Global, ahead: &LiveProcess<'_>) -> Result<Vec<u8>, AllocError>
    requires { (cells : ℕ) × (choices : List ℕ) × (top : Level × SourceProcess) × IsAhead cells choices ahead.now top }
    ensures { IfOk result (λ list. (cells : ℕ) (choices : List ℕ) (top : Level × SourceProcess) → IsAhead cells choices ahead.now top
        → sights.IsListAhead ahead.now.image.now (top_after ahead.now.image.now choices ahead.now.process top) list.items) }
{
    ahead.image.is_runnable();
    operations_come_next();
    let mut list = Vec::new(alloc);
    if let Operation::Purge { count, .. } = ahead.coming.operation {
        append_targets(&mut list, ahead, count)?;
    }
    Ok(list)
}
