//! What each process waits for, by its number.
ghost use Rattle.std.specs.Prelude.{◌≡◌, ℕ, ◌≤◌, ◌-◌, ◌++◌, None, OnErr, OnOk, true, length, replicate};
ghost use Rattle.hep_machine.specs.Words.{is_number_among};
ghost use Rattle.hep_blocked.specs.QueueInvariant.{cleared, without_numbers};
ghost use Rattle.hep_blocked.specs.Waiting.{with_numbers};

use crate::ready_set::ReadySet;
use hep_cells::Want;
use std::alloc::AllocError;

/// Makes the list `size` long; the added processes wait for nothing. Fails where memory was refused, and nothing has
/// changed then.
pub(crate) fn grow(wanted: &mut Vec<Option<Want>>, size: usize) -> Result<(), AllocError>
    ensures grown { OnOk result (wanted.new.items ≡ wanted.old.items ++ replicate (size - length wanted.old.items) None) }
    ensures refused { OnErr result (wanted.new.items ≡ wanted.old.items) }
{
    if size > wanted.len() {
        wanted.resize(size, None)?;
    }
    Ok(())
}

/// Makes these processes ready, so that they wait for nothing, and removes their numbers from those of the waiting
/// processes.
pub(crate) fn wake_each(
    processes: &[u64],
    wanted: &mut Vec<Option<Want>>,
    numbers: &mut ReadySet,
    ready: &mut ReadySet,
)
    requires known { (p : ℕ) → is_number_among p processes.now ≡ true → (1 ≤ p) × (p ≤ length wanted.old.items) }
    requires room { length wanted.old.items ≤ ready.old.room }
    ensures wanted { wanted.new.items ≡ cleared processes.now wanted.old.items }
    ensures numbers { numbers.new.ready ≡ without_numbers processes.now numbers.old.ready }
    ensures places { numbers.new.room ≡ numbers.old.room }
    ensures ready { ready.new.ready ≡ with_numbers processes.now ready.old.ready }
    ensures room { ready.new.room ≡ ready.old.room }
{
    for p in processes {
        wanted[*p as usize - 1] = None;
        numbers.remove(*p);
        ready.add(*p);
    }
}
