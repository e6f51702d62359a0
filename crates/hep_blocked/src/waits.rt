//! The processes that wait.
ghost use Rattle.std.specs.Prelude.{◌≡◌, ◌≢◌, ℕ, ◌<◌, ◌≤◌, ◌||◌, [], None, Some, IfNone, IfSome, OnErr, OnOk, false, if◌then◌else◌};
ghost use Rattle.std.specs.Prelude.{is_none, length, max, map, nat_eq, true};
ghost use Rattle.hep_machine.specs.Words.{is_number_among};
ghost use Rattle.hep_blocked.specs.Waiting.{awake, next_waiting, numbers_waiting, waiting_at, waits_for};
ghost use Rattle.hep_blocked.specs.Waiting.{with_numbers, with_want, without_want};

use crate::ready_set::ReadySet;
use crate::wait_queues::{WaitQueues, add, take, take_out};
use crate::wanted_cells::{grow, wake_each};
use hep_cells::Want;
use indexmap::IndexMap;
use std::alloc::{AllocError, Global};
use std::marker::Model;

/// The waiting processes. Contracts see a list in which what process p waits for is at p - 1. A process past its end
/// waits for nothing.
pub struct Waits {
    alloc: Global,
    // What the process p waits for is at p - 1.
    wanted: Vec<Option<Want>>,
    // The wait queues. Each has its processes in the order in which they were blocked.
    lists: WaitQueues,
    // The numbers of the waiting processes, in the same kind of tree as the ready ones.
    numbers: ReadySet,
}

impl Drop for Waits {
    fn drop(self) {
        let Waits {
            alloc,
            wanted,
            lists,
            numbers,
        } = self;
    }
}

impl Model for Waits {
    ghost use Rattle.std.specs.Prelude.{List, Option};
    ghost use Rattle.std.specs.Coded.{codes};
    ghost use Rattle.hep_cells.specs.declared.want.Want.{Want as PureWant};
    ghost use Rattle.hep_cells.specs.contracts.want.Want as want;
    ghost use Rattle.indexmap.specs.IndexMap.{IsUnique};
    ghost use Rattle.hep_blocked.specs.WaitQueues.{list_of, want_eq};
    ghost use Rattle.hep_blocked.specs.QueueInvariant.{AreNumbers, IsTied};

    ghost Value = { List (Option PureWant) };

    ghost coded = { Prim.hlevel (codes, want.the_row.coded) };

    ghost view = { λ w. w.wanted.items };

    ghost invariant = { λ w. IsTied w.wanted.items (list_of w.lists) × IsUnique want_eq w.lists × AreNumbers w.wanted.items w.numbers };
}

impl Waits {
    /// No process waits. This takes no memory.
    pub fn new(alloc: Global) -> Waits
        ensures { result ≡ [] }
    {
        Waits {
            alloc,
            wanted: Vec::new(alloc),
            lists: IndexMap::new(alloc),
            numbers: ReadySet::new(alloc),
        }
    }

    /// Notes that a process that didn't wait waits for a cell to be full, or to be empty.
    ///
    /// Where numbers rise, as those of processes do, this costs a constant time on average.
    ///
    /// # Errors
    ///
    /// `AllocError` where memory was refused; nothing has changed then.
    pub fn block(&mut self, p: u64, want: Want) -> Result<(), AllocError>
        requires number { 1 ≤ p }
        requires not_waiting { waiting_at self.old p ≡ None }
        ensures blocked { OnOk result (self.new ≡ with_want p want self.old) }
        ensures waiting { OnOk result ((q : ℕ) → waiting_at self.new q ≡ (if nat_eq p q then Some want else waiting_at self.old q)) }
        ensures size { OnOk result (length self.new ≡ max p (length self.old)) }
        ensures refused { OnErr result (self.new ≡ self.old) }
    {
        self.numbers.reserve(p)?;
        let size = self.wanted.len();
        grow(&mut self.wanted, p as usize)?;
        if let Err(refused) = add(self.alloc, &mut self.lists, want, p) {
            self.wanted.truncate(size);
            return Err(refused);
        }
        self.wanted[p as usize - 1] = Some(want);
        self.numbers.add(p);
        Ok(())
    }

    /// Makes the processes that wait for this ready. The ready ones have to have room for their numbers.
    ///
    /// This takes no memory. It costs a constant time, and for each process that it wakes the
    /// logarithm of the room.
    pub fn wake(&mut self, want: Want, ready: &mut ReadySet)
        requires room { length self.old ≤ ready.old.room }
        ensures woken { self.new ≡ map (awake want) self.old }
        ensures waiting { (p : ℕ) → waiting_at self.new p ≡ awake want (waiting_at self.old p) }
        ensures ready { ready.new.ready ≡ with_numbers (numbers_waiting want self.old) ready.old.ready }
        ensures among { (p : ℕ) → is_number_among p ready.new.ready ≡ (waits_for want self.old p || is_number_among p ready.old.ready) }
        ensures room { ready.new.room ≡ ready.old.room }
    {
        if let Some(processes) = take(&mut self.lists, want) {
            wake_each(&processes, &mut self.wanted, &mut self.numbers, ready);
        }
    }

    /// Notes that a process waits for nothing any more; the others wait as before.
    ///
    /// This takes no memory. It costs the length of the queue of the process, and the logarithm of the greatest
    /// number that has waited.
    pub fn remove(&mut self, p: u64)
        ensures removed { self.new ≡ without_want p self.old }
        ensures waiting { (q : ℕ) → waiting_at self.new q ≡ (if nat_eq p q then None else waiting_at self.old q) }
        ensures size { length self.new ≡ length self.old }
    {
        let Some(want) = self.waiting(p) else {
            return;
        };
        take_out(&mut self.lists, want, p);
        self.wanted[p as usize - 1] = None;
        self.numbers.remove(p);
    }

    /// What a process waits for.
    ///
    /// This costs a constant time.
    pub fn waiting(&self, p: u64) -> Option<Want>
        ensures { result ≡ waiting_at self.now p }
    {
        let index = p.checked_sub(1)?;
        *self.wanted.get(index as usize)?
    }

    /// The waiting process with the least number above p. `None` where there is none.
    ///
    /// This costs the logarithm of the greatest number that has waited.
    pub fn next_after(&self, p: u64) -> Option<u64>
        ensures next { result ≡ next_waiting self.now p }
        ensures found { IfSome result (λ q. (p < q) × (waiting_at self.now q ≢ None)
            × ((r : ℕ) → p < r → r < q → waiting_at self.now r ≡ None)) }
        ensures none { IfNone result ((q : ℕ) → p < q → waiting_at self.now q ≡ None) }
    {
        self.numbers.first_above(p)
    }

    /// Whether no process waits.
    ///
    /// This costs a constant time.
    pub fn is_empty(&self) -> bool
        ensures empty { result ≡ is_none (next_waiting self.now 0) }
        ensures nobody { result ≡ true → (p : ℕ) → waiting_at self.now p ≡ None }
        ensures somebody { result ≡ false → (p : ℕ) × (waiting_at self.now p ≢ None) }
    {
        self.numbers.is_empty()
    }
}
