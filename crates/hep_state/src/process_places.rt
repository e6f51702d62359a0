//! The kept processes, looked up by their numbers.
ghost use Rattle.std.specs.Prelude.{◌≡◌, ◌⊎◌, ◌+◌, ◌++◌, ◌<◌, ◌∷◌, [], ℕ, false, true, IfNone, IfSome, OnOk, vec_capacity, vec_len};
ghost use Rattle.std.specs.List.{filter};
ghost use Rattle.hep_machine.specs.Words.{is_number_among};
ghost use Rattle.hep_proc.specs.Stacks.{is_left};
ghost use Rattle.hep_blocked.specs.Numbers.{AreRising};
ghost use Rattle.hep_state.specs.Words.{AreNumbered, HasLevels, IsPlaceOf, IsWhetherLives, numbers_of, snapshot_of};

use crate::core_state::{CoreState, append};
use hep_proc::Process;
use std::alloc::AllocError;

// The index of a process among others, by a search.
fn search(processes: &[Process], p: u64) -> Option<usize>
    requires rising { (greatest : ℕ) × AreRising 1 greatest (numbers_of processes.now) }
    ensures found { IfSome result (IsPlaceOf processes.now p) }
    ensures none { IfNone result (is_number_among p (numbers_of processes.now) ≡ false) }
{
    processes
        .binary_search_by_key(&p, |process| process.number)
        .ok()
}

// The index of a process among others: at once where each process up to it is among them, or else by a search.
#[inline(always)]
fn find(processes: &[Process], p: u64) -> Option<usize>
    requires rising { (greatest : ℕ) × AreRising 1 greatest (numbers_of processes.now) }
    ensures found { IfSome result (IsPlaceOf processes.now p) }
    ensures none { IfNone result (is_number_among p (numbers_of processes.now) ≡ false) }
{
    if p > 0 && p <= processes.len() as u64 && processes[p as usize - 1].number == p {
        return Some(p as usize - 1);
    }
    search(processes, p)
}

// Makes room for one more process. Where there is none, processes without levels are removed. Where these were no
// more than those that are left, room is made for as many again. So this takes a linear time, but a constant time for each
// process on average.
pub(crate) fn make_room(processes: &mut Vec<Process>) -> Result<(), AllocError>
    ensures room { OnOk result (vec_len processes.new < vec_capacity processes.new) }
    ensures left { (processes.new.items ≡ processes.old.items) ⊎ (processes.new.items ≡ filter is_left processes.old.items) }
{
    let all = processes.len();
    if all < processes.capacity() {
        return Ok(());
    }
    processes.retain(|process| process.is_left());
    let left = processes.len();
    if left < all - left {
        return Ok(());
    }
    processes.reserve(left + 1)
}

impl CoreState {
    /// The index of process p, which lives, among the kept processes.
    ///
    /// This costs a constant time where each process up to p is kept, and otherwise the logarithm of the number of
    /// kept processes.
    #[inline(always)]
    pub fn place(&self, p: u64) -> usize
        requires numbers { AreNumbered self.now }
        requires living { HasLevels (snapshot_of self.now) p }
        ensures { IsPlaceOf self.now.processes.items p result }
    {
        find(&self.processes, p).unwrap()
    }

    /// Whether process p was made and has activations.
    ///
    /// This costs as much as `place`.
    #[inline(always)]
    pub fn lives(&self, p: u64) -> bool
        requires { AreNumbered self.now }
        ensures lives { IsWhetherLives result p self.now }
        ensures levels { result ≡ true → HasLevels (snapshot_of self.now) p }
    {
        match find(&self.processes, p) {
            Some(at) => !self.processes[at].levels.is_empty(),
            None => false,
        }
    }

    // Appends a process with the next number, for which there is room.
    pub(crate) fn admit(&mut self, process: Process)
        requires next { process.number ≡ self.old.made + 1 }
        requires room { vec_len self.old.processes < vec_capacity self.old.processes }
        ensures added { self.new.processes.items ≡ self.old.processes.items ++ process ∷ [] }
        ensures made { self.new.made ≡ self.old.made + 1 }
        ensures others { self.new ≡ record self.old { processes = self.new.processes; made = self.new.made } }
    {
        self.made = process.number;
        append(&mut self.processes, process);
    }
}
