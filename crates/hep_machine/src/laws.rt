//! Laws of the source machine, which hold for every program, state and history.
ghost use Rattle.std.specs.Prelude.{◌≡◌, ◌≢◌, ◌⊎◌, ◌↔◌, ◌<◌, ◌≤◌, ◌+◌, ℕ, Bool, true, false, List, length, Some, None};
ghost use Rattle.hep_machine.specs.declared.event.Entry.{Entry};
ghost use Rattle.hep_machine.specs.Words.{IsLegal, FillsNone, HasHeldChild, IsOnStack, IsSameOrOneMore, KeepsStatesBut, StandApart};
ghost use Rattle.hep_machine.specs.Words.{is_purge, state_replayed, is_held, Layout, layout_of, common_cells, opening, AreSteps};
ghost use Rattle.hep_machine.specs.Words.{state_after_turn, run, schedule_of, state_after, State, Location, step, Units, living, numbered};
ghost use Rattle.hep_machine.specs.Words.{parent_of};

/// A step of a process leaves the other processes as they are.
pub fn other_processes_stay()
    ensures { (program : Units) (p q : ℕ) (s t : State) → step program p s ≡ Some t → p ≢ q → 1 ≤ q → q ≤ length s.processes
        → numbered t.processes q ≡ numbered s.processes q }
{}

/// A step other than PURGE changes the state of at most one storage unit. Every other storage unit is full
/// after the step if and only if it was full before.
pub fn one_cell_changes_state()
    ensures { (program : Units) (p : ℕ) (s t : State) → step program p s ≡ Some t → is_purge program s p ≡ false → (at : Location)
        × KeepsStatesBut at s.store t.store }
{}

/// A PURGE fills no storage unit.
pub fn purge_fills_nothing()
    ensures { (program : Units) (p : ℕ) (s t : State) → step program p s ≡ Some t → is_purge program s p ≡ true
        → FillsNone s.store t.store }
{}

/// A process that isn't alive has no step, and no turn of any process makes it alive again.
pub fn dead_processes_stay_dead()
    ensures idle { (program : Units) (p : ℕ) (s : State) → living s p ≡ None → step program p s ≡ None }
    ensures dead { (program : Units) (p q : ℕ) (s : State) → living s q ≡ None → 1 ≤ q → q ≤ length s.processes
        → living (state_after_turn program p s) q ≡ None }
{}

/// A turn makes at most one activation and at most one process. They get the next numbers, and the turn
/// changes no older activation.
pub fn numbers_rise()
    ensures activations { (program : Units) (p : ℕ) (s : State) → IsSameOrOneMore s.activations (state_after_turn program p s).activations }
    ensures processes { (program : Units) (p : ℕ) (s : State) → (length (state_after_turn program p s).processes ≡ length s.processes)
        ⊎ (length (state_after_turn program p s).processes ≡ length s.processes + 1) }
{}

/// In every state of a run each activation on a stack was made before, and the parent of an
/// activation has a lower number than that activation.
pub fn parents_are_older()
    ensures made { (program : Units) (processes : List ℕ) (a : ℕ) → IsOnStack (run program processes) a → (1 ≤ a)
        × (a ≤ length (run program processes).activations) }
    ensures older { (program : Units) (processes : List ℕ) (a b : ℕ) → parent_of (run program processes) a ≡ Some b → (1 ≤ b) × (b < a) }
{}

/// In every state of a run an activation is held if and only if it is on a stack or is the parent of a
/// held activation.
pub fn held_by_stacks_and_children()
    ensures { (program : Units) (processes : List ℕ) (a : ℕ) → (is_held (run program processes) a ≡ true)
        ↔ (IsOnStack (run program processes) a ⊎ HasHeldChild (run program processes) a) }
{}

/// After any turns, and whichever frames are freed, COMMON and the frames don't overlap and are within the
/// arena. COMMON comes first. Each frame has at least one cell and ends before the next one begins, and the last
/// one ends within the arena.
pub fn frames_lie_apart()
    ensures { (program : Units) (cells : ℕ) (has : State → ℕ → Bool) (processes : List ℕ) (layout : Layout)
        → layout_of program cells has processes ≡ Some layout → StandApart cells (common_cells program) layout }
{}

/// A legal history can be replayed: each of its steps exists in the state after the steps before it.
/// The state after any history is the result of its entries, one after the other.
pub fn legal_histories_replay()
    ensures steps { (program : Units) (cells limit : ℕ) (history : List Entry) → IsLegal program cells limit history
        → AreSteps program (opening program) (schedule_of history) }
    ensures state { (program : Units) (history : List Entry)
        → state_after program history ≡ state_replayed program (opening program) history }
{}
