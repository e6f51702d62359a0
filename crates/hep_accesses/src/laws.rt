//! Laws of the order of steps, of races and of reorderings, and of the runs of the source machine. Of a list of events the storage units,
//! sites, states and labels are numbers here, since a clause can't speak of all types; what answers these laws, in `proofs/`, is of any type.
ghost use Rattle.std.specs.Prelude.{◌≡◌, ◌⊎◌, ◌↔◌, ◌≤◌, ◌<◌, Bool, ℕ, suc, true, List, [], ◌∷◌, ◌++◌, Option, Some, slice_get};
ghost use Rattle.std.specs.Cmp.{IsEquivalence};
ghost use Rattle.std.specs.List.{Contains, IsDistinct};
ghost use Rattle.hep_machine.specs.Words.{Location, State, Units, run, same_location, step};
ghost use Rattle.hep_accesses.specs.Events.{Event};
ghost use Rattle.hep_accesses.specs.HappensBefore.{IsBefore, IsDirectlyBefore};
ghost use Rattle.hep_accesses.specs.Pasts.{before_at};
ghost use Rattle.hep_accesses.specs.Clocks.{clock_at};
ghost use Rattle.hep_accesses.specs.Races.{HasRow, IsRace, Row, StepAccess, of_same_sites};
ghost use Rattle.hep_accesses.specs.Pairs.{rows_by_pairs};
ghost use Rattle.hep_accesses.specs.Detector.{rows_by_clocks};
ghost use Rattle.hep_accesses.specs.Reorderings.{HaveConflict, IsReordering, NeighboursCommute, final_state, steps_of};
ghost use Rattle.hep_accesses.specs.Accesses.{Site, same_site};
ghost use Rattle.hep_accesses.specs.RunEvents.{events_of, races_of};
ghost use Rattle.hep_accesses.specs.Exchanges.{AreIndependent, HaveSeparateUses};

/// What happens before is a strict order, and each step is later in the run than those before it.
pub fn happens_before_is_an_order()
    ensures earlier { (es : List (Event ℕ ℕ)) (i k : ℕ) → IsBefore es i k → i < k }
    ensures transitive { (es : List (Event ℕ ℕ)) (i j k : ℕ) → IsBefore es i j → IsBefore es j k → IsBefore es i k }
{}

/// The causal past of a step, collected along the run, is the steps before it.
pub fn pasts_are_what_is_before()
    ensures { (es : List (Event ℕ ℕ)) (i k : ℕ) (e : Event ℕ ℕ) → slice_get es k ≡ Some e
        → (before_at es k e i ≡ true) ↔ IsBefore es i k }
{}

/// A step is before another one just where the clock of that one has at least its number, counted from 1, for its process.
pub fn clocks_tell_what_is_before()
    ensures { (es : List (Event ℕ ℕ)) (i k : ℕ) (d e : Event ℕ ℕ) → slice_get es i ≡ Some d → slice_get es k ≡ Some e
        → (suc i ≤ clock_at es k e d.process) ↔ IsBefore es i k }
{}

/// The rows by clocks, from the latest access of each process from each site, are the rows by all pairs of accesses.
pub fn clocks_tell_races()
    ensures { (same alike : ℕ → ℕ → Bool) (es : List (Event ℕ ℕ)) → IsEquivalence alike
        → rows_by_clocks same alike es ≡ rows_by_pairs same alike es }
{}

/// Each row is of a race, each race has a row, and no two rows are of the same sites.
pub fn rows_are_races()
    ensures sound { (same alike : ℕ → ℕ → Bool) (es : List (Event ℕ ℕ)) (r : Row ℕ ℕ) → IsEquivalence alike
        → Contains (rows_by_pairs same alike es) r → IsRace es same r.first r.second }
    ensures complete { (same alike : ℕ → ℕ → Bool) (es : List (Event ℕ ℕ)) (d y : StepAccess ℕ ℕ) → IsEquivalence alike
        → IsRace es same d y → HasRow alike d y (rows_by_pairs same alike es) }
    ensures distinct { (same alike : ℕ → ℕ → Bool) (es : List (Event ℕ ℕ)) → IsEquivalence alike
        → IsDistinct (of_same_sites alike) (rows_by_pairs same alike es) }
{}

/// Where neighbours that needn't stay in their order can be exchanged, each reordering of a run leads to the same state.
pub fn reorderings_lead_to_the_same_state()
    ensures { (step : ℕ → ℕ → Option ℕ) (keeps : ℕ → ℕ → Bool) (xs ys : List ℕ) (s t : ℕ)
        → NeighboursCommute step (λ x y. keeps x y ≡ true) → IsReordering (λ x y. keeps x y ≡ true) xs ys
        → final_state step xs s ≡ Some t → final_state step ys s ≡ Some t }
{}

/// Where a run has no race, each reordering that keeps the steps which are directly before others keeps those that conflict too.
pub fn race_free_reorderings_keep_conflicts()
    ensures { (same alike : ℕ → ℕ → Bool) (es : List (Event ℕ ℕ)) (keeps : ℕ → ℕ → Bool) (ys : List ℕ)
        → IsEquivalence alike → rows_by_pairs same alike es ≡ []
        → ((i j : ℕ) → IsDirectlyBefore es i j → keeps i j ≡ true) → IsReordering (λ i j. keeps i j ≡ true) (steps_of es) ys
        → IsReordering (λ i j. (keeps i j ≡ true) ⊎ HaveConflict same es i j) (steps_of es) ys }
{}

/// The rows of a run are its races: each row is of one, each one has a row, and no two rows are of the same sites. Vector clocks find them.
pub fn rows_of_runs_are_races()
    ensures sound { (program : Units) (processes : List ℕ) (r : Row Location Site) → Contains (races_of program processes) r
        → IsRace (events_of program processes) same_location r.first r.second }
    ensures complete { (program : Units) (processes : List ℕ) (d y : StepAccess Location Site)
        → IsRace (events_of program processes) same_location d y → HasRow same_site d y (races_of program processes) }
    ensures distinct { (program : Units) (processes : List ℕ) → IsDistinct (of_same_sites same_site) (races_of program processes) }
    ensures clocks { (program : Units) (processes : List ℕ)
        → rows_by_clocks same_location same_site (events_of program processes) ≡ races_of program processes }
{}

/// Where a run has no race, each reordering that keeps the steps which are directly before others keeps those that conflict too.
pub fn race_free_runs_keep_conflicts()
    ensures { (program : Units) (processes : List ℕ) (keeps : ℕ → ℕ → Bool) (ys : List ℕ) → races_of program processes ≡ []
        → ((i j : ℕ) → IsDirectlyBefore (events_of program processes) i j → keeps i j ≡ true)
        → IsReordering (λ i j. keeps i j ≡ true) (steps_of (events_of program processes)) ys
        → IsReordering (λ i j. (keeps i j ≡ true) ⊎ HaveConflict same_location (events_of program processes) i j) (
        steps_of (events_of program processes)) ys }
{}

/// Two independent steps of different processes can be exchanged: they lead to the same state, whichever comes first. So does a run in
/// which they are next to each other. And no step makes another one possible from which its uses are separate.
pub fn independent_steps_can_be_exchanged()
    ensures steps { (program : Units) (s t u : State) (p q : ℕ) → step program p s ≡ Some t → step program q s ≡ Some u
        → AreIndependent program s p q t u → (v : State) × (step program q t ≡ Some v) × (step program p u ≡ Some v) }
    ensures runs { (program : Units) (front rest : List ℕ) (t u : State) (p q : ℕ) → step program p (run program front) ≡ Some t
        → step program q (run program front) ≡ Some u → AreIndependent program (run program front) p q t u
        → run program (front ++ p ∷ q ∷ rest) ≡ run program (front ++ q ∷ p ∷ rest) }
    ensures possible { (program : Units) (s t v : State) (p q : ℕ) → step program p s ≡ Some t → step program q t ≡ Some v
        → HaveSeparateUses program s p q → (u : State) × (step program q s ≡ Some u) }
{}
