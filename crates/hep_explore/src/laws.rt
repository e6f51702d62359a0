//! What a closed set of states says of a program's endings, what ranks and cycles say of its runs, and what the outcomes of a program are.
ghost use Rattle.std.specs.Prelude.{◌≡◌, ◌≢◌, ◌↔◌, ◌≤◌, ◌+◌, ℕ, Bool, List, length};
ghost use Rattle.std.specs.List.{Contains};
ghost use Rattle.hep_machine.specs.declared.event.Entry.{Entry};
ghost use Rattle.hep_machine.specs.Words.{AreSteps, IsLegal, State, Units, opening, run_from, state_after};
ghost use Rattle.hep_outcome.specs.Outcome.{Outcome};
ghost use Rattle.hep_outcome.specs.declared.status.Status.TheVariants.{ArenaFull};
ghost use Rattle.hep_explore.specs.Closed.{AreReachable, EndsAmong, IsClosed, IsClosedUpTo, IsCycle, IsRankedUpTo, IsRanking};
ghost use Rattle.hep_explore.specs.Endings.{Ending, IsEnding, IsEndingWithin, IsReachable, MayRunForEver, ending_of};
ghost use Rattle.hep_explore.specs.Finished.{IsFinished, IsSerial};
ghost use Rattle.hep_explore.specs.Independence.{AreIndependent};
ghost use Rattle.hep_explore.specs.Possible.{IsPossible};
ghost use Rattle.hep_explore.specs.Pure.{is_pure};
ghost use Rattle.hep_explore.specs.Texts.{Shows};

/// A program may end so just where it may end so in some arena.
pub fn endings_fit_some_arena()
    ensures { (program : Units) (e : Ending) → IsEnding program e ↔ ((cells : ℕ) × IsEndingWithin program cells e) }
{}

/// As a program may end in an arena, it may end in each larger one.
pub fn endings_fit_larger_arenas()
    ensures { (program : Units) (small large : ℕ) → small ≤ large → (e : Ending) → IsEndingWithin program small e
        → IsEndingWithin program large e }
{}

/// A closed set has every reachable state.
pub fn closed_sets_have_reachable_states()
    ensures { (program : Units) (states : List State) → IsClosed program states → (s : State) → IsReachable program s → Contains states s }
{}

/// However a program ends, a terminal state of each closed set ends so; and so as a terminal state of a set of reachable states ends, the
/// program may end.
pub fn endings_are_those_of_closed_sets()
    ensures found { (program : Units) (states : List State) → IsClosed program states → (e : Ending) → IsEnding program e
        → EndsAmong program states e }
    ensures real { (program : Units) (states : List State) → AreReachable program states → (e : Ending) → EndsAmong program states e
        → IsEnding program e }
{}

/// However a program ends, a terminal state ends so of each set that is closed up to independent steps.
pub fn endings_are_those_of_reduced_sets()
    ensures { (program : Units) (independent : ℕ → State → Bool) (states : List State) → AreIndependent program independent
        → IsClosedUpTo program independent states → (e : Ending) → IsEnding program e → EndsAmong program states e }
{}

/// Pure steps are independent: those that apply an operator or a function of integers, or only choose which statement comes next.
pub fn pure_steps_are_independent()
    ensures { (program : Units) → AreIndependent program (is_pure program) }
{}

/// However a program ends, a terminal state ends so of each set that is closed up to pure steps.
pub fn endings_are_those_up_to_pure_steps()
    ensures { (program : Units) (states : List State) → IsClosedUpTo program (is_pure program) states → (e : Ending) → IsEnding program e
        → EndsAmong program states e }
{}

/// Where a rank falls with each step of a closed set, no choices make more steps than the rank of the opening, and none go on for ever.
pub fn ranks_bound_runs()
    ensures bound { (program : Units) (states : List State) (rank : State → ℕ) → IsClosed program states → IsRanking program states rank
        → (choices : List ℕ) → AreSteps program (opening program) choices → length choices ≤ rank (opening program) }
    ensures ends { (program : Units) (states : List State) (rank : State → ℕ) → IsClosed program states → IsRanking program states rank
        → MayRunForEver program → ⊥ }
{}

/// Where a rank falls with each step by more than the independent steps that follow it, no choices make more steps than the rank of the
/// first state and the independent steps that lead to it, and none go on for ever.
pub fn ranks_up_to_independent_steps_bound_runs()
    ensures bound { (program : Units) (independent : ℕ → State → Bool) (states : List State) (rank : State → ℕ)
        → AreIndependent program independent → (ranked : IsRankedUpTo program independent states rank) → (choices : List ℕ)
        → AreSteps program (opening program) choices
        → length choices ≤ rank (run_from program (opening program) ranked.begins.steps) + length ranked.begins.steps }
    ensures ends { (program : Units) (independent : ℕ → State → Bool) (states : List State) (rank : State → ℕ)
        → AreIndependent program independent → IsRankedUpTo program independent states rank → MayRunForEver program → ⊥ }
{}

/// Where steps lead from a reachable state back to it, a program may run for ever.
pub fn cycles_run_for_ever()
    ensures { (program : Units) (s : State) (p : ℕ) (ps : List ℕ) → IsReachable program s → IsCycle program s p ps
        → MayRunForEver program }
{}

/// Where a legal history has a STOP, or no process is ready after it, the program may end as it does.
pub fn finished_histories_end()
    ensures { (program : Units) (cells limit : ℕ) (history : List Entry) → IsLegal program cells limit history → IsFinished program history
        → IsEndingWithin program cells (ending_of program (state_after program history)) }
{}

/// However a program may end, a legal history of single steps ends so.
pub fn endings_have_histories()
    ensures { (program : Units) (cells : ℕ) (e : Ending) → IsEndingWithin program cells e → (history : List Entry)
        × IsLegal program cells (length history) history × IsSerial program history × IsFinished program history
        × (e ≡ ending_of program (state_after program history)) }
{}

/// An outcome that is possible shows an ending, unless the arena was full.
pub fn possible_outcomes_show_endings()
    ensures { (program : Units) (cells : ℕ) (o : Outcome) → IsPossible program cells o → o.status ≢ ArenaFull
        → (e : Ending) × IsEndingWithin program cells e × Shows program e o }
{}

/// However a program may end, an outcome that shows it is possible.
pub fn endings_are_shown_by_possible_outcomes()
    ensures { (program : Units) (cells : ℕ) → 1 ≤ cells → cells ≤ 16777216 → (e : Ending) → IsEndingWithin program cells e
        → (o : Outcome) × IsPossible program cells o × Shows program e o }
{}
