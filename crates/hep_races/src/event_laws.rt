//! Laws of the event of a step.
ghost use Rattle.std.specs.Prelude.{◌≡◌, ◌&&◌, not, ℕ, Some};
ghost use Rattle.std.specs.List.{list_any};
ghost use Rattle.hep_accesses.specs.Accesses.{accesses_on_top};
ghost use Rattle.hep_accesses.specs.RunEvents.{has_changed};
ghost use Rattle.hep_accesses.specs.Exchanges.{next_on_top, top_with};
ghost use Rattle.hep_machine.specs.Words.{Level, Location, Process, State, Units, living, same_location, step};
ghost use Rattle.hep_races.specs.StepChanges.{accesses_after, accesses_unless_fault, changes_on_top, has_failed};

/// What a step changes and accesses is known before it, but for whether it is a fault.
pub fn steps_are_known_before()
    ensures changes { (program : Units) (p : ℕ) (s t : State) (top : Level × Process) (at : Location) → living s p ≡ Some top
        → step program p s ≡ Some t
        → has_changed s t at ≡ (not (has_failed s t) && list_any (same_location at) (changes_on_top program (top_with program s p top))) }
    ensures accesses { (program : Units) (p : ℕ) (s t : State) (top : Level × Process) → living s p ≡ Some top
        → step program p s ≡ Some t
        → accesses_on_top program (top_with program s p top)
        ≡ accesses_after (next_on_top program (top_with program s p top)) (has_failed s t)
        (accesses_unless_fault program (top_with program s p top) (next_on_top program (top_with program s p top))) }
{}
