//! Laws of what is read from the arena.
ghost use Rattle.std.specs.Prelude.{◌≡◌, ◌≤◌, ℕ, true, List, is_some, length};
ghost use Rattle.hep_conditions.specs.Words.{IsAccepted};
ghost use Rattle.hep_machine.specs.Words.{Units, main_among, run};
ghost use Rattle.hep_views.specs.StoredContents.{HasDummies};

use hep_accepted_laws::runs as works;

/// In a run of an accepted program with a main program each activation has the dummy arguments of its unit, and they
/// are bound.
pub fn dummies_are_those_of_units()
    ensures { (program : Units) (choices : List ℕ) (a : ℕ) → IsAccepted program → is_some (main_among program) ≡ true → 1 ≤ a
        → a ≤ length (run program choices).activations → HasDummies program (run program choices) a }
{
    works::programs_are_closed();
    works::calls_agree_in_runs();
    works::units_are_there();
    works::activations_are_bound_in_runs();
}
