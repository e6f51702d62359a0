//! What equal keys say of two machines, and what a machine says of how its states end.
ghost use Rattle.std.specs.Prelude.{◌≡◌, ℕ, List, is_some, true};
ghost use Rattle.hep_conditions.specs.Words.{IsAccepted};
ghost use Rattle.hep_machine.specs.Words.{Units, main_among, run};
ghost use Rattle.hep_explore.specs.Endings.{ending_of};
ghost use Rattle.hep_state.specs.Words.{IsAfter, Snapshot};
ghost use Rattle.hep_explore.specs.Keys.{IsKeyOf};

use hep_views::laws::views_are_of_states;

/// Two machines of a program with the same key keep the same states.
pub fn machines_with_equal_keys_keep_the_same_states()
    ensures { (program : Units) (cells : ℕ) (before turns key : List ℕ) (a b : Snapshot) → IsKeyOf program a key
        → IsKeyOf program b key → IsAfter program cells before a → IsAfter program cells turns b → IsAfter program cells before b }
{}

/// The states of an accepted program that a machine keeps, whichever turns led to it, end in the same way.
pub fn states_of_a_machine_end_alike()
    ensures { (program : Units) (cells : ℕ) (before turns : List ℕ) (m : Snapshot) → IsAccepted program
        → is_some (main_among program) ≡ true → IsAfter program cells before m → IsAfter program cells turns m
        → ending_of program (run program before) ≡ ending_of program (run program turns) }
{
    views_are_of_states();
}
