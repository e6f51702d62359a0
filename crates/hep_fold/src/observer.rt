//! What is told of the turns of a history while they are made again.
ghost use Rattle.std.specs.Prelude.{◌≡◌, ◌≤◌, ◌++◌, ◌∷◌, [], IfOk, OnOk, replicate};
ghost use Rattle.hep_advance.specs.SilentRuns.{MakesMoves};
ghost use Rattle.hep_fold.specs.Observers.{AreTurnsAhead, CanGoAtOnce, IsMade, row_turns};
ghost use Rattle.hep_fold.specs.Turns.{seen_along, turns_in_row};
ghost use Rattle.hep_machine.specs.Words.{run};

use crate::turn_row::TurnRow;
use hep_advance::{CoreState, DecodedImage};
use hep_image::Image;
use std::alloc::AllocError;

/// Looks at the machine before each turn and after it. Contracts say what it knows by a value of the definitions.
pub trait Observer: Drop {
    ghost use Rattle.std.specs.Prelude.{ℕ, List};
    ghost use Rattle.hep_fold.specs.Observers.{Replay};
    ghost use Rattle.hep_machine.specs.Words.{State, Units};

    // What is known of turns, in the words of the definitions.
    ghost Seen: { Type 0 };

    // That is known after the turns of these processes.
    ghost knows: { Units → Replay → List ℕ → Self → Seen → Type 0 };

    // What is known after one turn more: of the entry with this number, of this process, from this state.
    ghost see: { Units → ℕ → ℕ → State → Seen → Seen };

    /// What is noted before a turn.
    type Look: Drop;

    // That is noted before a turn: of the entry with this number, of this process.
    ghost notes: { Units → Replay → List ℕ → ℕ → ℕ → Self → Self.Look → Type 0 };

    /// Notes what has to be known of the state before a turn of process p, which has a step. The turn is part of the
    /// entry with this number, counted from 1.
    ///
    /// # Errors
    ///
    /// Only where memory was refused.
    fn look(
        &self,
        machine: &CoreState,
        image: &Image,
        entry: u64,
        p: u64,
    ) -> Result<Self::Look, AllocError>
        requires { AreTurnsAhead knows image.now machine.now self.now ((entry, p) ∷ []) }
        ensures { IfOk result (λ look. (at : AreTurnsAhead knows image.now machine.now self.now ((entry, p) ∷ []))
            → notes image.now at.replay at.made entry p self.now look) };

    /// Takes note of that turn, which was made.
    ///
    /// # Errors
    ///
    /// Only where memory was refused.
    fn tell(
        &mut self,
        machine: &CoreState,
        image: &Image,
        entry: u64,
        p: u64,
        look: Self::Look,
    ) -> Result<(), AllocError>
        requires { IsMade knows image.now machine.now self.old notes entry p look }
        ensures { OnOk result ((at : IsMade knows image.now machine.now self.old notes entry p look)
            → knows image.now at.replay (at.made ++ p ∷ []) self.new (see image.now entry p (run image.now at.made) at.seen)) };

    /// Makes the first turns of a row at once, where each only moves the process, and takes note of them. Returns
    /// their number, which may be 0: then the next turn is made with `look` and `tell`.
    fn go_on(&mut self, machine: &mut CoreState, tabled: &DecodedImage<'_>, row: TurnRow) -> u64
        requires turn { CanGoAtOnce tabled.now row machine.old }
        requires ahead { AreTurnsAhead knows tabled.now.image.now machine.old self.old (row_turns row) }
        ensures gone { MakesMoves tabled.now.image.now row.process machine.old result machine.new }
        ensures few { result ≤ row.count }
        ensures made { machine.new.made ≡ machine.old.made }
        ensures seen { (at : AreTurnsAhead knows tabled.now.image.now machine.old self.old (row_turns row))
            → knows tabled.now.image.now at.replay (at.made ++ replicate result row.process) self.new
            (seen_along tabled.now.image.now (see tabled.now.image.now) (run tabled.now.image.now at.made) (turns_in_row row.apart row.entry row.process result) at.seen) };
}
