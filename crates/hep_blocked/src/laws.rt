//! Laws of the lists: the waiting and the ready processes that are kept are those of the definitions.
ghost use Rattle.std.specs.Prelude.{◌≡◌, ◌≢◌, ◌++◌, ◌∷◌, ℕ, Bool, List, [], Option, Some, None};
ghost use Rattle.hep_machine.specs.Words.{Units, Layout, is_held, layout_of, opening, run, Progress, living_from};
ghost use Rattle.hep_machine.specs.Words.{progress_after_entry, progress_after_step, ready_in, step};
ghost use Rattle.hep_cells.specs.declared.want.Want.{Want};
ghost use Rattle.hep_blocked.specs.Rosters.{want_of};
ghost use Rattle.hep_blocked.specs.Numbers.{AreRising};
ghost use Rattle.hep_blocked.specs.RosterUpdates.{AreListed, GoesAlong, GoesAlongEmptying, HasChanged, HasEmptied, IsBlocked, IsReadyNoMore};
ghost use Rattle.hep_blocked.specs.RosterUpdates.{WaitsNow};

use crate::need_laws::others_need_the_same;

/// At the opening no process is listed as waiting, and process 1 is ready.
pub fn openings_list_nobody()
    ensures { (program : Units) (cells : ℕ)
        → AreListed program cells [] (record { state = opening program; listed = [] }) (want_of []) (1 ∷ []) }
{}

/// An entry without a step lists its process as waiting.
pub fn waiting_processes_are_listed()
    ensures { (program : Units) (cells : ℕ) (choices : List ℕ) (x : Progress) (waiting after : ℕ → Option Want)
        (ready left : List ℕ) (p : ℕ) (w : Want) → AreListed program cells choices x waiting ready → IsBlocked program cells choices p w
        → WaitsNow p w waiting after → IsReadyNoMore p ready left
        → AreListed program cells choices (progress_after_entry program x (record { process = p; steps = 0 }) 0) after left }
{}

/// After a step that fills or empties one cell at most, just the processes are listed that still wait, and just the
/// other living ones are ready.
pub fn lists_go_along_with_steps()
    ensures { (program : Units) (cells : ℕ) (choices : List ℕ) (x : Progress) (waiting waiting_after : ℕ → Option Want)
        (ready ready_after : List ℕ) (p : ℕ) (changed : Option Want) (layout : Layout)
        → AreListed program cells choices x waiting ready → step program p (run program choices) ≢ None
        → layout_of program cells is_held choices ≡ Some layout → HasChanged program choices p layout changed
        → GoesAlong program choices p changed waiting waiting_after ready ready_after
        → AreListed program cells (choices ++ p ∷ [])
        (progress_after_step program x p (run program (choices ++ p ∷ []))) waiting_after ready_after }
{
    others_need_the_same();
}

/// After a step that empties cells, as a PURGE does, just the processes are listed that still wait, and just the
/// other living ones are ready.
pub fn lists_go_along_with_purges()
    ensures { (program : Units) (cells : ℕ) (choices : List ℕ) (x : Progress) (waiting waiting_after : ℕ → Option Want)
        (ready ready_after : List ℕ) (p : ℕ) (emptied : ℕ → Bool) (layout : Layout) → AreListed program cells choices x waiting ready
        → step program p (run program choices) ≢ None → layout_of program cells is_held choices ≡ Some layout
        → HasEmptied program choices p layout emptied → GoesAlongEmptying program choices p emptied waiting waiting_after ready ready_after
        → AreListed program cells (choices ++ p ∷ [])
        (progress_after_step program x p (run program (choices ++ p ∷ []))) waiting_after ready_after }
{
    others_need_the_same();
}

/// Rising numbers that are those of the ready processes are the list of the definitions. Where no process is ready,
/// one waits just if one lives.
pub fn lists_are_those_of_definitions()
    ensures ready { (program : Units) (cells room : ℕ) (choices : List ℕ) (x : Progress) (waiting : ℕ → Option Want) (ready : List ℕ)
        → AreListed program cells choices x waiting ready → AreRising 1 room ready → ready ≡ ready_in x }
    ensures done { (program : Units) (cells : ℕ) (choices : List ℕ) (x : Progress) (waiting : ℕ → Option Want) (ready : List ℕ)
        → AreListed program cells choices x waiting ready → ready_in x ≡ [] → ((p : ℕ) → waiting p ≡ None)
        → living_from 1 x.state.processes ≡ [] }
    ensures waiting { (program : Units) (cells p : ℕ) (choices : List ℕ) (x : Progress) (waiting : ℕ → Option Want) (ready : List ℕ)
        → AreListed program cells choices x waiting ready → waiting p ≢ None → living_from 1 x.state.processes ≢ [] }
{}
