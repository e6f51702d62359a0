//! Laws of the places of storage units.
ghost use Rattle.std.specs.Prelude.{◌≡◌, ℕ, List, Some};
ghost use Rattle.hep_layout.specs.Words.{address};
ghost use Rattle.hep_machine.specs.Words.{Layout, Location, State, Units, is_held, layout_of, run, same_location, step};
ghost use Rattle.hep_views.specs.ListedProcesses.{place_of};
ghost use Rattle.hep_races.specs.StoragePlaces.{IsThere, same_place};

use hep_machine::laws::numbers_rise;

/// Two storage units are the same just where their places are.
pub fn places_tell_storage_units()
    ensures { (program : Units) (s : State) (a b : Location) → IsThere program s a → IsThere program s b
        → same_place (place_of program s a) (place_of program s b) ≡ same_location a b }
{}

/// A storage unit keeps its place, also where its frame is gone.
pub fn places_stay()
    ensures there { (program : Units) (p : ℕ) (s t : State) (at : Location) → step program p s ≡ Some t → IsThere program s at
        → IsThere program t at }
    ensures place { (program : Units) (p : ℕ) (s t : State) (at : Location) → step program p s ≡ Some t → IsThere program s at
        → place_of program t at ≡ place_of program s at }
{
    numbers_rise();
}

/// What has an address after turns is a storage unit of the program.
pub fn units_in_cells_are_there()
    ensures { (program : Units) (cells : ℕ) (choices : List ℕ) (layout : Layout) (at : Location) (c : ℕ)
        → layout_of program cells is_held choices ≡ Some layout → address program (run program choices) layout at ≡ Some c
        → IsThere program (run program choices) at }
{}
