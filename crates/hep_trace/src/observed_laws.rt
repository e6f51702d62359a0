//! Laws of turns.
ghost use Rattle.std.specs.Prelude.{◌≡◌, ℕ, [], None, Some};
ghost use Rattle.hep_machine.specs.Words.{Level, Name, State, Top, Units, does, ending_loop, living, location_of_name, next_of, scope_of, step_result_of, stepped, unit_on_top};
ghost use Rattle.hep_event.specs.Sites.{stored_at};
ghost use Rattle.hep_event.specs.StepTexts.{fault_added, value_in};

/// Where the end of an iteration of a DO is no fault, the process goes on in the same activation, whose variables
/// keep their places.
pub fn iterations_end_in_place()
    ensures { (program : Units) (t : Top) (after : State) (d : ℕ) → living t.state t.process ≡ Some (t.level, t.below)
        → step_result_of program t.process t.state ≡ stepped after → fault_added t.state.faults after.faults ≡ None
        → next_of (unit_on_top program t) t.level.work ≡ does (ending_loop d) → (level : Level)
        × (living after t.process ≡ Some (level, t.below)) × (after.halted ≡ t.state.halted)
        × ((x : Name) → value_in program t after.store x ≡ stored_at after.store (location_of_name (scope_of program after level.activation) x [])) }
{}
