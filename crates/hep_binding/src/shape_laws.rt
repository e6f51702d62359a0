//! Laws about what the code of bounds reads at a CALL.
ghost use Rattle.std.specs.Prelude.{◌≡◌, ℕ, ◌<◌, ◌≤◌, true, false, List, Some, None, Ok, Err, length};
ghost use Rattle.hep_machine.specs.Words.{Dimension, Name, Statement, Tree, Units, dummies_of, unit_at, Binding, binding_for, dummies_for};
ghost use Rattle.hep_machine.specs.Words.{with_actuals, is_common, Actual, Layout, Scope, own_storage, Dummy, State};
ghost use Rattle.hep_machine.specs.declared.event.Kind.TheVariants.{Shape};
ghost use Rattle.hep_machine.specs.declared.slot.Slot.{Slot};
ghost use Rattle.hep_conditions.specs.Words.{IsAccepted};
ghost use Rattle.hep_arena.specs.Gaps.{frame_among};
ghost use Rattle.hep_arena.specs.Holes.{Hole};
ghost use Rattle.hep_arena.specs.Space.{Space};
ghost use Rattle.hep_layout.specs.Words.{Holds, IsMemory, address};
ghost use Rattle.hep_image.specs.Dummies.{dummy_arguments};
ghost use Rattle.hep_step.specs.ArgumentAgreement.{AreGiven};
ghost use Rattle.hep_step.specs.declared.dummy_storage.DummyStorage.{DummyStorage};
ghost use Rattle.hep_code.specs.BoundCode.{Sources, code_of_bound};
ghost use Rattle.hep_code.specs.DimensionCode.{code_of_dimensions};
ghost use Rattle.hep_step.specs.Shapes.{AreShapesOf};
ghost use Rattle.hep_binding.specs.DummyShapes.{AreShapable, are_fitting, longest_code, shapes_of};
ghost use Rattle.hep_binding.specs.DummyContents.{AreReadable, IsReadable, stored_for, stored_in};
ghost use Rattle.hep_code.specs.Sources.{AreStored, IsNamedOnce, adjustable_code};

/// Code can be read if each name in it can: its cell lies in the arena and is taken.
pub fn code_is_readable()
    ensures bound { (space : Space) (given : List DummyStorage) (unit : List Statement) (source : Sources)
        → ((x : Name) → IsReadable space given (source x)) → (t : Tree) → AreReadable space given (code_of_bound source unit t) }
    ensures dimensions { (space : Space) (given : List DummyStorage) (unit : List Statement) (source : Sources)
        → ((x : Name) → IsReadable space given (source x)) → (ds : List Dimension)
        → AreReadable space given (code_of_dimensions source unit ds) }
{}

/// For a called unit that has no frame yet, what it is given, with the cells of COMMON, has the values of its dummy
/// arguments and of its names in COMMON, and `shape_given` can read them (X3.9-1978, 8.3 and 15.9.3).
pub fn calls_have_what_is_stored()
    ensures stored { (program : Units) (s : State) (layout : Layout) (contents : List Slot) (b : ℕ) (scope : Scope) (actuals : List Actual)
        (given : List DummyStorage) (cell : Name → ℕ) → frame_among b layout ≡ None → Holds program s layout contents
        → IsNamedOnce (dummies_of scope.unit) → AreGiven program s layout b (dummies_of scope.unit) actuals given scope.dummies
        → ((x : Name) → is_common scope.unit x ≡ true → address program s layout (own_storage scope x).start ≡ Some (cell x))
        → AreStored scope (with_actuals s.store b (dummies_of scope.unit) actuals) cell (stored_in contents) (stored_for contents given) }
    ensures readable { (program : Units) (s : State) (layout : Layout) (contents : List Slot) (holes : List Hole) (b : ℕ) (scope : Scope)
        (actuals : List Actual) (given : List DummyStorage) (cell : Name → ℕ) → IsMemory program s layout contents holes
        → AreGiven program s layout b (dummies_of scope.unit) actuals given scope.dummies
        → ((x : Name) → is_common scope.unit x ≡ true → address program s layout (own_storage scope x).start ≡ Some (cell x)) → (x : Name)
        → AreReadable (record { contents = contents; holes = holes }) given (adjustable_code scope.unit cell x) }
{}

/// When a unit is called, `find_shapes` can read what the bounds of its arrays name, and has the room that it needs
/// if there is room for the longest code.
pub fn calls_are_shapable()
    ensures { (program : Units) (s : State) (layout : Layout) (contents : List Slot) (holes : List Hole)
        (u a room : ℕ) (actuals : List Actual) (given : List DummyStorage) (ds : List Dummy) → IsAccepted program → u < length program
        → IsMemory program s layout contents holes → AreGiven program s layout a (dummies_of (unit_at program u)) actuals given ds
        → longest_code (dummy_arguments program (unit_at program u)) ≤ room
        → AreShapable (record { contents = contents; holes = holes }) given room (dummy_arguments program (unit_at program u)) }
{
    hep_accepted_laws::names::names_stand_for_one_thing();
    hep_accepted_laws::values::arrays_have_shapes();
}

/// Let the passed actual arguments give what the dummy arguments of a unit are associated with. They are bound if
/// each array among them has a shape that fits what it is given, as `find_shapes` decides, and an adjustable one has
/// the shape that is computed. Otherwise the fault is SHAPE (X3.9-1978, 5.5, 5.5.1 and 15.9.3.3).
pub fn shapes_decide_bindings()
    ensures fit { (program : Units) (s : State) (layout : Layout) (contents : List Slot)
        (u a : ℕ) (scope : Scope) (actuals : List Actual) (given : List DummyStorage) (ds : List Dummy) → IsAccepted program
        → u < length program → frame_among a layout ≡ None → Holds program s layout contents
        → AreGiven program s layout a (dummies_of (unit_at program u)) actuals given ds
        → dummies_for scope a (dummies_of (unit_at program u)) actuals ≡ Ok ds
        → are_fitting contents given (dummy_arguments program (unit_at program u)) ≡ true → (b : Binding)
        × (binding_for scope s.store (unit_at program u) a actuals ≡ Ok b)
        × AreShapesOf (unit_at program u) b.dummies (shapes_of contents given (dummy_arguments program (unit_at program u))) }
    ensures unfit { (program : Units) (s : State) (layout : Layout) (contents : List Slot)
        (u a : ℕ) (scope : Scope) (actuals : List Actual) (given : List DummyStorage) (ds : List Dummy) → IsAccepted program
        → u < length program → frame_among a layout ≡ None → Holds program s layout contents
        → AreGiven program s layout a (dummies_of (unit_at program u)) actuals given ds
        → dummies_for scope a (dummies_of (unit_at program u)) actuals ≡ Ok ds
        → are_fitting contents given (dummy_arguments program (unit_at program u)) ≡ false
        → binding_for scope s.store (unit_at program u) a actuals ≡ Err Shape }
{
    hep_accepted_laws::names::names_are_given_once();
    hep_accepted_laws::names::names_stand_for_one_thing();
    hep_accepted_laws::values::arrays_have_shapes();
    hep_accepted_laws::code::constant_shapes();
}
