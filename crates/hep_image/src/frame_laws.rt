//! Laws of finding: what the code of a unit finds in the arena for a variable, an element or the cells of a DO is
//! what the source machine has for it.
ghost use Rattle.std.specs.Prelude.{◌≡◌, ◌≢◌, ◌+◌, ◌<◌, ◌≤◌, ℕ, true, false, List, [], Some, None, Result, Ok, length, map, slice_get};
ghost use Rattle.hep_machine.specs.Words.{Name, Statement, Value, index_among, Units, dummies_of, main_unit, statement_at, unit_at};
ghost use Rattle.hep_machine.specs.Words.{adjustable_dimensions, cells_of, is_array, Frame, Layout, common_cells, frame_of, Scope};
ghost use Rattle.hep_machine.specs.Words.{dummy_at, activation_of, loop_at, unit_of, run, Level, State, scope_of, frame_cells, is_do};
ghost use Rattle.hep_machine.specs.Words.{is_owned};
ghost use Rattle.hep_machine.specs.declared.event.Kind.{Kind};
ghost use Rattle.hep_machine.specs.declared.slot.Slot.{Slot};
ghost use Rattle.hep_layout.specs.ArenaGaps.{frame_among};
ghost use Rattle.hep_layout.specs.ArenaHoles.{Hole, IsOut};
ghost use Rattle.hep_code.specs.declared.variable.Variable.{Variable};
ghost use Rattle.hep_code.specs.declared.variable.Variable.TheVariants.{Absent};
ghost use Rattle.hep_code.specs.Words.{Finds, IsAddressed, HoldsLoops, counts_of};
ghost use Rattle.hep_layout.specs.Words.{Holds, IsMemory, address, frame_address, Describes, level_of, descriptor_slots, iteration};
ghost use Rattle.hep_layout.specs.Words.{RunsFrom};
ghost use Rattle.hep_image.specs.declared.array.Start.TheVariants.{Common, Local};
ghost use Rattle.hep_image.specs.Addressing.{address_of, cells_in, counts_at};
ghost use Rattle.hep_image.specs.Places.{array_of, arrays_of, loop_cells, start_of, variable_of};
ghost use Rattle.hep_image.specs.BoundActivations.{AreClosed, AreKept, CallsAgree, IsBound};
ghost use Rattle.hep_image.specs.Constant.{HasConstantShape};
ghost use Rattle.hep_image.specs.FrameBounds.{IsArrayIn, LiesIn};
ghost use Rattle.hep_image.specs.Arrays.{ArePlacedArrays};

/// The cell at the address of a storage unit has what is stored in it.
pub fn cells_are_found()
    ensures { (program : Units) (s : State) (layout : Layout) (contents : List Slot) → Holds program s layout contents
        → Finds (address program s layout) (cells_in contents) s.store }
{}

/// A variable, or an element of one, is found at the address of the storage unit that its name means in the source
/// machine; where that is a fault, there is the same fault. This holds of a variable that is no dummy argument; of a
/// dummy argument, if the storage that it is associated with is in consecutive cells; and so of each name that is a
/// variable.
pub fn variables_are_addressed()
    ensures own { (program : Units) (s : State) (layout : Layout) (contents : List Slot) (a : ℕ) (f : Frame) (x : Name)
        (subscripts : List Value) → frame_among a layout ≡ Some f
        → slice_get program (unit_of s a) ≡ Some (unit_at program (unit_of s a))
        → index_among x (dummies_of (unit_at program (unit_of s a))) ≡ None → start_of program (unit_at program (unit_of s a)) x ≢ None
        → HasConstantShape (unit_at program (unit_of s a)) x
        → IsAddressed (address program s layout) (scope_of program s a)
        (address_of (cells_in contents) f.first
        (map (array_of program (unit_at program (unit_of s a))) (arrays_of (unit_at program (unit_of s a)))))
        (variable_of program (unit_at program (unit_of s a))) x subscripts }
    ensures dummy { (program : Units) (s : State) (layout : Layout) (contents : List Slot)
        (a k base : ℕ) (f : Frame) (x : Name) (subscripts : List Value)
        → Describes program s layout (descriptor_slots program s layout) contents → frame_among a layout ≡ Some f → IsBound program s a
        → index_among x (dummies_of (unit_at program (unit_of s a))) ≡ Some k
        → (is_owned a (dummy_at (activation_of s a).dummies k).start ≡ false
        → RunsFrom program s layout (dummy_at (activation_of s a).dummies k).start (dummy_at (activation_of s a).dummies k).rest base)
        → IsAddressed (address program s layout) (scope_of program s a)
        (address_of (cells_in contents) f.first
        (map (array_of program (unit_at program (unit_of s a))) (arrays_of (unit_at program (unit_of s a)))))
        (variable_of program (unit_at program (unit_of s a))) x subscripts }
    ensures any { (program : Units) (s : State) (layout : Layout) (contents : List Slot) (a : ℕ) (f : Frame) (x : Name)
        (subscripts : List Value) → Describes program s layout (descriptor_slots program s layout) contents → frame_among a layout ≡ Some f
        → slice_get program (unit_of s a) ≡ Some (unit_at program (unit_of s a)) → IsBound program s a → AreKept program s layout a
        → (index_among x (dummies_of (unit_at program (unit_of s a))) ≡ None → HasConstantShape (unit_at program (unit_of s a)) x)
        → variable_of program (unit_at program (unit_of s a)) x ≢ Absent
        → IsAddressed (address program s layout) (scope_of program s a)
        (address_of (cells_in contents) f.first
        (map (array_of program (unit_at program (unit_of s a))) (arrays_of (unit_at program (unit_of s a)))))
        (variable_of program (unit_at program (unit_of s a))) x subscripts }
{}

/// The two cells of a DO have its iteration count and its increment, and 0 and 1 where it wasn't entered; and they
/// are in its activation's frame.
pub fn loops_are_counted()
    ensures counts { (program : Units) (s : State) (layout : Layout) (contents : List Slot) (a d : ℕ) (f : Frame) (level : Level)
        → Describes program s layout (descriptor_slots program s layout) contents → frame_among a layout ≡ Some f
        → level_of s a ≡ Some level
        → is_do (statement_at (unit_at program (unit_of s a)) d).form ≡ true
        → counts_at (cells_in contents) f.first (loop_cells (unit_at program (unit_of s a)) d) ≡ counts_of (loop_at level.loops d) }
    ensures loops { (program : Units) (s : State) (layout : Layout) (contents : List Slot) (a : ℕ) (f : Frame) (level : Level)
        → Describes program s layout (descriptor_slots program s layout) contents → frame_among a layout ≡ Some f
        → level_of s a ≡ Some level
        → HoldsLoops (unit_at program (unit_of s a)) (λ d. counts_at (cells_in contents) f.first
        (loop_cells (unit_at program (unit_of s a)) d)) level.loops }
    ensures places { (program : Units) (s : State) (layout : Layout) (a d i : ℕ) (f : Frame) → frame_among a layout ≡ Some f
        → is_do (statement_at (unit_at program (unit_of s a)) d).form ≡ true → i < 2
        → frame_address program s layout a (iteration d, i) ≡ Some (f.first + (loop_cells (unit_at program (unit_of s a)) d + i)) }
{}

/// What the code of a unit reads of a frame to find a variable lies in the frame, and so do the cells of local
/// variables and of DOs; the cells of names in COMMON lie in COMMON.
pub fn variables_lie_in_frames()
    ensures variable { (program : Units) (unit : List Statement) (x : Name) → ArePlacedArrays program unit
        → LiesIn (frame_cells unit) (map (array_of program unit) (arrays_of unit)) (variable_of program unit x) }
    ensures array { (program : Units) (unit : List Statement) (i : ℕ) → ArePlacedArrays program unit
        → IsArrayIn (frame_cells unit) (slice_get (map (array_of program unit) (arrays_of unit)) i) }
    ensures dimensions { (program : Units) (s : State) (a : ℕ) (x : Name) → IsBound program s a
        → is_array (unit_at program (unit_of s a)) x ≡ true
        → (index_among x (dummies_of (unit_at program (unit_of s a))) ≡ None → HasConstantShape (unit_at program (unit_of s a)) x)
        → adjustable_dimensions (unit_at program (unit_of s a)) x ≤ 7 }
    ensures local { (program : Units) (unit : List Statement) (x : Name) (c : ℕ) → start_of program unit x ≡ Some (Local c)
        → c + cells_of unit x ≤ frame_cells unit }
    ensures common { (program : Units) (u : ℕ) (unit : List Statement) (x : Name) (c : ℕ) → slice_get program u ≡ Some unit
        → start_of program unit x ≡ Some (Common c) → c + cells_of unit x ≤ common_cells program }
    ensures iteration { (unit : List Statement) (d : ℕ) → is_do (statement_at unit d).form ≡ true
        → loop_cells unit d + 2 ≤ frame_cells unit }
{}

/// Each address that is found is a taken cell of the arena, and so are the cells of frames.
pub fn cells_are_reached()
    ensures address { (program : Units) (s : State) (layout : Layout) (contents : List Slot) (holes : List Hole) (scope : Scope)
        (found : Variable → List Value → Result ℕ Kind) (variables : Name → Variable) (x : Name) (subscripts : List Value) (p : ℕ)
        → IsMemory program s layout contents holes → IsAddressed (address program s layout) scope found variables x subscripts
        → found (variables x) subscripts ≡ Ok p → (p < length contents) × IsOut p holes }
    ensures frame { (program : Units) (s : State) (layout : Layout) (contents : List Slot) (holes : List Hole) (a : ℕ) (f : Frame)
        → IsMemory program s layout contents holes → frame_among a layout ≡ Some f → (f.cells ≡ frame_of program s a)
        × (f.first + f.cells ≤ length contents) × ((p : ℕ) → f.first ≤ p → p < f.first + f.cells → IsOut p holes) }
{}

/// In a run the dummy arguments of each activation are bound, if no array but a dummy argument is open, the main
/// program has no dummy arguments, and each CALL, CREATE and reference of a function has as many actual arguments as
/// there are dummy arguments.
pub fn activations_are_bound()
    ensures { (program : Units) (processes : List ℕ) (a : ℕ) → AreClosed program → dummies_of (unit_at program (main_unit program)) ≡ []
        → CallsAgree program → 1 ≤ a → a ≤ length (run program processes).activations → IsBound program (run program processes) a }
{}
