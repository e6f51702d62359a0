//! Laws of layouts: about the frame of every unit, about COMMON in every program, and about the arena that holds the
//! storage units of a state.
ghost use Rattle.std.specs.Prelude.{◌≡◌, ◌⊎◌, ◌↔◌, ◌<◌, ◌≤◌, ◌+◌, ◌*◌, ◌∷◌, ◌++◌, [], ℕ, nat_eq, nat_lt, pos, if◌then◌else◌, Bool, true};
ghost use Rattle.std.specs.Prelude.{false, List, Option, Some, None, is_some, Ok, ◌-◌, length, take, slice_get, slice_set};
ghost use Rattle.std.specs.List.{filter};
ghost use Rattle.hep_machine.specs.Words.{Name, Statement, Value, same_name, is_among, index_among, Units, dummies_of, main_unit, unit_at};
ghost use Rattle.hep_machine.specs.Words.{adjustable_dimensions, cells_of, cells_of_all, cells_before, BlockName, common_block, same_block};
ghost use Rattle.hep_machine.specs.Words.{names_in_block, unset_cell, dummy_for, first_element, Reference, referred, Scope, dummy_at};
ghost use Rattle.hep_machine.specs.Words.{element_of, location_of_name, storage_of, Frame, Layout, activations_on, block_cells};
ghost use Rattle.hep_machine.specs.Words.{common_cells, frame_of, is_held, layout_of, lowest_gap, opening_layout, used_cells, with_frame};
ghost use Rattle.hep_machine.specs.Words.{run, Activation, Dummy, Level, Location, Loop, Process, State, local, activation_of};
ghost use Rattle.hep_machine.specs.Words.{is_number_among, living, parent_of, unit_of, with_loop, with_numbered, fits, natural, scope_of};
ghost use Rattle.hep_machine.specs.Words.{with_cell, adjustable_dimensions_of_all, do_statements, frame_cells, is_do, locals_of, is_owned};
ghost use Rattle.hep_machine.specs.declared.slot.Slot.{Slot};
ghost use Rattle.hep_arena.specs.Gaps.{frame_among, framed_cells, gaps, without};
ghost use Rattle.hep_arena.specs.Holes.{Hole, IsOut, first_fit, free_cells, given, taken};
ghost use Rattle.hep_layout.specs.Words.{AreSingle, IsLaid, IsMemory, address, frame_address, frame_from, Describes, DescriptorSlots};
ghost use Rattle.hep_layout.specs.Words.{is_descriptor, level_of, loop_among, number, slot_of_bounds, slot_of_loop, descriptor_slots};
ghost use Rattle.hep_layout.specs.Words.{IsMadeAt, IsOwnedAbove, RunsFrom, times_on, AreFramed, AreNeededBut, first_nodes, is_stacked};
ghost use Rattle.hep_layout.specs.Words.{IsAtRest, IsFrameTree, IsNeeded, FrameNode, Nodes, activation_under, also, but, new_node};
ghost use Rattle.hep_layout.specs.Words.{with_ended, with_node, without_node, FramePart, argument, block_row, bounds, cells_in, common_row};
ghost use Rattle.hep_layout.specs.Words.{first_in, first_in_common, first_of_block, first_of_part, frame_row, iteration, owner_in};
ghost use Rattle.hep_layout.specs.Words.{place_in, place_of_block, place_of_part, same_part, size_in, variable};

/// The parts of a frame have together the cells of the frame. The blocks have together the cells of COMMON. The names of
/// a block in a unit have together the cells of the block in that unit, which are at most those of the block.
pub fn rows_have_all_cells()
    ensures frame { (unit : List Statement) → cells_in (frame_row unit) ≡ frame_cells unit }
    ensures common { (program : Units) → cells_in (common_row program) ≡ common_cells program }
    ensures block { (unit : List Statement) (b : BlockName) → cells_in (block_row unit b) ≡ cells_of_all unit (names_in_block unit b) }
    ensures greatest { (program : Units) (u : ℕ) (unit : List Statement) (b : BlockName) → slice_get program u ≡ Some unit
        → cells_in (block_row unit b) ≤ block_cells program b }
{}

/// The cells of a part of a frame, of a block and of a name in a block are consecutive, from the first one on.
pub fn places_follow_first_cells()
    ensures frame { (unit : List Statement) (part : FramePart) (i : ℕ)
        → place_of_part unit part i ≡ (if nat_lt i (size_in (same_part part) (frame_row unit)) then Some (first_of_part unit part + i)
        else None) }
    ensures common { (program : Units) (b : BlockName) (i : ℕ)
        → place_of_block program b i ≡ (if nat_lt i (size_in (same_block b) (common_row program)) then Some (first_of_block program b + i)
        else None) }
    ensures block { (unit : List Statement) (b : BlockName) (x : Name) (i : ℕ)
        → place_in (same_name x) i (block_row unit b)
        ≡ (if nat_lt i (size_in (same_name x) (block_row unit b)) then Some (first_in (same_name x) (block_row unit b) + i) else None) }
{}

/// A cell has one owner and one index: a part of the frame, a block of COMMON, or a name of a block. The cell determines
/// both. Each cell is within the frame, COMMON or the block.
pub fn owners_share_no_cell()
    ensures frame { (unit : List Statement) (part : FramePart) (i n : ℕ) → place_of_part unit part i ≡ Some n
        → (owner_in (frame_row unit) n ≡ Some (part, i)) × (n < frame_cells unit) }
    ensures common { (program : Units) (b : BlockName) (i n : ℕ) → place_of_block program b i ≡ Some n
        → (owner_in (common_row program) n ≡ Some (b, i)) × (n < common_cells program) }
    ensures block { (unit : List Statement) (b : BlockName) (x : Name) (i n : ℕ) → place_in (same_name x) i (block_row unit b) ≡ Some n
        → (owner_in (block_row unit b) n ≡ Some (x, i)) × (n < cells_of_all unit (names_in_block unit b)) }
{}

/// The first cell of each part of a frame, and the number of its cells. The order is the header, the dummy arguments, the
/// local variables, the DOs, and the bounds of adjustable arrays.
pub fn parts_in_order()
    ensures argument { (unit : List Statement) (x : Name) (k : ℕ) → index_among x (dummies_of unit) ≡ Some k
        → (first_of_part unit (argument x) ≡ 1 + 2 * k) × (size_in (same_part (argument x)) (frame_row unit) ≡ 2) }
    ensures variable { (unit : List Statement) (x : Name) → is_among x (locals_of unit) ≡ true
        → (first_of_part unit (variable x) ≡ 1 + (2 * length (dummies_of unit) + cells_before unit x (locals_of unit)))
        × (size_in (same_part (variable x)) (frame_row unit) ≡ cells_of unit x) }
    ensures iteration { (unit : List Statement) (d : ℕ) (s : Statement) → slice_get unit d ≡ Some s → is_do s.form ≡ true
        → (first_of_part unit (iteration d)
        ≡ 1 + (2 * length (dummies_of unit) + (cells_of_all unit (locals_of unit) + 2 * do_statements (take d unit))))
        × (size_in (same_part (iteration d)) (frame_row unit) ≡ 2) }
    ensures bounds { (unit : List Statement) (x : Name) (k : ℕ) → index_among x (dummies_of unit) ≡ Some k
        → (first_of_part unit (bounds x)
        ≡ 1 + (2 * length (dummies_of unit) + (cells_of_all unit (locals_of unit)
        + (2 * do_statements unit + 2 * adjustable_dimensions_of_all unit (take k (dummies_of unit))))))
        × (size_in (same_part (bounds x)) (frame_row unit) ≡ 2 * adjustable_dimensions unit x) }
{}

/// The first cell of a name in a block is the block's first cell plus the number of cells of the names before it.
pub fn names_follow_in_common()
    ensures first { (program : Units) (unit : List Statement) (b : BlockName) (x : Name)
        → first_in_common program unit b x ≡ first_of_block program b + cells_before unit x (names_in_block unit b) }
    ensures size { (unit : List Statement) (b : BlockName) (x : Name) → is_among x (names_in_block unit b) ≡ true
        → size_in (same_name x) (block_row unit b) ≡ cells_of unit x }
{}

/// Two storage units have different cells. The cell of a storage unit is within the arena and in no hole.
pub fn addresses_are_apart()
    ensures one { (program : Units) (s : State) (cells : ℕ) (layout : Layout) (l m : Location) (p : ℕ) → IsLaid program s cells layout
        → address program s layout l ≡ Some p → address program s layout m ≡ Some p → l ≡ m }
    ensures inside { (program : Units) (s : State) (cells : ℕ) (layout : Layout) (at : Location) (p : ℕ) → IsLaid program s cells layout
        → address program s layout at ≡ Some p → p < cells }
    ensures out { (program : Units) (s : State) (layout : Layout) (contents : List Slot) (holes : List Hole) (at : Location) (p : ℕ)
        → IsMemory program s layout contents holes → address program s layout at ≡ Some p → IsOut p holes }
{}

/// A write to a storage unit is a write of the cell at its address. All other storage units keep their contents.
pub fn writes_change_one_cell()
    ensures same { (program : Units) (s t : State) (layout : Layout) (contents : List Slot) (holes : List Hole)
        → IsMemory program s layout contents holes → t.activations ≡ s.activations → t.store ≡ s.store
        → IsMemory program t layout contents holes }
    ensures written { (program : Units) (s t : State) (layout : Layout) (contents : List Slot) (holes : List Hole) (at : Location) (p : ℕ)
        (cell : Slot) → IsMemory program s layout contents holes → address program s layout at ≡ Some p → t.activations ≡ s.activations
        → t.store ≡ with_cell s.store at cell → IsMemory program t layout (slice_set contents p cell) holes }
    ensures elsewhere { (program : Units) (s : State) (layout : Layout) (contents : List Slot) (l m : Location) (p q : ℕ) (cell : Slot)
        → IsLaid program s (length contents) layout → address program s layout l ≡ Some p → address program s layout m ≡ Some q
        → (l ≡ m → ⊥) → slice_get (slice_set contents p cell) q ≡ slice_get contents q }
{}

/// An arena of unset cells is that of the opening before DATA gives values, where COMMON and the frame
/// of the main program are allocated.
pub fn memory_begins()
    ensures { (program : Units) (s : State) (layout : Layout) (contents : List Slot)
        → opening_layout program (length contents) ≡ Some layout → s.activations ≡ (run program []).activations
        → ((at : Location) → s.store at ≡ unset_cell) → ((p : ℕ) → p < length contents → slice_get contents p ≡ Some unset_cell)
        → IsMemory program s layout contents (gaps (length contents) (common_cells program) layout) }
{}

/// The frame of a new activation fits if and only if the layout has a gap for it. After the block is taken and its cells
/// are cleared, the arena is that of the state with the activation, whose variables have no values. All other storage units
/// keep their addresses.
pub fn frames_enter()
    ensures fits { (program : Units) (s : State) (layout : Layout) (contents : List Slot) (holes : List Hole) (n : ℕ)
        → IsMemory program s layout contents holes → 1 ≤ n
        → first_fit n holes ≡ lowest_gap (length contents) n (common_cells program) layout }
    ensures memory { (program : Units) (s t : State) (x : Activation) (layout : Layout) (first : ℕ)
        (old new : List Slot) (holes : List Hole) → IsMemory program s layout old holes → t.activations ≡ s.activations ++ x ∷ []
        → t.store ≡ s.store → ((y : Name) (i : ℕ) → s.store (local (length t.activations) y i) ≡ unset_cell)
        → first_fit (frame_of program t (length t.activations)) holes ≡ Some first → length new ≡ length old
        → ((p : ℕ) → IsOut p holes → slice_get new p ≡ slice_get old p)
        → ((p : ℕ) → first ≤ p → p < first + frame_of program t (length t.activations) → slice_get new p ≡ Some unset_cell)
        → IsMemory program t (with_frame layout (frame_from program t (length t.activations) first)) new
        (taken (frame_of program t (length t.activations)) holes) }
    ensures addresses { (program : Units) (s t : State) (x : Activation) (layout : Layout) (first cells p : ℕ) (at : Location)
        → IsLaid program s cells layout → t.activations ≡ s.activations ++ x ∷ [] → address program s layout at ≡ Some p
        → address program t (with_frame layout (frame_from program t (length t.activations) first)) at ≡ Some p }
{}

/// After the frame of an activation is freed, the arena is that of the state with the layout without that frame.
/// The storage units of other activations and of COMMON keep their addresses.
pub fn frames_leave()
    ensures out { (program : Units) (s : State) (layout : Layout) (contents : List Slot) (holes : List Hole) (a p : ℕ) (f : Frame)
        → IsMemory program s layout contents holes → frame_among a layout ≡ Some f → f.first ≤ p → p < f.first + f.cells → IsOut p holes }
    ensures memory { (program : Units) (s : State) (a : ℕ) (layout : Layout) (f : Frame) (old new : List Slot) (holes : List Hole)
        → IsMemory program s layout old holes → frame_among a layout ≡ Some f → length new ≡ length old
        → ((p : ℕ) → IsOut p (given (f.first, f.cells) holes) → slice_get new p ≡ slice_get old p)
        → IsMemory program s (without a layout) new (given (f.first, f.cells) holes) }
    ensures addresses { (program : Units) (s : State) (a cells : ℕ) (layout : Layout) (at : Location) → IsLaid program s cells layout
        → is_owned a at ≡ false → address program s (without a layout) at ≡ address program s layout at }
{}

/// COMMON, the frames of the layout and the holes have together all cells of the arena.
pub fn cells_are_used_or_free()
    ensures { (program : Units) (s : State) (layout : Layout) (contents : List Slot) (holes : List Hole)
        → IsMemory program s layout contents holes → free_cells holes + (common_cells program + framed_cells layout) ≡ length contents }
{}

/// Two cells of frames with the same address are one cell. The address of a descriptor cell is the address of no storage unit.
pub fn descriptors_are_apart()
    ensures one { (program : Units) (s : State) (cells : ℕ) (layout : Layout) (a b p : ℕ) (c d : FramePart × ℕ)
        → IsLaid program s cells layout → frame_address program s layout a c ≡ Some p → frame_address program s layout b d ≡ Some p
        → (a ≡ b) × (c ≡ d) }
    ensures units { (program : Units) (s : State) (cells : ℕ) (layout : Layout) (at : Location) (a p : ℕ) (c : FramePart × ℕ)
        → IsLaid program s cells layout → is_descriptor program s a c ≡ true → frame_address program s layout a c ≡ Some p
        → address program s layout at ≡ Some p → ⊥ }
{}

/// A write to a storage unit changes no descriptor. A write to a descriptor changes no storage unit and no other
/// descriptor. A DO that begins or continues makes two writes.
pub fn descriptors_are_written()
    ensures unit { (program : Units) (s : State) (layout : Layout) (wanted : DescriptorSlots) (contents : List Slot) (at : Location) (p : ℕ)
        (slot : Slot) → IsLaid program s (length contents) layout → Describes program s layout wanted contents
        → address program s layout at ≡ Some p → Describes program s layout wanted (slice_set contents p slot) }
    ensures memory { (program : Units) (s : State) (layout : Layout) (contents : List Slot) (holes : List Hole) (a p : ℕ) (c : FramePart
        × ℕ) (slot : Slot) → IsMemory program s layout contents holes → is_descriptor program s a c ≡ true
        → frame_address program s layout a c ≡ Some p → IsMemory program s layout (slice_set contents p slot) holes }
    ensures descriptor { (program : Units) (s : State) (layout : Layout) (old new : DescriptorSlots) (contents : List Slot) (a p : ℕ)
        (c : FramePart
        × ℕ) (slot : Slot) → IsLaid program s (length contents) layout → Describes program s layout old contents
        → frame_address program s layout a c ≡ Some p → new a c ≡ Some slot
        → ((b : ℕ) (d : FramePart × ℕ) (v : Slot) → ((a ≡ b) × (c ≡ d) → ⊥) → new b d ≡ Some v → old b d ≡ Some v)
        → Describes program s layout new (slice_set contents p slot) }
    ensures iteration { (program : Units) (s t : State) (layout : Layout) (contents : List Slot) (a : ℕ) (level after : Level) (l : Loop)
        (p q : ℕ) → IsLaid program s (length contents) layout → Describes program s layout (descriptor_slots program s layout) contents
        → t.activations ≡ s.activations → level_of s a ≡ Some level → level_of t a ≡ Some after → after.loops ≡ with_loop level.loops l
        → ((b : ℕ) → nat_eq a b ≡ false → level_of t b ≡ level_of s b)
        → frame_address program s layout a (iteration l.statement, 0) ≡ Some p
        → frame_address program s layout a (iteration l.statement, 1) ≡ Some q
        → Describes program t layout (descriptor_slots program t layout)
        (slice_set (slice_set contents p (number (pos (natural l.count)))) q (number l.increment)) }
    ensures same { (program : Units) (s t : State) (layout : Layout) (old new : DescriptorSlots) (contents : List Slot)
        → Describes program s layout old contents → t.activations ≡ s.activations
        → ((a : ℕ) (c : FramePart × ℕ) (v : Slot) → new a c ≡ Some v → old a c ≡ Some v) → Describes program t layout new contents }
{}

/// The required descriptors of an activation don't change when the frame of a new activation is placed. They don't change
/// either when the frame of another activation is removed to which no dummy argument refers.
pub fn what_is_wanted_stays()
    ensures enters { (program : Units) (s t : State) (x : Activation) (layout : Layout) (first cells a : ℕ) (c : FramePart × ℕ)
        → IsLaid program s cells layout → t.activations ≡ s.activations ++ x ∷ [] → a ≤ length s.activations
        → ((k : ℕ) → IsMadeAt (length s.activations) (dummy_at (activation_of s a).dummies k).start) → level_of t a ≡ level_of s a
        → descriptor_slots program t (with_frame layout (frame_from program t (length t.activations) first)) a c
        ≡ descriptor_slots program s layout a c }
    ensures leaves { (program : Units) (s : State) (a b cells : ℕ) (layout : Layout) (c : FramePart × ℕ) → IsLaid program s cells layout
        → ((k : ℕ) → is_owned b (dummy_at (activation_of s a).dummies k).start ≡ false)
        → descriptor_slots program s (without b layout) a c ≡ descriptor_slots program s layout a c }
{}

/// The contents of the descriptor cells of a dummy argument, of the bounds of an adjustable array and of a DO, by their distance
/// from the first cell of the activation's frame.
pub fn descriptors_tell()
    ensures start { (program : Units) (s : State) (layout : Layout) (contents : List Slot) (a : ℕ) (f : Frame) (x : Name) (k base : ℕ)
        → Describes program s layout (descriptor_slots program s layout) contents → frame_among a layout ≡ Some f
        → index_among x (dummies_of (unit_at program (unit_of s a))) ≡ Some k
        → is_owned a (dummy_at (activation_of s a).dummies k).start ≡ false
        → address program s layout (dummy_at (activation_of s a).dummies k).start ≡ Some base
        → slice_get contents (f.first + first_of_part (unit_at program (unit_of s a)) (argument x) + 0) ≡ Some (number (pos base)) }
    ensures rest { (program : Units) (s : State) (layout : Layout) (contents : List Slot) (a : ℕ) (f : Frame) (x : Name) (k : ℕ)
        → Describes program s layout (descriptor_slots program s layout) contents → frame_among a layout ≡ Some f
        → index_among x (dummies_of (unit_at program (unit_of s a))) ≡ Some k
        → is_owned a (dummy_at (activation_of s a).dummies k).start ≡ false
        → slice_get contents (f.first + first_of_part (unit_at program (unit_of s a)) (argument x) + 1)
        ≡ Some (number (pos (dummy_at (activation_of s a).dummies k).rest)) }
    ensures value { (program : Units) (s : State) (layout : Layout) (contents : List Slot) (a : ℕ) (f : Frame) (x : Name) (k : ℕ)
        → Describes program s layout (descriptor_slots program s layout) contents → frame_among a layout ≡ Some f
        → index_among x (dummies_of (unit_at program (unit_of s a))) ≡ Some k
        → is_owned a (dummy_at (activation_of s a).dummies k).start ≡ true
        → slice_get contents (f.first + first_of_part (unit_at program (unit_of s a)) (argument x) + 1) ≡ Some unset_cell }
    ensures bounds { (program : Units) (s : State) (layout : Layout) (contents : List Slot) (a : ℕ) (f : Frame) (x : Name)
        (k i : ℕ) (slot : Slot) → Describes program s layout (descriptor_slots program s layout) contents → frame_among a layout ≡ Some f
        → index_among x (dummies_of (unit_at program (unit_of s a))) ≡ Some k
        → i < 2 * adjustable_dimensions (unit_at program (unit_of s a)) x
        → slot_of_bounds (dummy_at (activation_of s a).dummies k).shape i ≡ Some slot
        → slice_get contents (f.first + first_of_part (unit_at program (unit_of s a)) (bounds x) + i) ≡ Some slot }
    ensures iteration { (program : Units) (s : State) (layout : Layout) (contents : List Slot) (a : ℕ) (f : Frame)
        (d i : ℕ) (statement : Statement) (level : Level) (slot : Slot)
        → Describes program s layout (descriptor_slots program s layout) contents → frame_among a layout ≡ Some f
        → slice_get (unit_at program (unit_of s a)) d ≡ Some statement → is_do statement.form ≡ true → level_of s a ≡ Some level → i < 2
        → slot_of_loop (loop_among d level.loops) i ≡ Some slot
        → slice_get contents (f.first + first_of_part (unit_at program (unit_of s a)) (iteration d) + i) ≡ Some slot }
{}

/// When a frame is placed or removed, the descriptors of the other frames don't change. Those of a new frame have no values.
pub fn descriptors_stay()
    ensures enters { (program : Units) (s t : State) (x : Activation) (layout : Layout) (first : ℕ) (wanted : DescriptorSlots)
        (old new : List Slot)
        → IsLaid program s (length old) layout → Describes program s layout wanted old → t.activations ≡ s.activations ++ x ∷ []
        → lowest_gap (length old) (frame_of program t (length t.activations)) (common_cells program) layout ≡ Some first
        → ((c : FramePart × ℕ) (v : Slot) → wanted (length t.activations) c ≡ Some v → v ≡ unset_cell)
        → ((p : ℕ) → IsOut p (gaps (length old) (common_cells program) layout) → slice_get new p ≡ slice_get old p)
        → ((p : ℕ) → first ≤ p → p < first + frame_of program t (length t.activations) → slice_get new p ≡ Some unset_cell)
        → Describes program t (with_frame layout (frame_from program t (length t.activations) first)) wanted new }
    ensures leaves { (program : Units) (s : State) (a : ℕ) (layout : Layout) (wanted : DescriptorSlots) (old new : List Slot)
        → IsLaid program s (length old) layout → Describes program s layout wanted old
        → ((p : ℕ) → IsOut p (gaps (length old) (common_cells program) (without a layout)) → slice_get new p ≡ slice_get old p)
        → Describes program s (without a layout) wanted new }
{}

/// At the opening the activation of the main program has the only node, and no frame is left to be freed. A step
/// that makes no activation doesn't change the tree, apart from which activations are on stacks.
pub fn trees_begin_and_stay()
    ensures begins { (program : Units) (v first cells : ℕ)
        → IsAtRest (run program []) (λ a. nat_eq a 1) (first_nodes v (main_unit program) first cells) }
    ensures tree { (s t : State) (on out : ℕ → Bool) (nodes : Nodes) → t.activations ≡ s.activations → IsFrameTree s on out nodes
        → IsFrameTree t on out nodes }
    ensures needed { (s t : State) (on out : ℕ → Bool) (exception : Option ℕ) → t.activations ≡ s.activations
        → AreNeededBut exception s on out → AreNeededBut exception t on out }
{}

/// Suppose that no frame is left to be freed before a step. Then none is left after a step that leaves the same activations on
/// stacks or begins one. After a step that ends the activation on top, only the frame of that activation may have to be freed.
pub fn steps_lead_to_rest()
    ensures same { (s t : State) (out : ℕ → Bool) (nodes : Nodes) → IsAtRest s out nodes → t.activations ≡ s.activations
        → ((a : ℕ) → is_stacked t a ≡ is_stacked s a) → IsAtRest t out nodes }
    ensures begun { (s t : State) (x : Activation) (out : ℕ → Bool) (nodes : Nodes) (first cells v k : ℕ) (n : FrameNode)
        → IsAtRest s out nodes
        → nodes v ≡ None → nodes k ≡ Some n → t.activations ≡ s.activations ++ x ∷ [] → x.parent ≡ Some n.activation
        → ((a : ℕ) → is_stacked t a ≡ also (length t.activations) (is_stacked s) a)
        → IsAtRest t (also (length t.activations) out) (with_node nodes v (new_node (length t.activations) x.unit first cells k) k) }
    ensures ended { (s t : State) (out : ℕ → Bool) (nodes : Nodes) (k : ℕ) (n : FrameNode) → IsAtRest s out nodes → nodes k ≡ Some n
        → t.activations ≡ s.activations → ((a : ℕ) → is_stacked t a ≡ but n.activation (is_stacked s) a)
        → IsFrameTree t (is_stacked t) out (with_ended nodes k) × AreNeededBut (Some n.activation) t (is_stacked t) out }
{}

/// While no frame is left to be freed, the allocated frames are exactly those of held activations, and exactly these have nodes.
pub fn frames_out_are_held()
    ensures out { (program : Units) (processes : List ℕ) (out : ℕ → Bool) (nodes : Nodes) (a : ℕ)
        → IsAtRest (run program processes) out nodes → out a ≡ is_held (run program processes) a }
    ensures nodes { (program : Units) (processes : List ℕ) (out : ℕ → Bool) (nodes : Nodes) (a : ℕ)
        → IsAtRest (run program processes) out nodes → (is_held (run program processes) a ≡ true)
        ↔ ((k : ℕ) × (n : FrameNode) × (nodes k ≡ Some n) × (n.activation ≡ a)) }
{}

/// The frame of an ended activation without a child in the tree is freed: the result is the tree without its node. Then
/// at most the frame of its parent isn't needed any more. The parent has another node, which has counted this child.
pub fn frames_are_given_back_upwards()
    ensures tree { (s : State) (on out : ℕ → Bool) (nodes : Nodes) (k : ℕ) (n : FrameNode) → IsFrameTree s on out nodes → nodes k ≡ Some n
        → n.finished ≡ true → n.children ≡ 0 → IsFrameTree s on (but n.activation out) (without_node nodes k n) }
    ensures needed { (s : State) (on out : ℕ → Bool) (nodes : Nodes) (k : ℕ) (n : FrameNode) → IsFrameTree s on out nodes → nodes k ≡ Some n
        → AreNeededBut (Some n.activation) s on out → AreNeededBut (parent_of s n.activation) s on (but n.activation out) }
    ensures parent { (s : State) (on out : ℕ → Bool) (nodes : Nodes) (k : ℕ) (n : FrameNode) → IsFrameTree s on out nodes → nodes k ≡ Some n
        → n.children ≡ 0 → activation_under (without_node nodes k n) n.parent ≡ Some (parent_of s n.activation) }
    ensures apart { (s : State) (on out : ℕ → Bool) (nodes : Nodes) (k l : ℕ) (n : FrameNode) → IsFrameTree s on out nodes
        → nodes k ≡ Some n
        → n.children ≡ 0 → n.parent ≡ Some l → nat_eq l k ≡ false }
    ensures counted { (s : State) (on out : ℕ → Bool) (nodes : Nodes) (k l : ℕ) (n m : FrameNode) → IsFrameTree s on out nodes
        → nodes k ≡ Some n
        → n.parent ≡ Some l → nodes l ≡ Some m → 1 ≤ m.children }
{}

/// The frame of an activation that hasn't ended, or that has a child in the tree, is needed. If that frame was the only exception, all
/// frames in the tree are needed.
pub fn giving_back_stops()
    ensures node { (s : State) (on out : ℕ → Bool) (nodes : Nodes) (k : ℕ) (n : FrameNode) → IsFrameTree s on out nodes → nodes k ≡ Some n
        → (n.finished ≡ false) ⊎ (1 ≤ n.children) → IsNeeded s on out n.activation }
    ensures needed { (s : State) (on out : ℕ → Bool) (a : ℕ) → AreNeededBut (Some a) s on out → IsNeeded s on out a
        → AreNeededBut None s on out }
{}

/// The frame of an activation that ends stays in the tree until it is freed. Only this frame may not be needed any more.
pub fn activations_end()
    ensures tree { (s : State) (on out : ℕ → Bool) (nodes : Nodes) (k : ℕ) (n : FrameNode) → IsFrameTree s on out nodes → nodes k ≡ Some n
        → IsFrameTree s (but n.activation on) out (with_ended nodes k) }
    ensures needed { (s : State) (on out : ℕ → Bool) (a : ℕ) → AreNeededBut None s on out → AreNeededBut (Some a) s (but a on) out }
{}

/// A new activation becomes a child of the activation that makes it.
pub fn activations_begin()
    ensures tree { (s t : State) (x : Activation) (on out : ℕ → Bool) (nodes : Nodes) (first cells v k : ℕ) (n : FrameNode)
        → IsFrameTree s on out nodes → nodes v ≡ None → nodes k ≡ Some n → t.activations ≡ s.activations ++ x ∷ []
        → x.parent ≡ Some n.activation
        → IsFrameTree t (also (length t.activations) on) (also (length t.activations) out)
        (with_node nodes v (new_node (length t.activations) x.unit first cells k) k) }
    ensures needed { (s t : State) (x : Activation) (on out : ℕ → Bool) (nodes : Nodes) (k : ℕ) (n : FrameNode) → IsFrameTree s on out nodes
        → nodes k ≡ Some n → t.activations ≡ s.activations ++ x ∷ [] → x.parent ≡ Some n.activation → AreNeededBut None s on out
        → AreNeededBut None t (also (length t.activations) on) (also (length t.activations) out) }
{}

/// The nodes have the frames of the layout after an activation begins or ends and after its frame is freed. Removing the frame of
/// an activation from a layout is the same as leaving that activation out of the allocated ones.
pub fn nodes_have_frames()
    ensures begun { (s t : State) (x : Activation) (on out : ℕ → Bool) (nodes : Nodes) (first cells v k : ℕ) (n : FrameNode)
        (layout : Layout)
        → IsFrameTree s on out nodes → nodes v ≡ None → nodes k ≡ Some n → t.activations ≡ s.activations ++ x ∷ []
        → x.parent ≡ Some n.activation
        → frame_among (length t.activations) layout ≡ None → AreFramed layout nodes
        → AreFramed (with_frame layout (record { activation = length t.activations; first = first; cells = cells }))
        (with_node nodes v (new_node (length t.activations) x.unit first cells k) k) }
    ensures ended { (layout : Layout) (nodes : Nodes) (k : ℕ) → AreFramed layout nodes → AreFramed layout (with_ended nodes k) }
    ensures given { (s : State) (on out : ℕ → Bool) (layout : Layout) (nodes : Nodes) (k : ℕ) (n : FrameNode) → IsFrameTree s on out nodes
        → nodes k ≡ Some n → AreSingle layout → AreFramed layout nodes → AreFramed (without n.activation layout) (without_node nodes k n) }
    ensures layout { (out : ℕ → Bool) (a : ℕ) (layout : Layout) → AreSingle layout
        → without a (filter (λ (f : Frame). out f.activation) layout) ≡ filter (λ (f : Frame). but a out f.activation) layout }
{}

/// The storage units of a name have consecutive cells: those of a local variable from its first cell in the frame, those of a
/// name in COMMON from its first cell there, and those of a dummy argument from the first cell of the actual argument.
pub fn variables_are_kept_in_runs()
    ensures local { (program : Units) (s : State) (layout : Layout) (a : ℕ) (x : Name) (f : Frame) → frame_among a layout ≡ Some f
        → is_among x (locals_of (unit_at program (unit_of s a))) ≡ true
        → RunsFrom program s layout (storage_of (scope_of program s a) x).start (storage_of (scope_of program s a) x).rest (f.first
        + first_of_part (unit_at program (unit_of s a)) (variable x)) }
    ensures common { (program : Units) (s : State) (layout : Layout) (a : ℕ) (x : Name) (b : BlockName)
        → slice_get program (unit_of s a) ≡ Some (unit_at program (unit_of s a))
        → index_among x (dummies_of (unit_at program (unit_of s a))) ≡ None → common_block (unit_at program (unit_of s a)) x ≡ Some b
        → RunsFrom program s layout (storage_of (scope_of program s a) x).start (storage_of (scope_of program s a) x).rest
        (first_in_common program (unit_at program (unit_of s a)) b x) }
    ensures dummy { (program : Units) (s : State) (layout : Layout) (a : ℕ) (x : Name) (i first : ℕ)
        → index_among x (dummies_of (unit_at program (unit_of s a))) ≡ Some i
        → fits (dummy_at (activation_of s a).dummies i).shape (dummy_at (activation_of s a).dummies i).rest ≡ true
        → RunsFrom program s layout (dummy_at (activation_of s a).dummies i).start (dummy_at (activation_of s a).dummies i).rest first
        → RunsFrom program s layout (storage_of (scope_of program s a) x).start (storage_of (scope_of program s a) x).rest first }
    ensures value { (program : Units) (s : State) (layout : Layout) (a : ℕ) (x : Name) (i : ℕ) (f : Frame) → frame_among a layout ≡ Some f
        → index_among x (dummies_of (unit_at program (unit_of s a))) ≡ Some i
        → is_owned a (dummy_at (activation_of s a).dummies i).start ≡ true
        → RunsFrom program s layout (local a x 1) 1 (f.first + first_of_part (unit_at program (unit_of s a)) (argument x)) }
{}

/// The address of element n is that of the variable's first cell plus n - 1. The storage units that an actual argument passes
/// have consecutive cells from the cell of its first element on.
pub fn elements_are_kept_in_order()
    ensures element { (program : Units) (s : State) (layout : Layout) (scope : Scope) (x : Name) (subscripts : List Value) (first : ℕ)
        (at : Location) → RunsFrom program s layout (storage_of scope x).start (storage_of scope x).rest first
        → location_of_name scope x subscripts ≡ Ok at → (n : ℕ) × (element_of (storage_of scope x) subscripts ≡ Ok n) × (1 ≤ n)
        × (n ≤ (storage_of scope x).rest) × (address program s layout at ≡ Some (first + (n - 1))) }
    ensures actual { (program : Units) (s : State) (layout : Layout) (scope : Scope) (a : ℕ) (x : Name) (r : Reference) (d : Dummy)
        (first : ℕ) → RunsFrom program s layout (storage_of scope r.0).start (storage_of scope r.0).rest first
        → dummy_for scope a x (referred r) ≡ Ok d → (n : ℕ) × (first_element scope r ≡ Ok n)
        × RunsFrom program s layout d.start d.rest (first + (n - 1)) }
{}

/// Storage units in consecutive cells keep these cells when a frame is placed, and when the frame of another
/// activation is removed.
pub fn runs_stay()
    ensures enters { (program : Units) (s t : State) (x : Activation) (layout : Layout) (entered cells : ℕ) (start : Location)
        (count first : ℕ) → IsLaid program s cells layout → t.activations ≡ s.activations ++ x ∷ []
        → RunsFrom program s layout start count first
        → RunsFrom program t (with_frame layout (frame_from program t (length t.activations) entered)) start count first }
    ensures leaves { (program : Units) (s : State) (a cells : ℕ) (layout : Layout) (start : Location) (count first : ℕ)
        → IsLaid program s cells layout → is_owned a start ≡ false → RunsFrom program s layout start count first
        → RunsFrom program s (without a layout) start count first }
{}

/// No activation is on stacks twice. So the search for the level of an activation on top of a process finds that level, and a
/// change of that level changes no level of another activation.
pub fn stacks_share_nothing()
    ensures once { (program : Units) (processes : List ℕ) (a : ℕ) → times_on a (run program processes).processes ≤ 1 }
    ensures found { (program : Units) (processes : List ℕ) (p : ℕ) (top : Level × Process) → living (run program processes) p ≡ Some top
        → level_of (run program processes) top.0.activation ≡ Some top.0 }
    ensures others { (s t : State) (p : ℕ) (top : Level × Process) (after : Level) (b : ℕ) → living s p ≡ Some top
        → t.processes ≡ with_numbered s.processes p (after ∷ top.1) → after.activation ≡ top.0.activation
        → nat_eq top.0.activation b ≡ false → level_of t b ≡ level_of s b }
{}

/// The activations on stacks after a change of one stack. They are the same where the stack has the same activations. One is
/// missing where the top activation ends, and all of the process where the process ends. There is one more where an activation begins on
/// top or with a new process.
pub fn stacks_change()
    ensures same { (s t : State) (p a : ℕ) (top : Level × Process) (q : Process) → living s p ≡ Some top
        → t.processes ≡ with_numbered s.processes p q → activations_on q ≡ activations_on (top.0 ∷ top.1)
        → is_stacked t a ≡ is_stacked s a }
    ensures ended { (s t : State) (p a : ℕ) (top : Level × Process) (q : Process) → living s p ≡ Some top
        → t.processes ≡ with_numbered s.processes p q → times_on a s.processes ≤ 1 → activations_on q ≡ activations_on top.1
        → is_stacked t a ≡ but top.0.activation (is_stacked s) a }
    ensures emptied { (s t : State) (p a : ℕ) (top : Level × Process) → living s p ≡ Some top → t.processes ≡ with_numbered s.processes p []
        → times_on a s.processes ≤ 1 → is_stacked t a
        ≡ (if is_number_among a (activations_on (top.0 ∷ top.1)) then false else is_stacked s a) }
    ensures begun { (s t : State) (p a c : ℕ) (top : Level × Process) (q : Process) → living s p ≡ Some top
        → t.processes ≡ with_numbered s.processes p q → activations_on q ≡ c ∷ activations_on (top.0 ∷ top.1)
        → is_stacked t a ≡ also c (is_stacked s) a }
    ensures created { (s t : State) (a c : ℕ) (r : Process) → t.processes ≡ s.processes ++ r ∷ [] → activations_on r ≡ c ∷ []
        → is_stacked t a ≡ also c (is_stacked s) a }
{}

/// The storage units of a dummy argument are in COMMON, or belong to its activation or an ancestor of that. So their activation
/// was made before, and it is held while the activation of the dummy argument is held.
pub fn references_lead_upwards()
    ensures above { (program : Units) (processes : List ℕ) (a k : ℕ)
        → IsOwnedAbove (run program processes) a (dummy_at (activation_of (run program processes) a).dummies k).start }
    ensures made { (program : Units) (processes : List ℕ) (a k : ℕ) → a ≤ length (run program processes).activations
        → IsMadeAt (length (run program processes).activations) (dummy_at (activation_of (run program processes) a).dummies k).start }
    ensures held { (program : Units) (processes : List ℕ) (a k above : ℕ) (x : Name) (i : ℕ) → is_held (run program processes) a ≡ true
        → (dummy_at (activation_of (run program processes) a).dummies k).start ≡ local above x i
        → is_held (run program processes) above ≡ true }
{}

/// No value is stored in a variable of an activation that wasn't made yet.
pub fn nothing_is_stored_ahead()
    ensures { (program : Units) (processes : List ℕ) (a : ℕ) (x : Name) (i : ℕ) → length (run program processes).activations < a
        → (run program processes).store (local a x i) ≡ unset_cell }
{}

/// An activation that was made and isn't held is never held again. So a freed frame is never needed again.
pub fn what_was_held_is_held_no_more()
    ensures { (program : Units) (processes : List ℕ) (p a : ℕ) → a ≤ length (run program processes).activations
        → is_held (run program (processes ++ p ∷ [])) a ≡ true → is_held (run program processes) a ≡ true }
{}

/// Suppose that each frame is freed as soon as its activation isn't held. Then the frames of a run are exactly those of the held
/// activations, each with the cells of its unit. The used cells are those of COMMON and of these frames: all cells that are in
/// no hole.
pub fn layouts_have_what_is_held()
    ensures laid { (program : Units) (cells : ℕ) (processes : List ℕ) (layout : Layout)
        → layout_of program cells is_held processes ≡ Some layout → IsLaid program (run program processes) cells layout }
    ensures held { (program : Units) (cells : ℕ) (processes : List ℕ) (layout : Layout) (a : ℕ)
        → layout_of program cells is_held processes ≡ Some layout → is_some (frame_among a layout) ≡ is_held (run program processes) a }
    ensures used { (program : Units) (cells : ℕ) (processes : List ℕ) (layout : Layout)
        → layout_of program cells is_held processes ≡ Some layout
        → used_cells program is_held (run program processes) ≡ common_cells program + framed_cells layout }
    ensures free { (program : Units) (processes : List ℕ) (layout : Layout) (contents : List Slot) (holes : List Hole)
        → layout_of program (length contents) is_held processes ≡ Some layout
        → IsMemory program (run program processes) layout contents holes
        → free_cells holes + used_cells program is_held (run program processes) ≡ length contents }
{}
