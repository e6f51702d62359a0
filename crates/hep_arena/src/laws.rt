//! Laws of holes: the effects of taking and freeing blocks in every arena, and the holes of an arena whose
//! blocks are the frames of a layout.
ghost use Rattle.std.specs.Prelude.{◌≡◌, ◌⊎◌, ◌↔◌, ◌∷◌, ◌++◌, [], ℕ, ◌+◌, ◌<◌, ◌≤◌, Bool, List, Some, length, slice_get, slice_range};
ghost use Rattle.std.specs.Prelude.{slice_set};
ghost use Rattle.hep_machine.specs.Words.{StandApart, Frame, Layout, remaining_layout, lowest_gap, with_frame, State};
ghost use Rattle.hep_arena.specs.Gaps.{frame_among, framed_cells, gaps, given_back, without};
ghost use Rattle.hep_machine.specs.declared.slot.Slot.{Slot};
ghost use Rattle.hep_arena.specs.Lending.{with_run};
ghost use Rattle.hep_arena.specs.Holes.{Hole, AreHoles, IsOut, first_fit, free_cells, given, taken};

/// Taking a block leaves allocated cells allocated. The block is within the arena. Its cells were free before and are
/// allocated after, and no other free cell changes.
pub fn taking()
    ensures others { (n k : ℕ) (hs : List Hole) → IsOut k hs → IsOut k (taken n hs) }
    ensures inside { (cells n at : ℕ) (hs : List Hole) → AreHoles 0 cells hs → first_fit n hs ≡ Some at → at + n ≤ cells }
    ensures block { (cells n at : ℕ) (hs : List Hole) → AreHoles 0 cells hs → first_fit n hs ≡ Some at → (k : ℕ) → at ≤ k → k < at + n
        → IsOut k (taken n hs) }
    ensures new { (n at k : ℕ) (hs : List Hole) → first_fit n hs ≡ Some at → at ≤ k → k < at + n → IsOut k hs → ⊥ }
    ensures holes { (cells n : ℕ) (hs : List Hole) → AreHoles 0 cells hs → AreHoles 0 cells (taken n hs) }
    ensures cells { (n at : ℕ) (hs : List Hole) → first_fit n hs ≡ Some at → free_cells (taken n hs) + n ≡ free_cells hs }
{}

/// After a block is freed, a cell is allocated if and only if it was allocated before and isn't in the block.
/// The number of free cells rises by that of the block.
pub fn giving()
    ensures others { (k at n : ℕ) (hs : List Hole) → IsOut k (given (at, n) hs) ↔ (IsOut k hs × ((k < at) ⊎ (at + n ≤ k))) }
    ensures holes { (cells at n : ℕ) (hs : List Hole) → AreHoles 0 cells hs → 1 ≤ n → at + n ≤ cells
        → ((k : ℕ) → at ≤ k → k < at + n → IsOut k hs) → AreHoles 0 cells (given (at, n) hs) }
    ensures cells { (at n : ℕ) (hs : List Hole) → free_cells (given (at, n) hs) ≡ n + free_cells hs }
{}

/// Taking a block and freeing it at once leaves the holes unchanged.
pub fn giving_undoes_taking()
    ensures { (cells n at : ℕ) (hs : List Hole) → AreHoles 0 cells hs → 1 ≤ n → first_fit n hs ≡ Some at → given (at, n) (taken n hs) ≡ hs }
{}

/// A loan has the slots of the contents. When it ends, its slots replace them, and every other slot is unchanged. So a
/// write to one slot of the loan is a write to the contents.
pub fn lending()
    ensures cells { (contents loan : List Slot) (at n : ℕ) → length (with_run contents at n loan) ≡ length contents }
    ensures others { (contents loan : List Slot) (at n k : ℕ) → at + n ≤ length contents → (k < at) ⊎ (at + n ≤ k)
        → slice_get (with_run contents at n loan) k ≡ slice_get contents k }
    ensures lent { (contents loan : List Slot) (at n i : ℕ) → at + n ≤ length contents → length loan ≡ n → i < n
        → slice_get (with_run contents at n loan) (at + i) ≡ slice_get loan i }
    ensures read { (contents : List Slot) (at n i : ℕ) → i < n
        → slice_get (slice_range contents at (at + n)) i ≡ slice_get contents (at + i) }
    ensures write { (contents : List Slot) (at n i : ℕ) (slot : Slot) → at + n ≤ length contents → i < n
        → with_run contents at n (slice_set (slice_range contents at (at + n)) i slot) ≡ slice_set contents (at + i) slot }
{}

/// The lowest gap of a layout is the first fit among its gaps. When a frame is placed there, or one or several frames
/// are removed, the holes become the gaps of the new layout. COMMON is the first block.
pub fn holes_are_gaps()
    ensures common { (cells n : ℕ) → 1 ≤ n → n ≤ cells → taken n ((0, cells) ∷ []) ≡ gaps cells n [] }
    ensures fit { (cells n from : ℕ) (layout : Layout) → 1 ≤ n → first_fit n (gaps cells from layout) ≡ lowest_gap cells n from layout }
    ensures enters { (cells a n from first : ℕ) (layout : Layout) → 1 ≤ n → StandApart cells from layout
        → lowest_gap cells n from layout ≡ Some first
        → taken n (gaps cells from layout) ≡ gaps cells from (with_frame layout (record { activation = a; first = first; cells = n })) }
    ensures leaves { (cells from : ℕ) (front : Layout) (f : Frame) (back : Layout) → StandApart cells from (front ++ f ∷ back)
        → given (f.first, f.cells) (gaps cells from (front ++ f ∷ back)) ≡ gaps cells from (front ++ back) }
    ensures activation_leaves { (cells from a : ℕ) (layout : Layout) (f : Frame) → StandApart cells from layout
        → frame_among a layout ≡ Some f → given (f.first, f.cells) (gaps cells from layout) ≡ gaps cells from (without a layout) }
    ensures several_leave { (cells from : ℕ) (has : State → ℕ → Bool) (s : State) (layout : Layout) → StandApart cells from layout
        → given_back (λ f. has s f.activation) layout (gaps cells from layout) ≡ gaps cells from (remaining_layout has s layout) }
{}

/// The cells of COMMON and of the frames are in no gap. The gaps are holes. The gaps, COMMON and the frames together
/// are all cells.
pub fn frames_are_out()
    ensures common { (cells from k : ℕ) (layout : Layout) → StandApart cells from layout → k < from → IsOut k (gaps cells from layout) }
    ensures frame { (cells from k : ℕ) (front : Layout) (f : Frame) (back : Layout) → StandApart cells from (front ++ f ∷ back)
        → f.first ≤ k → k < f.first + f.cells → IsOut k (gaps cells from (front ++ f ∷ back)) }
    ensures holes { (cells from : ℕ) (layout : Layout) → StandApart cells from layout → AreHoles from cells (gaps cells from layout) }
    ensures cells { (cells from : ℕ) (layout : Layout) → StandApart cells from layout
        → free_cells (gaps cells from layout) + (from + framed_cells layout) ≡ cells }
{}
