//! Labels, jumps, DOs and block IFs (X3.9-1978, 3.4 and section 11).
ghost use Rattle.std.specs.Prelude.{◌≡◌, ℕ, true, false, List, [], ◌∷◌, Some, slice_get};
ghost use Rattle.hep_machine.specs.Words.{Tree, DoControl, Statement, Units};
ghost use Rattle.hep_source.specs.declared.statement.Form.TheVariants as form;
ghost use Rattle.hep_conditions.specs.Words.{IsAccepted, BlockIf, DoRange, block_ifs_of, is_not_held, ranges_of, targets_of_jump};
ghost use Rattle.hep_conditions.specs.Words.{is_plain_integer_scalar};
ghost use Rattle.hep_accepted_laws.specs.Flow.{AreNested, EndsWithin, HasTerminal, HoldsWhole, Leads};

/// Each label that a statement jumps to is on an executable statement of the unit, which is no ELSE IF or ELSE, and
/// not in a DO range or a block of a block IF that doesn't also contain the jump.
pub fn jumps_lead()
    ensures { (program : Units) (u k i l : ℕ) (unit : List Statement) (s : Statement) → IsAccepted program → slice_get program u ≡ Some unit
        → slice_get unit k ≡ Some s → slice_get (targets_of_jump s.form) i ≡ Some l → Leads unit k l }
{}

/// Different statements of a unit have different labels.
pub fn labels_are_unique()
    ensures { (program : Units) (u j k l : ℕ) (unit : List Statement) (s t : Statement) → IsAccepted program
        → slice_get program u ≡ Some unit → slice_get unit j ≡ Some s → slice_get unit k ≡ Some t → s.label ≡ Some l → t.label ≡ Some l
        → j ≡ k }
{}

/// A DO that isn't in a logical IF has its terminal statement after it, of a kind that may end a range, and its
/// variable is a plain integer scalar.
pub fn loops_have_ends()
    ensures terminal { (program : Units) (u k : ℕ) (unit : List Statement) (s : Statement) (c : DoControl) → IsAccepted program
        → slice_get program u ≡ Some unit → slice_get unit k ≡ Some s → s.conditions ≡ [] → s.form ≡ form.Do c → HasTerminal unit k c }
    ensures variable { (program : Units) (u k : ℕ) (unit : List Statement) (s : Statement) (c : DoControl) → IsAccepted program
        → slice_get program u ≡ Some unit → slice_get unit k ≡ Some s → s.conditions ≡ [] → s.form ≡ form.Do c
        → is_plain_integer_scalar unit c.variable.name ≡ true }
{}

/// A logical IF has one condition, and its statement is no DO, block IF, ELSE IF, ELSE, END IF or END.
pub fn logical_ifs_hold_one()
    ensures condition { (program : Units) (u k : ℕ) (unit : List Statement) (s : Statement) (t : Tree) (ts : List Tree) → IsAccepted program
        → slice_get program u ≡ Some unit → slice_get unit k ≡ Some s → s.conditions ≡ t ∷ ts → ts ≡ [] }
    ensures held { (program : Units) (u k : ℕ) (unit : List Statement) (s : Statement) (t : Tree) (ts : List Tree) → IsAccepted program
        → slice_get program u ≡ Some unit → slice_get unit k ≡ Some s → s.conditions ≡ t ∷ ts → is_not_held s.form ≡ false }
{}

/// Block IFs are matched: each ELSE IF, ELSE and END IF belongs to one, and each has its END IF.
pub fn blocks_are_matched()
    ensures stray { (program : Units) (u : ℕ) (unit : List Statement) → IsAccepted program → slice_get program u ≡ Some unit
        → (block_ifs_of unit).stray ≡ [] }
    ensures unclosed { (program : Units) (u : ℕ) (unit : List Statement) → IsAccepted program → slice_get program u ≡ Some unit
        → (block_ifs_of unit).unclosed ≡ [] }
{}

/// DO ranges don't cross, and a DO in the range of another one has another variable.
pub fn ranges_are_nested()
    ensures { (program : Units) (u i j : ℕ) (unit : List Statement) (a b : DoRange) → IsAccepted program → slice_get program u ≡ Some unit
        → slice_get (ranges_of unit) i ≡ Some a → slice_get (ranges_of unit) j ≡ Some b → AreNested a b }
{}

/// DO ranges and blocks of block IFs are nested: a block IF that begins in a range ends in it, and a
/// range that begins in a block ends in that block.
pub fn ranges_and_blocks_are_nested()
    ensures within { (program : Units) (u i j : ℕ) (unit : List Statement) (r : DoRange) (b : BlockIf) → IsAccepted program
        → slice_get program u ≡ Some unit → slice_get (ranges_of unit) i ≡ Some r → slice_get (block_ifs_of unit).closed j ≡ Some b
        → EndsWithin r b }
    ensures whole { (program : Units) (u i j : ℕ) (unit : List Statement) (r : DoRange) (b : BlockIf) → IsAccepted program
        → slice_get program u ≡ Some unit → slice_get (ranges_of unit) i ≡ Some r → slice_get (block_ifs_of unit).closed j ≡ Some b
        → HoldsWhole r b }
{}
