//! The meanings of names (X3.9-1978, 18.1 and 18.2).
ghost use Rattle.std.specs.Prelude.{◌≡◌, ℕ, true, false, List, Some, slice_get};
ghost use Rattle.std.specs.List.{flat_map};
ghost use Rattle.hep_machine.specs.Words.{CommonBlock, NamedConstant, Target, Name, Occurrence, Statement, Units, dummies_of};
ghost use Rattle.hep_machine.specs.Words.{function_called, function_name, occurrences_in_statement, subroutine_called};
ghost use Rattle.hep_machine.specs.Words.{subroutine_name, block_of, blocks_in, is_array, is_constant_name};
ghost use Rattle.hep_machine.specs.Words.{is_nonempty, named_constants};
ghost use Rattle.hep_conditions.specs.Words.{IsAccepted, function_types, is_function_in, bounded_names, common_names, is_unknown, typed_names, variable_names, Calling};
ghost use Rattle.hep_conditions.specs.Words.{NameWithList, calls_in, names_with_lists, targets_assigned, targets_in_data, targets_purged};
ghost use Rattle.hep_accepted_laws.specs.Meanings.{IsOneThing, name_of_unit};

/// In a unit each name is just one of these: a named constant, a dummy argument, in COMMON, or local. A
/// named constant is no array.
pub fn names_stand_for_one_thing()
    ensures one { (program : Units) (u : ℕ) (unit : List Statement) (x : Name) → IsAccepted program → slice_get program u ≡ Some unit
        → IsOneThing unit x }
    ensures scalar { (program : Units) (u : ℕ) (unit : List Statement) (x : Name) → IsAccepted program → slice_get program u ≡ Some unit
        → is_constant_name unit x ≡ true → is_array unit x ≡ false }
{}

/// A named constant is not assigned, not given a value by DATA and not called, and a function's name is no constant's.
pub fn constants_stay()
    ensures assigned { (program : Units) (u k i : ℕ) (unit : List Statement) (s : Statement) (t : Target) → IsAccepted program
        → slice_get program u ≡ Some unit → slice_get unit k ≡ Some s → slice_get (targets_assigned s.form) i ≡ Some t
        → is_constant_name unit t.occurrence.name ≡ false }
    ensures data { (program : Units) (u k i : ℕ) (unit : List Statement) (s : Statement) (t : Target) → IsAccepted program
        → slice_get program u ≡ Some unit → slice_get unit k ≡ Some s → slice_get (targets_in_data s.form) i ≡ Some t
        → is_constant_name unit t.occurrence.name ≡ false }
    ensures called { (program : Units) (u k i : ℕ) (unit : List Statement) (s : Statement) (c : Calling) → IsAccepted program
        → slice_get program u ≡ Some unit → slice_get unit k ≡ Some s → slice_get (calls_in s.form) i ≡ Some c
        → is_constant_name unit c.occurrence.name ≡ false }
    ensures result { (program : Units) (u : ℕ) (unit : List Statement) (x : Name) → IsAccepted program → slice_get program u ≡ Some unit
        → function_name unit ≡ Some x → is_constant_name unit x ≡ false }
{}

/// The dummy arguments of a unit have different names, and so have its named constants. No name is given its type,
/// its bounds or its position in COMMON twice.
pub fn names_are_given_once()
    ensures dummies { (program : Units) (u i j : ℕ) (unit : List Statement) (x : Name) → IsAccepted program
        → slice_get program u ≡ Some unit → slice_get (dummies_of unit) i ≡ Some x → slice_get (dummies_of unit) j ≡ Some x → i ≡ j }
    ensures constants { (program : Units) (u i j : ℕ) (unit : List Statement) (a b : NamedConstant) → IsAccepted program
        → slice_get program u ≡ Some unit → slice_get (named_constants unit) i ≡ Some a → slice_get (named_constants unit) j ≡ Some b
        → a.occurrence.name ≡ b.occurrence.name → i ≡ j }
    ensures types { (program : Units) (u i j : ℕ) (unit : List Statement) (x : Name) → IsAccepted program → slice_get program u ≡ Some unit
        → slice_get (flat_map typed_names unit) i ≡ Some x → slice_get (flat_map typed_names unit) j ≡ Some x → i ≡ j }
    ensures bounds { (program : Units) (u i j : ℕ) (unit : List Statement) (x : Name) → IsAccepted program → slice_get program u ≡ Some unit
        → slice_get (flat_map bounded_names unit) i ≡ Some x → slice_get (flat_map bounded_names unit) j ≡ Some x → i ≡ j }
    ensures positions { (program : Units) (u i j : ℕ) (unit : List Statement) (x : Name) → IsAccepted program
        → slice_get program u ≡ Some unit → slice_get (flat_map common_names unit) i ≡ Some x
        → slice_get (flat_map common_names unit) j ≡ Some x → i ≡ j }
{}

/// A name with a list in an expression is an element of an array of the unit or a reference of a function. A name
/// with a list that is assigned, purged or given a value by DATA is an element of an array.
pub fn lists_have_meanings()
    ensures expressions { (program : Units) (u k i : ℕ) (unit : List Statement) (s : Statement) (r : NameWithList) → IsAccepted program
        → slice_get program u ≡ Some unit → slice_get unit k ≡ Some s → slice_get (names_with_lists s) i ≡ Some r
        → is_unknown program unit r.occurrence.name ≡ false }
    ensures assigned { (program : Units) (u k i : ℕ) (unit : List Statement) (s : Statement) (t : Target) → IsAccepted program
        → slice_get program u ≡ Some unit → slice_get unit k ≡ Some s → slice_get (targets_assigned s.form) i ≡ Some t
        → is_nonempty t.subscripts ≡ true → is_array unit t.occurrence.name ≡ true }
    ensures data { (program : Units) (u k i : ℕ) (unit : List Statement) (s : Statement) (t : Target) → IsAccepted program
        → slice_get program u ≡ Some unit → slice_get unit k ≡ Some s → slice_get (targets_in_data s.form) i ≡ Some t
        → is_nonempty t.subscripts ≡ true → is_array unit t.occurrence.name ≡ true }
    ensures purged { (program : Units) (u k i : ℕ) (unit : List Statement) (s : Statement) (t : Target) → IsAccepted program
        → slice_get program u ≡ Some unit → slice_get unit k ≡ Some s → slice_get (targets_purged s.form) i ≡ Some t
        → is_nonempty t.subscripts ≡ true → is_array unit t.occurrence.name ≡ true }
{}

/// A name that a unit calls is no variable of it.
pub fn called_are_no_variables()
    ensures { (program : Units) (u j k i n : ℕ) (unit : List Statement) (s t : Statement) (c : Calling) (x : Name) → IsAccepted program
        → slice_get program u ≡ Some unit → slice_get unit j ≡ Some s → slice_get unit k ≡ Some t → slice_get (calls_in s.form) i ≡ Some c
        → slice_get (variable_names (function_types program) unit t) n ≡ Some x → c.occurrence.name ≡ x → ⊥ }
{}

/// A name of a variable or constant is no function that the unit refers to.
pub fn no_function_alone()
    ensures { (program : Units) (u k i : ℕ) (unit : List Statement) (s : Statement) (p : Occurrence) → IsAccepted program
        → slice_get program u ≡ Some unit → slice_get unit k ≡ Some s → slice_get (occurrences_in_statement unit s) i ≡ Some p
        → is_function_in (function_types program) unit p.name ≡ false }
{}

/// Different units have different names, and no unit has the name of a common block. So a name determines the
/// subroutine that is called, or the function that is referred to.
pub fn units_have_names_of_their_own()
    ensures apart { (program : Units) (i j : ℕ) (a b : List Statement) (x : Name) → IsAccepted program → slice_get program i ≡ Some a
        → slice_get program j ≡ Some b → name_of_unit a ≡ Some x → name_of_unit b ≡ Some x → i ≡ j }
    ensures blocks { (program : Units) (i j k n : ℕ) (a b : List Statement) (s : Statement) (c : CommonBlock) (x : Name)
        → IsAccepted program → slice_get program i ≡ Some a → slice_get program j ≡ Some b → slice_get b k ≡ Some s
        → slice_get (blocks_in s.form) n ≡ Some c → name_of_unit a ≡ Some x → block_of c ≡ Some x → ⊥ }
    ensures called { (program : Units) (v : ℕ) (unit : List Statement) (x : Name) → IsAccepted program → slice_get program v ≡ Some unit
        → subroutine_name unit ≡ Some x → subroutine_called program x ≡ Some v }
    ensures referred { (program : Units) (v : ℕ) (unit : List Statement) (x : Name) → IsAccepted program → slice_get program v ≡ Some unit
        → function_name unit ≡ Some x → function_called program x ≡ Some v }
{}
