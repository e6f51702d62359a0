//! Calls, references of functions and targets of PURGE (X3.9-1978, 15.6 to 15.10, and `docs/LANGUAGE.md`, 8 and 9).
ghost use Rattle.std.specs.Prelude.{◌≡◌, ◌⊎◌, ℕ, true, false, List, [], Some, slice_get};
ghost use Rattle.hep_machine.specs.Words.{Target, PureFunction, StateFunction, Statement, Units, is_array, is_constant_name, external, pure, state};
ghost use Rattle.hep_machine.specs.Words.{listed_meaning};
ghost use Rattle.hep_conditions.specs.Words.{IsAccepted, function_types, count_of, takes, Calling, NameWithList, calls_in, names_with_lists};
ghost use Rattle.hep_conditions.specs.Words.{targets_purged};
ghost use Rattle.hep_accepted_laws.specs.Agreement.{CallsSubroutine, IsOneAsynchronousScalar, RefersToFunction};

/// A CALL or CREATE names a subroutine of the program, which has as many dummy arguments as there are actual
/// arguments, and each of these fits its dummy argument in kind, asynchrony and type.
pub fn calls_agree()
    ensures { (program : Units) (u k i : ℕ) (unit : List Statement) (s : Statement) (c : Calling) → IsAccepted program
        → slice_get program u ≡ Some unit → slice_get unit k ≡ Some s → slice_get (calls_in s.form) i ≡ Some c
        → CallsSubroutine program unit c }
{}

/// A name with a list that is no array and no function of the language is a function of the program, which has as
/// many dummy arguments as there are actual arguments, and each of these fits its dummy argument in kind, asynchrony
/// and type.
pub fn references_agree()
    ensures { (program : Units) (u k i : ℕ) (unit : List Statement) (s : Statement) (r : NameWithList) → IsAccepted program
        → slice_get program u ≡ Some unit → slice_get unit k ≡ Some s → slice_get (names_with_lists s) i ≡ Some r
        → listed_meaning unit r.occurrence.name ≡ external → RefersToFunction program unit r }
{}

/// FULL, EMPTY, VALUE, SETE and WAITF have one argument, an asynchronous scalar or element.
pub fn tested_are_asynchronous()
    ensures { (program : Units) (u k i : ℕ) (unit : List Statement) (s : Statement) (r : NameWithList) (f : StateFunction)
        → IsAccepted program → slice_get program u ≡ Some unit → slice_get unit k ≡ Some s → slice_get (names_with_lists s) i ≡ Some r
        → listed_meaning unit r.occurrence.name ≡ state f → IsOneAsynchronousScalar (function_types program) unit r.arguments }
{}

/// A function of integers has as many arguments as it takes.
pub fn functions_take_their_arguments()
    ensures { (program : Units) (u k i : ℕ) (unit : List Statement) (s : Statement) (r : NameWithList) (f : PureFunction)
        → IsAccepted program → slice_get program u ≡ Some unit → slice_get unit k ≡ Some s → slice_get (names_with_lists s) i ≡ Some r
        → listed_meaning unit r.occurrence.name ≡ pure f → takes f (count_of r.arguments) ≡ true }
{}

/// A target of PURGE is asynchronous and no named constant: a scalar or an array by itself, or an element of an
/// array.
pub fn purged_are_asynchronous()
    ensures asynchronous { (program : Units) (u k i : ℕ) (unit : List Statement) (s : Statement) (t : Target) → IsAccepted program
        → slice_get program u ≡ Some unit → slice_get unit k ≡ Some s → slice_get (targets_purged s.form) i ≡ Some t
        → t.occurrence.name.asynchronous ≡ true }
    ensures variable { (program : Units) (u k i : ℕ) (unit : List Statement) (s : Statement) (t : Target) → IsAccepted program
        → slice_get program u ≡ Some unit → slice_get unit k ≡ Some s → slice_get (targets_purged s.form) i ≡ Some t
        → is_constant_name unit t.occurrence.name ≡ false }
    ensures element { (program : Units) (u k i : ℕ) (unit : List Statement) (s : Statement) (t : Target) → IsAccepted program
        → slice_get program u ≡ Some unit → slice_get unit k ≡ Some s → slice_get (targets_purged s.form) i ≡ Some t → (t.subscripts ≡ [])
        ⊎ (is_array unit t.occurrence.name ≡ true) }
{}
