//! The variables that DATA gives values (X3.9-1978, section 9).
ghost use Rattle.std.specs.Prelude.{◌≡◌, ℕ, true, List, Some, slice_get};
ghost use Rattle.hep_machine.specs.Words.{DataGroup, DataValue, Target, Name, Statement, Value, Units, is_main, procedure_name};
ghost use Rattle.hep_machine.specs.Words.{constant_value, Repeated, Stretch, elements_named, groups_in, values_given, is_nonempty};
ghost use Rattle.hep_machine.specs.Words.{is_local};
ghost use Rattle.hep_conditions.specs.Words.{IsAccepted};
ghost use Rattle.hep_accepted_laws.specs.Initial.{FitsValues, IsWithin, all_stretches};

use hep_conditions::laws;

/// DATA statements are in the main program alone.
pub fn main_program_has_data()
    ensures { (program : Units) (u k : ℕ) (unit : List Statement) (s : Statement) → IsAccepted program → slice_get program u ≡ Some unit
        → slice_get unit k ≡ Some s → is_nonempty (groups_in s.form) ≡ true → is_main (procedure_name unit) ≡ true }
{}

/// DATA gives values only to local variables, or to elements of them that exist.
pub fn places_are_local()
    ensures local { (program : Units) (u k i j : ℕ) (unit : List Statement) (s : Statement) (g : DataGroup) (t : Target)
        → IsAccepted program → slice_get program u ≡ Some unit → slice_get unit k ≡ Some s → slice_get (groups_in s.form) i ≡ Some g
        → slice_get g.targets j ≡ Some t → is_local unit t.occurrence.name ≡ true }
    ensures elements { (program : Units) (u k i j : ℕ) (unit : List Statement) (s : Statement) (g : DataGroup) (t : Target)
        → IsAccepted program → slice_get program u ≡ Some unit → slice_get unit k ≡ Some s → slice_get (groups_in s.form) i ≡ Some g
        → slice_get g.targets j ≡ Some t → (e : Stretch) × (elements_named unit (constant_value unit) t ≡ Some e) }
{
    laws::constants_agree();
}

/// In each group of DATA there are as many values as elements, and each value is of the type of the
/// element that it is given to.
pub fn values_fit()
    ensures { (program : Units) (u k i : ℕ) (unit : List Statement) (s : Statement) (g : DataGroup) → IsAccepted program
        → slice_get program u ≡ Some unit → slice_get unit k ≡ Some s → slice_get (groups_in s.form) i ≡ Some g → FitsValues unit g }
{
    laws::constants_agree();
}

/// No element is given a value twice.
pub fn elements_are_given_once()
    ensures { (program : Units) (u i j n : ℕ) (unit : List Statement) (a b : Stretch) (x : Name) → IsAccepted program
        → slice_get program u ≡ Some unit → slice_get (all_stretches unit) i ≡ Some a → slice_get (all_stretches unit) j ≡ Some b
        → IsWithin a x n → IsWithin b x n → i ≡ j }
{
    laws::constants_agree();
}

/// Each value of DATA, with its repeat count, is defined.
pub fn values_are_given()
    ensures { (program : Units) (u k i j : ℕ) (unit : List Statement) (s : Statement) (g : DataGroup) (v : DataValue) → IsAccepted program
        → slice_get program u ≡ Some unit → slice_get unit k ≡ Some s → slice_get (groups_in s.form) i ≡ Some g
        → slice_get g.values j ≡ Some v → (r : Repeated Value) × (values_given (constant_value unit) v ≡ Some r) }
{}
