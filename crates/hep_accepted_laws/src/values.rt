//! Values of named constants, and shapes of arrays (X3.9-1978, 5.1 and 8.6).
ghost use Rattle.std.specs.Prelude.{◌≡◌, ℕ, true, false, List, Some, slice_get};
ghost use Rattle.hep_machine.specs.Words.{NamedConstant, Name, Statement, Units, constant_shape, is_array, is_dummy, named_constants};
ghost use Rattle.hep_machine.specs.Words.{Bounds, is_shape};
ghost use Rattle.hep_conditions.specs.Words.{IsAccepted};
ghost use Rattle.hep_accepted_laws.specs.PartlyEvaluated.{HasShape, HasValue};

use hep_conditions::laws;

/// Each named constant has a value, which is that of its expression; its name, its value and its
/// expression are of one type.
pub fn constants_have_values()
    ensures { (program : Units) (u i : ℕ) (unit : List Statement) (c : NamedConstant) → IsAccepted program → slice_get program u ≡ Some unit
        → slice_get (named_constants unit) i ≡ Some c → HasValue unit c }
{
    laws::constants_agree();
}

/// Each array that is no dummy argument has a constant shape; and the constant shape of any array is a shape.
pub fn arrays_have_shapes()
    ensures constant { (program : Units) (u : ℕ) (unit : List Statement) (x : Name) → IsAccepted program → slice_get program u ≡ Some unit
        → is_array unit x ≡ true → is_dummy unit x ≡ false → HasShape unit x }
    ensures shape { (unit : List Statement) (x : Name) (bounds : Bounds) → is_array unit x ≡ true → constant_shape unit x ≡ Some bounds
        → is_shape bounds ≡ true }
{
    laws::constants_agree();
}
