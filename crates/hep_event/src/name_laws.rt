//! The names of variables.
ghost use Rattle.std.specs.Prelude.{◌≡◌, ◌≢◌, ◌<◌, ℕ, length};
ghost use Rattle.hep_code.specs.declared.variable.Variable.TheVariants.{Absent};
ghost use Rattle.hep_image.specs.Places.{variable_of};
ghost use Rattle.hep_machine.specs.Words.{Name as AName, Units, unit_at};

/// Different names of a unit are different variables.
pub fn variables_tell_names()
    ensures { (program : Units) (u : ℕ) (x y : AName) → u < length program
        → variable_of program (unit_at program u) x ≡ variable_of program (unit_at program u) y
        → variable_of program (unit_at program u) x ≢ Absent → x ≡ y }
{}
