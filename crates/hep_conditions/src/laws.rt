//! Laws of the conditions, which hold for every accepted program.
ghost use Rattle.std.specs.Prelude.{◌≡◌, ◌++◌, ℕ, List, [], Some, slice_get};
ghost use Rattle.hep_machine.specs.Words.{Statement, Units, given_by, named_constants};
ghost use Rattle.hep_conditions.specs.Words.{IsAccepted, no_parameters, with_parameters, Keeps};

/// Before each statement of a unit of an accepted program, and after the last one, the constants
/// by which the conditions judge expressions, bounds and blocks are those of the source machine.
pub fn constants_agree()
    ensures { (program : Units) (unit before after : List Statement) (u : ℕ) → IsAccepted program → slice_get program u ≡ Some unit
        → unit ≡ before ++ after → Keeps (with_parameters unit no_parameters (named_constants before))
        (given_by unit [] (named_constants before)) }
{}
