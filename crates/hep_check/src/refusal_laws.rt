//! Laws of the reported violations of a program that isn't accepted.
ghost use Rattle.std.specs.Prelude.{◌≡◌, ◌∷◌, None, Some};
ghost use Rattle.std.specs.List.{Contains};
ghost use Rattle.hep_machine.specs.Words.{Units};
ghost use Rattle.hep_conditions.specs.Words.{IsAccepted, first_violation, violations};
ghost use Rattle.hep_conditions.specs.declared.violation.Violation.{Violation as PureViolation};
ghost use Rattle.hep_check.specs.AllViolations.{told};
ghost use Rattle.hep_check.specs.Diagnostics.{further};

/// The first violation of a program and those reported after it are violations of the program. Each violation in the walk over the
/// program is among them. A program without a first violation is accepted.
pub fn rejected_are_violations()
    ensures told { (program : Units) (first v : PureViolation) → first_violation program ≡ Some first → Contains (first ∷ further program first) v
        → Contains (violations program) v }
    ensures kept { (program : Units) (first v : PureViolation) → Contains (told program) v → Contains (first ∷ further program first) v }
    ensures some { (program : Units) → first_violation program ≡ None → IsAccepted program }
{}
