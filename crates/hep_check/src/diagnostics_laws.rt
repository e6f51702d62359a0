//! Laws of the reported violations.
ghost use Rattle.std.specs.Prelude.{◌≡◌, List, false};
ghost use Rattle.std.specs.List.{Contains};
ghost use Rattle.hep_machine.specs.Words.{Statement, Units};
ghost use Rattle.hep_conditions.specs.Words.{argument_violations, common_violations, count_violations, data_violations, function_types, jump_violations, label_violations, name_violations, resume_violations, structure_violations, type_missing_violations, type_violations, unknown_name_violations, violations};
ghost use Rattle.hep_conditions.specs.declared.violation.Violation.{Violation as PureViolation};
ghost use Rattle.hep_check.specs.AllViolations.{has_doubtful, told};

/// Each violation that is reported of a program is one of its violations.
pub fn told_are_violations()
    ensures { (program : Units) (v : PureViolation) → Contains (told program) v → Contains (violations program) v }
{}

/// Each violation in a unit that concerns a single statement is reported. Of 301 one violation is reported for each name. 302 and 304
/// are reported where no statement at the line has a name without a type.
pub fn violations_of_statements_are_told()
    ensures untyped { (program : Units) (unit : List Statement) (v : PureViolation) → Contains program unit
        → Contains (type_missing_violations (function_types program) unit) v
        → (w : PureViolation) × (Contains (told program) w) × (w.number ≡ 301) × (w.name ≡ v.name) }
    ensures typed { (program : Units) (unit : List Statement) (v : PureViolation) → Contains program unit
        → has_doubtful program unit v.line ≡ false → Contains (type_violations (function_types program) unit) v → Contains (told program) v }
    ensures counted { (program : Units) (unit : List Statement) (v : PureViolation) → Contains program unit
        → Contains (count_violations program unit) v → Contains (told program) v }
    ensures given { (program : Units) (unit : List Statement) (v : PureViolation) → Contains program unit
        → has_doubtful program unit v.line ≡ false → Contains (argument_violations (function_types program) program unit) v → Contains (told program) v }
    ensures known { (program : Units) (unit : List Statement) (v : PureViolation) → Contains program unit
        → Contains (unknown_name_violations program unit) v → Contains (told program) v }
    ensures resumed { (program : Units) (unit : List Statement) (v : PureViolation) → Contains program unit
        → Contains (resume_violations unit) v → Contains (told program) v }
{}

/// Each violation that is about several statements or units is reported.
pub fn shared_violations_are_told()
    ensures common { (program : Units) (v : PureViolation) → Contains (common_violations program) v → Contains (told program) v }
    ensures labels { (program : Units) (unit : List Statement) (v : PureViolation) → Contains program unit
        → Contains (label_violations unit) v → Contains (told program) v }
    ensures structure { (program : Units) (unit : List Statement) (v : PureViolation) → Contains program unit
        → Contains (structure_violations (function_types program) unit) v → Contains (told program) v }
    ensures jumps { (program : Units) (unit : List Statement) (v : PureViolation) → Contains program unit
        → Contains (jump_violations unit) v → Contains (told program) v }
    ensures names { (program : Units) (v : PureViolation) → Contains (name_violations program) v → Contains (told program) v }
    ensures values { (program : Units) (unit : List Statement) (v : PureViolation) → Contains program unit
        → Contains (data_violations unit) v → Contains (told program) v }
{}
