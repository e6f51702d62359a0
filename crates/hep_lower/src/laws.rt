//! Laws of the limits.
ghost use Rattle.std.specs.Prelude.{◌<◌, ◌≤◌, ◌*◌, ℕ, Some, length};
ghost use Rattle.hep_machine.specs.Words.{Units};
ghost use Rattle.hep_lower.specs.PartCounts.{IsOfLongStatement, parts_of};
ghost use Rattle.hep_lower.specs.Refusals.{IsCodeBeyond, IsFirstDeep, instructions_in};

/// The limits are wide. There are at most two instructions for each name, constant, label, operator and statement,
/// where a unit without a statement, which no source has, counts as one. So there are too many instructions only if
/// there are more than 524,288 of these. And if a line is the first one that needs too many operands at once, its
/// unit has a statement with this line that has more than 256 names and constants.
pub fn limits_are_wide()
    ensures instructions { (program : Units) → instructions_in program (length program) ≤ 2 * parts_of program }
    ensures code { (program : Units) → IsCodeBeyond program → 524288 < parts_of program }
    ensures depth { (program : Units) (line : ℕ) → IsFirstDeep program (length program) (Some line) → IsOfLongStatement program line }
{}
