//! A law of programs that are read from a source.
ghost use Rattle.std.specs.Prelude.{◌≡◌, ℕ, List, Ok};
ghost use Rattle.hep_machine.specs.Words.{Units};
ghost use Rattle.hep_parse.specs.Program.{IsProgram};
ghost use Rattle.hep_text.specs.Reading.{statements_of};
ghost use Rattle.hep_text.specs.declared.statement.Stmt.{Stmt as PureStmt};
ghost use Rattle.hep_warnings.specs.Order.{Rise, lines_of_program};

/// The lines of the statements of a program that was read from a source rise, unit after unit. So its warnings are in
/// the order of the lines.
pub fn lines_of_sources_rise()
    ensures { (source : List ℕ) (statements : List PureStmt) (program : Units) → statements_of source ≡ Ok statements
        → IsProgram statements program → Rise 0 (lines_of_program program) }
{}
