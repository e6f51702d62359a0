//! Program units and programs.
ghost use Rattle.std.specs.Prelude.{◌≡◌, IfOk};
ghost use Rattle.hep_source.specs.Units as units;

use crate::name::Name;
use crate::statement::{Form, Statement};
use hep_base::Text;
use std::alloc::{AllocError, Global};
use std::marker::Model;

/// The name that is shown for a main program without a PROGRAM statement (X3.9-1978, 14.1).
pub const MAIN_NAME: &[u8] = b"MAIN";

/// A program unit (X3.9-1978, 2.4): its statements from the header, if it has one, to END.
/// Contracts see it as the list of its statements.
#[derive(Drop)]
pub struct Unit {
    statements: Vec<Statement>,
}

impl Model for Unit {
    ghost use Rattle.std.specs.Prelude.{List};
    ghost use Rattle.hep_source.specs.declared.statement.Statement.{Statement};
    ghost use Rattle.hep_source.specs.contracts.expression.Expr as expression;
    ghost use Rattle.std.specs.Coded.{codes};

    ghost Value = { List Statement };

    ghost coded = { Prim.hlevel (codes, expression.the_row.coded) };

    ghost view = { λ a. a.statements.items };
}

impl From<Vec<Statement>> for Unit {
    ghost from_gives = { λ statements unit. unit ≡ statements.items };

    fn from(statements: Vec<Statement>) -> Unit {
        Unit { statements }
    }
}

impl Unit {
    /// The statements, in order.
    pub fn as_slice(&self) -> &[Statement]
        ensures { result.now ≡ self.now }
    {
        &self.statements
    }

    /// The vector that holds the statements. This allocates no memory.
    pub fn into_vec(self) -> Vec<Statement>
        ensures { result.items ≡ self }
    {
        self.statements
    }

    /// The name that is shown for the unit: that of its header, or `MAIN` for a main program without a PROGRAM
    /// statement.
    ///
    /// # Errors
    ///
    /// Only where memory was refused.
    pub fn name(&self, alloc: Global) -> Result<Text, AllocError>
        ensures { IfOk result (λ name. name ≡ units.unit_name self.now) }
    {
        if let [first, ..] = self.as_slice() {
            if let Form::Program(occurrence)
            | Form::Subroutine(occurrence, _)
            | Form::Function(_, occurrence, _) = &first.form
            {
                return occurrence.name.spelling(alloc);
            }
        }
        Ok(Text::from(Vec::from_slice(alloc, MAIN_NAME)?))
    }
}

/// A program (X3.9-1978, 2.4): its units in the order of the source. Contracts see it as the list of its units.
#[derive(Drop)]
pub struct Program {
    units: Vec<Unit>,
}

impl Model for Program {
    ghost use Rattle.std.specs.Prelude.{List};
    ghost use Rattle.hep_source.specs.declared.statement.Statement.{Statement};
    ghost use Rattle.hep_source.specs.contracts.expression.Expr as expression;
    ghost use Rattle.std.specs.Coded.{codes};

    ghost Value = { List (List Statement) };

    ghost coded = { Prim.hlevel (codes, expression.the_row.coded) };

    ghost view = { λ a. a.units.items };
}

impl From<Vec<Unit>> for Program {
    ghost from_gives = { λ units program. program ≡ units.items };

    fn from(units: Vec<Unit>) -> Program {
        Program { units }
    }
}

impl Program {
    /// The units, in order.
    pub fn as_slice(&self) -> &[Unit]
        ensures { result.now ≡ self.now }
    {
        &self.units
    }

    /// The vector that holds the units. This allocates no memory.
    pub fn into_vec(self) -> Vec<Unit>
        ensures { result.items ≡ self }
    {
        self.units
    }
}

/// The name of a function, which its result has too; no other unit has one.
pub fn function_name(unit: &[Statement]) -> Option<Name>
    ensures { result ≡ units.function_name unit.now }
{
    match unit.first() {
        Some(
            Statement {
                form: Form::Function(_, occurrence, _),
                ..
            },
        ) => Some(occurrence.name),
        _ => None,
    }
}

/// The initial line of the statement at an index of a unit; 0 where there is none.
pub fn line_at(unit: &[Statement], index: usize) -> u32
    ensures { result ≡ units.line_at unit.now index }
{
    match unit.get(index) {
        Some(statement) => statement.line,
        None => 0,
    }
}
