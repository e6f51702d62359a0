//! Statements.
ghost use Rattle.std.specs.Prelude.{◌≡◌};
ghost use Rattle.hep_source.specs.Units as units;

use crate::declaration::{
    CommonBlock, DataGroup, Declarator, ImplicitGroup, NamedConstant, Target, ValueType,
};
use crate::expression::Expr;
use crate::name::Occurrence;
use hep_base::{Sequence, Text};

/// An item of a PRINT list.
#[derive(Drop)]
pub enum PrintItem {
    Expression(Expr),
    /// A character constant (X3.9-1978, 4.8): its characters, without the apostrophes.
    Characters(Text),
}

/// The parts of a DO statement (X3.9-1978, 11.10).
#[derive(Drop)]
pub struct DoControl {
    /// The label of the terminal statement.
    pub terminal: u32,
    pub variable: Occurrence,
    pub initial: Expr,
    pub limit: Expr,
    /// The increment. It is 1 where none is written.
    pub increment: Option<Expr>,
}

/// The labels of an arithmetic IF (11.4): where control goes by the sign of the expression.
#[derive(Clone, Copy, Debug, PartialEq, Eq)]
pub struct SignLabels {
    pub negative: u32,
    pub zero: u32,
    pub positive: u32,
}

/// The form of a statement, with its parts. The form of a logical IF is that of the statement within it.
#[derive(Drop)]
pub enum Form {
    /// The header of a main program (X3.9-1978, 14.1).
    Program(Occurrence),
    /// The header of a subroutine with its dummy arguments (15.6.1).
    Subroutine(Occurrence, Sequence<Occurrence>),
    /// The header of a function with its dummy arguments, and its type if the header has one (15.5.1).
    Function(Option<ValueType>, Occurrence, Sequence<Occurrence>),
    /// IMPLICIT (8.5).
    Implicit(Sequence<ImplicitGroup>),
    /// A type statement (8.4).
    Declare(ValueType, Sequence<Declarator>),
    /// DIMENSION (8.1).
    Dimension(Sequence<Declarator>),
    /// COMMON (8.3).
    Common(Sequence<CommonBlock>),
    /// PARAMETER (8.6).
    Parameter(Sequence<NamedConstant>),
    /// DATA (section 9).
    Data(Sequence<DataGroup>),
    /// An assignment (10.1 and 10.2).
    Assign(Target, Expr),
    /// An unconditional GO TO (11.1).
    GoTo(u32),
    /// A computed GO TO (11.2).
    ComputedGoTo(Sequence<u32>, Expr),
    /// An arithmetic IF (11.4).
    ArithmeticIf(Expr, SignLabels),
    /// IF with THEN, which begins a block IF (11.6).
    IfThen(Expr),
    /// ELSE IF (11.7).
    ElseIf(Expr),
    /// ELSE (11.8).
    Else,
    /// END IF (11.9).
    EndIf,
    /// DO (11.10).
    Do(DoControl),
    /// CALL (15.6.2).
    Call(Occurrence, Sequence<Expr>),
    /// CREATE: a call whose subroutine runs as a new process (docs/LANGUAGE.md).
    Create(Occurrence, Sequence<Expr>),
    /// PURGE: variables, elements and arrays become empty (docs/LANGUAGE.md).
    Purge(Sequence<Target>),
    /// `PRINT *` with its list (12.8).
    Print(Sequence<PrintItem>),
    /// CONTINUE (11.11).
    Continue,
    /// RETURN (15.8).
    Return,
    /// RESUME: the caller continues, and the activation runs in parallel to it (docs/LANGUAGE.md).
    Resume,
    /// STOP (11.12).
    Stop,
    /// END (11.14).
    End,
}

/// A statement: its initial line, counted from 1, its label, its conditions and its form.
pub struct Statement {
    pub line: u32,
    pub label: Option<u32>,
    /// The conditions of logical IFs, of which each contains the next (X3.9-1978, 11.5). There are none
    /// where the statement is no logical IF.
    pub conditions: Sequence<Expr>,
    pub form: Form,
}

// This is written by hand so that code that drops a program calls this function. The drops of all forms and their parts would else be
// repeated there.
impl Drop for Statement {
    fn drop(self) {
        let Statement {
            line,
            label,
            conditions,
            form,
        } = self;
    }
}

/// Whether a form is that of an executable statement (X3.9-1978, 7.1).
pub fn is_executable(form: &Form) -> bool
    ensures { result ≡ units.is_executable form.now }
{
    match form {
        Form::Program(_)
        | Form::Subroutine(..)
        | Form::Function(..)
        | Form::Implicit(_)
        | Form::Declare(..)
        | Form::Dimension(_)
        | Form::Common(_)
        | Form::Parameter(_)
        | Form::Data(_) => false,
        _ => true,
    }
}
