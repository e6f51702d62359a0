//! The parts of specification and DATA statements (X3.9-1978, sections 8 and 9).

use crate::expression::Expr;
use crate::name::Occurrence;
use crate::value::Value;
use hep_base::Sequence;

/// The type of a name (X3.9-1978, 4.1).
#[derive(Clone, Copy, Debug, PartialEq, Eq)]
pub enum ValueType {
    Integer,
    Logical,
}

/// A range of letters in an IMPLICIT statement, with both ends (8.5).
#[derive(Clone, Copy, Debug, PartialEq, Eq)]
pub struct LetterRange {
    pub first: u8,
    pub last: u8,
}

/// A type and the letters to which an IMPLICIT statement gives it (8.5).
#[derive(Drop)]
pub struct ImplicitGroup {
    pub value_type: ValueType,
    pub letters: Sequence<LetterRange>,
}

/// An upper dimension bound (5.1.1).
#[derive(Drop)]
pub enum UpperBound {
    Expression(Expr),
    /// `*`: an assumed-size array.
    Open,
}

/// A dimension declarator (5.1.1). The lower bound is 1 where none is written.
#[derive(Drop)]
pub struct Dimension {
    pub lower: Option<Expr>,
    pub upper: UpperBound,
}

/// A name, or an array declarator (5.1): the name with its dimensions, one to seven.
#[derive(Drop)]
pub struct Declarator {
    pub occurrence: Occurrence,
    pub dimensions: Sequence<Dimension>,
}

/// A common block in a COMMON statement, with its list (8.3). Blank COMMON has no name.
#[derive(Drop)]
pub struct CommonBlock {
    pub block: Option<Occurrence>,
    pub entries: Sequence<Declarator>,
}

/// A name and the constant expression that PARAMETER gives it (8.6).
#[derive(Drop)]
pub struct NamedConstant {
    pub occurrence: Occurrence,
    pub value: Expr,
}

/// A name, or a name with subscripts: what is assigned, purged or given a value by DATA.
#[derive(Drop)]
pub struct Target {
    pub occurrence: Occurrence,
    pub subscripts: Sequence<Expr>,
}

/// The repeat count of a value of DATA (9.1): an integer constant, or the name of one.
#[derive(Clone, Copy, Debug, PartialEq, Eq)]
pub enum Repeat {
    Count(i64),
    Named(Occurrence),
}

/// A value of DATA (9.1): a constant, which may be an integer with a sign, or the name of a constant.
#[derive(Clone, Copy, Debug, PartialEq, Eq)]
pub enum DataConstant {
    Value(Value),
    Named(Occurrence),
}

/// A value of DATA with its repeat count. The count is 1 where none is written.
#[derive(Clone, Copy, Debug, PartialEq, Eq)]
pub struct DataValue {
    pub repeat: Option<Repeat>,
    pub constant: DataConstant,
}

/// A group of a DATA statement (9.1): the names up to a `/`, and the values between it and the next `/`.
#[derive(Drop)]
pub struct DataGroup {
    pub targets: Sequence<Target>,
    pub values: Sequence<DataValue>,
}
