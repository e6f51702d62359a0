//! Operators of expressions.

/// A sign before the first term of an arithmetic expression (X3.9-1978, 6.1.2).
#[derive(Clone, Copy, Debug, PartialEq, Eq)]
pub enum Sign {
    Plus,
    Minus,
}

/// An operator between two integers that gives an integer (X3.9-1978, 6.1.1).
#[derive(Clone, Copy, Debug, PartialEq, Eq)]
pub enum ArithmeticOperator {
    Add,
    Subtract,
    Multiply,
    Divide,
    Power,
}

/// An operator between two integers that gives a logical value (6.3.1).
#[derive(Clone, Copy, Debug, PartialEq, Eq)]
pub enum RelationalOperator {
    Less,
    LessOrEqual,
    Equal,
    NotEqual,
    Greater,
    GreaterOrEqual,
}

/// An operator between two logical values that gives one (6.4.1).
#[derive(Clone, Copy, Debug, PartialEq, Eq)]
pub enum LogicalOperator {
    And,
    Or,
    Equivalent,
    NotEquivalent,
}

/// An operator between two operands.
#[derive(Clone, Copy, Debug, PartialEq, Eq)]
pub enum Operator {
    Arithmetic(ArithmeticOperator),
    Relational(RelationalOperator),
    Logical(LogicalOperator),
}
