//! The tree of a program: its units, statements and expressions, and their names.
//!
//! Contracts see each type as a pure value: an expression as a tree, and a sequence as a list. Begin with [`Program`], [`Statement`] and
//! [`Expr`].
#![tactic(auto)]

pub mod declaration;
pub mod expression;
pub mod function;
pub mod name;
pub mod operator;
pub mod program;
pub mod statement;
pub mod value;

pub use declaration::{
    CommonBlock, DataConstant, DataGroup, DataValue, Declarator, Dimension, ImplicitGroup,
    LetterRange, NamedConstant, Repeat, Target, UpperBound, ValueType,
};
pub use expression::{Expr, Node};
pub use function::{PureFunction, StateFunction};
pub use hep_base::{Sequence, Text};
pub use name::{Name, Occurrence, block_spelling};
pub use operator::{ArithmeticOperator, LogicalOperator, Operator, RelationalOperator, Sign};
pub use program::{MAIN_NAME, Program, Unit, function_name, line_at};
pub use statement::{DoControl, Form, PrintItem, SignLabels, Statement, is_executable};
pub use value::Value;
