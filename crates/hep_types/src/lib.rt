//! The conditions 302, on types, constants and bounds (X3.9-1978, sections 4 to 6 and 8.6), 304, on the kinds of arguments
//! (15.6.2.3 and 15.9, and docs/LANGUAGE.md, 8 and 9), and 309, on names that denote two things or are declared twice
//! (18.1 and 18.2).
//!
//! Begin with [`type_violation`] and [`argument_violation`], which find the first violation; [`ambiguities`] finds all of 309.
//! [`Parameters`] are the constants given before a statement, [`Shapes`] the
//! known shapes of arrays, and [`type_of_tree`] is the type of an expression.
#![tactic(auto)]

pub mod actuals;
pub mod all_ambiguities;
mod argument_association;
pub mod bounds;
pub mod call_violation;
pub mod forms;
mod letters;
pub mod parameters;
mod repeated_names;
pub mod scope;
pub mod shapes;
pub mod types;
mod uses;
pub mod variables;
pub mod violation;

pub use actuals::{ActualClass, actual_class};
pub use all_ambiguities::{Ambiguity, ambiguities};
pub use argument_association::are_calls_fitting;
pub use bounds::has_bounds;
pub use call_violation::argument_violation;
pub use forms::{is_form_typed, is_given, is_purgeable};
pub use parameters::{Parameters, has_value, is_constant_expression};
pub use scope::Scope;
pub use shapes::{KnownShape, Shapes};
pub use types::{KnownType, is_typed, is_typed_as, type_of_tree, type_of_value};
pub use variables::{is_dummy, is_plain_integer_scalar, loop_variables};
pub use violation::{is_statement_typed, type_violation};
