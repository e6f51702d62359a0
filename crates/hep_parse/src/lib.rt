//! The parser: it reads the statements of a source text as the tree of a program.
//!
//! Begin with [`parse`], which answers with the program or with the first statement at fault. For each statement [`rule_of`] finds the
//! rule that decides its form, and [`form`] reads the conditions of logical IFs and the form. `specs/` states the grammar: which texts
//! have which form, and which statements are a program.
#![tactic(auto)]

mod constant;
mod declaration;
mod item;
mod keyword;
mod list;
mod program;
pub mod rule;
mod statement;
mod target;

pub use rule::{Rule, after_if, rule_of};
pub use statement::{form, logical_if};
/// The reason why a source is no program: one of the refusals 201 to 205. Only 202 is about a name.
pub use hep_base::Refusal as ParseFault;
pub use program::{at_most_one_program, parse};
