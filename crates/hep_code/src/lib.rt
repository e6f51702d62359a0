//! The code of program units: instructions in postfix order ([`instruction`]), and the code of the bounds of
//! adjustable arrays ([`bound`]). `specs/StatementCode` defines the code of a unit, and `specs/CodePosition` the place
//! of an activation in it.
//!
//! The contracts of [`operands`], [`instruction`], [`laws`] and [`bound_laws`] say that an activation goes the same way
//! in the code as in the source machine.
#![tactic(auto)]

pub mod bound;
pub mod bound_laws;
pub mod boxed_text;
pub mod duplicate;
pub mod instruction;
pub mod laws;
pub mod operands;
pub mod placement;
pub mod variable;

pub use bound::BoundOperation;
pub use boxed_text::BoxedText;
pub use duplicate::{Duplicate, copy_all};
pub use instruction::{
    Argument, Depth, Evaluation, Instruction, MOST_OPERANDS, Operation, Printed, depth_of,
    operands_of_entry,
};
pub use placement::Placement;
pub use variable::Variable;
