//! Shapes of arrays (X3.9-1978, section 5): which bounds make a shape, the number of its elements, and the element that
//! subscripts name. Begin with [`Shape`].
//!
//! Nothing here allocates memory.
#![tactic(auto)]

pub mod shape;

pub use hep_machine::Bound;
pub use shape::{Shape, element_among, is_open};
