//! Binding (X3.9-1978, 5.5.1 and 15.9.3): the shapes of a unit's dummy arrays when it is called, and the frame of the
//! new activation. [`find_shapes`] computes the shapes, [`begin`] enters the frame, and [`shape_all`] writes the
//! shapes into it. None of them takes memory.
//!
//! The contracts of [`laws`] and [`shape_laws`] say that the machine then keeps the state after the CALL, CREATE or
//! reference.
#![tactic(auto)]

mod activation_start;
mod adjustable_bounds;
pub mod adjustable_shape;
mod binding;
pub mod bound_evaluation;
pub mod dummy_shapes;
pub mod laws;
pub mod shape_laws;

pub use activation_start::begin;
pub use adjustable_bounds::shape_all;
pub use adjustable_shape::shape_given;
pub use binding::bind;
pub use bound_evaluation::bound_value;
pub use dummy_shapes::{find_shapes, longest_code};
pub use hep_accepted_laws::code::{arrays_are_there, variables_of_the_code_are_placed};
pub use hep_accepted_laws::names::names_are_given_once;
pub use hep_accepted_laws::runs::{
    activations_are_bound_in_runs, actual_arguments_fit, calls_agree_in_runs,
    calls_come_from_statements, functions_are_referred_to, programs_are_closed,
    references_come_from_statements, subroutines_are_called, units_are_there, variables_are_placed,
    works_come_from_statements,
};
