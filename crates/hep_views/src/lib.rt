//! The view of a core: the place of each process and what it waits for, COMMON, and the frames of held activations.
//! `specs/` defines it; the contracts of [`laws`] and [`frame_laws`] say that it is the view of the source machine's
//! state. [`lookup`] computes the place of one process, and what a waiting one waits for.
#![tactic(auto)]

pub mod frame_laws;
pub mod laws;
mod listed;
pub mod lookup;
mod place;
mod whereabouts;

pub use hep_state::laws::{activations_are_few, tops_are_running};
pub use hep_state::{
    ClosedRange, CoreState, Image, TurnFault, TurnOutcome, fits, place as state_place,
    variables_of_the_code_are_placed,
};
pub use listed::Listed;
pub use place::Place;
pub use whereabouts::Whereabouts;
