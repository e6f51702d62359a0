//! Many silent turns of one process at once: turns whose step only moves its top activation, or begins or ends one,
//! and fills and empties no cell. [`go_on`] makes them. [`pass_on`] makes them up to a breakpoint: [`Breakpoints`]
//! says for each index of a unit's code whether it is watched.
#![tactic(auto)]

pub mod bounded_run;
pub mod breakpoints;
pub mod run_to_breakpoint;
pub mod silent_run;
mod top_run;
mod top_to_breakpoint;

pub use bounded_run::step_once;
pub use breakpoints::Breakpoints;
pub use hep_fast::{
    Activation, DecodedCode, DecodedImage, FastActivation, move_by_table, step_by_table, tables_of,
};
pub use hep_state::laws::tops_are_running;
pub use hep_state::{
    CoreState, Frames, Process, calls_come_from_statements, lists_go_along_with_steps, place,
    references_come_from_statements,
};
pub use run_to_breakpoint::{pass_on, stands_watched};
pub use silent_run::{go_on, rests, turn_by_table};
