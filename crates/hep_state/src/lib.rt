//! The machine of a core, and one turn of one process, with CALL, CREATE, RESUME and references. Begin with
//! [`CoreState`] and [`CoreState::turn`].
//!
//! A machine keeps a state: the frames, the place of each process in its code, and what was written. `specs/KeptStates`
//! says that it is a state of the source machine. The contracts of [`CoreState::turn`] and of [`laws`] say that it is
//! so after each turn.
#![tactic(auto)]

mod actual_arguments;
mod calling;
mod calls_and_returns;
mod copy;
mod core_state;
mod function_return;
pub mod laws;
mod next_step;
mod opening;
mod process_places;
mod purge;
mod resume;
mod top_code;
pub mod top_place;
mod turn;

pub use calling::CalledUnit;
pub use core_state::{ArgumentBuffers, CoreState};
pub use hep_binding::{
    activations_are_bound_in_runs, calls_agree_in_runs, calls_come_from_statements,
    programs_are_closed, references_come_from_statements, units_are_there,
    variables_of_the_code_are_placed,
};
pub use hep_blocked::Want;
pub use hep_blocked::laws::lists_go_along_with_steps;
pub use hep_proc::laws::{children_are_activations, openings_want_unset_cells};
pub use hep_proc::{Frames, Local, NewFrame, Process};
pub use hep_step::laws::{calls_are_ahead, operations_do_what_the_machine_does, resumes_are_ahead};
pub use hep_step::passing_laws::{all_actuals_are_passed, callers_can_pass};
pub use hep_step::{
    ArgumentList, Array, CallKind, ClosedRange, DataRow, DummyStorage, Effect, Frame, Image, Shape,
    UnitCode, address, give_actuals, in_front, openings_fit_by_numbers,
};
pub use next_step::{NextCall, NextFunctionReturn, NextPurge, NextStep};
pub use opening::fits;
pub use top_place::{advance, place};
pub use turn::{TurnFault, TurnOutcome};
