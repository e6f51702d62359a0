//! One step of a history in words: the line that `trace` and other commands show for it (docs/RUNS.md, "What each
//! step did"). `trace_text` of `specs/Traces` defines the whole text.
//!
//! - [`next_operation`] reads the next operation of a process from a core's machine, and [`next_access`] its result;
//!   [`sites`] finds the variable that it names.
//! - [`line_text`], [`reduction_text`], [`plain_text`] and [`operation_text`] write the words of a step.
//! - [`watches_of`] gives the indexes of the code at which a step may access a variable of one name, and perhaps more
//!   where a dummy argument is accessed. A step from any other index accesses none
//!   ([`breakpoint_laws::unwatched_turns_access_nothing`]).
#![tactic(auto)]

pub mod breakpoint_laws;
pub mod line_laws;
pub mod line_text;
pub mod name_laws;
pub mod next_access;
pub mod next_laws;
pub mod next_operation;
pub mod operation_text;
pub mod plain_text;
pub mod reduction_text;
pub mod site_laws;
pub mod sites;
pub mod value_text;
pub mod variable_breakpoints;
pub mod variables;

pub use hep_dump::{Breakpoints, Core, Kind, Listed, Whereabouts, append_waiting, name_of};
pub use hep_views::lookup::{listed, whereabouts};
pub use hep_views::{CoreState, TurnFault, TurnOutcome, activations_are_few};
pub use line_text::{
    AccessedVariable, append_accessed, append_answer, append_applied, append_branch, append_call,
    append_choice, append_combined, append_condition, append_create, append_end, append_fault,
    append_freed, append_head, append_jump, append_loop, append_negated, append_next,
    append_reference, append_resume, append_signed, append_stop, append_tested, append_waits,
    append_woken,
};
pub use next_access::reply_ahead;
pub use next_laws::replies_are_answers;
pub use next_operation::{NextOperation, coming_of};
pub use operation_text::{StepObservation, append_told};
pub use plain_text::{NextNumbers, append_plain};
pub use reduction_text::append_pure;
pub use sites::{Site, named, site_of, value_at};
pub use value_text::{append_list, append_value};
pub use variable_breakpoints::watches_of;
pub use variables::Variables;
