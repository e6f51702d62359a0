//! One operation of a process: its operands, its effect on the arena, and the index that it leads to. Nothing here
//! takes memory, except the record of a PRINT.
//!
//! - [`perform`] makes one operation. `specs/Replies` and `specs/Effects` say what each does; the contracts of
//!   [`laws`] say that the source machine does the same.
//! - [`give_actuals`] and [`passed`] compute what the actual arguments of a CALL, CREATE or reference give; their laws
//!   are in [`passing_laws`].
//! - [`purging`] empties the cells of a PURGE (`docs/LANGUAGE.md`, 9).
//! - [`move_on`] makes many steps of one activation in a row. They are *plain*: they read no variable with `$` and
//!   assign to none, test no cell, print nothing, and begin and end no activation.
#![tactic(auto)]

mod activation_state;
pub mod addresses;
pub mod argument_list;
pub mod by_reference;
pub mod call_kind;
mod cell_access;
pub mod closed_range;
mod control_transfer;
pub mod dummy_storage;
pub mod effect;
pub mod frame;
pub mod laws;
mod loops;
pub mod operands_in_front;
pub mod passed_argument;
pub mod passing_laws;
pub mod performing;
mod printing;
pub mod purge_laws;
pub mod purged_ranges;
pub mod purging;
pub mod reply;
mod silent_steps;
mod storage;
pub mod target_count;
mod values;
mod variable_access;

pub use activation_state::ActivationState;
pub use addresses::address;
pub use argument_list::{ArgumentList, FromArgument, make_from_entries};
pub use by_reference::passed;
pub use call_kind::CallKind;
pub use closed_range::ClosedRange;
pub use dummy_storage::DummyStorage;
pub use effect::Effect;
pub use frame::{Frame, counts};
pub use hep_arena::{Arena, Cell};
pub use hep_cells::access::purged;
pub use hep_code::operands::settle;
pub use hep_code::{Evaluation, Instruction, Operation};
pub use hep_image::laws::openings_fit_by_numbers;
pub use hep_image::{Array, DataRow, DummyArgument, Extents, Image, Start, UnitCode};
pub use hep_shape::{Shape, element_among, is_open};
pub use loops::parameters_among;
pub use operands_in_front::in_front;
pub use passed_argument::PassedArgument;
pub use performing::{give_actuals, is_plain_operation, perform};
pub use purged_ranges::find_ranges;
pub use purging::purge;
pub use reply::{Reply, reply_of, reply_to_store};
pub use silent_steps::{Activation, move_on};
pub use storage::Storage;
pub use target_count::most_targets;
