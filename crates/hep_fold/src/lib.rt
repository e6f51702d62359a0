//! The one way in which a history is made again for something that is told of its turns. [`fold_history`] makes the
//! turns, and an [`Observer`] looks at the machine before each turn and after it. What the observer knows then is the
//! left fold of its function `see` over the turns (`seen_along` of `specs/Turns`). [`fold_range`] goes on with a machine
//! that was opened before.
//!
//! [`ReplayMachine`] is the machine that makes the turns. It keeps no core, so nothing is known of who is ready or
//! was found waiting.
#![tactic(auto)]

pub mod history_fold;
pub mod history_range;
pub mod observer;
pub mod replay_machine;
pub mod turn_row;
pub mod unobserved;

pub use hep_advance::{CoreState, DecodedImage, go_on, tables_of};
pub use history_fold::{fold_history, fold_range};
pub use history_range::HistoryRange;
pub use observer::Observer;
pub use replay_machine::ReplayMachine;
pub use turn_row::TurnRow;
pub use unobserved::Unobserved;
