//! The places of the variables, arrays and DOs of a unit ([`unit_places`](unit::unit_places); docs/MACHINE.md,
//! "Variables and frames" and "Layout"), and the values of DATA for the cells of the arena before the first step
//! ([`data_rows`](stored::data_rows); X3.9-1978, section 9).
#![tactic(auto)]

mod arrays;
mod bare_actuals;
mod block_offsets;
mod bound_code;
mod cell_numbers;
mod data_cells;
mod dummies;
mod frame_owners;
mod frame_starts;
mod group_list;
mod group_rows;
mod group_values;
pub mod initial_rows;
pub mod laws;
mod loop_cells;
pub mod main_frame;
mod storage_starts;
pub mod unit;
mod variables;

pub use initial_rows::data_rows;
pub use main_frame::MainFrame;
pub use unit::{UnitPlaces, unit_places};
