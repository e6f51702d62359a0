//! Races of a run: what each step accesses, needs and changes, read from a machine before the step and after it ([`look_ahead`]); vector
//! clocks, and the detector of races over them ([`Detector`]); and the lines of the races that it finds.
//!
//! A clock is a vector with, for each process, the number of its latest step that is known, counted from 1 over the whole run, and 0
//! where none is.
#![tactic(auto)]

pub mod bound_names;
mod bound_reads;
mod clock;
mod clocks;
mod detector;
mod entry_number;
mod event;
pub mod event_laws;
pub mod laws;
mod numbers;
pub mod place_laws;
mod purged_places;
pub mod race_lines;
pub mod race_observer;
mod races;
mod rows;
pub mod run_races;
pub mod site_table;
pub mod step_access;
pub mod step_event;
mod storage_unit;
mod table;
pub mod unit_names;
mod watched_code;

pub use bound_names::BoundNames;
pub use detector::Detector;
pub use event::{Access, StepAccess, StepEvent};
pub use race_lines::{RaceSources, append_rows};
pub use rows::Row;
pub use run_races::{RaceReport, history_races};
pub use site_table::SiteTable;
pub use step_access::{AccessSite, SitedAccess};
pub use step_event::{ObservedStep, look_ahead};
pub use storage_unit::StorageUnit;
pub use unit_names::UnitNames;
