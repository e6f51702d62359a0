//! Lowering: a checked program becomes an image, with the code of each unit, which `hep_code` defines. Begin with
//! [`lower`], which also says which programs are refused as 401 and 402.
//!
//! [`lower_unit`] and [`emit_unit`] make the code of a unit: of its statements, their operations, expressions, and the
//! entries after operations, by the tables of the unit.
#![tactic(auto)]

mod block_starts;
pub mod destinations;
pub mod emit;
pub mod expressions;
pub mod fault;
pub mod laws;
mod lowered;
mod main_program;
pub mod name_lookup;
mod operands;
pub mod operation_lists;
pub mod operations;
mod program;
mod program_names;
pub mod tables;
mod unit;
mod units;

pub use fault::EmitFault;
pub use hep_base::Refusal as LowerFault;
pub use hep_image::Image;
pub use lowered::{LoweredCode, lower_unit};
pub use name_lookup::NameLookup;
pub use program::{MOST_CELLS, lower};
pub use unit::{EmittedUnit, MOST_INSTRUCTIONS, emit_unit};
