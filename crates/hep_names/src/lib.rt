//! The symbol tables of units and programs, with the constants of each unit (X3.9-1978, section 8); the values that depend only on
//! constants: expressions, bounds, numbers of cells of variables, and repeat counts (5.1.1, 5.2.3, 6.1.3 and 9.1); and the
//! conditions 301, 303 and 310.
//!
//! Begin with [`Symbols`], the table of a unit, and [`ProgramSymbols`], the tables of all units of a program.
#![tactic(auto)]

mod arrays;
pub mod bounds;
pub mod cell_counts;
pub mod constants;
pub mod counts;
pub mod data;
pub mod evaluation;
pub mod functions;
pub mod list_table;
pub mod lists;
pub mod named_constants;
mod names;
pub mod occurrences;
mod parts;
pub mod program;
pub mod references;
pub mod specification;
pub mod symbols;
mod table;
pub mod unknown_names;
pub mod untyped_names;

pub use bounds::{bounds_of, integers};
pub use cell_counts::{adjustable_dimensions, cells_of};
pub use constants::{Constants, NameSet};
pub use counts::count_violation;
pub use data::{repeat_of, value_of_constant};
pub use functions::{Meaning, function_named};
pub use list_table::ListTable;
pub use lists::{NameWithList, names_with_lists};
pub use program::ProgramSymbols;
pub use references::{function_type, is_function_in};
pub use symbols::Symbols;
pub use table::note;
pub use unknown_names::unknown_name_violation;
pub use untyped_names::type_missing_violation;
