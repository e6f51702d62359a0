//! Images: a checked program as a core runs it, with its tree, the code of its units, the places of their variables,
//! the values of DATA and the names. Begin with [`Image`](image::Image). [`Syntax`](syntax::Syntax) copies and
//! compares the trees of programs.
//!
//! `specs/Places` defines the places of variables, `specs/Addressing` how their storage units are found from the cells
//! of the arena, `specs/Owners` which variable has a cell, and `specs/Names` the numbers of names. The contracts of
//! [`frame_laws`] say that the source machine has the same at these places.
#![tactic(auto)]

pub mod array;
pub mod data;
mod declaration;
pub mod dummy;
mod expression;
pub mod frame_laws;
pub mod image;
pub mod laws;
pub mod names;
pub mod owners;
mod program;
mod statement;
pub mod syntax;
pub mod unit;

pub use array::{Array, Extents, Start};
pub use data::DataRow;
pub use dummy::DummyArgument;
pub use image::Image;
pub use names::ProgramNames;
pub use owners::{BlockStart, FrameVariable};
pub use syntax::Syntax;
pub use unit::UnitCode;
