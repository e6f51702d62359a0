//! Frames and processes. [`Frames`] has the arena and the tree of frames: each frame has a block of the arena's
//! cells, and a node that names its activation. [`Process`] has the activations on its stack and their operands.
//! [`stack_exit`] says how an activation leaves a stack.
//!
//! A frame is in the arena as long as its activation hasn't ended or has a child whose frame is there. Only the calls
//! that make the table and reserve room in it take memory.
#![tactic(auto)]

mod frames;
pub mod laws;
mod nodes;
mod pending_operands;
mod process;
pub mod stack_exit;

pub use frames::{Frames, NewFrame};
pub use process::{Local, Process};
pub use stack_exit::{ExitReason, leave};
