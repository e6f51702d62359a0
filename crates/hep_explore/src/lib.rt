//! All outcomes of a program, over all choices: what they are, and a search of its states, which are compared by keys.
//!
//! [`explore`] searches. Each function of [`laws`] is a law and has no work to do: what is proved is its contract.
#![tactic(auto)]

pub mod exploration;
pub mod found;
pub mod key;
pub mod key_laws;
mod key_parts;
mod key_processes;
pub mod laws;
pub mod observer;
mod pure_steps;
pub mod search;
pub mod states;
pub mod successor;

pub use exploration::{Exploration, explore};
pub use found::{Found, MOST_STEPS, text_of};
pub use key::{Key, key_of};
pub use observer::SearchObserver;
pub use states::States;
