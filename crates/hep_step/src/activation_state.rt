//! The place of an activation in its unit's code.

use hep_source::Value;

/// The operands of an activation, and the index in the code of its next instruction.
#[derive(Drop)]
pub struct ActivationState {
    pub operands: Vec<Value>,
    pub index: usize,
}
