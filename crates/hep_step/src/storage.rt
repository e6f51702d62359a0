//! The variables of an activation.

use crate::frame::Frame;
use hep_image::Array;

/// What the code of an activation needs to find its variables, besides the cells themselves.
#[derive(Clone, Copy)]
pub struct Storage<'a> {
    pub arrays: &'a [Array],
    pub frame: Frame,
}
