//! Dummy arguments without their names.

use hep_base::Sequence;
use hep_code::{BoundOperation, Duplicate};
use hep_shape::Shape;
use std::alloc::{AllocError, Global};

/// A dummy argument, as a call of its unit needs it (X3.9-1978, 15.9.3).
#[derive(Drop)]
pub enum DummyArgument {
    /// It is no array.
    Scalar,
    /// An array whose bounds are all constant, of which the last one may be open (5.5).
    Array(Shape),
    /// An array whose bounds are fixed at each call, by their code (5.5.1).
    Adjustable(Sequence<BoundOperation>),
}

impl Duplicate for DummyArgument {
    fn copy(&self, alloc: Global) -> Result<DummyArgument, AllocError> {
        match self {
            DummyArgument::Scalar => Ok(DummyArgument::Scalar),
            DummyArgument::Array(shape) => Ok(DummyArgument::Array(shape.copy())),
            DummyArgument::Adjustable(code) => Ok(DummyArgument::Adjustable(code.copy(alloc)?)),
        }
    }
}
