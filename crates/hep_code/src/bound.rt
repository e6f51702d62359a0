//! The operations in the code of a bound.
ghost use Rattle.std.specs.Prelude.{◌≡◌};
ghost use Rattle.hep_code.specs.BoundCode as code;

use crate::duplicate::Duplicate;
use hep_source::{Operator, PureFunction, Sign, Value};
use std::alloc::{AllocError, Global};

/// An operation in the code of a bound. It takes its operands, which are the last values so far, and puts its value
/// in their place.
#[derive(Clone, Copy)]
pub enum BoundOperation {
    /// A constant, or the value of a named constant (X3.9-1978, 8.6).
    Value(Value),
    /// The value of a cell of COMMON, by its number in the arena.
    InCommon(u32),
    /// The value of a scalar dummy argument, by its number among the unit's dummy arguments, counted from 0.
    InDummy(usize),
    /// Puts a sign before an operand (6.1.2).
    Sign(Sign),
    /// `.NOT.` (6.4.1).
    Not,
    /// Combines two operands (6.1.1, 6.3.1 and 6.4.1).
    Combine(Operator),
    /// A function of integers (15.10).
    Apply {
        function: PureFunction,
        arguments: usize,
    },
    /// An expression that has no value in a bound.
    Nowhere,
}

impl BoundOperation {
    /// The number of operands of the operation.
    pub fn arity(self) -> usize
        ensures { result ≡ code.arity self }
    {
        match self {
            BoundOperation::Value(_)
            | BoundOperation::InCommon(_)
            | BoundOperation::InDummy(_)
            | BoundOperation::Nowhere => 0,
            BoundOperation::Sign(_) | BoundOperation::Not => 1,
            BoundOperation::Combine(_) => 2,
            BoundOperation::Apply { arguments, .. } => arguments,
        }
    }
}

impl Duplicate for BoundOperation {
    fn copy(&self, _alloc: Global) -> Result<BoundOperation, AllocError> {
        Ok(*self)
    }
}
