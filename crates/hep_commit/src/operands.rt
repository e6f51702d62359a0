//! Operands in vectors.
ghost use Rattle.std.specs.Prelude.{◌≡◌, ◌≤◌, OnOk, length, vec_capacity};

use hep_source::Value;
use std::alloc::AllocError;

/// These values in the place of others.
pub(crate) fn keep_operands(kept: &mut Vec<Value>, values: &[Value]) -> Result<(), AllocError>
    ensures { OnOk result (kept.new.items ≡ values.now) }
{
    kept.clear();
    kept.extend_from_slice(values)?;
    Ok(())
}

/// Replaces a vector's values by these, for which it has room.
pub(crate) fn refill(operands: &mut Vec<Value>, values: &[Value])
    requires { length values.now ≤ vec_capacity operands.old }
    ensures values { operands.new.items ≡ values.now }
    ensures capacity { vec_capacity operands.old ≤ vec_capacity operands.new }
{
    operands.clear();
    for value in values {
        operands.push_reserved(*value);
    }
}
