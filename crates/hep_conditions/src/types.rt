//! Equality of declared types (X3.9-1978, 4.1).
ghost use Rattle.std.specs.Prelude.{◌≡◌};
ghost use Rattle.hep_conditions.specs.Statements as types;

use hep_source::ValueType;

fn same_type(first: ValueType, second: ValueType) -> bool
    ensures { result ≡ types.same_type first second }
{
    match (first, second) {
        (ValueType::Integer, ValueType::Integer) | (ValueType::Logical, ValueType::Logical) => true,
        _ => false,
    }
}

/// Whether the types of two names are the same: integer, logical, or none for real.
pub fn same_declared(first: Option<ValueType>, second: Option<ValueType>) -> bool
    ensures { result ≡ types.same_declared first second }
{
    match (first, second) {
        (None, None) => true,
        (Some(first), Some(second)) => same_type(first, second),
        _ => false,
    }
}
