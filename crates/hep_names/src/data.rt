//! Values of DATA and their repeat counts (X3.9-1978, 9.1).
ghost use Rattle.std.specs.Prelude.{◌≡◌};
ghost use Rattle.hep_machine.specs.Words.{value_among};
ghost use Rattle.hep_machine.specs.Data as machine;

use crate::constants::Constants;
use hep_source::{DataConstant, DataGroup, Form, Repeat, Value};

/// The groups of names and values of a DATA statement.
pub fn groups_in(form: &Form) -> &[DataGroup]
    ensures { result.now ≡ machine.groups_in form.now }
{
    match form {
        Form::Data(groups) => groups.as_slice(),
        _ => &[],
    }
}

fn count_by(value: Option<Value>) -> Option<u64>
    ensures { result ≡ machine.count_by value }
{
    match value {
        Some(Value::Int(count)) if 1 <= count => Some(count.unsigned_abs()),
        _ => None,
    }
}

/// The repeat count of a value of DATA, by these constants: 1 where none is written (9.1). None where a name has no
/// value, or a value that isn't an integer of at least 1.
pub fn repeat_of(constants: &Constants, repeat: Option<Repeat>) -> Option<u64>
    ensures { result ≡ machine.repeat_of (value_among constants.now) repeat }
{
    match repeat {
        None => Some(1),
        Some(Repeat::Count(count)) if 0 <= count => Some(count.unsigned_abs()),
        Some(Repeat::Count(_)) => Some(0),
        Some(Repeat::Named(occurrence)) => count_by(constants.get(&occurrence.name)),
    }
}

/// The value of a constant in DATA, by these constants; none where it is a name that has no value.
pub fn value_of_constant(constants: &Constants, constant: DataConstant) -> Option<Value>
    ensures { result ≡ machine.value_of_constant (value_among constants.now) constant }
{
    match constant {
        DataConstant::Value(value) => Some(value),
        DataConstant::Named(occurrence) => constants.get(&occurrence.name),
    }
}
