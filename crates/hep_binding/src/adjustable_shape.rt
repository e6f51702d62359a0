//! The shape of an adjustable array.
ghost use Rattle.std.specs.Prelude.{◌≡◌, ◌≤◌, [], length, vec_capacity, Some};
ghost use Rattle.std.specs.Option.{option_map};
ghost use Rattle.hep_machine.specs.Words.{if_shape};
ghost use Rattle.hep_code.specs.DimensionCode as definitions;
ghost use Rattle.hep_binding.specs.DummyContents.{AreReadable, shape_by_code};

use crate::bound_evaluation::run;
use arrayvec::ArrayVec;
use hep_arena::Arena;
use hep_code::BoundOperation;
use hep_machine::Bound;
use hep_machine::values::integer_of;
use hep_source::Value;
use hep_step::{DummyStorage, Shape};

// Two values for each dimension. An array has seven dimensions at most (X3.9-1978, 5.1.1).
const MOST_VALUES: usize = 14;

// The bounds of the first dimension, and the values after them.
fn bound_ahead(values: &[Value]) -> Option<(Bound, &[Value])>
    ensures { option_map (λ pair. (pair.0, pair.1.now)) result ≡ definitions.bound_ahead values.now }
{
    match values {
        [] => None,
        [lower] => {
            let lower = integer_of(*lower);
            Some((Bound { lower, upper: None }, &[]))
        }
        [lower, upper, behind @ ..] => {
            let (lower, upper) = (integer_of(*lower), Some(integer_of(*upper)));
            Some((Bound { lower, upper }, behind))
        }
    }
}

// The bounds that these values are, two for each dimension.
fn bounds_in(values: &[Value]) -> ArrayVec<Bound, 7>
    requires few { length (definitions.bounds_in values.now) ≤ 7 }
    ensures { result.items ≡ definitions.bounds_in values.now }
{
    let mut bounds = ArrayVec::new();
    let mut rest = values;
    while let Some((bound, behind)) = bound_ahead(rest) {
        bounds.push(bound);
        rest = behind;
    }
    bounds
}

// The shape that these values are, if they are one.
#[tactic(auto, using(hep_code::proofs::Dimensions::many_no_shape, hep_code::proofs::Dimensions::few_bounds))]
fn shape_in(values: &[Value]) -> Option<Shape>
    ensures { result ≡ if_shape (Some (definitions.bounds_in values.now)) }
{
    if MOST_VALUES < values.len() {
        return None;
    }
    Shape::new(&bounds_in(values))
}

/// The shape of an array by the code of its dimensions, with what the dummy arguments of the called unit are given.
/// `None` where a bound has no value, or the bounds are no shape (X3.9-1978, 5.1.1, 5.1.2 and 5.5.1). The stack has
/// room for as many values as the code has operations, so that this takes no memory. It is overwritten.
pub fn shape_given(
    code: &[BoundOperation],
    arena: &Arena,
    given: &[DummyStorage],
    stack: &mut Vec<Value>,
) -> Option<Shape>
    requires readable { AreReadable arena.now given.now code.now }
    requires room { length code.now ≤ vec_capacity stack.old }
    ensures shape { result ≡ shape_by_code arena.now.contents given.now code.now }
    ensures capacity { vec_capacity stack.old ≤ vec_capacity stack.new }
{
    run(code, arena, given, stack)?;
    shape_in(stack)
}
