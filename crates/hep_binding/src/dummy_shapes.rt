//! Whether the dummy arrays of a called unit fit what they are given.
ghost use Rattle.std.specs.Prelude.{◌≡◌, ◌<◌, ◌≤◌, ◌+◌, ◌++◌, ◌∷◌, [], true, length, slice_get, vec_len, vec_capacity};
ghost use Rattle.hep_image.specs.declared.dummy.DummyArgument.TheVariants.{Adjustable};
ghost use Rattle.hep_step.specs.Shapes as passing;
ghost use Rattle.hep_binding.specs.DummyShapes as definitions;
ghost use Rattle.hep_binding.specs.DummyShapes.{AreShapable, IsShapable, are_fitting, shapes_of};

use crate::adjustable_shape::shape_given;
use hep_arena::Arena;
use hep_code::BoundOperation;
use hep_source::Value;
use hep_step::{DummyArgument, DummyStorage, Shape};

// The number of storage units given to the dummy argument of a number; an expression is one.
fn count_given(given: &[DummyStorage], number: usize) -> u32
    ensures { result ≡ passing.count_of_given (slice_get given.now number) }
{
    match given.get(number) {
        None => 0,
        Some(DummyStorage::Value(_)) => 1,
        Some(DummyStorage::Units { count, .. }) => *count,
    }
}

// Whether an array has a shape, and no more elements than there are storage units.
fn has_room(count: u32, shape: &Option<Shape>) -> bool
    ensures { result ≡ definitions.has_room count shape.now }
{
    match shape {
        None => false,
        Some(shape) => shape.fits(count),
    }
}

// Appends the shape of an adjustable array with this code, and returns whether it fits what the array is given.
//
// It is a function of its own, so that other dummy arguments copy no shape.
#[inline(never)]
fn find_adjustable(
    code: &[BoundOperation],
    arena: &Arena,
    given: &[DummyStorage],
    stack: &mut Vec<Value>,
    shapes: &mut Vec<Option<Shape>>,
) -> bool
    requires readable { IsShapable arena.now given.now (vec_capacity stack.old) (Adjustable code.now) }
    requires room { vec_len shapes.old < vec_capacity shapes.old }
    ensures fits { result ≡ definitions.is_fitting_at arena.now.contents given.now (vec_len shapes.old) (Adjustable code.now) }
    ensures items { shapes.new.items ≡ shapes.old.items ++ definitions.shape_of_dummy arena.now.contents given.now (Adjustable code.now) ∷ [] }
    ensures length { vec_len shapes.new ≡ vec_len shapes.old + 1 }
    ensures rooms { (vec_capacity stack.old ≤ vec_capacity stack.new) × (vec_capacity shapes.old ≤ vec_capacity shapes.new) }
{
    let count = count_given(given, shapes.len());
    let shape = shape_given(code, arena, given, stack);
    let fits = has_room(count, &shape);
    shapes.push_reserved(shape);
    fits
}

// Appends the shape of the next dummy argument, and returns whether that fits what it is given.
fn find_shape(
    dummy: &DummyArgument,
    arena: &Arena,
    given: &[DummyStorage],
    stack: &mut Vec<Value>,
    shapes: &mut Vec<Option<Shape>>,
) -> bool
    requires readable { IsShapable arena.now given.now (vec_capacity stack.old) dummy.now }
    requires room { vec_len shapes.old < vec_capacity shapes.old }
    ensures fits { result ≡ definitions.is_fitting_at arena.now.contents given.now (vec_len shapes.old) dummy.now }
    ensures items { shapes.new.items ≡ shapes.old.items ++ definitions.shape_of_dummy arena.now.contents given.now dummy.now ∷ [] }
    ensures length { vec_len shapes.new ≡ vec_len shapes.old + 1 }
    ensures rooms { (vec_capacity stack.old ≤ vec_capacity stack.new) × (vec_capacity shapes.old ≤ vec_capacity shapes.new) }
{
    match dummy {
        DummyArgument::Scalar => {
            shapes.push_reserved(None);
            true
        }
        DummyArgument::Array(constant) => {
            let count = count_given(given, shapes.len());
            shapes.push_reserved(None);
            constant.fits(count)
        }
        DummyArgument::Adjustable(code) => {
            find_adjustable(code.as_slice(), arena, given, stack, shapes)
        }
    }
}

/// Whether each dummy array of a called unit has a shape and no more elements than it is given (X3.9-1978, 5.5.1 and
/// 15.9.3.3). If so, `shapes` has the shape of each adjustable array, at the number of its dummy argument. There is
/// room for a shape for each dummy argument, and on the stack for as many values as the longest code has operations,
/// so that this takes no memory. Both are overwritten.
pub fn find_shapes(
    dummies: &[DummyArgument],
    arena: &Arena,
    given: &[DummyStorage],
    stack: &mut Vec<Value>,
    shapes: &mut Vec<Option<Shape>>,
) -> bool
    requires readable { AreShapable arena.now given.now (vec_capacity stack.old) dummies.now }
    requires room { length dummies.now ≤ vec_capacity shapes.old }
    ensures fit { result ≡ are_fitting arena.now.contents given.now dummies.now }
    ensures found { result ≡ true → shapes.new.items ≡ shapes_of arena.now.contents given.now dummies.now }
    ensures stack { vec_capacity stack.old ≤ vec_capacity stack.new }
    ensures capacity { vec_capacity shapes.old ≤ vec_capacity shapes.new }
{
    shapes.clear();
    for dummy in dummies {
        if !find_shape(dummy, arena, given, stack, shapes) {
            return false;
        }
    }
    true
}

// The number of operations in the code of an adjustable array, 0 for other dummy arguments.
fn operations(dummy: &DummyArgument) -> usize
    ensures { result ≡ definitions.operations_of dummy.now }
{
    match dummy {
        DummyArgument::Scalar | DummyArgument::Array(_) => 0,
        DummyArgument::Adjustable(code) => code.as_slice().len(),
    }
}

/// The greatest number of values that [`find_shapes`] needs room for, for a unit with these dummy arguments: as many
/// as the longest code has operations.
pub fn longest_code(dummies: &[DummyArgument]) -> usize
    ensures { result ≡ definitions.longest_code dummies.now }
{
    let mut longest = 0;
    for dummy in dummies {
        longest = longest.max(operations(dummy));
    }
    longest
}
