//! The value of a bound.
ghost use Rattle.std.specs.Prelude.{◌≡◌, ◌<◌, ◌≤◌, ◌+◌, ◌++◌, ◌∷◌, [], length, slice_get, take, vec_len, vec_capacity, Some, None};
ghost use Rattle.std.specs.Prelude.{MatchOption};
ghost use Rattle.hep_arena.specs.Holes.{IsOut};
ghost use Rattle.hep_code.specs.BoundCode as definitions;
ghost use Rattle.hep_binding.specs.DummyContents.{AreReadable, IsFirstCell, IsReadable, left_by_code, left_by_operation, stored_for, stored_in};
ghost use Rattle.hep_binding.specs.DummyContents.{value_by_code};

use hep_arena::Arena;
use hep_code::BoundOperation;
use hep_machine::intrinsics::function_value;
use hep_machine::values::{combined_value, negated_value, signed_value};
use hep_source::Value;
use hep_step::DummyStorage;

// The value in a cell, if there is one.
fn stored(arena: &Arena, at: u32) -> Option<Value>
    requires inside { at < length arena.now.contents }
    requires out { IsOut at arena.now.holes }
    ensures { result ≡ stored_in arena.now.contents at }
{
    arena.get(at).value
}

// The value of a dummy argument, if it has one.
fn stored_given(arena: &Arena, given: &[DummyStorage], number: usize) -> Option<Value>
    requires readable { IsFirstCell arena.now (slice_get given.now number) }
    ensures { result ≡ stored_for arena.now.contents given.now number }
{
    match given.get(number) {
        None => None,
        Some(DummyStorage::Value(value)) => Some(*value),
        Some(DummyStorage::Units { first, .. }) => stored(arena, *first),
    }
}

// The value of an operation with these operands.
fn value_on(
    operation: BoundOperation,
    arena: &Arena,
    given: &[DummyStorage],
    operands: &[Value],
) -> Option<Value>
    requires readable { IsReadable arena.now given.now operation }
    ensures { result ≡ definitions.value_on (stored_in arena.now.contents)
        (stored_for arena.now.contents given.now) operation operands.now }
{
    match (operation, operands) {
        (BoundOperation::Value(value), _) => Some(value),
        (BoundOperation::InCommon(at), _) => stored(arena, at),
        (BoundOperation::InDummy(number), _) => stored_given(arena, given, number),
        (BoundOperation::Sign(sign), [operand]) => signed_value(sign, *operand).ok(),
        (BoundOperation::Not, [operand]) => Some(negated_value(*operand)),
        (BoundOperation::Combine(operator), [left, right]) => {
            combined_value(operator, *left, *right).ok()
        }
        (BoundOperation::Apply { function, .. }, _) => function_value(function, operands).ok(),
        _ => None,
    }
}

// Keeps the first `kept` values and pushes a value after them, for which there is room.
fn replace(stack: &mut Vec<Value>, kept: usize, value: Value)
    requires kept { kept ≤ vec_len stack.old }
    requires room { kept < vec_capacity stack.old }
    ensures items { stack.new.items ≡ take kept stack.old.items ++ value ∷ [] }
    ensures length { vec_len stack.new ≡ kept + 1 }
    ensures capacity { vec_capacity stack.old ≤ vec_capacity stack.new }
{
    stack.truncate(kept);
    let _ = stack.push(value);
}

// Makes an operation: its value replaces its operands.
fn operate(
    operation: BoundOperation,
    arena: &Arena,
    given: &[DummyStorage],
    stack: &mut Vec<Value>,
) -> Option<()>
    requires readable { IsReadable arena.now given.now operation }
    requires room { vec_len stack.old < vec_capacity stack.old }
    ensures done { MatchOption result (left_by_operation arena.now.contents given.now operation stack.old.items
        ≡ None) (λ _. left_by_operation arena.now.contents given.now operation stack.old.items ≡ Some stack.new.items) }
    ensures length { vec_len stack.new ≤ vec_len stack.old + 1 }
    ensures capacity { vec_capacity stack.old ≤ vec_capacity stack.new }
{
    let kept = stack.len().saturating_sub(operation.arity());
    let value = value_on(operation, arena, given, &stack[kept..])?;
    replace(stack, kept, value);
    Some(())
}

// Makes all operations of some code, one after another.
pub(crate) fn run(
    code: &[BoundOperation],
    arena: &Arena,
    given: &[DummyStorage],
    stack: &mut Vec<Value>,
) -> Option<()>
    requires readable { AreReadable arena.now given.now code.now }
    requires room { length code.now ≤ vec_capacity stack.old }
    ensures done { MatchOption result (left_by_code arena.now.contents given.now code.now
        ≡ None) (λ _. left_by_code arena.now.contents given.now code.now ≡ Some stack.new.items) }
    ensures capacity { vec_capacity stack.old ≤ vec_capacity stack.new }
{
    stack.clear();
    for operation in code {
        operate(*operation, arena, given, stack)?;
    }
    Some(())
}

// The value, if there is just one.
fn only_value(stack: &[Value]) -> Option<Value>
    ensures { result ≡ definitions.only_value stack.now }
{
    match stack {
        [value] => Some(*value),
        _ => None,
    }
}

/// The value of a bound by its code, with what the dummy arguments of the called unit are given. `None` where an
/// operation faults or something in it has no value (X3.9-1978, 5.5.1). The stack has room for as many values as the
/// code has operations, so that this takes no memory. It is overwritten.
pub fn bound_value(
    code: &[BoundOperation],
    arena: &Arena,
    given: &[DummyStorage],
    stack: &mut Vec<Value>,
) -> Option<Value>
    requires readable { AreReadable arena.now given.now code.now }
    requires room { length code.now ≤ vec_capacity stack.old }
    ensures value { result ≡ value_by_code arena.now.contents given.now code.now }
    ensures capacity { vec_capacity stack.old ≤ vec_capacity stack.new }
{
    run(code, arena, given, stack)?;
    only_value(stack)
}
