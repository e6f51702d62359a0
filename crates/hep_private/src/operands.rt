//! Operands in a buffer of a fixed size.
ghost use Rattle.std.specs.Prelude.{◌≡◌, ◌≤◌, ◌++◌, ◌∷◌, [], length, nat_lt, take, if◌then◌else◌};
ghost use Rattle.hep_code.specs.Words.{most_operands};

use hep_source::Value;
use std::marker::Model;

pub const MOST_OPERANDS: usize = 256;

/// The operands of an activation, 256 at most. Contracts see the list of them.
#[derive(Drop)]
pub struct Operands {
    values: [Value; MOST_OPERANDS],
    count: usize,
}

impl Model for Operands {
    ghost use Rattle.std.specs.Prelude.{◌≤◌, List, take};
    ghost use Rattle.hep_source.specs.declared.value.Value.{Value as AValue};
    ghost use Rattle.hep_code.specs.Words.{most_operands};

    ghost Value = { List AValue };

    ghost view = { λ o. take o.count o.values };

    ghost invariant = { λ o. o.count ≤ most_operands };
}

impl Operands {
    pub fn new() -> Operands
        ensures { result ≡ [] }
    {
        Operands {
            values: [Value::Truth(false); MOST_OPERANDS],
            count: 0,
        }
    }

    /// The operands.
    #[inline(always)]
    pub fn as_slice(&self) -> &[Value]
        ensures operands { result.now ≡ self.now }
        ensures few { length result.now ≤ most_operands }
    {
        &self.values[..self.count]
    }

    /// Pushes a value, if there is room for it, and returns whether there was.
    #[inline(always)]
    pub fn push(&mut self, value: Value) -> bool
        ensures room { result ≡ nat_lt (length self.old) most_operands }
        ensures operands { self.new ≡ (if result then self.old ++ value ∷ [] else self.old) }
    {
        if self.count == MOST_OPERANDS {
            return false;
        }
        self.values[self.count] = value;
        self.count += 1;
        true
    }

    /// Keeps the first `kept` operands and pushes a value after them, if there is room for it. Returns whether there
    /// was.
    #[inline(always)]
    pub fn replace(&mut self, kept: usize, value: Value) -> bool
        ensures room { result ≡ nat_lt (length (take kept self.old)) most_operands }
        ensures operands { self.new ≡ (if result then take kept self.old ++ value ∷ [] else self.old) }
    {
        let kept = kept.min(self.count);
        if kept == MOST_OPERANDS {
            return false;
        }
        self.values[kept] = value;
        self.count = kept + 1;
        true
    }

    /// Keeps the first `count` operands, or all where there are fewer.
    #[inline(always)]
    pub fn truncate(&mut self, count: usize)
        ensures { self.new ≡ take count self.old }
    {
        if count < self.count {
            self.count = count;
        }
    }
}

/// Replaces all operands by these values.
pub fn assign(operands: &mut Operands, values: &[Value])
    requires { length values.now ≤ most_operands }
    ensures { operands.new ≡ values.now }
{
    operands.truncate(0);
    for value in values {
        operands.push(*value);
    }
}
