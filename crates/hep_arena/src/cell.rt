//! The representation of a cell in memory.
ghost use Rattle.std.specs.Prelude.{◌≡◌, Some};
ghost use Rattle.std.specs.Option.{option_map};
ghost use Rattle.hep_machine.specs.Words.{integer_of};

use hep_machine::{Slot, Value};
use std::marker::Model;

// The kind of value in a cell: an integer, a logical value, or no value.
#[derive(Clone, Copy)]
enum Holding {
    Nothing,
    Integer,
    False,
    True,
}

/// A cell, which takes half the bytes of its slot. Contracts see it as its slot.
///
/// `number` is the integer in the cell, and 0 where the cell holds no integer.
#[derive(Clone, Copy)]
pub struct Cell {
    number: i64,
    holding: Holding,
    full: bool,
}

impl Model for Cell {
    ghost use Rattle.hep_machine.specs.declared.slot.Slot.{Slot};

    ghost Value = { Slot };

    ghost use Rattle.hep_arena.specs.Cells.{IsCell, cell_of, same-again, slot_of};

    ghost view = { slot_of };

    ghost invariant = { IsCell };

    ghost inverse = { cell_of };

    ghost inverse_ok = { same-again };
}

impl Cell {
    ghost use Rattle.hep_arena.specs.Cells.{IsHeld, value_held};

    /// Makes the cell with this slot.
    #[inline(always)]
    pub fn new(slot: Slot) -> Cell
        ensures { result ≡ slot }
    {
        let full = slot.full;
        match slot.value {
            None => Cell {
                number: 0,
                holding: Holding::Nothing,
                full,
            },
            Some(Value::Int(number)) => Cell {
                number,
                holding: Holding::Integer,
                full,
            },
            Some(Value::Truth(false)) => Cell {
                number: 0,
                holding: Holding::False,
                full,
            },
            Some(Value::Truth(true)) => Cell {
                number: 0,
                holding: Holding::True,
                full,
            },
        }
    }

    /// The value that was stored last, if there is one.
    #[inline(always)]
    pub fn value(&self) -> Option<Value>
        ensures { result ≡ self.now.value }
    {
        match self.holding {
            Holding::Nothing => None,
            Holding::Integer => Some(Value::Int(self.number)),
            Holding::False => Some(Value::Truth(false)),
            Holding::True => Some(Value::Truth(true)),
        }
    }

    /// The slot of the cell.
    #[inline(always)]
    pub fn slot(&self) -> Slot
        ensures { result ≡ self.now }
    {
        Slot {
            value: self.value(),
            full: self.full,
        }
    }

    /// The integer of the cell's value, if it has one. It is 0 for a logical value, as in `integer_of`.
    #[inline(always)]
    pub fn integer(&self) -> Option<i64>
        ensures { result ≡ option_map integer_of self.now.value }
    {
        match self.holding {
            Holding::Nothing => None,
            Holding::Integer => Some(self.number),
            Holding::False => Some(self.number),
            Holding::True => Some(self.number),
        }
    }

    // Writes the kind of value and the number. The fields are written one by one: a copy of a whole cell would also copy its padding.
    #[inline(always)]
    fn hold(&mut self, holding: Holding, number: i64)
        requires { IsHeld holding number }
        ensures { self.new ≡ record { value = value_held holding number; full = self.old.full } }
    {
        self.number = number;
        self.holding = holding;
    }

    /// Stores a value. The cell stays full or empty.
    #[inline(always)]
    pub fn store(&mut self, value: Value)
        ensures { self.new ≡ record { value = Some value; full = self.old.full } }
    {
        match value {
            Value::Int(integer) => self.hold(Holding::Integer, integer),
            Value::Truth(false) => self.hold(Holding::False, 0),
            Value::Truth(true) => self.hold(Holding::True, 0),
        }
    }

    /// Replaces the slot.
    #[inline(always)]
    pub fn set(&mut self, slot: Slot)
        ensures { self.new ≡ slot }
    {
        self.full = slot.full;
        match slot.value {
            None => self.hold(Holding::Nothing, 0),
            Some(Value::Int(integer)) => self.hold(Holding::Integer, integer),
            Some(Value::Truth(false)) => self.hold(Holding::False, 0),
            Some(Value::Truth(true)) => self.hold(Holding::True, 0),
        }
    }
}
