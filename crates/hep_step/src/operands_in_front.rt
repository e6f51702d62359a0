//! The operands before those that are passed.
ghost use Rattle.std.specs.Prelude.{◌≡◌, ◌-◌, take};
ghost use Rattle.hep_code.specs.Words as code;

use crate::passed_argument::first_of;
use hep_code::{Instruction, operands_of_entry};

/// The number of operands before those that the first `count` entries pass, of `operands` operands in all.
pub fn in_front(entries: &[Instruction], count: usize, operands: usize) -> usize
    ensures { result ≡ operands - code.operands_of_entries (take count entries.now) }
{
    let mut left = operands;
    for entry in first_of(entries, count) {
        left = left.saturating_sub(operands_of_entry(entry));
    }
    left
}
