//! Operands of activations that have others above them (X3.9-1978, 15.5.2).
ghost use Rattle.std.specs.Prelude.{◌≡◌, ◌≤◌, ◌<◌, ◌+◌, ◌-◌, ◌++◌, [], drop, length, take, vec_len, vec_capacity};
ghost use Rattle.hep_proc.specs.Stacks.{HasRoomForValue, TakesValue};

use crate::process::Process;
use hep_source::Value;

// Moves the first `kept` operands to the end of the pending ones, and removes all others. There is room for them.
#[inline(always)]
pub(crate) fn keep_back(operands: &mut Vec<Value>, pending: &mut Vec<Value>, kept: usize)
    requires few { kept ≤ vec_len operands.old }
    requires room { vec_len pending.old + kept ≤ vec_capacity pending.old }
    ensures pending { pending.new.items ≡ pending.old.items ++ take kept operands.old.items }
    ensures none { operands.new.items ≡ [] }
    ensures capacity { vec_capacity operands.new ≡ vec_capacity operands.old }
{
    // Most CALLs leave none.
    if kept > 0 {
        let _ = pending.extend_from_slice(&operands[..kept]);
    }
    operands.clear();
}

// Moves the last `kept` pending operands back to the operands, which are empty. There is room for them.
#[inline(always)]
fn bring_back(operands: &mut Vec<Value>, pending: &mut Vec<Value>, kept: usize)
    requires none { operands.old.items ≡ [] }
    requires room { kept ≤ vec_capacity operands.old }
    ensures operands { operands.new.items ≡ drop (length pending.old.items - kept) pending.old.items }
    ensures pending { pending.new.items ≡ take (length pending.old.items - kept) pending.old.items }
    ensures capacity { vec_capacity operands.old ≤ vec_capacity operands.new }
{
    if kept == 0 {
        return;
    }
    let first = pending.len().saturating_sub(kept);
    let _ = operands.extend_from_slice(&pending[first..]);
    pending.truncate(first);
}

impl Process {
    /// Takes the value of a function that has ended: the top activation, if there is one, has the operands back that
    /// it kept, and the value after them. There is room for them.
    #[inline(always)]
    pub fn take_value(&mut self, value: Value)
        requires none { self.old.operands.items ≡ [] }
        requires room { HasRoomForValue self.old }
        ensures stack { TakesValue self.old value self.new }
        ensures number { self.new.number ≡ self.old.number }
        ensures levels { self.new.levels ≡ self.old.levels }
        ensures capacity { vec_capacity self.old.operands ≤ vec_capacity self.new.operands }
    {
        if self.levels.is_empty() {
            return;
        }
        let kept = self.top().kept as usize;
        bring_back(&mut self.operands, &mut self.pending, kept);
        self.operands.push_reserved(value);
    }
}
