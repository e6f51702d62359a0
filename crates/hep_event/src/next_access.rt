//! The results of accesses that come next.
ghost use Rattle.std.specs.Prelude.{◌≡◌, ℕ, List, false, option_map};
ghost use Rattle.hep_code.specs.Words.{first_operand};
ghost use Rattle.hep_image.specs.Addressing.{address_of, cells_in};
ghost use Rattle.hep_state.specs.Words.{HasLevels, IsMachineAfter, snapshot_of};
ghost use Rattle.hep_step.specs.Cells.{HasFrame};
ghost use Rattle.hep_step.specs.Effects.{subscripts_in};
ghost use Rattle.hep_step.specs.StepReady.{IsOperationReady};
ghost use Rattle.hep_step.specs.Replies.{reply_meant};
ghost use Rattle.hep_event.specs.NextAccesses.{replied, replied_at};
ghost use Rattle.hep_event.specs.NextOperations.{IsNextOperationOf};

use crate::next_operation::NextOperation;
use hep_arena::Arena;
use hep_code::Operation;
use hep_image::Image;
use hep_source::Value;
use hep_state::laws::{settled_machines_show_the_same, tops_are_running};
use hep_state::{CoreState, place};
use hep_step::{Reply, Storage, reply_of, reply_to_store};

// The value that is stored, and the subscripts after it. In accepted programs there always is a value.
fn parted(operands: &[Value]) -> (Value, &[Value])
    ensures value { result.0 ≡ first_operand operands.now }
    ensures subscripts { result.1.now ≡ subscripts_in operands.now }
{
    match operands {
        [] => (Value::Truth(false), operands),
        [value, subscripts @ ..] => (*value, subscripts),
    }
}

// The reply of an operation that gives a value or stores one. `None` for other operations.
fn reply_by(
    arena: &Arena,
    storage: &Storage<'_>,
    operation: Operation,
    operands: &[Value],
) -> Option<Reply>
    requires frame { HasFrame arena.now storage.now.frame }
    requires ready { (capacity : ℕ) × IsOperationReady arena.now storage.now.arrays.now storage.now.frame capacity operands.now operation }
    ensures { option_map reply_meant result ≡ replied (cells_in arena.now.contents)
        (address_of (cells_in arena.now.contents) storage.now.frame.first storage.now.arrays.now) operation operands.now }
{
    let Storage { arrays, frame } = *storage;
    match operation {
        Operation::Evaluate(evaluation) => {
            let kept = operands.len().saturating_sub(evaluation.arity() as usize);
            Some(reply_of(arena, frame, arrays, evaluation, &operands[kept..]))
        }
        Operation::Store { variable, .. } => {
            let (value, subscripts) = parted(operands);
            Some(reply_to_store(arena, storage, variable, value, subscripts))
        }
        _ => None,
    }
}

/// The reply of the next operation of process p, which lives, if that gives a value or stores one. `None` for other
/// operations. Nothing is changed.
pub fn reply_ahead(
    machine: &CoreState,
    image: &Image,
    p: u64,
    coming: &NextOperation,
) -> Option<Reply>
    requires levels { HasLevels (snapshot_of machine.now) p }
    requires running { machine.now.halted ≡ false }
    requires after { (cells : ℕ) × (choices : List ℕ) × IsMachineAfter image.now cells choices machine.now }
    requires coming { IsNextOperationOf image.now machine.now p coming.now }
    ensures { (levels : HasLevels (snapshot_of machine.now) p)
        → option_map reply_meant result ≡ replied_at image.now (snapshot_of machine.now) levels.level coming.now }
{
    image.is_runnable();
    tops_are_running();
    settled_machines_show_the_same();
    let process = &machine.processes[machine.place(p)];
    let (unit, frame, _) = place(process, &machine.frames, image);
    let storage = Storage {
        arrays: unit.arrays.as_slice(),
        frame,
    };
    reply_by(
        &machine.frames.arena,
        &storage,
        coming.operation,
        &coming.operands,
    )
}
