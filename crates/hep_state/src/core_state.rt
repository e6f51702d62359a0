//! The state that a core keeps.
ghost use Rattle.std.specs.Prelude.{◌≡◌, ◌<◌, ◌++◌, ◌∷◌, [], vec_len, vec_capacity};

use hep_machine::{Fault, Record};
use hep_proc::{Frames, Process};
use hep_source::Value;
use hep_step::{ClosedRange, DummyStorage, Shape};

// Appends an element, for which there is room.
pub(crate) fn append<T: Drop>(items: &mut Vec<T>, added: T)
    requires { vec_len items.old < vec_capacity items.old }
    ensures { items.new.items ≡ items.old.items ++ added ∷ [] }
{
    let _ = items.push(added);
}

/// Buffers for one CALL, reference or PURGE: what the actual arguments give, and what the targets name.
pub struct ArgumentBuffers {
    /// What each dummy argument is given.
    pub given: Vec<DummyStorage>,
    /// The shape of each dummy argument that is an adjustable array.
    pub shapes: Vec<Option<Shape>>,
    /// The values of bounds, while shapes are computed.
    pub values: Vec<Value>,
    /// The cells that the last PURGE emptied.
    pub ranges: Vec<ClosedRange>,
}

// Written out, so that a caller's proof has one call of it at each exit.
impl Drop for ArgumentBuffers {
    fn drop(self) {
        let ArgumentBuffers {
            given,
            shapes,
            values,
            ranges,
        } = self;
    }
}

/// A state: the frames, the processes that are kept, the number of processes and of activations that were made, and
/// what was written.
pub struct CoreState {
    pub frames: Frames,
    /// In the order of their numbers. All living processes are kept. A process that has ended is kept until its place
    /// is needed.
    pub processes: Vec<Process>,
    pub made: u64,
    pub activations: u64,
    pub records: Vec<Record>,
    pub faults: Vec<Fault>,
    /// A STOP has ended all processes.
    pub halted: bool,
    /// It has room for the dummy arguments of each unit and for their bounds, and for the targets of each PURGE. So
    /// these take no memory in a run.
    pub passing: ArgumentBuffers,
}

// Written out, so that a caller's proof has one call of it at each exit.
impl Drop for CoreState {
    fn drop(self) {
        let CoreState {
            frames,
            processes,
            made,
            activations,
            records,
            faults,
            halted,
            passing,
        } = self;
    }
}
