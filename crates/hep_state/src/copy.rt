//! A copy of a machine: the same state in memory of its own, with the same room.
ghost use Rattle.std.specs.Prelude.{◌≡◌, ◌≤◌, IfOk, vec_capacity};
ghost use Rattle.std.specs.List.{AllZip};
ghost use Rattle.hep_state.specs.Words.{IsProcessCopy, KeepsRoom, snapshot_of};

use crate::core_state::{ArgumentBuffers, CoreState};
use hep_code::copy_all;
use hep_machine::Fault;
use hep_proc::Process;
use std::alloc::{AllocError, Global};

// Copies of processes. Fails only where memory was refused.
fn copy_processes(alloc: Global, processes: &[Process]) -> Result<Vec<Process>, AllocError>
    ensures { IfOk result (λ copies. AllZip IsProcessCopy processes.now copies.items) }
{
    let mut copies = Vec::with_capacity(alloc, processes.len())?;
    for process in processes {
        copies.push(process.copy(alloc)?)?;
    }
    Ok(copies)
}

// Copies of faults. Fails only where memory was refused.
fn copy_faults(alloc: Global, faults: &[Fault]) -> Result<Vec<Fault>, AllocError>
    ensures { IfOk result (λ copies. copies.items ≡ faults.now) }
{
    faults.to_vec(alloc)
}

// Buffers with the same room, and nothing in them. Fails only where memory was refused.
fn empty_buffers(alloc: Global, buffers: &ArgumentBuffers) -> Result<ArgumentBuffers, AllocError>
    ensures given { IfOk result (λ made. vec_capacity buffers.now.given ≤ vec_capacity made.given) }
    ensures shapes { IfOk result (λ made. vec_capacity buffers.now.shapes ≤ vec_capacity made.shapes) }
    ensures values { IfOk result (λ made. vec_capacity buffers.now.values ≤ vec_capacity made.values) }
    ensures ranges { IfOk result (λ made. vec_capacity buffers.now.ranges ≤ vec_capacity made.ranges) }
{
    Ok(ArgumentBuffers {
        given: Vec::with_capacity(alloc, buffers.given.capacity())?,
        shapes: Vec::with_capacity(alloc, buffers.shapes.capacity())?,
        values: Vec::with_capacity(alloc, buffers.values.capacity())?,
        ranges: Vec::with_capacity(alloc, buffers.ranges.capacity())?,
    })
}

impl CoreState {
    /// The same state in memory of its own, with as much room for operands, and to pass arguments. The cells in the
    /// machine's `passing` are left out.
    ///
    /// The call takes time linear in the number of cells of the arena, and in what was written.
    ///
    /// # Errors
    ///
    /// Only where memory was refused.
    pub fn copy(&self, alloc: Global) -> Result<CoreState, AllocError>
        ensures shown { IfOk result (λ copy. snapshot_of copy ≡ snapshot_of self.now) }
        ensures made { IfOk result (λ copy. copy.made ≡ self.now.made) }
        ensures rooms { IfOk result (λ copy. KeepsRoom self.now copy) }
    {
        let frames = self.frames.copy(alloc)?;
        let processes = copy_processes(alloc, &self.processes)?;
        let records = copy_all(alloc, &self.records)?;
        let faults = copy_faults(alloc, &self.faults)?;
        let passing = empty_buffers(alloc, &self.passing)?;
        Ok(CoreState {
            frames,
            processes,
            made: self.made,
            activations: self.activations,
            records,
            faults,
            halted: self.halted,
            passing,
        })
    }
}
