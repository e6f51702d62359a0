//! The held activations, with the key of each one's node.
ghost use Rattle.std.specs.Prelude.{◌≡◌, ◌<◌, ℕ, List, IfOk, length, slice_get};
ghost use Rattle.hep_machine.specs.Words.{Units};
ghost use Rattle.hep_proc.specs.Nodes.{nodes_of};
ghost use Rattle.hep_state.specs.Words.{IsMachineAfter, snapshot_of};
ghost use Rattle.hep_state_text.specs.NodeKeys.{AreFrom, AreHeldKeys, AreKeys, AreNoted, AreStackedKeys, HaveNodes, IsClosedAt, IsForest, StayNoted};

use hep_proc::{Frames, Local};
use hep_views::CoreState;
use std::alloc::{AllocError, Global};

// Notes the keys of the nodes of these levels' activations.
fn note_levels(keys: &mut Vec<Option<usize>>, frames: &Frames, levels: &[Local])
    requires nodes { IsForest (nodes_of frames.now.nodes) (length keys.old.items) }
    requires there { HaveNodes (nodes_of frames.now.nodes) levels.now }
    requires keys { AreKeys (nodes_of frames.now.nodes) keys.old.items }
    ensures keys { AreKeys (nodes_of frames.now.nodes) keys.new.items }
    ensures still { StayNoted keys.old.items keys.new.items }
    ensures noted { AreNoted (nodes_of frames.now.nodes) levels.now keys.new.items }
    ensures only { AreFrom keys.old.items levels.now keys.new.items }
{
    for level in levels {
        keys[(frames.activation(level.key) - 1) as usize] = Some(level.key);
    }
}

// Notes the key of the parent's node of the activation at an index, if the activation is noted and has a parent.
fn note_parent(keys: &mut Vec<Option<usize>>, frames: &Frames, index: usize)
    requires nodes { IsForest (nodes_of frames.now.nodes) (length keys.old.items) }
    requires keys { AreKeys (nodes_of frames.now.nodes) keys.old.items }
    requires inside { index < length keys.old.items }
    ensures keys { AreKeys (nodes_of frames.now.nodes) keys.new.items }
    ensures still { StayNoted keys.old.items keys.new.items }
    ensures behind { (i : ℕ) → index < i → slice_get keys.new.items i ≡ slice_get keys.old.items i }
    ensures closed { IsClosedAt (nodes_of frames.now.nodes) keys.new.items index }
{
    let Some(key) = keys[index] else {
        return;
    };
    let Some(above) = frames.parent(key) else {
        return;
    };
    keys[(frames.activation(above) - 1) as usize] = Some(above);
}

// Notes the keys of all ancestors of noted activations. A parent has a lower number than its child.
fn note_parents(keys: &mut Vec<Option<usize>>, frames: &Frames)
    requires nodes { IsForest (nodes_of frames.now.nodes) (length keys.old.items) }
    requires keys { AreKeys (nodes_of frames.now.nodes) keys.old.items }
    ensures keys { AreKeys (nodes_of frames.now.nodes) keys.new.items }
    ensures still { StayNoted keys.old.items keys.new.items }
    ensures closed { (i : ℕ) → IsClosedAt (nodes_of frames.now.nodes) keys.new.items i }
{
    let count = keys.len();
    for step in 0..count {
        note_parent(keys, frames, count - 1 - step);
    }
}

/// The keys of the nodes of the activations on the stacks of processes, by the numbers of activations; none for others.
///
/// # Errors
///
/// Only where memory was refused.
pub fn stacked_keys(alloc: Global, machine: &CoreState) -> Result<Vec<Option<usize>>, AllocError>
    requires { (program : Units) × (cells : ℕ) × (choices : List ℕ) × IsMachineAfter program cells choices machine.now }
    ensures { IfOk result (λ keys. AreStackedKeys machine.now keys.items) }
{
    let mut keys = Vec::from_elem(alloc, None, machine.activations as usize)?;
    for process in &machine.processes {
        note_levels(&mut keys, &machine.frames, &process.levels);
    }
    Ok(keys)
}

/// The keys of the nodes of all activations, by their numbers; none for those that aren't held.
///
/// # Errors
///
/// Only where memory was refused.
pub fn held_keys(alloc: Global, machine: &CoreState) -> Result<Vec<Option<usize>>, AllocError>
    requires { (program : Units) × (cells : ℕ) × (choices : List ℕ) × IsMachineAfter program cells choices machine.now }
    ensures { IfOk result (λ keys. AreHeldKeys (snapshot_of machine.now) keys.items) }
{
    let mut keys = stacked_keys(alloc, machine)?;
    note_parents(&mut keys, &machine.frames);
    Ok(keys)
}
