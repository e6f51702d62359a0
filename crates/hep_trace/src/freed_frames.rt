//! Activations whose frames a turn gives back.
ghost use Rattle.std.specs.Prelude.{◌≡◌, ◌≤◌, ◌++◌, ℕ, nat_le, IfOk, List, OnOk, Some, length, not, reverse, slice_get, take};
ghost use Rattle.std.specs.List.{filter};
ghost use Rattle.hep_core.specs.CoreValues.{CoreValue, state_of};
ghost use Rattle.hep_layout.specs.Words.{FrameNode};
ghost use Rattle.hep_machine.specs.Words.{Level, Process as SourceProcess, Units, is_held, living, run};
ghost use Rattle.hep_proc.specs.Nodes.{nodes_of};
ghost use Rattle.hep_state.specs.Words.{IsMachineAfter};
ghost use Rattle.hep_trace.specs.Ancestry as words;
ghost use Rattle.hep_trace.specs.Ancestry.{IsAncestryOf, activation_on};
ghost use Rattle.hep_trace.specs.FreedFrames.{AreHeldUpwards, IsFreeing};
ghost use Rattle.hep_trace.specs.References.{IsAhead, top_after};
ghost use Rattle.hep_event.specs.LineTexts as lines;
ghost use Rattle.hep_event.specs.Traces.{freed};

use crate::held_activations::is_held;
use crate::reference::LiveProcess;
use hep_event::{Core, append_freed};
use hep_state::CoreState;
use hep_views::lookup::top_level;
use std::alloc::{AllocError, Global};

// The activation whose node is under a key, and all those above it: its parent, the parent's parent and so on.
fn ancestors(alloc: Global, machine: &CoreState, key: usize) -> Result<Vec<u64>, AllocError>
    requires { (program : Units) × (cells : ℕ) × (choices : List ℕ) × IsMachineAfter program cells choices machine.now
        × (n : FrameNode) × (nodes_of machine.now.frames.nodes key ≡ Some n) }
    ensures { IfOk result (λ activations. (program : Units) (cells : ℕ) (choices : List ℕ) (n : FrameNode)
        → IsMachineAfter program cells choices machine.now → nodes_of machine.now.frames.nodes key ≡ Some n
        → activations.items ≡ words.ancestry (run program choices) n.activation n.activation) }
{
    let mut activations = Vec::new(alloc);
    let mut next = Some(key);
    while let Some(at) = next {
        activations.push(machine.frames.activation(at))?;
        next = machine.frames.parent(at);
    }
    Ok(activations)
}

/// The top activation of a process that lives, and all those above it: its parent, the parent's parent and so on.
///
/// # Errors
///
/// Only where memory was refused.
pub fn ancestry(alloc: Global, ahead: &LiveProcess<'_>) -> Result<Vec<u64>, AllocError>
    requires { (cells : ℕ) × (choices : List ℕ) × (top : Level × SourceProcess) × IsAhead cells choices ahead.now top }
    ensures { IfOk result (λ activations. (cells : ℕ) (choices : List ℕ) (top : Level × SourceProcess) → IsAhead cells choices ahead.now top
        → IsAncestryOf (top_after ahead.now.image.now choices ahead.now.process top) activations.items) }
{
    let top = top_level(ahead.machine, ahead.process);
    ancestors(alloc, ahead.machine, top.key)
}

// The top activation of process p; 0 where it doesn't live.
fn top_activation(machine: &CoreState, p: u64) -> u64
    requires { (program : Units) × (cells : ℕ) × (choices : List ℕ) × IsMachineAfter program cells choices machine.now }
    ensures { (program : Units) (cells : ℕ) (choices : List ℕ) → IsMachineAfter program cells choices machine.now
        → result ≡ activation_on (living (run program choices) p) }
{
    if !machine.lives(p) {
        return 0;
    }
    machine.frames.activation(top_level(machine, p).key)
}

// The number of activations at the front of an ancestry that aren't held. All after the first held one are held.
fn count_unheld(core: &Core, activations: &[u64]) -> usize
    requires { AreHeldUpwards (state_of core.now.core) activations.now }
    ensures few { result ≤ length activations.now }
    ensures first { filter (λ a. not (is_held (state_of core.now.core) a)) activations.now ≡ take result activations.now }
{
    for index in 0..activations.len() {
        if is_held(core.machine(), activations[index]) {
            return index;
        }
    }
    activations.len()
}

// The activations of an ancestry that aren't held, the last one first.
fn unheld(alloc: Global, core: &Core, activations: &[u64]) -> Result<Vec<u64>, AllocError>
    requires { AreHeldUpwards (state_of core.now.core) activations.now }
    ensures { IfOk result (λ numbers. numbers.items ≡ reverse (filter (λ a. not (is_held (state_of core.now.core) a)) activations.now)) }
{
    let count = count_unheld(core, activations);
    let mut numbers = activations[..count].to_vec(alloc)?;
    numbers.reverse();
    Ok(numbers)
}

// Whether the top activation of process p is the first one of these or was made later.
fn goes_on(core: &Core, p: u64, activations: &[u64]) -> bool
    ensures { (a : ℕ) → slice_get activations.now 0 ≡ Some a → result ≡ nat_le a (activation_on (living (state_of core.now.core) p)) }
{
    match activations.first() {
        Some(first) => *first <= top_activation(core.machine(), p),
        None => false,
    }
}

/// Appends the activations whose frames a turn of process p gave back. `activations` is the ancestry of its top
/// activation before the turn.
///
/// This costs a constant time where the top activation goes on. Where it has ended, it costs one call of `is_held`
/// for it, and one for each of those that end with it.
///
/// # Errors
///
/// Only where memory was refused.
pub fn append_freed_of(
    alloc: Global,
    text: &mut Vec<u8>,
    core: &Core,
    p: u64,
    activations: &[u64],
) -> Result<(), AllocError>
    requires { (old : CoreValue) × (top : Level × SourceProcess) × IsFreeing old p top activations.now core.now.core }
    ensures { OnOk result ((old : CoreValue) (top : Level × SourceProcess) → IsFreeing old p top activations.now core.now.core
        → text.new.items ≡ text.old.items ++ lines.all_freed_text (freed (state_of old) (state_of core.now.core))) }
{
    if goes_on(core, p, activations) {
        return Ok(());
    }
    let numbers = unheld(alloc, core, activations)?;
    append_freed(text, &numbers)
}
