//! The processes in a key.
ghost use Rattle.std.specs.Prelude.{◌≡◌, ◌++◌, ◌<◌, ℕ, OnOk, length, map, reverse};
ghost use Rattle.hep_machine.specs.Words.{Units};
ghost use Rattle.hep_proc.specs.Nodes.{nodes_of};
ghost use Rattle.hep_proc.specs.Stacks.{stack_of};
ghost use Rattle.hep_state.specs.Words.{IsReached, snapshot_of, stack_numbered};
ghost use Rattle.hep_state_text.specs.NodeKeys.{HaveNodes};
ghost use Rattle.hep_explore.specs.Contents.{held_stack, level_of};
ghost use Rattle.hep_explore.specs.Keys.{counted, level_words, stack_words};
ghost use Rattle.std.specs.Prelude.{List, Some};
ghost use Rattle.hep_layout.specs.Words.{FrameNode};

use crate::key_parts::append_values;
use hep_proc::{Frames, Local, Process};
use hep_views::CoreState;
use std::alloc::AllocError;

fn append_level(words: &mut Vec<u64>, frames: &Frames, level: Local) -> Result<(), AllocError>
    requires { (n : FrameNode) × (nodes_of frames.now.nodes level.key ≡ Some n) }
    ensures { OnOk result (words.new.items ≡ words.old.items ++ level_words (level_of (nodes_of frames.now.nodes) level)) }
{
    let (unit, kept) = (u64::from(level.unit), u64::from(level.kept));
    words.extend_from_slice(&[frames.activation(level.key), unit, kept, level.index as u64])
}

// The levels, the last one first, with their number before them.
fn append_levels(words: &mut Vec<u64>, frames: &Frames, levels: &[Local]) -> Result<(), AllocError>
    requires { HaveNodes (nodes_of frames.now.nodes) levels.now }
    ensures { OnOk result (words.new.items
        ≡ words.old.items ++ counted level_words (map (level_of (nodes_of frames.now.nodes)) (reverse levels.now))) }
{
    words.push(levels.len() as u64)?;
    for index in 0..levels.len() {
        append_level(words, frames, levels[levels.len() - 1 - index])?;
    }
    Ok(())
}

fn append_process(
    words: &mut Vec<u64>,
    frames: &Frames,
    process: &Process,
) -> Result<(), AllocError>
    requires { HaveNodes (nodes_of frames.now.nodes) process.now.levels.items }
    ensures { OnOk result (words.new.items
        ≡ words.old.items ++ stack_words (held_stack (nodes_of frames.now.nodes) (stack_of process.now))) }
{
    append_levels(words, frames, &process.levels)?;
    append_values(words, &process.operands)?;
    append_values(words, &process.pending)
}

// Process p, with nothing on its stack where it isn't kept.
fn append_numbered(words: &mut Vec<u64>, machine: &CoreState, p: u64) -> Result<(), AllocError>
    requires { (program : Units) × IsReached program machine.now }
    ensures { OnOk result (words.new.items
        ≡ words.old.items ++ stack_words (held_stack (nodes_of machine.now.frames.nodes) (stack_numbered machine.now.processes.items p))) }
{
    let found = machine
        .processes
        .binary_search_by_key(&p, |process| process.number);
    match found {
        Ok(at) => append_process(words, &machine.frames, &machine.processes[at]),
        Err(_) => words.extend_from_slice(&[0, 0, 0]),
    }
}

/// Appends the processes of a machine by their numbers, with their number before them.
///
/// # Errors
///
/// Only where memory was refused.
pub fn append_processes(words: &mut Vec<u64>, machine: &CoreState) -> Result<(), AllocError>
    requires { (program : Units) × IsReached program machine.now }
    ensures { OnOk result (words.new.items ≡ words.old.items
        ++ counted stack_words (map (held_stack (nodes_of machine.now.frames.nodes)) (snapshot_of machine.now).processes)) }
{
    words.push(machine.made)?;
    for before in 0..machine.made {
        append_numbered(words, machine, before + 1)?;
    }
    Ok(())
}
