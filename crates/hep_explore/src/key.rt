//! The key of a machine: what it keeps of a state, as bytes.
ghost use Rattle.std.specs.Prelude.{◌≡◌, ◌++◌, IfOk, OnOk};
ghost use Rattle.hep_machine.specs.Words.{Units};
ghost use Rattle.hep_state.specs.Words.{IsReached, snapshot_of};
ghost use Rattle.hep_explore.specs.KeyParts.{AreHeldNodes};
ghost use Rattle.hep_explore.specs.Keys as spec;
ghost use Rattle.hep_explore.specs.Keys.{IsKeyOf};

use crate::key_parts::{append_cells, append_faults, append_frames, append_records};
use crate::key_processes::append_processes;
use hep_image::Image;
use hep_state_text::held_keys;
use hep_views::CoreState;
use std::alloc::{AllocError, Global};

/// What a machine keeps, as bytes: two machines of a program with the same bytes keep the same states. The keys of nodes and the cells of
/// holes are left out.
#[derive(Debug, PartialEq, Eq, Hash, Drop)]
pub struct Key {
    pub bytes: Vec<u8>,
}

// The keys of the nodes of all held activations. Fails only where memory was refused.
fn held_nodes(alloc: Global, machine: &CoreState) -> Result<Vec<usize>, AllocError>
    requires { (program : Units) × IsReached program machine.now }
    ensures { IfOk result (λ nodes. AreHeldNodes machine.now nodes.items) }
{
    let keys = held_keys(alloc, machine)?;
    let mut nodes = Vec::new(alloc);
    for key in &keys {
        if let Some(key) = key {
            nodes.push(*key)?;
        }
    }
    Ok(nodes)
}

// Appends a word in groups of seven bits.
fn append_word(bytes: &mut Vec<u8>, word: u64) -> Result<(), AllocError>
    ensures { OnOk result (bytes.new.items ≡ bytes.old.items ++ spec.word_bytes word) }
{
    let mut left = word;
    while left >= 128 {
        bytes.push((left % 128) as u8 + 128)?;
        left /= 128;
    }
    bytes.push(left as u8)?;
    Ok(())
}

// Words as bytes, which take no more memory than they need.
fn bytes_of(alloc: Global, words: &[u64]) -> Result<Vec<u8>, AllocError>
    ensures { IfOk result (λ bytes. bytes.items ≡ spec.bytes_of words.now) }
{
    let mut bytes = Vec::new(alloc);
    for word in words {
        append_word(&mut bytes, *word)?;
    }
    Vec::from_slice(alloc, &bytes)
}

/// The key of a machine.
///
/// # Errors
///
/// Only where memory was refused.
pub fn key_of(alloc: Global, image: &Image, machine: &CoreState) -> Result<Key, AllocError>
    requires { IsReached image.now machine.now }
    ensures { IfOk result (λ key. IsKeyOf image.now (snapshot_of machine.now) key.bytes.items) }
{
    let nodes = held_nodes(alloc, machine)?;
    let mut words = Vec::new(alloc);
    words.extend_from_slice(&[machine.activations, u64::from(machine.halted)])?;
    append_cells(&mut words, &machine.frames, 0, image.common())?;
    append_frames(&mut words, &machine.frames, &nodes)?;
    append_processes(&mut words, machine)?;
    append_records(&mut words, &machine.records)?;
    append_faults(&mut words, &machine.faults)?;
    Ok(Key {
        bytes: bytes_of(alloc, &words)?,
    })
}
