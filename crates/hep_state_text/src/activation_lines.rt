//! The variables of activations, by the keys of their nodes.
ghost use Rattle.std.specs.Prelude.{◌≡◌, ◌++◌, ℕ, List, OnOk};
ghost use Rattle.hep_state_text.specs.Storage.{IsStorageOf};
ghost use Rattle.hep_machine.specs.Words.{run};
ghost use Rattle.hep_state.specs.Words.{IsMachineAfter};
ghost use Rattle.hep_state_text.specs.States as words;
ghost use Rattle.hep_state_text.specs.Frames.{held_frame, IsHeldIfAny, IsHeldSomewhere, IsHeldUnder, IsTextOfHeld};

use crate::activations::{NamedUnit, append_locals, append_values, unit_name};
use crate::associations::{StackedFrame, append_associations};
use crate::held_activations::{held_keys, stacked_keys};
use crate::laws::dummies_are_those_of_units;
use crate::lines::append_activation;
use crate::storage::StateStorage;
use hep_views::CoreState;
use std::alloc::{AllocError, Global};

/// The frame of a held activation: the key of its node, and whether the activation is on a stack.
#[derive(Clone, Copy)]
pub struct HeldFrame {
    pub key: usize,
    pub is_stacked: bool,
}

// The lines of the activation that has a frame.
fn append_frame(
    alloc: Global,
    text: &mut Vec<u8>,
    machine: &CoreState,
    storage: &StateStorage,
    held: HeldFrame,
) -> Result<(), AllocError>
    requires { IsHeldSomewhere storage.now machine.now held }
    ensures { OnOk result ((cells : ℕ) (choices : List ℕ) (a : ℕ) → IsHeldUnder storage.now machine.now held cells choices a
        → text.new.items ≡ text.old.items ++ words.activation_text storage.now.image.now (run storage.now.image.now choices) a) }
{
    let frames = storage.frames;
    let number = frames.unit(held.key);
    let symbols = &storage.symbols.units()[number as usize];
    let code = storage.image.unit(number as usize);
    let unit = NamedUnit { symbols, code };
    let first = frames.first(held.key);
    let name = unit_name(storage.image, number);
    append_activation(text, frames.activation(held.key), name)?;
    append_locals(alloc, text, frames, &unit, first)?;
    append_values(alloc, text, frames, &unit, first)?;
    if !held.is_stacked {
        return Ok(());
    }
    let frame = StackedFrame {
        machine,
        image: storage.image,
        key: held.key,
    };
    append_associations(alloc, text, &frame, &unit)?;
    Ok(())
}

// The lines of an activation, if it is held and so has a frame.
fn append_held(
    alloc: Global,
    text: &mut Vec<u8>,
    machine: &CoreState,
    storage: &StateStorage,
    held: Option<HeldFrame>,
) -> Result<(), AllocError>
    requires { IsHeldIfAny storage.now machine.now held }
    ensures { OnOk result (IsTextOfHeld storage.now machine.now held text.old.items text.new.items) }
{
    match held {
        None => Ok(()),
        Some(held) => append_frame(alloc, text, machine, storage, held),
    }
}

// The frame under a key, if there is one, of an activation that is on a stack or not.
fn held_frame(key: Option<usize>, is_stacked: bool) -> Option<HeldFrame>
    ensures { result ≡ held_frame key is_stacked }
{
    match key {
        None => None,
        Some(key) => Some(HeldFrame { key, is_stacked }),
    }
}

/// Appends the lines of all held activations, by their numbers.
///
/// # Errors
///
/// Only where memory was refused.
pub fn append_activations(
    alloc: Global,
    text: &mut Vec<u8>,
    machine: &CoreState,
    storage: &StateStorage,
) -> Result<(), AllocError>
    requires storage { IsStorageOf storage.now machine.now }
    requires after { (cells : ℕ) × (choices : List ℕ) × IsMachineAfter storage.now.image.now cells choices machine.now }
    ensures { OnOk result ((cells : ℕ) (choices : List ℕ) → IsMachineAfter storage.now.image.now cells choices machine.now
        → text.new.items ≡ text.old.items ++ words.activations_text storage.now.image.now (run storage.now.image.now choices) 1
        (run storage.now.image.now choices).activations) }
{
    storage.image.is_runnable();
    dummies_are_those_of_units();
    let keys = held_keys(alloc, machine)?;
    let stacked = stacked_keys(alloc, machine)?;
    for (index, key) in keys.iter().enumerate() {
        let held = held_frame(*key, stacked[index].is_some());
        append_held(alloc, text, machine, storage, held)?;
    }
    Ok(())
}
