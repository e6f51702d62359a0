//! The storage units that processes wait for, and whether they are full.
ghost use Rattle.std.specs.Prelude.{◌≡◌, ◌⊎◌, ◌≤◌, ◌++◌, ◌&&◌, ℕ, List, IfOk, IsSome, None, OnOk, Some, if◌then◌else◌, length, map, nat_le, not};
ghost use Rattle.std.specs.Option.{option_to_list};
ghost use Rattle.hep_replay.specs.CoreValues.{listed_after, state_of};
ghost use Rattle.hep_machine.specs.Words.{Location, living, run, same_logical, schedule_of};
ghost use Rattle.hep_why.specs.LatestChanges as words;
ghost use Rattle.hep_state.specs.Words.{IsMachineAfter};
ghost use Rattle.hep_why.specs.Watches.{AreNewWatches, CanLook, IsKeptIn, IsKeptOnceThere, IsMachineOf, IsWatchOf, Looks, TurnsMade, listed_from, looked, state_at};

use crate::reason::{Change, LatestChanges};
use crate::watch::Watch;
use hep_event::{CoreState, listed, whereabouts};
use hep_image::Image;
use hep_replay::Core;
use std::alloc::{AllocError, Global};

// The watch of process p, if it was found waiting and still waits.
fn watch_of(core: &Core, p: u64) -> Option<Watch>
    ensures { IsWatchOf core.now.core p result }
{
    match core.want(p) {
        Some(want) => Some(Watch {
            listed: listed(core.machine(), core.image(), p, want),
            cell: want.cell,
            full: false,
            latest: LatestChanges {
                last: None,
                before: None,
            },
        }),
        None => None,
    }
}

// Adds the watch of process p, if it was found waiting and still waits.
fn add_watch(watches: &mut Vec<Watch>, core: &Core, p: u64) -> Result<(), AllocError>
    ensures listed { OnOk result (map (λ w. w.listed) watches.new.items
        ≡ map (λ w. w.listed) watches.old.items ++ option_to_list (listed_after core.now.core.program core.now.core.history p)) }
    ensures each { OnOk result (AreNewWatches core.now.core.program core.now.core.cells (schedule_of core.now.core.history) watches.old.items
        → AreNewWatches core.now.core.program core.now.core.cells (schedule_of core.now.core.history) watches.new.items) }
{
    match watch_of(core, p) {
        Some(watch) => {
            watches.push(watch)?;
            Ok(())
        }
        None => Ok(()),
    }
}

/// The watches of all processes that were found waiting and still wait, by their numbers.
///
/// # Errors
///
/// Only where memory was refused.
pub(crate) fn all_watches(alloc: Global, core: &Core) -> Result<Vec<Watch>, AllocError>
    ensures listed { IfOk result (λ watches. map (λ w. w.listed) watches.items
        ≡ listed_from core.now.core.program core.now.core.history 1 (length (state_of core.now.core).processes)) }
    ensures each { IfOk result (λ watches. AreNewWatches core.now.core.program core.now.core.cells (schedule_of core.now.core.history) watches.items) }
{
    let mut watches = Vec::new(alloc);
    for index in 0..core.made() {
        add_watch(&mut watches, core, index + 1)?;
    }
    Ok(watches)
}

/// The next step of process p, which lives, as a change by the entry with this number.
pub(crate) fn change_by(machine: &CoreState, image: &Image, p: u64, entry: u64) -> Change
    requires { (cells : ℕ) × (choices : List ℕ) × IsMachineAfter image.now cells choices machine.now
        × IsSome (living (run image.now choices) p) }
    ensures { (cells : ℕ) (choices : List ℕ) → IsMachineAfter image.now cells choices machine.now → IsSome (living (run image.now choices) p)
        → words.change_by image.now entry p (run image.now choices) ≡ Some result }
{
    Change {
        entry,
        place: whereabouts(machine, image, p),
    }
}

// Whether the storage unit in a cell is full.
fn is_full(machine: &CoreState, cell: u32) -> bool
    requires { (t : TurnsMade) × (at : Location) × IsMachineOf t machine.now × IsKeptIn t at cell }
    ensures { (t : TurnsMade) (at : Location) → IsMachineOf t machine.now → IsKeptIn t at cell → result ≡ ((state_at t).store at).full }
{
    machine.frames.get(cell).full
}

// The latest changes of a watch, where its storage unit is full or not after a step, which is `change`.
fn latest(watch: Watch, made: u64, full: bool, change: Option<Change>) -> LatestChanges
    ensures { result ≡ (if nat_le watch.listed.owner made && not (same_logical watch.full full) then words.with_change change watch.latest else watch.latest) }
{
    if watch.listed.owner <= made && watch.full != full {
        LatestChanges {
            last: change,
            before: watch.latest.last,
        }
    } else {
        watch.latest
    }
}

// A watch after it has looked at its storage unit.
fn look_once(machine: &CoreState, watch: Watch, made: u64, change: Option<Change>) -> Watch
    requires { (t : TurnsMade) × (at : Location) × IsMachineOf t machine.now × IsKeptOnceThere t watch at }
    ensures { (t : TurnsMade) (at : Location) → IsMachineOf t machine.now → IsKeptOnceThere t watch at
        → result ≡ looked (state_at t) at made change watch }
{
    let made_now = machine.activations;
    if made_now < watch.listed.owner {
        return watch;
    }
    let full = is_full(machine, watch.cell);
    Watch {
        listed: watch.listed,
        cell: watch.cell,
        full,
        latest: latest(watch, made, full, change),
    }
}

/// Makes all watches look at their storage units after a step, before which `made` activations had been made, and
/// which is `change`.
pub(crate) fn look_at_all(
    machine: &CoreState,
    watches: &mut Vec<Watch>,
    made: u64,
    change: Option<Change>,
)
    requires { CanLook machine.now watches.old.items }
    ensures { Looks machine.now made change watches.old.items watches.new.items }
{
    for index in 0..watches.len() {
        watches[index] = look_once(machine, watches[index], made, change);
    }
}

/// Makes them look after steps that fill and empty nothing, before which `made` activations had been made, if any was
/// made since.
pub(crate) fn look_at_new(machine: &CoreState, watches: &mut Vec<Watch>, made: u64)
    requires { CanLook machine.now watches.old.items }
    ensures { Looks machine.now made None watches.old.items watches.new.items
        ⊎ ((machine.now.activations ≤ made) × (watches.new.items ≡ watches.old.items)) }
{
    let made_now = machine.activations;
    if made_now <= made {
        return;
    }
    look_at_all(machine, watches, made, None);
}
