//! The outcomes of a program, over all choices.
ghost use Rattle.std.specs.Prelude.{◌≡◌, ◌⊎◌, ◌≤◌, ◌+◌, ℕ, List, true, false, IfOk, None, OnOk, length};
ghost use Rattle.hep_machine.specs.Words.{AreSteps, opening, opening_layout};
ghost use Rattle.hep_explore.specs.Explored.{IsExplored};
ghost use Rattle.hep_state.specs.Words.{CanOpen};
ghost use Rattle.hep_explore.specs.FoundOutcomes.{AreListed, AreOutcomes, IsOutcomeBy, KeepsFound};
ghost use Rattle.hep_explore.specs.CountedStates.{HaveStates, IsCutBy};
ghost use Rattle.hep_explore.specs.Searching.{AreExpanded, IsDone, IsFullPath, IsSearch};
ghost use Rattle.hep_explore.specs.Searching.{IsSearchWithin, known_of};

use crate::found::{Found, add, found_by};
use crate::key_laws::{
    machines_with_equal_keys_keep_the_same_states, states_of_a_machine_end_alike,
};
use crate::observer::SearchObserver;
use crate::search::Search;
use hep_image::Image;
use hep_state::fits;
use std::alloc::{AllocError, Global};

/// The least arena in which states are searched for, in cells.
const FIRST_ARENA: u32 = 64;

/// What a search has found: the outcomes, how many states there were, and whether no other outcome is possible.
#[derive(Drop)]
pub struct Exploration {
    pub found: Vec<Found>,
    pub states: usize,
    pub complete: bool,
}

/// The arena of a search in cells, and how many states it may find.
#[derive(Clone, Copy)]
struct Bounds {
    cells: u32,
    most: usize,
}

// The search within these bounds.
fn search_in<O: SearchObserver>(
    alloc: Global,
    image: &Image,
    bounds: Bounds,
    until_full: bool,
    observer: &O,
) -> Result<Search, AllocError>
    requires { CanOpen image.now bounds.cells }
    ensures search { IfOk result (λ s. IsSearch image.now (known_of s)) }
    ensures expanded { IfOk result (λ s. AreExpanded image.now s.expanded (known_of s)) }
    ensures same { IfOk result (λ s. (s.cells ≡ bounds.cells) × (s.most ≡ bounds.most)) }
    ensures done { IfOk result (λ s. IsDone until_full (known_of s)) }
{
    let mut search = Search::open(alloc, image, bounds.cells, bounds.most)?;
    search.run(image, until_full, observer)?;
    Ok(search)
}

// The search in an arena that is enlarged until each frame has a gap, or it has so many cells.
fn search_within<O: SearchObserver>(
    alloc: Global,
    image: &Image,
    cells: u32,
    most: usize,
    observer: &O,
) -> Result<Search, AllocError>
    requires { CanOpen image.now cells }
    ensures { IfOk result (λ s. IsSearchWithin image.now cells most (known_of s)) }
{
    let mut arena = FIRST_ARENA;
    while arena < cells {
        if fits(image, arena) {
            let bounds = Bounds { cells: arena, most };
            let search = search_in(alloc, image, bounds, true, observer)?;
            if !search.is_full() {
                return Ok(search);
            }
        }
        arena *= 4;
    }
    let bounds = Bounds { cells, most };
    Ok(search_in(alloc, image, bounds, false, observer)?)
}

// Lists the outcome of choices that all make steps, in an arena of so many cells.
fn list_by(
    alloc: Global,
    image: &Image,
    cells: u32,
    choices: Vec<u64>,
    found: &mut Vec<Found>,
) -> Result<(), AllocError>
    requires cells { (1 ≤ cells) × (cells ≤ 16777216) }
    requires made { AreSteps image.now (opening image.now) choices.items }
    requires outcomes { AreOutcomes image.now cells found.old.items }
    ensures outcomes { OnOk result (AreOutcomes image.now cells found.new.items) }
    ensures kept { OnOk result (KeepsFound found.old.items found.new.items) }
    ensures listed { OnOk result (IsOutcomeBy image.now cells choices.items found.new.items) }
{
    let one = found_by(alloc, image, cells, choices)?;
    Ok(add(found, one)?)
}

// Lists the outcomes of the states in which no process has a step.
fn list_ended(
    alloc: Global,
    image: &Image,
    cells: u32,
    search: &Search,
    found: &mut Vec<Found>,
) -> Result<(), AllocError>
    requires cells { (1 ≤ cells) × (cells ≤ 16777216) }
    requires search { IsSearch image.now (known_of search.now) }
    requires expanded { AreExpanded image.now search.now.expanded (known_of search.now) }
    requires outcomes { AreOutcomes image.now cells found.old.items }
    ensures outcomes { OnOk result (AreOutcomes image.now cells found.new.items) }
    ensures listed { OnOk result (AreListed image.now cells (known_of search.now) (length search.now.ended.items) found.new.items) }
{
    for state in search.ended() {
        let choices = search.path(*state)?;
        list_by(alloc, image, cells, choices, found)?;
    }
    Ok(())
}

// Lists the outcome of the first step that makes an activation for whose frame there is no gap, if there is one.
fn list_full(
    alloc: Global,
    image: &Image,
    cells: u32,
    search: &Search,
    found: &mut Vec<Found>,
) -> Result<(), AllocError>
    requires cells { (1 ≤ cells) × (cells ≤ 16777216) }
    requires search { IsSearch image.now (known_of search.now) }
    requires outcomes { AreOutcomes image.now cells found.old.items }
    ensures outcomes { OnOk result (AreOutcomes image.now cells found.new.items) }
    ensures kept { OnOk result (KeepsFound found.old.items found.new.items) }
    ensures full { OnOk result ((search.now.full ≡ None) ⊎ ((choices : List ℕ) × IsFullPath image.now search.now.cells choices)) }
{
    let Some(choices) = search.full_path()? else {
        return Ok(());
    };
    Ok(list_by(alloc, image, cells, choices, found)?)
}

// The outcomes that a search shows.
fn outcomes_of(
    alloc: Global,
    image: &Image,
    cells: u32,
    most: usize,
    search: &Search,
) -> Result<Exploration, AllocError>
    requires cells { (1 ≤ cells) × (cells ≤ 16777216) }
    requires within { IsSearchWithin image.now cells most (known_of search.now) }
    ensures explored { IfOk result (λ e. IsExplored image.now cells e.found.items e.complete) }
    ensures states { IfOk result (λ e. HaveStates image.now cells e.states e.found.items e.complete) }
    ensures few { IfOk result (λ e. e.states ≤ most + 1) }
    ensures cut { IfOk result (λ e. e.complete ≡ false → IsCutBy image.now cells most e.states) }
{
    image.is_runnable();
    machines_with_equal_keys_keep_the_same_states();
    states_of_a_machine_end_alike();
    let mut found = Vec::new(alloc);
    list_ended(alloc, image, cells, search, &mut found)?;
    list_full(alloc, image, cells, search, &mut found)?;
    Ok(Exploration {
        found,
        states: search.len(),
        complete: search.is_complete(),
    })
}

// The outcome of a program whose main program's frame doesn't fit the arena.
fn full_exploration(alloc: Global, image: &Image, cells: u32) -> Result<Exploration, AllocError>
    requires cells { (1 ≤ cells) × (cells ≤ 16777216) }
    requires full { opening_layout image.now cells ≡ None }
    ensures explored { IfOk result (λ e. IsExplored image.now cells e.found.items e.complete) }
    ensures states { IfOk result (λ e. HaveStates image.now cells e.states e.found.items e.complete) }
    ensures none { IfOk result (λ e. e.states ≡ 0) }
    ensures complete { IfOk result (λ e. e.complete ≡ true) }
{
    let mut found = Vec::new(alloc);
    list_by(alloc, image, cells, Vec::new(alloc), &mut found)?;
    Ok(Exploration {
        found,
        states: 0,
        complete: true,
    })
}

/// All outcomes of a program in an arena of `cells` cells, 1 to 16,777,216, as far as `most` states show them. The observer is told how many
/// states have been found, anew in each arena in which they are searched for.
///
/// The outcome of each state in which no process has a step is listed. The search is cut short only where it found `most` states, or a
/// frame has no gap.
///
/// # Errors
///
/// Only where memory was refused.
pub fn explore<O: SearchObserver>(
    alloc: Global,
    image: &Image,
    cells: u32,
    most: usize,
    observer: &O,
) -> Result<Exploration, AllocError>
    requires cells { (1 ≤ cells) × (cells ≤ 16777216) }
    ensures explored { IfOk result (λ e. IsExplored image.now cells e.found.items e.complete) }
    ensures states { IfOk result (λ e. HaveStates image.now cells e.states e.found.items e.complete) }
    ensures few { IfOk result (λ e. e.states ≤ most + 1) }
    ensures cut { IfOk result (λ e. e.complete ≡ false → IsCutBy image.now cells most e.states) }
{
    if !fits(image, cells) {
        return Ok(full_exploration(alloc, image, cells)?);
    }
    let search = search_within(alloc, image, cells, most, observer)?;
    outcomes_of(alloc, image, cells, most, &search)
}
