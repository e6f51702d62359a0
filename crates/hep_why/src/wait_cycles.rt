//! Cycles of waiting processes, by their indexes.
ghost use Rattle.std.specs.Prelude.{◌≡◌, ◌+◌, ◌++◌, ℕ, List, Bool, Option, IfOk, IfSome, OnOk, false, length, map, option_map, option_to_list, slice_get, unwrap_or};
ghost use Rattle.hep_why.specs.WaitCycles as words;
ghost use Rattle.hep_why.specs.CycleMarks.{AreAllNoted, AreNoted, HaveWalked, IsIn, IsNoted};

use std::alloc::{AllocError, Global};

/// The index that follows an index, if one does.
pub(crate) fn next_at(nexts: &[Option<usize>], index: usize) -> Option<usize>
    ensures { result ≡ words.next_at nexts.now index }
{
    match nexts.get(index) {
        Some(next) => *next,
        None => None,
    }
}

// The cycle that begins at an index, if there is one and all its other indexes are greater.
fn circle_from(
    alloc: Global,
    nexts: &[Option<usize>],
    first: usize,
) -> Result<Option<Vec<usize>>, AllocError>
    ensures { IfOk result (λ found. option_map (λ indexes. indexes.items) found ≡ words.circle_at nexts.now first) }
{
    let mut indexes = Vec::new(alloc);
    let mut at = first;
    for _ in 0..nexts.len() {
        indexes.push(at)?;
        let Some(next) = next_at(nexts, at) else {
            return Ok(None);
        };
        if next == first {
            return Ok(Some(indexes));
        }
        if next < first {
            return Ok(None);
        }
        at = next;
    }
    Ok(None)
}

// Walks from an index to the next one, and so on, until there is none, or one that was visited before. Returns that
// one if this walk has visited it.
fn walk(nexts: &[Option<usize>], visits: &mut Vec<Option<usize>>, first: usize) -> Option<usize>
    requires { length visits.old.items ≡ length nexts.now }
    ensures length { length visits.new.items ≡ length nexts.now }
    ensures visited { (noted : List Bool) → AreNoted nexts.now visits.old.items noted → IfSome result (IsNoted nexts.now noted)
        → AreNoted nexts.now visits.new.items noted }
    ensures begun { (noted : List Bool) → AreNoted nexts.now visits.old.items noted → IfSome result (IsNoted nexts.now noted)
        → IsNoted nexts.now noted first }
{
    let mut at = first;
    for _ in 0..nexts.len() {
        let next = next_at(nexts, at)?;
        if let Some(walk) = visits[at] {
            if walk == first {
                return Some(at);
            }
            return None;
        }
        visits[at] = Some(first);
        at = next;
    }
    Some(at)
}

// The least index of the cycle that this index is in.
fn least_from(nexts: &[Option<usize>], start: usize) -> usize
    ensures { (first : ℕ) → IsIn nexts.now first start → result ≡ first }
{
    let mut least = start;
    let mut at = start;
    for _ in 0..nexts.len() {
        let Some(next) = next_at(nexts, at) else {
            return least;
        };
        if next == start {
            return least;
        }
        least = least.min(next);
        at = next;
    }
    least
}

// Notes the cycle that this index is in.
fn note(nexts: &[Option<usize>], noted: &mut Vec<bool>, at: usize)
    requires { length noted.old.items ≡ length nexts.now }
    ensures length { length noted.new.items ≡ length nexts.now }
    ensures kept { (i : ℕ) → IsNoted nexts.now noted.old.items i → IsNoted nexts.now noted.new.items i }
    ensures noted { IsNoted nexts.now noted.new.items at }
{
    let least = least_from(nexts, at);
    if least < noted.len() {
        noted[least] = true;
    }
}

// Makes the walk from an index, and notes the cycle that it ends in, if this walk has found it.
fn visit(
    nexts: &[Option<usize>],
    visits: &mut Vec<Option<usize>>,
    noted: &mut Vec<bool>,
    first: usize,
)
    requires { HaveWalked nexts.now visits.old.items noted.old.items first }
    ensures { HaveWalked nexts.now visits.new.items noted.new.items (first + 1) }
{
    if let Some(at) = walk(nexts, visits, first) {
        note(nexts, noted, at);
    }
}

// For each index, whether it is the least of a cycle. Each index is visited once.
fn firsts(alloc: Global, nexts: &[Option<usize>]) -> Result<Vec<bool>, AllocError>
    ensures { IfOk result (λ noted. AreAllNoted nexts.now noted.items) }
{
    let mut visits = vec![in alloc; None; nexts.len()]?;
    let mut noted = vec![in alloc; false; nexts.len()]?;
    for first in 0..nexts.len() {
        visit(nexts, &mut visits, &mut noted, first);
    }
    Ok(noted)
}

fn is_noted(noted: &[bool], index: usize) -> bool
    ensures { result ≡ unwrap_or (slice_get noted.now index) false }
{
    match noted.get(index) {
        Some(is_noted) => *is_noted,
        None => false,
    }
}

// Adds the cycle that begins at an index, if there is one.
fn add_circle(
    alloc: Global,
    circles: &mut Vec<Vec<usize>>,
    nexts: &[Option<usize>],
    noted: &[bool],
    index: usize,
) -> Result<(), AllocError>
    requires { AreAllNoted nexts.now noted.now }
    ensures { OnOk result (map (λ c. c.items) circles.new.items
        ≡ map (λ c. c.items) circles.old.items ++ option_to_list (words.circle_at nexts.now index)) }
{
    if !is_noted(noted, index) {
        return Ok(());
    }
    match circle_from(alloc, nexts, index)? {
        Some(circle) => {
            circles.push(circle)?;
            Ok(())
        }
        None => Ok(()),
    }
}

/// All cycles, each from its least index on.
///
/// # Errors
///
/// Only where memory was refused.
pub(crate) fn circles_of(
    alloc: Global,
    nexts: &[Option<usize>],
) -> Result<Vec<Vec<usize>>, AllocError>
    ensures { IfOk result (λ circles. map (λ c. c.items) circles.items ≡ words.circles_of nexts.now) }
{
    let noted = firsts(alloc, nexts)?;
    let mut circles = Vec::new(alloc);
    for index in 0..nexts.len() {
        add_circle(alloc, &mut circles, nexts, &noted, index)?;
    }
    Ok(circles)
}
