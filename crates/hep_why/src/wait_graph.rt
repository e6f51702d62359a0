//! For each waiting process, the process that made the latest change of what it waits for, by indexes.
ghost use Rattle.std.specs.Prelude.{◌≡◌, ℕ, List, Some, if◌then◌else◌, IfOk, OnOk, map, nat_eq};
ghost use Rattle.indexmap.specs.IndexMap.{get};
ghost use Rattle.hep_why.specs.Lines.{makers_wait};
ghost use Rattle.hep_why.specs.WaitCycles as words;
ghost use Rattle.hep_why.specs.declared.reason.Reason.{Reason as AReason};

use crate::reason::{Change, MakersWait, Reason};
use indexmap::IndexMap;
use std::alloc::{AllocError, Global};

// For each process, the index of its first reason.
struct ProcessIndexes {
    map: IndexMap<u64, usize>,
}

impl Drop for ProcessIndexes {
    fn drop(self) {
        let ProcessIndexes { map } = self;
    }
}

// Notes an index for process p.
fn note(indexes: &mut ProcessIndexes, p: u64, index: usize) -> Result<(), AllocError>
    ensures { OnOk result ((q : ℕ) → get nat_eq indexes.new.map q ≡ (if nat_eq p q then Some index else get nat_eq indexes.old.map q)) }
{
    indexes.map.insert(p, index)?;
    Ok(())
}

// The later ones are noted first, so that of two of a process the first one is kept.
fn indexes_of(alloc: Global, reasons: &[Reason]) -> Result<ProcessIndexes, AllocError>
    ensures { IfOk result (λ indexes. (p : ℕ) → get nat_eq indexes.map p ≡ words.index_of reasons.now p) }
{
    let mut indexes = ProcessIndexes {
        map: IndexMap::new(alloc),
    };
    for index in (0..reasons.len()).rev() {
        note(&mut indexes, reasons[index].listed.process, index)?;
    }
    Ok(indexes)
}

// The index of the process that made a change, if there was one and that process waits itself.
fn next_of_change(indexes: &ProcessIndexes, change: Option<Change>) -> Option<usize>
    ensures { (reasons : List AReason) → ((p : ℕ) → get nat_eq indexes.now.map p ≡ words.index_of reasons p)
        → result ≡ words.next_of_change reasons change }
{
    let change = change?;
    indexes.map.get(&change.place.process).copied()
}

/// For each waiting process, the index of the one that changed last what it waits for, if that waits itself.
///
/// # Errors
///
/// Only where memory was refused.
pub(crate) fn nexts_of(alloc: Global, reasons: &[Reason]) -> Result<Vec<Option<usize>>, AllocError>
    ensures { IfOk result (λ nexts. nexts.items ≡ words.nexts_of reasons.now) }
{
    let indexes = indexes_of(alloc, reasons)?;
    let mut nexts = Vec::new(alloc);
    for reason in reasons {
        nexts.push(next_of_change(&indexes, reason.latest))?;
    }
    Ok(nexts)
}

/// For each waiting process, whether those wait that made the changes of what it waits for.
///
/// # Errors
///
/// Only where memory was refused.
pub(crate) fn makers_of(alloc: Global, reasons: &[Reason]) -> Result<Vec<MakersWait>, AllocError>
    ensures { IfOk result (λ makers. makers.items ≡ map (makers_wait reasons.now) reasons.now) }
{
    let indexes = indexes_of(alloc, reasons)?;
    let mut makers = Vec::new(alloc);
    for reason in reasons {
        makers.push(MakersWait {
            latest: next_of_change(&indexes, reason.latest).is_some(),
            brought: next_of_change(&indexes, reason.brought).is_some(),
        })?;
    }
    Ok(makers)
}
