//! The places of a worker's entries in the history.
ghost use Rattle.std.specs.Prelude.{◌≡◌, ◌≤◌, ◌<◌, ◌^◌, ◌++◌, IfOk, OnOk, length, true, vec_capacity};
ghost use Rattle.hep_workers.specs.Spans.{are_inside, log_of, receipts_in, with_entries, with_entry};

use crate::finder::Finder;
use crate::receipt::{Log, Receipt};
use hep_history::History;
use std::alloc::{AllocError, Global};

/// Entries of one worker that follow one another in the history.
#[derive(Clone, Copy)]
pub(crate) struct EntrySpan {
    /// The index of the first one, counted from 0.
    pub(crate) first: u64,
    /// The number of entries.
    pub(crate) count: u64,
}

/// Adds the entry at an index after those of the spans. There has to be room for one more span.
#[inline(always)]
pub(crate) fn add_entry(spans: &mut Vec<EntrySpan>, index: u64)
    requires room { length spans.old.items < vec_capacity spans.old }
    requires inside { are_inside index spans.old.items ≡ true }
    requires few { index ≤ 2 ^ 63 }
    ensures { spans.new.items ≡ with_entry spans.old.items index }
{
    let count = spans.len();
    if count > 0 {
        let last = &mut spans[count - 1];
        if last.first + last.count == index {
            last.count += 1;
            return;
        }
    }
    spans.push_reserved(EntrySpan {
        first: index,
        count: 1,
    });
}

/// Adds `count` entries after those of the spans, at indexes from `index` on. There has to be room for one more span.
pub(crate) fn add_entries(spans: &mut Vec<EntrySpan>, index: u64, count: u32)
    requires room { length spans.old.items < vec_capacity spans.old }
    requires inside { are_inside index spans.old.items ≡ true }
    requires some { 0 < count }
    requires few { index ≤ 2 ^ 63 }
    ensures { spans.new.items ≡ with_entries spans.old.items index count }
{
    add_entry(spans, index);
    let last = spans.len() - 1;
    spans[last].count += count as u64 - 1;
}

/// The receipts of a worker, from the spans of its entries in the history.
///
/// # Errors
///
/// `AllocError` where memory was refused.
pub(crate) fn log_of(
    alloc: Global,
    history: &History,
    worker: u32,
    spans: &[EntrySpan],
) -> Result<Log, AllocError>
    ensures { IfOk result (λ log. log ≡ log_of history.now.items worker spans.now) }
{
    let mut finder = Finder::new(history);
    let mut receipts = Vec::new(alloc);
    receipts.reserve(count_of(spans).min(history.len()) as usize)?;
    for span in spans {
        add_receipts(&mut receipts, &mut finder, worker, *span)?;
    }
    Ok(Log::of(receipts))
}

// The number of entries of these spans.
fn count_of(spans: &[EntrySpan]) -> u64 {
    let mut count: u64 = 0;
    for span in spans {
        count = count.saturating_add(span.count);
    }
    count
}

// Appends the receipts of a span.
fn add_receipts(
    receipts: &mut Vec<Receipt>,
    finder: &mut Finder<'_>,
    worker: u32,
    span: EntrySpan,
) -> Result<(), AllocError>
    ensures items { OnOk result (receipts.new.items ≡ receipts.old.items ++ receipts_in finder.old worker span.first span.count) }
    ensures same { finder.new ≡ finder.old }
{
    let count = span.count.min(finder.len().saturating_sub(span.first));
    for past in 0..count {
        let index = span.first + past;
        if let Some(entry) = finder.entry_at(index) {
            receipts.push(Receipt {
                index,
                process: entry.process,
                worker,
                steps: entry.steps,
            })?;
        }
    }
    Ok(())
}
