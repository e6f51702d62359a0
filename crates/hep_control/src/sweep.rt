//! A sweep: one pass over values and questions in the order of their keys. Each question asks whether a value with a lesser key
//! is in an interval.
ghost use Rattle.std.specs.Prelude.{◌≡◌, ◌||◌, ℕ, Bool, IfOk, OnOk};
ghost use Rattle.std.specs.List.{list_any};
ghost use Rattle.hep_control.specs.Sweep as sweep;

use hep_conditions::reported::{add_line, line_when};
use std::alloc::{AllocError, Global};
use std::collections::BTreeSet;

// An event of the sweep: a value or a question, with its key.
#[derive(Clone, Copy)]
pub(crate) enum Event {
    Value {
        key: usize,
        value: usize,
    },
    // Asks whether a value with a lesser key is in the interval from `low` to below `high`. The answer is the line where one is.
    Question {
        key: usize,
        low: usize,
        high: usize,
        line: u32,
    },
}

pub(crate) fn value(key: usize, value: usize) -> Event
    ensures { result ≡ Event.Value key value }
{
    Event::Value { key, value }
}

pub(crate) fn question(key: usize, low: usize, high: usize, line: u32) -> Event
    ensures { result ≡ Event.Question key low high line }
{
    Event::Question {
        key,
        low,
        high,
        line,
    }
}

// The position of an event in the order. A question comes before the values with its key.
fn rank(event: &Event) -> u128
    ensures { result ≡ sweep.rank event.now }
{
    match event {
        Event::Value { key, .. } => 2 * (*key as u128) + 1,
        Event::Question { key, .. } => 2 * (*key as u128),
    }
}

// Adds the lines in the answers to the questions, in any order.
pub(crate) fn add_met(
    lines: &mut Vec<u32>,
    alloc: Global,
    mut events: Vec<Event>,
) -> Result<(), AllocError>
    ensures { OnOk result ((test : ℕ → Bool) → list_any test lines.new.items
        ≡ (list_any test lines.old.items || list_any test (sweep.lines_asked events.items))) }
{
    events.sort_by_key(|event| rank(event))?;
    let mut values = BTreeSet::new(alloc);
    for event in &events {
        let line = line_met(&mut values, event)?;
        add_line(lines, line)?;
    }
    Ok(())
}

// The answer to a question by the values before it. A value is added to them.
fn line_met(values: &mut BTreeSet<usize>, event: &Event) -> Result<Option<u32>, AllocError>
    ensures line { IfOk result (λ line. line ≡ sweep.line_met values.old.keys event.now) }
    ensures values { OnOk result ((test : ℕ → Bool) → list_any test values.new.keys
        ≡ list_any test (sweep.with_event event.now values.old.keys)) }
{
    match event {
        Event::Value { value, .. } => {
            values.insert(*value)?;
            Ok(None)
        }
        Event::Question {
            low,
            high,
            line,
            ..
        } => Ok(line_when(has_within(values, *low, *high), *line)),
    }
}

// Whether some value is in the interval from `low` to below `high`.
fn has_within(values: &BTreeSet<usize>, low: usize, high: usize) -> bool
    ensures { result ≡ list_any (sweep.is_within low high) values.now.keys }
{
    low < high && values.range(low..high).next().is_some()
}
