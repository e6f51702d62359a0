//! The first step or entry at which two runs differ.
ghost use Rattle.std.specs.Prelude.{◌≡◌};
ghost use Rattle.hep_diff.specs.FirstDifferences as words;
ghost use Rattle.hep_state_text.specs.Values as values;

use crate::process_step::{CellReading, ProcessStep};
use hep_history::History;
use hep_machine::Entry;
use hep_source::Value;

fn same_value(first: Option<Value>, second: Option<Value>) -> bool
    ensures { result ≡ values.same_value first second }
{
    match (first, second) {
        (None, None) => true,
        (Some(Value::Int(a)), Some(Value::Int(b))) => a == b,
        (Some(Value::Truth(a)), Some(Value::Truth(b))) => a == b,
        _ => false,
    }
}

fn same_found(first: Option<CellReading>, second: Option<CellReading>) -> bool
    ensures { result ≡ words.same_found first second }
{
    match (first, second) {
        (None, None) => true,
        (Some(a), Some(b)) => same_value(a.value, b.value),
        _ => false,
    }
}

fn same_deed(first: ProcessStep, second: ProcessStep) -> bool
    ensures { result ≡ words.same_deed first second }
{
    first.unit == second.unit
        && (first.line == second.line && same_found(first.found, second.found))
}

/// The index of the first step that differs, or that one of them doesn't have. The place of a step isn't compared.
pub fn first_difference(first: &[ProcessStep], second: &[ProcessStep]) -> Option<usize>
    ensures { result ≡ words.first_from 0 first.now second.now }
{
    let mut at = 0;
    while at < first.len() && at < second.len() {
        if !same_deed(first[at], second[at]) {
            return Some(at);
        }
        at += 1;
    }
    if first.len() == second.len() {
        None
    } else {
        Some(at)
    }
}

fn same_entry(first: Entry, second: Entry) -> bool
    ensures { result ≡ words.same_entry first second }
{
    first.process == second.process && first.steps == second.steps
}

/// The number of entries before the first one that differs, or that one of them doesn't have.
pub fn same_front(first: &History, second: &History) -> u64
    ensures { result ≡ words.same_front first.now.items second.now.items }
{
    let mut entries = first.iter();
    let mut others = second.iter();
    for count in 0..first.len() {
        let (Some(entry), Some(other)) = (entries.next(), others.next()) else {
            return count;
        };
        if !same_entry(entry, other) {
            return count;
        }
    }
    first.len()
}
