//! The text of a history.
ghost use Rattle.std.specs.Prelude.{◌≡◌, ◌++◌, List, IfOk, IfErr, OnOk, MatchResult, replicate};
ghost use Rattle.hep_machine.specs.declared.event.Entry.{Entry};
ghost use Rattle.hep_base.specs.declared.refusal.Refusal.TheVariants.{NoMemory};
ghost use Rattle.hep_history.specs.Runs.{entry_of};
ghost use Rattle.hep_replay.specs.Lines.{AreLines, IsRefusedText, ReportsLine};
ghost use Rattle.hep_replay.specs.Histories.{entry_text, history_text, IsAllowed};

use crate::lines::{FromLine, Row, read_lines};
use hep_base::Refusal as HistFault;
use hep_history::{History, Run};
use hep_machine::Entry;
use hep_output::{append_number, number_before};
use std::alloc::{AllocError, Global};

/// The greatest number of bytes of a text of a history or of choices.
pub const MOST_BYTES: usize = 150_000_000;

/// The highest number of a process.
pub const MOST_PROCESS: u64 = 9_223_372_036_854_775_807;

/// The greatest number of steps of an entry.
const MOST_STEPS: u64 = 1_024;

// Appends the line of an entry.
fn append_entry(text: &mut Vec<u8>, entry: Entry) -> Result<(), AllocError>
    ensures { OnOk result (text.new.items ≡ text.old.items ++ entry_text entry) }
{
    append_number(text, entry.process)?;
    text.extend_from_slice(b" ")?;
    append_number(text, entry.steps)?;
    text.extend_from_slice(b"\n")?;
    Ok(())
}

// Appends the lines of a run. The line is made once, in `line`.
fn append_run(text: &mut Vec<u8>, line: &mut Vec<u8>, run: Run) -> Result<(), AllocError>
    ensures { OnOk result (text.new.items ≡ text.old.items ++ history_text (replicate run.count (entry_of run))) }
{
    line.clear();
    append_entry(line, run.entry())?;
    let bytes = line.as_slice();
    for _ in 0..run.count {
        text.extend_from_slice(bytes)?;
    }
    Ok(())
}

/// The text of a history: a line `p n` for each entry, with its process and its steps.
///
/// # Errors
///
/// Only where memory was refused.
pub fn write_text(alloc: Global, history: &History) -> Result<Vec<u8>, AllocError>
    ensures { IfOk result (λ text. text.items ≡ history_text history.now.items) }
{
    let mut text = Vec::new(alloc);
    let mut line = Vec::new(alloc);
    let mut runs = history.runs();
    while let Some(run) = runs.next() {
        append_run(&mut text, &mut line, run)?;
    }
    Ok(text)
}

impl Row<Entry> for History {
    ghost items = { λ history. history.items };

    fn append(&mut self, item: Entry, count: u32) -> Result<(), AllocError> {
        self.append(item, count)
    }
}

impl FromLine for Entry {
    ghost line = { entry_text };

    ghost allows = { IsAllowed };

    fn from_front(text: &[u8]) -> Option<(Entry, &[u8])> {
        let (process, rest_after) = number_before(text, b' ', MOST_PROCESS)?;
        let (steps, rest) = number_before(rest_after, b'\n', MOST_STEPS)?;
        if process == 0 {
            return None;
        }
        let steps = steps as u32;
        Some((Entry { process, steps }, rest))
    }
}

/// The history of a text.
///
/// # Errors
///
/// `Refused` with 601 at the first bad line, or at line 0 where the text has more than 150,000,000
/// bytes; `NoMemory`.
pub fn read_text(alloc: Global, text: &[u8]) -> Result<History, HistFault>
    ensures read { IfOk result (λ history. AreLines entry_text IsAllowed text.now history.items) }
    ensures refused { IfErr result (λ fault.
        ReportsLine 601 (IsRefusedText entry_text IsAllowed text.now) fault) }
    ensures accepted { (es : List Entry) → AreLines entry_text IsAllowed text.now es
        → MatchResult result (λ history. history.items ≡ es) (λ fault. fault ≡ NoMemory) }
{
    read_lines(alloc, text, 601, History::new(alloc))
}
