//! The choices that make the steps of a history.
ghost use Rattle.std.specs.Prelude.{◌≡◌, ◌++◌, List, IfOk, IfErr, MatchResult, OnOk, replicate};
ghost use Rattle.hep_base.specs.declared.refusal.Refusal.TheVariants.{NoMemory};
ghost use Rattle.hep_machine.specs.declared.event.Entry.{Entry};
ghost use Rattle.hep_history.specs.Runs.{entry_of};
ghost use Rattle.hep_replay.specs.HistoryChoices as spec;
ghost use Rattle.hep_replay.specs.HistoryChoices.{AreFollowed, choices_in};
ghost use Rattle.hep_replay.specs.Histories.{entry_text, IsAllowed};
ghost use Rattle.hep_replay.specs.Lines.{AreLines, IsRefusedText, ReportsLine};

use crate::choices::Choices;
use crate::history_text::read_text;
use hep_base::Refusal as HistFault;
use hep_history::{History, Run};
use std::alloc::{AllocError, Global};

// The number of choices of a process that an entry with `steps` steps takes.
fn times_for(steps: u32) -> u32
    ensures { result ≡ spec.times_for steps }
{
    if steps == 0 {
        return 1;
    }
    steps
}

// Appends the choices of equal entries.
fn append_alike(choices: &mut Vec<u64>, run: Run) -> Result<(), AllocError>
    ensures { OnOk result (choices.new.items ≡ choices.old.items ++ choices_in (replicate run.count (entry_of run))) }
{
    let times = u64::from(run.count) * u64::from(times_for(run.steps));
    for _ in 0..times {
        choices.push(run.process)?;
    }
    Ok(())
}

/// The choices that make the steps of a history: its process for each step of an entry, and once for an entry without one.
///
/// # Errors
///
/// Only where memory was refused.
pub fn choices_of_history(alloc: Global, history: &History) -> Result<Choices, AllocError>
    ensures { IfOk result (λ choices. choices ≡ choices_in history.now.items) }
{
    let mut choices = Vec::new(alloc);
    let mut runs = history.runs();
    while let Some(run) = runs.next() {
        append_alike(&mut choices, run)?;
    }
    Ok(Choices::from(choices))
}

/// The choices that make the steps of the history of a text.
///
/// # Errors
///
/// Those of `read_text`.
pub fn read_followed(alloc: Global, text: &[u8]) -> Result<Choices, HistFault>
    ensures read { IfOk result (λ choices. AreFollowed text.now choices) }
    ensures refused { IfErr result (λ fault.
        ReportsLine 601 (IsRefusedText entry_text IsAllowed text.now) fault) }
    ensures accepted { (es : List Entry) → AreLines entry_text IsAllowed text.now es
        → MatchResult result (λ choices. choices ≡ choices_in es) (λ fault. fault ≡ NoMemory) }
{
    let history = read_text(alloc, text)?;
    Ok(choices_of_history(alloc, &history)?)
}
