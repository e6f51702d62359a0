//! The comparison of the workers' logs with the core, after all workers have ended.
ghost use Rattle.std.specs.Prelude.{◌≡◌, IfErr, IfOk, MatchBool, None, Some, if◌then◌else◌};
ghost use Rattle.std.specs.List.{list_all};
ghost use Rattle.hep_workers.specs.ReceiptMarks.{mark_at, marked};
ghost use Rattle.hep_workers.specs.Receipts.{AreEntries, all_rise, receipts_of, rises};
ghost use Rattle.hep_workers.specs.Reports.{IsClosed, IsOfRun, IsReport, IsUnclosed};

use crate::close_fault::CloseFault;
use crate::finder::Finder;
use crate::options::WorkOptions;
use crate::receipt::{Log, Receipt};
use hep_core::{Core, Verdict};
use hep_history::History;
use hep_image::Image;
use hep_machine::Entry;
use std::alloc::{AllocError, Global};
use std::marker::Model;

/// A run by workers that is over, with a log for each worker. The receipts are the entries of the core's history,
/// each once, and their indexes rise in each log. Contracts see the core and the logs.
#[derive(Drop)]
pub struct Report {
    core: Core,
    logs: Vec<Log>,
}

impl Model for Report {
    ghost use Rattle.hep_workers.specs.Reports.{ReportValue, IsClosed};
    ghost use Rattle.hep_source.specs.contracts.expression.Expr as expression;
    ghost use Rattle.std.specs.Coded.{codes};

    ghost Value = { ReportValue };

    ghost coded = { Prim.hlevel (codes, expression.the_row.coded) };

    ghost view = { λ r. record { core = r.core.core; logs = r.logs.items } };

    ghost invariant = { λ r. IsClosed (record { core = r.core.core; logs = r.logs.items }) };
}

impl Report {
    /// Does nothing: its clause says what every report is.
    pub fn is_closed(&self)
        ensures { IsClosed self.now }
    {
        let _ = &self.core;
    }

    /// The core that the workers shared.
    pub fn core(&self) -> &Core
        ensures { result.now.core ≡ self.now.core }
    {
        &self.core
    }

    /// A log for each worker.
    pub fn logs(&self) -> &[Log]
        ensures { result.now ≡ self.now.logs }
    {
        &self.logs
    }

    /// The core and the logs.
    pub fn into_parts(self) -> (Core, Vec<Log>)
        ensures core { result.0.core ≡ self.core }
        ensures logs { result.1.items ≡ self.logs }
    {
        let Report { core, logs } = self;
        (core, logs)
    }
}

/// Makes a report of a core and the logs of its workers. It checks that the receipts are the history's entries, each
/// once, that the indexes of each log rise, that the core is of this image and these options, and that the run is
/// over.
///
/// This costs a step for each receipt, each entry, and each part of the program.
///
/// # Errors
///
/// `NoMemory`, since memory is asked for first; and then, of the other faults that there are, the first by number.
pub fn close(
    alloc: Global,
    core: Core,
    image: &Image,
    options: &WorkOptions,
    logs: Vec<Log>,
) -> Result<Report, CloseFault>
    ensures kept { IfOk result (λ report. (report.core ≡ core.core) × (report.logs ≡ logs.items)) }
    ensures closed { IfOk result (λ report. IsReport core.core image.now options.now logs.items) }
    ensures unclosed { IfErr result (λ fault. IsUnclosed fault core.core image.now options.now logs.items) }
{
    let Ok(named) = are_entries(alloc, core.history(), &logs) else {
        return Err(CloseFault::NoMemory);
    };
    if !named {
        return Err(CloseFault::NotTheEntries);
    }
    if !all_rise(&logs) {
        return Err(CloseFault::NotRising);
    }
    if !is_of_run(&core, image, options) {
        return Err(CloseFault::NotTheRun);
    }
    if core.verdict() == Verdict::Running {
        return Err(CloseFault::StillRunning);
    }
    Ok(Report { core, logs })
}

// Whether the core is of this image and these options.
fn is_of_run(core: &Core, image: &Image, options: &WorkOptions) -> bool
    ensures { MatchBool result (IsOfRun core.now.core image.now options.now) (IsOfRun core.now.core image.now options.now → ⊥) }
{
    core.cells() == options.arena
        && core.limit() == options.steps
        && core.image().has_same_program(image)
}

// Whether the receipts of all logs are the history's entries, each once.
fn are_entries(alloc: Global, history: &History, logs: &[Log]) -> Result<bool, AllocError>
    ensures { IfOk result (λ are. MatchBool are (AreEntries history.now.items (receipts_of logs.now))
        (AreEntries history.now.items (receipts_of logs.now) → ⊥)) }
{
    let mut named = Vec::from_elem(alloc, false, history.len() as usize)?;
    if !mark_logs(history, &mut named, logs) {
        return Ok(false);
    }
    Ok(all_named(&named))
}

// Marks the entries that the receipts of all logs name. False where a receipt names no entry or one that is marked
// already.
fn mark_logs(history: &History, named: &mut Vec<bool>, logs: &[Log]) -> bool
    ensures { marked history.now.items named.old.items (receipts_of logs.now) ≡ (if result then Some named.new.items else None) }
{
    for log in logs {
        if !mark_log(history, named, log.receipts()) {
            return false;
        }
    }
    true
}

// The same of one log. Where its indexes rise, this goes over the runs of the history once.
fn mark_log(history: &History, named: &mut Vec<bool>, receipts: &[Receipt]) -> bool
    ensures { marked history.now.items named.old.items receipts.now ≡ (if result then Some named.new.items else None) }
{
    let mut finder = Finder::new(history);
    for receipt in receipts {
        let entry = finder.entry_at(receipt.index);
        if !mark(entry, named, *receipt) {
            return false;
        }
    }
    true
}

// Marks the entry that a receipt names, if `entry` is that one and isn't marked yet. Returns whether it did.
fn mark(entry: Option<Entry>, named: &mut Vec<bool>, receipt: Receipt) -> bool
    ensures { mark_at entry named.old.items receipt ≡ (if result then Some named.new.items else None) }
{
    let Some(entry) = entry else {
        return false;
    };
    let at = receipt.index as usize;
    if at >= named.len() {
        return false;
    }
    if entry.process != receipt.process || entry.steps != receipt.steps || named[at] {
        return false;
    }
    named[at] = true;
    true
}

fn all_named(named: &[bool]) -> bool
    ensures { result ≡ list_all (λ b. b) named.now }
{
    named.iter().all(|is_named| *is_named)
}

// Whether each index of a log is above the one before.
fn rises(receipts: &[Receipt]) -> bool
    ensures { result ≡ rises receipts.now }
{
    for i in 1..receipts.len() {
        if receipts[i].index <= receipts[i - 1].index {
            return false;
        }
    }
    true
}

fn all_rise(logs: &[Log]) -> bool
    ensures { result ≡ all_rise logs.now }
{
    logs.iter().all(|log| rises(log.receipts()))
}
