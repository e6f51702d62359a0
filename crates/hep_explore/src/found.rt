//! The outcomes that a search has found.
ghost use Rattle.std.specs.Prelude.{◌≡◌, ◌≤◌, ◌++◌, IfOk, OnOk};
ghost use Rattle.std.specs.List.{list_any};
ghost use Rattle.hep_machine.specs.Words.{AreSteps, opening};
ghost use Rattle.hep_outcome.specs.Transcripts.{outcome_of};
ghost use Rattle.hep_explore.specs.Explored as explored;
ghost use Rattle.hep_explore.specs.Explored.{IsFoundOf};
ghost use Rattle.hep_explore.specs.FoundOutcomes as spec;
ghost use Rattle.hep_explore.specs.FoundOutcomes.{IsFoundBy, with_found};

use hep_image::Image;
use hep_outcome::run_by_choices::image_transcript;
use hep_outcome::{Choices, Options, Transcript};
use hep_output::append_number;
use std::alloc::{AllocError, Global};
use std::marker::Model;

/// The limit of a history that leads to an outcome, which has fewer entries.
pub const MOST_STEPS: u64 = u64::MAX;

/// An outcome that was found: its status, its lines, the records first, and choices that lead to it.
#[derive(Drop)]
pub struct Found {
    status: u8,
    lines: Vec<u8>,
    choices: Vec<u64>,
}

impl Model for Found {
    ghost use Rattle.hep_explore.specs.Explored.{Found as PureFound};

    ghost Value = { PureFound };

    ghost view = { λ f. record { status = f.status; lines = f.lines.items; choices = f.choices.items } };
}

impl Found {
    fn is_like(&self, other: &Found) -> bool
        ensures { result ≡ spec.is_like self.now other.now }
    {
        let are_same = self.lines.as_slice() == other.lines.as_slice();
        self.status == other.status && are_same
    }

    /// The exit status of a run that has it.
    pub fn status(&self) -> u8
        ensures { result ≡ self.now.status }
    {
        self.status
    }

    /// A copy of choices that lead to it.
    ///
    /// # Errors
    ///
    /// Only where memory was refused.
    pub fn copied_choices(&self, alloc: Global) -> Result<Choices, AllocError>
        ensures { IfOk result (λ choices. choices ≡ self.now.choices) }
    {
        Ok(Choices::from(Vec::from_slice(alloc, &self.choices)?))
    }

    // Appends its line and the lines of the outcome.
    fn append(&self, text: &mut Vec<u8>) -> Result<(), AllocError>
        ensures { OnOk result (text.new.items ≡ text.old.items ++ explored.found_text self.now) }
    {
        text.extend_from_slice(b"STATUS ")?;
        append_number(text, self.status)?;
        text.extend_from_slice(b" BY ")?;
        append_counted(text, self.choices.len(), b" CHOICE\n", b" CHOICES\n")?;
        text.extend_from_slice(&self.lines)?;
        Ok(())
    }
}

// Options of a run by these choices.
fn options_by(alloc: Global, cells: u32, choices: &[u64]) -> Result<Options, AllocError>
    requires some { 1 ≤ cells }
    requires few { cells ≤ 16777216 }
    ensures arena { IfOk result (λ options. options.arena ≡ cells) }
    ensures steps { IfOk result (λ options. options.steps ≡ 18446744073709551615) }
    ensures choices { IfOk result (λ options. options.choices ≡ choices.now) }
{
    Ok(Options {
        arena: cells,
        steps: MOST_STEPS,
        choices: Choices::from(Vec::from_slice(alloc, choices)?),
    })
}

// What is found of a run by these choices.
fn found_of(transcript: Transcript, choices: Vec<u64>) -> Result<Found, AllocError>
    ensures found { IfOk result (IsFoundOf (outcome_of transcript)) }
    ensures by { IfOk result (λ found. found.choices ≡ choices.items) }
{
    let Transcript {
        output,
        messages,
        status,
        history: _,
    } = transcript;
    let mut lines = output;
    lines.extend_from_slice(messages.as_slice())?;
    Ok(Found {
        status: status.code(),
        lines,
        choices,
    })
}

/// The outcome of choices that all make steps, in an arena of `cells` cells, 1 to 16,777,216.
///
/// # Errors
///
/// Only where memory was refused.
pub fn found_by(
    alloc: Global,
    image: &Image,
    cells: u32,
    choices: Vec<u64>,
) -> Result<Found, AllocError>
    requires some { 1 ≤ cells }
    requires few { cells ≤ 16777216 }
    requires made { AreSteps image.now (opening image.now) choices.items }
    ensures found { IfOk result (IsFoundBy image.now cells) }
    ensures by { IfOk result (λ found. found.choices ≡ choices.items) }
{
    let options = options_by(alloc, cells, &choices)?;
    let transcript = image_transcript(alloc, image.copy(alloc)?, &options, false)?;
    // Says that the history has fewer entries than it may have.
    let _ = transcript.history.len();
    Ok(found_of(transcript, choices)?)
}

// Whether an outcome with the same status and lines is among these.
fn is_among(all: &[Found], one: &Found) -> bool
    ensures { result ≡ list_any (spec.is_like one.now) all.now }
{
    for found in all {
        if one.is_like(found) {
            return true;
        }
    }
    false
}

/// Adds an outcome, unless one with the same status and lines is there.
///
/// # Errors
///
/// Only where memory was refused.
pub fn add(all: &mut Vec<Found>, one: Found) -> Result<(), AllocError>
    ensures { OnOk result (all.new.items ≡ with_found one all.old.items) }
{
    if !is_among(all, &one) {
        all.push(one)?;
    }
    Ok(())
}

// ---- text

// Appends a number, and what is counted, one or several.
fn append_counted(
    text: &mut Vec<u8>,
    n: usize,
    one: &[u8],
    several: &[u8],
) -> Result<(), AllocError>
    ensures { OnOk result (text.new.items ≡ text.old.items ++ explored.number_text n one.now several.now) }
{
    append_number(text, n)?;
    text.extend_from_slice(if n == 1 { one } else { several })
}

// Whether the line that comes next is that of a process that waits.
fn begins_waiting(lines: &[u8]) -> bool
    ensures { result ≡ explored.begins_waiting lines.now }
{
    lines.starts_with(b"WAITING ")
}

// Whether a line of a process that waits is among these.
fn has_waiting_line(lines: &[u8]) -> bool
    ensures { result ≡ explored.has_waiting_line lines.now }
{
    if begins_waiting(lines) {
        return true;
    }
    for index in 0..lines.len() {
        if lines[index] == b'\n' && begins_waiting(&lines[index + 1..]) {
            return true;
        }
    }
    false
}

// Appends whether a deadlock is possible, as far as is known.
fn append_deadlock(text: &mut Vec<u8>, all: &[Found], complete: bool) -> Result<(), AllocError>
    ensures { OnOk result (text.new.items ≡ text.old.items ++ explored.deadlock_text all.now complete) }
{
    for found in all {
        if has_waiting_line(&found.lines) {
            return text.extend_from_slice(b"DEADLOCK IS POSSIBLE\n");
        }
    }
    if complete {
        return text.extend_from_slice(b"NO DEADLOCK IS POSSIBLE\n");
    }
    Ok(())
}

// Appends whether other outcomes may be possible.
fn append_others(text: &mut Vec<u8>, states: usize, complete: bool) -> Result<(), AllocError>
    ensures { OnOk result (text.new.items ≡ text.old.items ++ explored.others_text states complete) }
{
    if complete {
        return text.extend_from_slice(b"NO OTHER OUTCOME IS POSSIBLE\n");
    }
    text.extend_from_slice(b"CUT SHORT AFTER ")?;
    append_counted(text, states, b" STATE\n", b" STATES\n")?;
    text.extend_from_slice(b"OTHER OUTCOMES MAY BE POSSIBLE\n")
}

/// The text of outcomes that were found, of so many states.
///
/// # Errors
///
/// Only where memory was refused.
pub fn text_of(
    alloc: Global,
    all: &[Found],
    states: usize,
    complete: bool,
) -> Result<Vec<u8>, AllocError>
    ensures { IfOk result (λ text. text.items ≡ explored.explored_text all.now states complete) }
{
    let mut text = Vec::new(alloc);
    for found in all {
        found.append(&mut text)?;
    }
    append_counted(&mut text, all.len(), b" OUTCOME OF ", b" OUTCOMES OF ")?;
    append_counted(&mut text, states, b" STATE\n", b" STATES\n")?;
    append_deadlock(&mut text, all, complete)?;
    append_others(&mut text, states, complete)?;
    Ok(text)
}
