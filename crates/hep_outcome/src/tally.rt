//! Tallies of many runs by lots.
ghost use Rattle.std.specs.Prelude.{◌≡◌, ◌≤◌, ◌+◌, ◌++◌, map, IfOk, OnOk};
ghost use Rattle.hep_formats.specs.Strings.{json_strings};
ghost use Rattle.hep_text.specs.Line.{lines};
ghost use Rattle.hep_outcome.specs.Tallies as spec;
ghost use Rattle.hep_outcome.specs.Tallies.{IsNth, Tally as Counted, counted, sample_text, tally_text};
ghost use Rattle.hep_outcome.specs.Transcripts.{outcome_of};

use crate::options::{LotOptions, SampleOptions};
use crate::transcript::Transcript;
use hep_formats::append_json_item;
use hep_output::append_number;
use hep_text::line::next_line;
use std::alloc::{AllocError, Global};
use std::marker::Model;

/// The greatest seed. Seeds are 1 to this number.
pub const MOST_SEED: u64 = 4_294_967_296;

/// The number of runs with a status and these lines, and the seed of the first one.
#[derive(Drop)]
pub struct Tally {
    count: u64,
    seed: u64,
    status: u8,
    lines: Vec<u8>,
}

impl Model for Tally {
    ghost use Rattle.hep_outcome.specs.Tallies.{Tally as PureTally};

    ghost Value = { PureTally };

    ghost view = { λ t. record { count = t.count; seed = t.seed; status = t.status; lines = t.lines.items } };
}

// Appends the end of a line, with the seed of the first run.
fn append_seed(text: &mut Vec<u8>, seed: u64) -> Result<(), AllocError>
    ensures { OnOk result (text.new.items ≡ text.old.items ++ spec.seed_text seed) }
{
    text.extend_from_slice(b" FIRST BY SEED ")?;
    append_number(text, seed)?;
    text.extend_from_slice(b"\n")?;
    Ok(())
}

// Appends the front of the object of an outcome.
fn append_members(text: &mut Vec<u8>, status: u8, count: u64, seed: u64) -> Result<(), AllocError>
    ensures { OnOk result (text.new.items ≡ text.old.items ++ spec.tally_members status count seed) }
{
    text.extend_from_slice(b"{\"status\":")?;
    append_number(text, status)?;
    text.extend_from_slice(b",\"count\":")?;
    append_number(text, count)?;
    text.extend_from_slice(b",\"first_seed\":")?;
    append_number(text, seed)?;
    text.extend_from_slice(b",\"lines\":")
}

// Appends the lines of a text as an array of strings.
fn append_line_strings(text: &mut Vec<u8>, bytes: &[u8]) -> Result<(), AllocError>
    ensures { OnOk result (text.new.items ≡ text.old.items ++ json_strings (lines bytes.now)) }
{
    text.extend_from_slice(b"[")?;
    let mut rest = bytes;
    let mut follows = false;
    while !rest.is_empty() {
        let (line, after) = next_line(rest);
        append_json_item(text, follows, line)?;
        rest = after;
        follows = true;
    }
    text.extend_from_slice(b"]")
}

// Appends the object with the numbers of runs and of outcomes.
fn append_totals(text: &mut Vec<u8>, runs: u32, outcomes: usize) -> Result<(), AllocError>
    ensures { OnOk result (text.new.items ≡ text.old.items ++ spec.totals_object runs outcomes) }
{
    text.extend_from_slice(b"{\"runs\":")?;
    append_number(text, runs)?;
    text.extend_from_slice(b",\"outcomes\":")?;
    append_number(text, outcomes)?;
    text.extend_from_slice(b",\"others_possible\":true}\n")
}

impl Tally {
    /// The tally of one run, by a seed.
    ///
    /// # Errors
    ///
    /// Only where memory was refused.
    pub fn new(seed: u64, transcript: Transcript) -> Result<Tally, AllocError>
        ensures { IfOk result (λ t. t ≡ spec.tally_of seed (outcome_of transcript)) }
    {
        let Transcript {
            output,
            messages,
            status,
            history,
        } = transcript;
        let mut lines = output;
        lines.extend_from_slice(messages.as_slice())?;
        Ok(Tally {
            count: 1,
            seed,
            status: status.code(),
            lines,
        })
    }

    fn is_like(&self, other: &Tally) -> bool
        ensures { result ≡ spec.is_like self.now other.now }
    {
        self.status == other.status && self.lines.as_slice() == other.lines.as_slice()
    }

    // Counts one more run, unless there are more than a `u64` can count.
    fn raise(&mut self) -> Result<(), AllocError>
        ensures { OnOk result (self.new ≡ record self.old { count = self.old.count + 1 }) }
    {
        let Some(count) = self.count.checked_add(1) else {
            return Err(AllocError);
        };
        self.count = count;
        Ok(())
    }

    // Appends the number of these runs out of all runs, and the status.
    fn append_count(&self, text: &mut Vec<u8>, runs: u32) -> Result<(), AllocError>
        ensures { OnOk result (text.new.items ≡ text.old.items ++ spec.count_text runs self.now) }
    {
        append_number(text, self.count)?;
        text.extend_from_slice(b" OF ")?;
        append_number(text, runs)?;
        text.extend_from_slice(b" STATUS ")?;
        append_number(text, self.status)?;
        Ok(())
    }

    // Appends its line and the lines of the outcome.
    fn append(&self, text: &mut Vec<u8>, runs: u32) -> Result<(), AllocError>
        ensures { OnOk result (text.new.items ≡ text.old.items ++ tally_text runs self.now) }
    {
        self.append_count(text, runs)?;
        append_seed(text, self.seed)?;
        text.extend_from_slice(&self.lines)?;
        Ok(())
    }

    // Appends it as an object.
    fn append_object(&self, text: &mut Vec<u8>) -> Result<(), AllocError>
        ensures { OnOk result (text.new.items ≡ text.old.items ++ spec.tally_object self.now) }
    {
        append_members(text, self.status, self.count, self.seed)?;
        append_line_strings(text, &self.lines)?;
        text.extend_from_slice(b"}\n")
    }
}

/// Counts a run.
///
/// # Errors
///
/// Where memory was refused, or there are more runs than a `u64` counts.
pub fn count(tallies: &mut Vec<Tally>, one: Tally) -> Result<(), AllocError>
    ensures { OnOk result (tallies.new.items ≡ counted one tallies.old.items) }
{
    for place in 0..tallies.len() {
        if one.is_like(&tallies[place]) {
            return tallies[place].raise();
        }
    }
    tallies.push(one)?;
    Ok(())
}

// The seed of the run with a number, counted from 0.
fn nth_seed(seed: u64, run: u32) -> u64
    requires one { 1 ≤ seed }
    requires seeds { seed ≤ 4294967296 }
    ensures { result ≡ spec.nth_seed seed run }
{
    (seed - 1 + u64::from(run)) % MOST_SEED + 1
}

/// The options of the run with a number, counted from 0.
pub fn nth_options(options: &SampleOptions, run: u32) -> LotOptions
    ensures { IsNth options.now run result }
{
    LotOptions {
        arena: options.arena,
        steps: options.steps,
        seed: nth_seed(options.seed, run),
    }
}

// The lines of tallies of `runs` runs.
fn lines_of(alloc: Global, runs: u32, tallies: &[Tally]) -> Result<Vec<u8>, AllocError>
    ensures { IfOk result (λ text. text.items ≡ sample_text runs tallies.now) }
{
    let mut text = Vec::new(alloc);
    for tally in tallies {
        tally.append(&mut text, runs)?;
    }
    text.extend_from_slice(b"OTHER OUTCOMES MAY BE POSSIBLE\n")?;
    Ok(text)
}

// The objects of tallies of `runs` runs.
fn objects_of(alloc: Global, runs: u32, tallies: &[Tally]) -> Result<Vec<u8>, AllocError>
    ensures { IfOk result (λ text. text.items ≡ spec.sample_objects runs tallies.now) }
{
    let mut text = Vec::new(alloc);
    for tally in tallies {
        tally.append_object(&mut text)?;
    }
    append_totals(&mut text, runs, tallies.len())?;
    Ok(text)
}

/// The text of tallies of all runs: lines, or objects of JSON.
///
/// # Errors
///
/// Only where memory was refused.
pub fn text_of(
    alloc: Global,
    options: &SampleOptions,
    tallies: &[Tally],
) -> Result<Vec<u8>, AllocError>
    ensures { IfOk result (λ text. text.items ≡ spec.sample_by options.now.json options.now.runs tallies.now) }
{
    if options.json {
        objects_of(alloc, options.runs, tallies)
    } else {
        lines_of(alloc, options.runs, tallies)
    }
}

/// The seeds of the first runs.
///
/// # Errors
///
/// Only where memory was refused.
pub fn seeds_of(alloc: Global, tallies: &[Tally]) -> Result<Vec<u64>, AllocError>
    ensures { IfOk result (λ seeds. seeds.items ≡ map (λ (t : Counted). t.seed) tallies.now) }
{
    let mut seeds = Vec::new(alloc);
    for tally in tallies {
        seeds.push(tally.seed)?;
    }
    Ok(seeds)
}
