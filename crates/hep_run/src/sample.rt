//! A sample: many runs of a source by lots, counted by their outcomes.
ghost use Rattle.std.specs.Io.KnownBytes.{Keeps};
ghost use Rattle.std.specs.Prelude.{◌≡◌, [], codes, IfOk, IfErr, OnErr};
ghost use Rattle.hep_outcome.specs.declared.status.Status.TheVariants.{NoMemory};
ghost use Rattle.hep_run.specs.Delivery.{LeavesOneOf, SaysLines, status_alone};
ghost use Rattle.hep_run.specs.Memory.{MayReadOn, RefusesLarge};
ghost use Rattle.hep_run.specs.Samples.{AreFirstSeeds, HasLotHistory, IsSampleOutcome, IsSampled, IsTallied};
ghost use Rattle.hep_outcome.specs.Transcripts.{outcome_of};

use crate::command::{CommandRequest, transcript_of};
use crate::delivery::{deliver, say};
use crate::front_end::image_of_source;
use crate::observer::Observer;
use crate::source::NO_MEMORY;
use crate::transcript::{fault_transcript, text_transcript};
use hep_outcome::{
    LotOptions, SampleOptions, Status, Tally, Transcript, count, nth_options, seeds_of, text_of,
    write_text,
};
use std::alloc::{AllocError, Global};
use std::io::Write;

/// The result of a sample.
#[derive(Drop)]
pub struct Sample {
    /// The exit status of the program: the code of a `Status`.
    pub status: u8,
    /// The seed of the first run of each outcome; none where there was no run, or memory was refused.
    pub seeds: Vec<u64>,
}

/// The options of a sample, whether notes are written besides the lines of the standard form, and who is told of its runs.
#[derive(Drop)]
pub struct SampleRequest<'a, O> {
    pub options: &'a SampleOptions,
    pub long: bool,
    pub observer: &'a O,
}

// The tallies of all runs of a source.
fn tallies_of<O: Observer>(
    alloc: Global,
    source: &[u8],
    options: &SampleOptions,
    long: bool,
    observer: &O,
) -> Result<Vec<Tally>, AllocError>
    ensures { IfOk result (λ tallies. IsTallied long options.now source.now options.now.runs tallies.items) }
{
    let mut tallies = Vec::new(alloc);
    for run in 0..options.runs {
        let by = nth_options(options, run);
        let asked = CommandRequest { options: &by, long };
        let transcript = transcript_of(alloc, source, &asked)?;
        let outcomes = tallies.len();
        count(&mut tallies, Tally::new(by.seed, transcript)?)?;
        observer.run_made(run + 1, by.seed, outcomes < tallies.len());
    }
    Ok(tallies)
}

// All that a sample of a runnable source writes, before a byte of it is written, and the seeds of the first runs.
fn counted_transcript<O: Observer>(
    alloc: Global,
    source: &[u8],
    options: &SampleOptions,
    long: bool,
    observer: &O,
) -> Result<(Transcript, Vec<u64>), AllocError>
    ensures { IfOk result (λ made. IsSampled long options.now source.now made.1.items (outcome_of made.0)) }
{
    let tallies = tallies_of(alloc, source, options, long, observer)?;
    let text = text_of(alloc, options, &tallies)?;
    let seeds = seeds_of(alloc, &tallies)?;
    Ok((text_transcript(alloc, text), seeds))
}

// All that a sample of a source writes, before a byte of it is written, and the seeds of the first runs.
fn sample_transcript<O: Observer>(
    alloc: Global,
    source: &[u8],
    options: &SampleOptions,
    long: bool,
    observer: &O,
) -> Result<(Transcript, Vec<u64>), AllocError>
    ensures made { IfOk result (λ made. IsSampleOutcome long options.now made.1.items source.now (outcome_of made.0)) }
    ensures seeds { IfOk result (λ made. AreFirstSeeds long options.now source.now made.1.items) }
    ensures unmade { OnErr result (MayReadOn long source.now) }
{
    match image_of_source(alloc, source, long) {
        Ok(_) => counted_transcript(alloc, source, options, long, observer),
        Err(fault) => Ok((fault_transcript(alloc, fault)?, Vec::new(alloc))),
    }
}

/// Samples a source, which has been read: runs it by lots, once for each seed, and writes the number of runs of each
/// outcome, with the seed of the first one; or to `messages` why it isn't run, with notes where they are asked for.
///
/// Each run is compared with the outcomes before it, one after another, and then the observer is told of it.
pub fn sample_bytes<W: Write, E: Write, O: Observer>(
    alloc: Global,
    source: &[u8],
    asked: &SampleRequest<'_, O>,
    output: &mut W,
    messages: &mut E,
) -> Sample
    ensures left { LeavesOneOf (IsSampleOutcome asked.now.long asked.now.options.now result.seeds.items source.now) (status_alone result.status)
        (W.contents output.old) (W.contents output.new)
        (E.contents messages.old) (E.contents messages.new) }
    ensures large { RefusesLarge asked.now.long source.now (status_alone result.status)
        (W.contents output.old) (W.contents output.new) (E.contents messages.old) (E.contents messages.new) }
    ensures seeds { AreFirstSeeds asked.now.long asked.now.options.now source.now result.seeds.items }
    ensures none { result.status ≡ 7 → result.seeds.items ≡ [] }
{
    match sample_transcript(alloc, source, asked.options, asked.long, asked.observer) {
        Ok((transcript, seeds)) => Sample {
            status: deliver(transcript, output, messages).status,
            seeds,
        },
        Err(_) => Sample {
            status: say(messages, NO_MEMORY, Status::NoMemory),
            seeds: Vec::new(alloc),
        },
    }
}

/// The text of the history of a source's run by lots. Where there is one, nothing is written to `messages`.
///
/// # Errors
///
/// The exit status, where memory was refused.
pub fn lots_history<E: Write>(
    alloc: Global,
    source: &[u8],
    options: &LotOptions,
    messages: &mut E,
) -> Result<Vec<u8>, u8>
    ensures made { IfOk result (λ text. HasLotHistory options.now source.now text.items) }
    ensures silent { IfOk result (λ _. Keeps (E.contents messages.old) (E.contents messages.new)) }
    ensures unmade { IfErr result (λ code. SaysLines (codes "NO MEMORY\n") NoMemory code (E.contents messages.old) (E.contents messages.new)) }
{
    let asked = CommandRequest {
        options,
        long: false,
    };
    match transcript_of(alloc, source, &asked) {
        Ok(transcript) => match write_text(alloc, &transcript.history) {
            Ok(text) => Ok(text),
            Err(_) => Err(say(messages, NO_MEMORY, Status::NoMemory)),
        },
        Err(_) => Err(say(messages, NO_MEMORY, Status::NoMemory)),
    }
}
