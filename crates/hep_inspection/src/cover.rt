//! The bytes of a source and histories to how often the statement of each line began in them.
ghost use Rattle.std.specs.Prelude.{◌≡◌, [], IfOk};
ghost use Rattle.hep_cover.specs.StatementStarts.{operations_by_line};
ghost use Rattle.hep_cover.specs.Coverage.{unbegun};
ghost use Rattle.hep_inspection.specs.Covers.{IsCovered, IsSourceCovered};
ghost use Rattle.hep_inspection.specs.CountedHistories.{IsCountedOrRefused};
ghost use Rattle.hep_outcome.specs.Transcripts.{outcome_of};
ghost use Rattle.hep_run.specs.Delivery.{LeavesOfSource};
ghost use Rattle.hep_run.specs.Memory.{RefusesLargeSource};

use crate::cover_options::CoverOptions;
use crate::origin::Origin;
use crate::replay_result::{ReplayResult, make_again};
use hep_cover::{append_counts, count_history, line_count, operations_by_line, unbegun};
use hep_image::Image;
use hep_run::Run;
use hep_run::command::{Command, CommandRequest, deliver_source};
use hep_run::transcript::{Transcript, text_transcript};
use std::alloc::{AllocError, Global};
use std::io::{Read, Write};

/// The number of operations of each line's statement, and the number of times that it began so far.
#[derive(Drop)]
struct LineCounts {
    operations: Vec<usize>,
    counts: Vec<Option<u64>>,
}

// The same before the first history.
fn uncounted(alloc: Global, image: &Image, lines: usize) -> Result<LineCounts, AllocError>
    ensures operations { IfOk result (λ c. c.operations.items ≡ operations_by_line image.now lines) }
    ensures counts { IfOk result (λ c. c.counts.items ≡ unbegun image.now lines) }
{
    Ok(LineCounts {
        operations: operations_by_line(alloc, image, lines)?,
        counts: unbegun(alloc, image, lines)?,
    })
}

// Counts the statements that the steps of a history begin; or says what is written where there is none that can be made.
fn count_one(
    alloc: Global,
    image: &Image,
    asked: &CommandRequest<'_, CoverOptions<'_>>,
    counting: &mut LineCounts,
    origin: &Origin<'_>,
) -> Result<Option<Transcript>, AllocError>
    ensures { IfOk result (IsCountedOrRefused asked.now.long asked.now.options.now.arena image.now origin.now counting.old counting.new) }
{
    match make_again(alloc, image, asked.options.arena, asked.long, origin)? {
        ReplayResult::Made { core, entries } => {
            count_history(
                alloc,
                &core,
                &counting.operations,
                &entries,
                &mut counting.counts,
            )?;
            Ok(None)
        }
        ReplayResult::Refused(refused) => Ok(Some(refused)),
    }
}

// What is written about the histories of an accepted program.
fn image_cover(
    alloc: Global,
    image: &Image,
    source: &[u8],
    asked: &CommandRequest<'_, CoverOptions<'_>>,
) -> Result<Transcript, AllocError>
    ensures { IfOk result (λ r.
        IsCovered asked.now.long asked.now.options.now source.now image.now (outcome_of r)) }
{
    let mut counting = uncounted(alloc, image, line_count(source))?;
    for index in 0..asked.options.origins.len() {
        let origin = &asked.options.origins[index];
        match count_one(alloc, image, asked, &mut counting, origin)? {
            Some(refused) => return Ok(refused),
            None => {}
        }
    }
    let mut text = Vec::new(alloc);
    append_counts(
        alloc,
        &mut text,
        asked.options.tracefile,
        source,
        &counting.counts,
    )?;
    Ok(text_transcript(alloc, text))
}

impl Command for CoverOptions<'_> {
    ghost use Rattle.hep_inspection.specs.Covers.{IsCovered};

    type Front = Image;

    ghost gives = { λ options long. IsCovered long options };

    fn transcript(
        alloc: Global,
        source: &[u8],
        image: Image,
        asked: &CommandRequest<'_, Self>,
    ) -> Result<Transcript, AllocError> {
        image_cover(alloc, &image, source, asked)
    }
}

/// Reads a source, makes histories of it again, and writes to `output` the lines of the source, each with the number
/// of times that its statement began, or these numbers as a tracefile; or to `messages` why something is refused.
///
/// The bytes or the choices of the histories were read before. The run's status is the code of a `Status`.
pub fn cover_noted<R: Read, W: Write, E: Write>(
    alloc: Global,
    source: &mut R,
    asked: &CommandRequest<'_, CoverOptions<'_>>,
    output: &mut W,
    messages: &mut E,
) -> Run
    ensures left { LeavesOfSource (IsSourceCovered asked.now.long asked.now.options.now)
        (R.remaining source.old) (R.remaining source.new)
        result (W.contents output.old) (W.contents output.new)
        (E.contents messages.old) (E.contents messages.new) }
    ensures large { RefusesLargeSource asked.now.long (R.remaining source.old) (R.remaining source.new) result
        (W.contents output.old) (W.contents output.new) (E.contents messages.old) (E.contents messages.new) }
{
    deliver_source::<CoverOptions<'_>, R, W, E>(alloc, source, asked, output, messages)
}
