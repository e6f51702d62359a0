//! The bytes of a source and two histories to what differs between the two runs.
ghost use Rattle.std.specs.Prelude.{◌≡◌, ◌≤◌, IfOk};
ghost use Rattle.hep_cover.specs.WhyWatches.{IsReplayed};
ghost use Rattle.hep_inspection.specs.Diffs.{IsCompared, IsComparedWith, IsSourceCompared};
ghost use Rattle.hep_outcome.specs.Transcripts.{outcome_of};
ghost use Rattle.hep_run.specs.Delivery.{LeavesOfSource};
ghost use Rattle.hep_run.specs.Memory.{RefusesLargeSource};

use crate::origin::Origin;
use crate::replay_result::{ReplayResult, make_again};
use hep_core::Core;
use hep_cover::History;
use hep_diff::diff_text;
use hep_image::Image;
use hep_run::Run;
use hep_run::command::{Command, CommandRequest, deliver_source};
use hep_run::transcript::{Transcript, text_transcript};
use std::alloc::{AllocError, Global};
use std::io::{Read, Write};

/// The histories and the options of `diff`.
#[derive(Clone, Copy)]
pub struct DiffOptions<'a> {
    /// Where the first history comes from.
    pub first: Origin<'a>,
    /// Where the second one comes from.
    pub second: Origin<'a>,
    /// The arena's size in cells, 1 to 16,777,216.
    pub arena: u32,
    ghost some: { 1 ≤ arena },
    ghost few: { arena ≤ 16777216 },
}

// What is written about the second history of an accepted program, after a core has made the entries of the first
// one.
fn second_diff(
    alloc: Global,
    image: &Image,
    asked: &CommandRequest<'_, DiffOptions<'_>>,
    first: Core,
    entries: &History,
) -> Result<Transcript, AllocError>
    requires replayed { IsReplayed first.core entries.now.items }
    requires program { first.core.program ≡ image.now }
    requires cells { first.core.cells ≡ asked.now.options.now.arena }
    ensures { IfOk result (λ r.
        IsComparedWith asked.now.long asked.now.options.now.arena entries.now.items asked.now.options.now.second image.now (outcome_of r)) }
{
    match make_again(
        alloc,
        image,
        asked.options.arena,
        asked.long,
        &asked.options.second,
    )? {
        ReplayResult::Made {
            core,
            entries: others,
        } => {
            let text = diff_text(alloc, first, core, entries, &others)?;
            Ok(text_transcript(alloc, text))
        }
        ReplayResult::Refused(refused) => Ok(refused),
    }
}

// What is written about two histories of an accepted program.
fn image_diff(
    alloc: Global,
    image: &Image,
    asked: &CommandRequest<'_, DiffOptions<'_>>,
) -> Result<Transcript, AllocError>
    ensures { IfOk result (λ r.
        IsCompared asked.now.long asked.now.options.now.arena asked.now.options.now.first asked.now.options.now.second image.now (outcome_of r)) }
{
    match make_again(
        alloc,
        image,
        asked.options.arena,
        asked.long,
        &asked.options.first,
    )? {
        ReplayResult::Made { core, entries } => second_diff(alloc, image, asked, core, &entries),
        ReplayResult::Refused(refused) => Ok(refused),
    }
}

impl Command for DiffOptions<'_> {
    ghost use Rattle.hep_inspection.specs.Diffs.{IsCompared};

    type Front = Image;

    ghost gives = { λ options long source. IsCompared long options.arena options.first options.second };

    fn transcript(
        alloc: Global,
        _source: &[u8],
        image: Image,
        asked: &CommandRequest<'_, Self>,
    ) -> Result<Transcript, AllocError> {
        image_diff(alloc, &image, asked)
    }
}

/// Reads a source, makes two histories of it again, and writes to `output` the differences of the two runs, process
/// by process; or to `messages` why something is refused.
///
/// The bytes or the choices of the histories were read before. The run's status is the code of a `Status`.
pub fn diff_noted<R: Read, W: Write, E: Write>(
    alloc: Global,
    source: &mut R,
    asked: &CommandRequest<'_, DiffOptions<'_>>,
    output: &mut W,
    messages: &mut E,
) -> Run
    ensures left { LeavesOfSource (IsSourceCompared asked.now.long asked.now.options.now.arena asked.now.options.now.first asked.now.options.now.second)
        (R.remaining source.old) (R.remaining source.new)
        result (W.contents output.old) (W.contents output.new)
        (E.contents messages.old) (E.contents messages.new) }
    ensures large { RefusesLargeSource asked.now.long (R.remaining source.old) (R.remaining source.new) result
        (W.contents output.old) (W.contents output.new) (E.contents messages.old) (E.contents messages.new) }
{
    deliver_source::<DiffOptions<'_>, R, W, E>(alloc, source, asked, output, messages)
}
