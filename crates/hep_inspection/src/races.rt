//! The bytes of a source and a history to the races of the run.
ghost use Rattle.std.specs.Prelude.{◌≡◌, ◌≤◌, [], IfOk, if◌then◌else◌, length, nat_eq, not};
ghost use Rattle.hep_accesses.specs.RunEvents.{races_of};
ghost use Rattle.hep_cover.specs.WhyWatches.{IsReplayed};
ghost use Rattle.hep_inspection.specs.Races.{AreListed, IsSourceListed, shown_lines};
ghost use Rattle.hep_machine.specs.Words.{schedule_of};
ghost use Rattle.hep_outcome.specs.Transcripts.{outcome_of};
ghost use Rattle.hep_outcome.specs.declared.status.Status.TheVariants.{Done, Raced};
ghost use Rattle.hep_races.specs.Races.{races_text};
ghost use Rattle.hep_run.specs.Delivery.{LeavesOfSource};
ghost use Rattle.hep_run.specs.Memory.{RefusesLargeSource};

use crate::origin::Origin;
use crate::replay_result::{ReplayResult, make_again};
use hep_core::Core;
use hep_cover::{History, HistoryPrefix};
use hep_image::Image;
use hep_outcome::Status;
use hep_races::{RaceReport, history_races};
use hep_run::Run;
use hep_run::command::{Command, CommandRequest, deliver_source};
use hep_run::transcript::{Transcript, text_transcript};
use hep_state_text::Listing;
use std::alloc::{AllocError, Global};
use std::io::{Read, Write};

/// The history and the options of `races`.
#[derive(Clone, Copy)]
pub struct RacesOptions<'a> {
    /// Where the history comes from.
    pub origin: Origin<'a>,
    /// The arena's size in cells, 1 to 16,777,216.
    pub arena: u32,
    ghost some: { 1 ≤ arena },
    ghost few: { arena ≤ 16777216 },
}

// What is written about races.
fn races_transcript(alloc: Global, report: RaceReport) -> Transcript
    ensures { outcome_of result
        ≡ record { output = report.text.items; messages = []; status = if report.found then Raced else Done; history = [] } }
{
    let RaceReport { text, found } = report;
    let mut transcript = text_transcript(alloc, text);
    if found {
        transcript.status = Status::Raced;
    }
    transcript
}

// The races of the entries that a core has made, with lines of the source where `long` is true.
fn core_races(
    alloc: Global,
    core: &Core,
    source: &[u8],
    long: bool,
    entries: &History,
) -> Result<RaceReport, AllocError>
    requires { IsReplayed core.now.core entries.now.items }
    ensures text { IfOk result (λ report. report.text.items
        ≡ races_text (shown_lines long source.now) core.now.core.program entries.now.items) }
    ensures found { IfOk result (λ report. report.found
        ≡ not (nat_eq (length (races_of core.now.core.program (schedule_of entries.now.items))) 0)) }
{
    core.headline();
    let listing = Listing::new(alloc, source)?;
    let lines = if long { Some(&listing) } else { None };
    let image = core.image();
    let cells = core.cells();
    let count = entries.len();
    let all = HistoryPrefix {
        history: entries,
        count,
    };
    let report = history_races(alloc, image, cells, all, lines)?;
    Ok(report)
}

// What is written about a history of an accepted program.
fn image_races(
    alloc: Global,
    image: &Image,
    source: &[u8],
    asked: &CommandRequest<'_, RacesOptions<'_>>,
) -> Result<Transcript, AllocError>
    ensures { IfOk result (λ r.
        AreListed asked.now.long asked.now.options.now.arena asked.now.options.now.origin source.now image.now (outcome_of r)) }
{
    match make_again(
        alloc,
        image,
        asked.options.arena,
        asked.long,
        &asked.options.origin,
    )? {
        ReplayResult::Made { core, entries } => {
            let report = core_races(alloc, &core, source, asked.long, &entries)?;
            Ok(races_transcript(alloc, report))
        }
        ReplayResult::Refused(refused) => Ok(refused),
    }
}

impl Command for RacesOptions<'_> {
    ghost use Rattle.hep_inspection.specs.Races.{AreListed};

    type Front = Image;

    ghost gives = { λ options long. AreListed long options.arena options.origin };

    fn transcript(
        alloc: Global,
        source: &[u8],
        image: Image,
        asked: &CommandRequest<'_, Self>,
    ) -> Result<Transcript, AllocError> {
        image_races(alloc, &image, source, asked)
    }
}

/// Reads a source, makes a history of it again, and writes to `output` the races of the run, and a last line that other
/// runs may have others; or to `messages` why something is refused.
///
/// The bytes or the choices of the history were read before. The run's status is the code of a `Status`: of `Raced`
/// where there is a race.
pub fn races_noted<R: Read, W: Write, E: Write>(
    alloc: Global,
    source: &mut R,
    asked: &CommandRequest<'_, RacesOptions<'_>>,
    output: &mut W,
    messages: &mut E,
) -> Run
    ensures left { LeavesOfSource (IsSourceListed asked.now.long asked.now.options.now.arena asked.now.options.now.origin)
        (R.remaining source.old) (R.remaining source.new)
        result (W.contents output.old) (W.contents output.new)
        (E.contents messages.old) (E.contents messages.new) }
    ensures large { RefusesLargeSource asked.now.long (R.remaining source.old) (R.remaining source.new) result
        (W.contents output.old) (W.contents output.new) (E.contents messages.old) (E.contents messages.new) }
{
    deliver_source::<RacesOptions<'_>, R, W, E>(alloc, source, asked, output, messages)
}
