//! The bytes of a source and a history to what everything holds after the history's first entries.
ghost use Rattle.std.specs.Prelude.{◌≡◌, ◌≤◌, false, IfErr, IfOk, OnErr, OnOk, take};
ghost use Rattle.hep_inspection.specs.declared.origin.Origin.TheVariants.{Text};
ghost use Rattle.hep_inspection.specs.declared.inspection.Inspection.TheVariants.{State, StateJson};
ghost use Rattle.hep_formats.specs.WhyObjects as objects;
ghost use Rattle.hep_replay.specs.HistoryPrefix.{first_of};
ghost use Rattle.hep_replay.specs.Replays.{IsUnmade};
ghost use Rattle.hep_run.specs.Delivery.{LeavesOfSource};
ghost use Rattle.hep_run.specs.Memory.{RefusesLargeSource};
ghost use Rattle.hep_state_text.specs.States as words;
ghost use Rattle.hep_state_text.specs.LineDisplay.{line_shown};
ghost use Rattle.hep_text.specs.Line.{lines};
ghost use Rattle.hep_inspection.specs.Covers.{CanBeMade};
ghost use Rattle.hep_inspection.specs.Inspections.{IsFirstOutcome, IsSourceTold, IsToldOutcome, told};
ghost use Rattle.hep_cover.specs.CausesReasons as reasons;
ghost use Rattle.hep_outcome.specs.Memory.{MayOpen};
ghost use Rattle.hep_outcome.specs.Transcripts.{outcome_of};

use crate::origin::{Origin, Recorded, entries_of};
use crate::timeline::{events_told, lanes_told};
use hep_core::Core;
use hep_cover::{History, HistoryPrefix, ReplayFault, replay_first, why_text};
use hep_formats::{state_objects, why_objects};
use hep_image::Image;
use hep_page::{ShownEntries, page_text, picture_text, state_text};
use hep_run::Run;
use hep_run::command::{Command, CommandRequest, deliver_source};
use hep_run::transcript::{
    Transcript, full_transcript, history_transcript, opening_notes_when, text_transcript,
};
use hep_state_text::Listing;
use hep_trace::{LineFilter, trace_history};
use std::alloc::{AllocError, Global};
use std::io::{Read, Write};

/// What is written about the first entries of a history.
#[derive(Clone, Copy)]
pub enum Inspection<'a> {
    /// The state after them: the places of processes, and the values of variables.
    State,
    /// The same as objects of JSON.
    StateJson,
    /// A line for each of their steps, as far as these are shown.
    Trace(LineFilter<'a>),
    /// These lines as lanes of processes, in rows of so many columns.
    Lanes(LineFilter<'a>, u32),
    /// These lines as the events of a timeline, in JSON.
    TraceJson(LineFilter<'a>),
    /// A page that shows their steps in a browser, from the entry with this number on, counted from 1.
    Page(u64),
    /// A picture of them.
    Picture,
    /// Why processes wait after them.
    Why,
    /// The same as objects of JSON.
    WhyJson,
}

/// A history, and what is to be written about its first entries.
#[derive(Clone, Copy)]
pub struct InspectionOptions<'a> {
    pub telling: Inspection<'a>,
    /// Where the history comes from.
    pub origin: Origin<'a>,
    /// After how many entries; after all of them where there are no more.
    pub entries: u64,
    /// The arena's size in cells, 1 to 16,777,216.
    pub arena: u32,
    ghost some: { 1 ≤ arena },
    ghost few: { arena ≤ 16777216 },
}

// The state after the history of a core, of which `entries` entries were asked for.
fn core_told(alloc: Global, source: &[u8], core: &Core, entries: u64) -> Result<Vec<u8>, AllocError>
    ensures { IfOk result (λ text. text.items
        ≡ words.state_text (line_shown (lines source.now)) core.now.core.program entries core.now.core.history) }
{
    let lines = Listing::new(alloc, source)?;
    state_text(alloc, core, &lines, entries)
}

// The state after entries, which are made for it.
fn state_told(
    alloc: Global,
    source: &[u8],
    image: Image,
    arena: u32,
    entries: &HistoryPrefix<'_>,
) -> Result<Vec<u8>, ReplayFault>
    requires some { 1 ≤ arena }
    requires few { arena ≤ 16777216 }
    ensures told { IfOk result (λ text. text.items ≡ told State source.now image (first_of entries.now)) }
    ensures possible { OnOk result (CanBeMade image arena (first_of entries.now)) }
    ensures unmade { IfErr result (IsUnmade image arena (first_of entries.now)) }
{
    let core = replay_first(alloc, image, arena, entries)?;
    match core_told(alloc, source, &core, entries.len()) {
        Ok(text) => Ok(text),
        Err(_) => Err(ReplayFault::NoMemory),
    }
}

// The same as objects.
fn state_objects_told(
    alloc: Global,
    source: &[u8],
    image: Image,
    arena: u32,
    entries: &HistoryPrefix<'_>,
) -> Result<Vec<u8>, ReplayFault>
    requires some { 1 ≤ arena }
    requires few { arena ≤ 16777216 }
    ensures told { IfOk result (λ text. text.items ≡ told StateJson source.now image (first_of entries.now)) }
    ensures possible { OnOk result (CanBeMade image arena (first_of entries.now)) }
    ensures unmade { IfErr result (IsUnmade image arena (first_of entries.now)) }
{
    let state = state_told(alloc, source, image, arena, entries)?;
    match state_objects(alloc, &state) {
        Ok(text) => Ok(text),
        Err(_) => Err(ReplayFault::NoMemory),
    }
}

// Why processes wait after entries, which are made for it.
fn why_told(
    alloc: Global,
    image: Image,
    arena: u32,
    entries: &HistoryPrefix<'_>,
) -> Result<Vec<u8>, ReplayFault>
    requires some { 1 ≤ arena }
    requires few { arena ≤ 16777216 }
    ensures told { IfOk result (λ text. text.items ≡ reasons.why_text image (first_of entries.now)) }
    ensures possible { OnOk result (CanBeMade image arena (first_of entries.now)) }
    ensures unmade { IfErr result (IsUnmade image arena (first_of entries.now)) }
{
    let core = replay_first(alloc, image, arena, entries)?;
    match why_text(alloc, &core, entries) {
        Ok(text) => Ok(text),
        Err(_) => Err(ReplayFault::NoMemory),
    }
}

// The same as objects.
fn why_objects_told(
    alloc: Global,
    image: Image,
    arena: u32,
    entries: &HistoryPrefix<'_>,
) -> Result<Vec<u8>, ReplayFault>
    requires some { 1 ≤ arena }
    requires few { arena ≤ 16777216 }
    ensures told { IfOk result (λ text. text.items ≡ objects.why_objects (reasons.why_text image (first_of entries.now))) }
    ensures possible { OnOk result (CanBeMade image arena (first_of entries.now)) }
    ensures unmade { IfErr result (IsUnmade image arena (first_of entries.now)) }
{
    let why = why_told(alloc, image, arena, entries)?;
    match why_objects(alloc, &why) {
        Ok(text) => Ok(text),
        Err(_) => Err(ReplayFault::NoMemory),
    }
}

// The text about entries, which are made once for it.
fn told_text(
    alloc: Global,
    source: &[u8],
    image: Image,
    asked: &CommandRequest<'_, InspectionOptions<'_>>,
    entries: &HistoryPrefix<'_>,
) -> Result<Vec<u8>, ReplayFault>
    ensures told { IfOk result (λ text. text.items ≡ told asked.now.options.now.telling source.now image (first_of entries.now)) }
    ensures possible { OnOk result (CanBeMade image asked.now.options.now.arena (first_of entries.now)) }
    ensures unmade { IfErr result (IsUnmade image asked.now.options.now.arena (first_of entries.now)) }
{
    match asked.options.telling {
        Inspection::State => state_told(alloc, source, image, asked.options.arena, entries),
        Inspection::StateJson => {
            state_objects_told(alloc, source, image, asked.options.arena, entries)
        }
        Inspection::Trace(page) => {
            trace_history(alloc, image, asked.options.arena, entries, &page)
        }
        Inspection::Lanes(page, columns) => {
            let trace = trace_history(alloc, image, asked.options.arena, entries, &page)?;
            lanes_told(alloc, columns, &trace)
        }
        Inspection::TraceJson(page) => {
            let trace = trace_history(alloc, image, asked.options.arena, entries, &page)?;
            events_told(alloc, &trace)
        }
        Inspection::Page(first) => {
            let shown = ShownEntries {
                entries: *entries,
                first,
            };
            page_text(alloc, image, asked.options.arena, &shown, source)
        }
        Inspection::Picture => picture_text(alloc, image, asked.options.arena, entries),
        Inspection::Why => why_told(alloc, image, asked.options.arena, entries),
        Inspection::WhyJson => why_objects_told(alloc, image, asked.options.arena, entries),
    }
}

// What is written about the first ones of some entries of an accepted program.
fn entries_state(
    alloc: Global,
    source: &[u8],
    image: Image,
    asked: &CommandRequest<'_, InspectionOptions<'_>>,
    entries: &History,
) -> Result<Transcript, AllocError>
    ensures made { IfOk result (λ r.
        IsToldOutcome asked.now.options.now.telling asked.now.long source.now image asked.now.options.now.arena (take asked.now.options.now.entries entries.now.items) (outcome_of r)) }
    ensures unmade { OnErr result (MayOpen asked.now.long image asked.now.options.now.arena) }
{
    let first = HistoryPrefix {
        history: entries,
        count: asked.options.entries,
    };
    let notes = opening_notes_when(alloc, &image, asked.options.arena, asked.long)?;
    match told_text(alloc, source, image, asked, &first) {
        Ok(text) => Ok(text_transcript(alloc, text)),
        Err(ReplayFault::NoMemory) => Err(AllocError),
        Err(ReplayFault::ArenaFull) => full_transcript(alloc, &notes),
        Err(ReplayFault::Refused { number, entry }) => history_transcript(alloc, number, entry),
    }
}

// What is written about the first entries of a history of an accepted program.
fn image_state(
    alloc: Global,
    source: &[u8],
    image: Image,
    asked: &CommandRequest<'_, InspectionOptions<'_>>,
) -> Result<Transcript, AllocError>
    ensures { IfOk result (λ r.
        IsFirstOutcome asked.now.options.now.telling asked.now.long asked.now.options.now.origin asked.now.options.now.entries asked.now.options.now.arena source.now image (outcome_of r)) }
{
    match entries_of(alloc, &image, &asked.options.origin)? {
        Recorded::Made(entries) => entries_state(alloc, source, image, asked, &entries),
        Recorded::Refused(refused) => Ok(refused),
    }
}

impl Command for InspectionOptions<'_> {
    ghost use Rattle.hep_inspection.specs.Inspections.{IsFirstOutcome};

    type Front = Image;

    ghost gives = { λ options long. IsFirstOutcome options.telling long options.origin options.entries options.arena };

    fn transcript(
        alloc: Global,
        source: &[u8],
        image: Image,
        asked: &CommandRequest<'_, Self>,
    ) -> Result<Transcript, AllocError> {
        image_state(alloc, source, image, asked)
    }
}

/// Reads a source, makes the first entries of a history of it again, and writes a text about them to `output`; or to
/// `messages` why there is no such state. The text is the state after them (the place of each process, with the line
/// of the source, and the values of COMMON and of the held activations), or a line for each step, a page or a picture of
/// them, or why processes wait.
///
/// The bytes or the choices of the history were read before. The run's status is the code of a `Status`.
pub fn state_noted<R: Read, W: Write, E: Write>(
    alloc: Global,
    source: &mut R,
    asked: &CommandRequest<'_, InspectionOptions<'_>>,
    output: &mut W,
    messages: &mut E,
) -> Run
    ensures left { LeavesOfSource (IsSourceTold asked.now.options.now.telling asked.now.long asked.now.options.now.origin asked.now.options.now.entries asked.now.options.now.arena)
        (R.remaining source.old) (R.remaining source.new)
        result (W.contents output.old) (W.contents output.new)
        (E.contents messages.old) (E.contents messages.new) }
    ensures large { RefusesLargeSource asked.now.long (R.remaining source.old) (R.remaining source.new) result
        (W.contents output.old) (W.contents output.new) (E.contents messages.old) (E.contents messages.new) }
{
    deliver_source::<InspectionOptions<'_>, R, W, E>(alloc, source, asked, output, messages)
}

/// Writes the state after the first entries of a history, as `state_noted` does without notes, in an arena of 65,536
/// cells.
pub fn state_source<R: Read, W: Write, E: Write>(
    alloc: Global,
    source: &mut R,
    history: &[u8],
    entries: u64,
    output: &mut W,
    messages: &mut E,
) -> Run
    ensures left { LeavesOfSource (IsSourceTold State false (Text history.entry) entries 65536)
        (R.remaining source.old) (R.remaining source.new)
        result (W.contents output.old) (W.contents output.new)
        (E.contents messages.old) (E.contents messages.new) }
    ensures large { RefusesLargeSource false (R.remaining source.old) (R.remaining source.new) result
        (W.contents output.old) (W.contents output.new) (E.contents messages.old) (E.contents messages.new) }
{
    let options = InspectionOptions {
        telling: Inspection::State,
        origin: Origin::Text(history),
        entries,
        arena: 65_536,
    };
    let asked = CommandRequest {
        options: &options,
        long: false,
    };
    state_noted(alloc, source, &asked, output, messages)
}
