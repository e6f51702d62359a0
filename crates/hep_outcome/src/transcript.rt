//! The outputs of a run, its status and its history.
ghost use Rattle.std.specs.Prelude.{◌≡◌, ◌≢◌, ◌+◌, ◌++◌, [], true, IfOk, OnErr, OnOk, length};
ghost use Rattle.hep_outcome.specs.Texts as texts;
ghost use Rattle.hep_outcome.specs.Outcome as outcome;
ghost use Rattle.hep_outcome.specs.Outcome.{outcome_of_end, outcome_of_refused_choice};
ghost use Rattle.hep_outcome.specs.Notes as told;
ghost use Rattle.hep_outcome.specs.Replay as replay;
ghost use Rattle.hep_outcome.specs.Replay.{outcome_of_core, outcome_of_refused_history};
ghost use Rattle.hep_outcome.specs.Transcripts.{outcome_of};

use crate::lines::Lines;
use crate::refusal_text::put_refusal;
use crate::status::Status;
use hep_base::Text;
use hep_dump::{
    append_all_waiting, append_all_wants, append_faults, append_places, opening_notes, used_notes,
};
use hep_history::History;
use hep_image::Image;
use hep_output::append_records;
use hep_replay::{ChoiceStop, Core, Fault, Verdict};
use std::alloc::{AllocError, Global};

/// The bytes of a run for both outputs, its status and its history.
#[derive(Drop)]
pub struct Transcript {
    /// The lines of the records.
    pub output: Vec<u8>,
    /// The lines of the faults, of the waiting processes and of a stop, or that of a refusal.
    pub messages: Lines,
    /// The status of the run.
    pub status: Status,
    /// An entry for each choice that was made.
    pub history: History,
}

impl Transcript {
    /// A transcript without records.
    pub fn silent(alloc: Global, messages: Lines, status: Status, history: History) -> Transcript
        ensures output { result.output.items ≡ [] }
        ensures messages { result.messages ≡ messages }
        ensures status { result.status ≡ status }
        ensures history { result.history ≡ history }
    {
        Transcript {
            output: Vec::new(alloc),
            messages,
            status,
            history,
        }
    }
}

fn stop_text(stop: Option<ChoiceStop>) -> &'static [u8]
    ensures { result.now ≡ texts.stop_text stop }
{
    match stop {
        None | Some(ChoiceStop::Halted) => b"",
        Some(ChoiceStop::ArenaFull) => b"STOPPED ARENA FULL\n",
        Some(ChoiceStop::StepLimit) => b"STOPPED STEP LIMIT\n",
    }
}

fn status_of(verdict: Verdict, faults: &[Fault]) -> Status
    ensures { result ≡ outcome.status_of verdict faults.now }
{
    match (verdict, faults) {
        (Verdict::Stopped(ChoiceStop::ArenaFull), _) => Status::ArenaFull,
        (Verdict::Stopped(ChoiceStop::StepLimit), _) => Status::StepLimit,
        (_, [_, ..]) => Status::Faulted,
        (Verdict::Waiting, []) => Status::Waiting,
        (Verdict::Stopped(ChoiceStop::Halted) | Verdict::Done | Verdict::Running, []) =>
            Status::Done,
    }
}

// The lines of the waiting processes, if all living ones wait, with notes where `long` is true.
fn append_dump(
    alloc: Global,
    text: &mut Vec<u8>,
    core: &Core,
    verdict: Verdict,
    long: bool,
) -> Result<(), AllocError>
    ensures { OnOk result (text.new.items ≡ text.old.items ++ outcome.dump_text long core.now.core.program core.now.core.history verdict) }
{
    match verdict {
        Verdict::Waiting => append_all_waiting(alloc, text, core, long),
        Verdict::Stopped(_) | Verdict::Done | Verdict::Running => Ok(()),
    }
}

// The notes after the stop of a core.
fn append_notes_of_stop(
    alloc: Global,
    text: &mut Vec<u8>,
    core: &Core,
    stop: Option<ChoiceStop>,
) -> Result<(), AllocError>
    ensures { OnOk result (text.new.items
        ≡ text.old.items ++ told.notes_of_stop core.now.core.program core.now.core.cells core.now.core.history stop) }
{
    match stop {
        Some(ChoiceStop::ArenaFull) => {
            let notes = used_notes(alloc, core.used(), core.cells())?;
            text.extend_from_slice(notes.as_slice())?;
            append_all_wants(alloc, text, core)
        }
        Some(ChoiceStop::StepLimit) => append_places(alloc, text, core),
        None | Some(ChoiceStop::Halted) => Ok(()),
    }
}

// The notes after the stop where `long` is true, and nothing where it is false.
fn append_stop_notes(
    alloc: Global,
    text: &mut Vec<u8>,
    core: &Core,
    stop: Option<ChoiceStop>,
    long: bool,
) -> Result<(), AllocError>
    ensures { OnOk result (text.new.items
        ≡ text.old.items ++ told.stop_notes long core.now.core.program core.now.core.cells core.now.core.history stop) }
{
    if long {
        append_notes_of_stop(alloc, text, core, stop)?;
    }
    Ok(())
}

/// The stop of a core, if it has one.
fn stop_of(core: &Core) -> Option<ChoiceStop>
    ensures { result ≡ core.now.core.stop }
{
    match core.verdict() {
        Verdict::Stopped(stop) => Some(stop),
        _ => None,
    }
}

// The history of a core that is no longer needed.
fn history_of(core: Core) -> History
    ensures { result.items ≡ core.core.history }
{
    core.into_history()
}

/// The transcript of a run that is over, with notes where `long` is true.
///
/// # Errors
///
/// Only where memory was refused.
pub fn ended_transcript(alloc: Global, core: Core, long: bool) -> Result<Transcript, AllocError>
    ensures { IfOk result (λ r.
        outcome_of r ≡ outcome_of_end long core.core.program core.core.cells core.core.history core.core.stop) }
{
    let stop = stop_of(&core);
    let verdict = core.verdict();
    let mut output = Vec::new(alloc);
    append_records(&mut output, core.output())?;
    let mut messages = Vec::new(alloc);
    append_faults(&mut messages, core.image(), core.faults())?;
    append_dump(alloc, &mut messages, &core, verdict, long)?;
    messages.extend_from_slice(stop_text(stop))?;
    append_stop_notes(alloc, &mut messages, &core, stop, long)?;
    Ok(Transcript {
        output,
        messages: Lines::Made(messages),
        status: status_of(verdict, core.faults()),
        history: history_of(core),
    })
}

fn running_text(verdict: Verdict) -> &'static [u8]
    ensures { result.now ≡ replay.running_text verdict }
{
    match verdict {
        Verdict::Running => b"STILL RUNNING\n",
        Verdict::Done | Verdict::Waiting | Verdict::Stopped(_) => b"",
    }
}

/// The transcript of a core that has made all entries of a history, with notes where `long` is true.
///
/// # Errors
///
/// Only where memory was refused.
pub fn core_transcript(alloc: Global, core: Core, long: bool) -> Result<Transcript, AllocError>
    ensures { IfOk result (λ r. outcome_of r ≡ outcome_of_core long core.core) }
{
    let verdict = core.verdict();
    let Transcript {
        output,
        messages: lines,
        status,
        history,
    } = ended_transcript(alloc, core, long)?;
    let mut messages = lines.into_vec(alloc)?;
    messages.extend_from_slice(running_text(verdict))?;
    Ok(Transcript {
        output,
        messages: Lines::Made(messages),
        status,
        history,
    })
}

/// The transcript of a run whose next choice is refused. `choice` is its number, counted from 1.
///
/// # Errors
///
/// Only where memory was refused.
pub fn choice_transcript(alloc: Global, core: Core, choice: usize) -> Result<Transcript, AllocError>
    requires { choice ≡ length core.core.history + 1 }
    ensures { IfOk result (λ r. outcome_of r ≡ outcome_of_refused_choice core.core.history) }
{
    let mut messages = Vec::new(alloc);
    put_refusal(&mut messages, 501, choice as u64, b"")?;
    let history = history_of(core);
    Ok(Transcript::silent(alloc, Lines::Made(messages), Status::Usage, history))
}

/// The transcript of a history that is refused at this line of its text, or at this entry.
///
/// # Errors
///
/// Only where memory was refused.
pub fn history_transcript(alloc: Global, number: u16, place: u64) -> Result<Transcript, AllocError>
    ensures { IfOk result (λ r. outcome_of r ≡ outcome_of_refused_history number place) }
{
    let mut messages = Vec::new(alloc);
    put_refusal(&mut messages, number, place, b"")?;
    let history = History::new(alloc);
    Ok(Transcript::silent(alloc, Lines::Made(messages), Status::Usage, history))
}

/// The notes where COMMON and the main program's frame don't fit an arena of `cells` cells; nothing where `long` is
/// false.
///
/// # Errors
///
/// Only where memory was refused, which isn't asked for where `long` is false.
pub fn opening_notes_when(
    alloc: Global,
    image: &Image,
    cells: u32,
    long: bool,
) -> Result<Text, AllocError>
    ensures made { IfOk result (λ notes. notes ≡ told.opening_notes_when long image.now cells) }
    ensures unmade { OnErr result (long ≡ true) }
{
    if long {
        opening_notes(alloc, image, cells)
    } else {
        Ok(Text::from(Vec::new(alloc)))
    }
}

// The transcript of a program whose main program's frame doesn't fit the arena, without notes.
fn bare_full_transcript(alloc: Global) -> Transcript
    ensures { outcome_of result ≡ outcome.full_with [] }
{
    let line = stop_text(Some(ChoiceStop::ArenaFull));
    let history = History::new(alloc);
    Transcript::silent(alloc, Lines::Fixed(line), Status::ArenaFull, history)
}

// The same with these notes.
fn noted_full_transcript(alloc: Global, notes: &Text) -> Result<Transcript, AllocError>
    ensures { IfOk result (λ r. outcome_of r ≡ outcome.full_with notes.now) }
{
    let mut messages = Vec::from_slice(alloc, stop_text(Some(ChoiceStop::ArenaFull)))?;
    messages.extend_from_slice(notes.as_slice())?;
    let history = History::new(alloc);
    Ok(Transcript::silent(alloc, Lines::Made(messages), Status::ArenaFull, history))
}

/// The transcript of a program whose main program's frame doesn't fit the arena, with these notes.
///
/// # Errors
///
/// Only where memory was refused, which isn't asked for without notes.
pub fn full_transcript(alloc: Global, notes: &Text) -> Result<Transcript, AllocError>
    ensures made { IfOk result (λ r. outcome_of r ≡ outcome.full_with notes.now) }
    ensures unmade { OnErr result (notes.now ≢ []) }
{
    if notes.as_slice().is_empty() {
        return Ok(bare_full_transcript(alloc));
    }
    noted_full_transcript(alloc, notes)
}
