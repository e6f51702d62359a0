//! Files besides a source (choices and histories), and texts for the user of the command line.
//!
//! The program opens the files; this module does the rest. Each call that returns an exit status has written the
//! reason, so that the program writes nothing more.
ghost use Rattle.std.specs.Prelude.{◌≡◌, ◌≢◌, codes, IfOk, IfErr, Ok, Err};
ghost use Rattle.std.specs.Io.KnownBytes.{Keeps};
ghost use Rattle.hep_outcome.specs.OutcomeHistoryLines.{most_bytes};
ghost use Rattle.hep_run.specs.Delivery.{CannotRead, SaysLines, SaysUnread, SomeOf, write_fault_text};
ghost use Rattle.hep_run.specs.Files.{HasReadText, KeepsHistory, PutsText, ReadsChoices, ReadsFollowed, SaysFault, SaysRefusal};
ghost use Rattle.hep_outcome.specs.declared.status.Status.TheVariants.{DeviceFailed, NoMemory, Usage};

use crate::delivery::{put_text, put_write_fault, say};
use crate::input::{ReadFault, read_input};
use crate::options::Run;
use crate::source::NO_MEMORY;
use hep_base::Refusal;
use hep_outcome::{
    Choices, MOST_BYTES, Status, put_refusal, read_choices, read_followed, write_text,
};
use std::alloc::Global;
use std::io::{Read, Write};

/// Writes why an input couldn't be read, and returns the exit status. A file that can't be opened has `Failed`.
pub fn say_unread<E: Write>(messages: &mut E, fault: ReadFault) -> u8
    ensures { SaysUnread fault result (E.contents messages.old) (E.contents messages.new) }
{
    match fault {
        ReadFault::NoMemory => say(messages, NO_MEMORY, Status::NoMemory),
        ReadFault::Failed => say(messages, b"READ FAULT\n", Status::DeviceFailed),
    }
}

/// The bytes of a file of choices or of a history, or its first bytes, as soon as there are more than such a text may
/// have.
///
/// # Errors
///
/// The exit status, where the file couldn't be read.
pub fn read_text_file<R: Read, E: Write>(
    alloc: Global,
    file: &mut R,
    messages: &mut E,
) -> Result<Vec<u8>, u8>
    ensures read { IfOk result (λ bytes.
        HasReadText (R.remaining file.old) (R.remaining file.new) bytes.items) }
    ensures silent { IfOk result (λ _. Keeps (E.contents messages.old) (E.contents messages.new)) }
    ensures unread { IfErr result (λ code.
        CannotRead most_bytes (R.remaining file.old) (R.remaining file.new) code
        (E.contents messages.old) (E.contents messages.new)) }
{
    match read_input(alloc, file, MOST_BYTES) {
        Ok(bytes) => Ok(bytes),
        Err(fault) => Err(say_unread(messages, fault)),
    }
}

// Writes that a text besides a source is refused, and returns the exit status.
fn say_refusal<E: Write>(alloc: Global, messages: &mut E, number: u16, line: u32) -> u8
    ensures { SaysRefusal number line result (E.contents messages.old) (E.contents messages.new) }
{
    let mut text = Vec::new(alloc);
    match put_refusal(&mut text, number, u64::from(line), b"") {
        Ok(()) => say(messages, &text, Status::Usage),
        Err(_) => say(messages, NO_MEMORY, Status::NoMemory),
    }
}

// Writes why a text besides a source gives no choices, and returns the exit status.
fn say_fault<E: Write>(alloc: Global, messages: &mut E, fault: &Refusal) -> u8
    ensures { SaysFault fault.now result (E.contents messages.old) (E.contents messages.new) }
{
    match fault {
        Refusal::NoMemory => say(messages, NO_MEMORY, Status::NoMemory),
        Refusal::Refused { number, line, .. } => say_refusal(alloc, messages, *number, *line),
    }
}

/// The choices of a text: a line `p` for each.
///
/// # Errors
///
/// The exit status, where the text is refused or there was too little memory.
pub fn choices_of<E: Write>(alloc: Global, text: &[u8], messages: &mut E) -> Result<Choices, u8>
    ensures { ReadsChoices text.now result (E.contents messages.old) (E.contents messages.new) }
{
    match read_choices(alloc, text) {
        Ok(choices) => Ok(choices),
        Err(fault) => Err(say_fault(alloc, messages, &fault)),
    }
}

/// The choices that make the steps of the history of a text.
///
/// # Errors
///
/// The exit status, where the text is refused or there was too little memory.
pub fn followed_of<E: Write>(alloc: Global, text: &[u8], messages: &mut E) -> Result<Choices, u8>
    ensures { ReadsFollowed text.now result (E.contents messages.old) (E.contents messages.new) }
{
    match read_followed(alloc, text) {
        Ok(choices) => Ok(choices),
        Err(fault) => Err(say_fault(alloc, messages, &fault)),
    }
}

/// The text of a run's history, if it has to be written: not where the source, the choices or a history was refused,
/// memory was, or a read or a write failed.
///
/// # Errors
///
/// The exit status of the run, where its history isn't written; otherwise memory was refused for the text.
pub fn history_text<E: Write>(alloc: Global, run: &Run, messages: &mut E) -> Result<Vec<u8>, u8>
    ensures kept { IfOk result (λ text.
        KeepsHistory run.now (Ok text.items) (E.contents messages.old) (E.contents messages.new)) }
    ensures unkept { IfErr result (λ code.
        KeepsHistory run.now (Err code) (E.contents messages.old) (E.contents messages.new)) }
{
    if !matches!(run.status, 0 | 3..=6) {
        return Err(run.status);
    }
    match write_text(alloc, &run.history) {
        Ok(text) => Ok(text),
        Err(_) => Err(say(messages, NO_MEMORY, Status::NoMemory)),
    }
}

/// Writes that a file couldn't be opened for writing, and returns the exit status.
pub fn say_unwritten<E: Write>(messages: &mut E) -> u8
    ensures code { result ≡ 8 }
    ensures said { SomeOf (E.contents messages.old) (E.contents messages.new) (write_fault_text 0) }
{
    let _ = put_write_fault(messages, 0);
    Status::DeviceFailed.code()
}

/// Writes a text for the user of the command line, and returns the exit status. The text goes to `output` where it
/// was asked for, which is status 0, and to `messages` where the command line is wrong, 2, or a file can't be opened,
/// 8. At 7, and at any other status, it writes to `messages` that memory was refused for the text.
pub fn answer<W: Write, E: Write>(status: u8, text: &[u8], output: &mut W, messages: &mut E) -> u8
    ensures asked { status ≡ 0 → PutsText text.now 0 result (W.contents output.old)
        (W.contents output.new) (E.contents messages.old) (E.contents messages.new) }
    ensures mistaken { status ≡ 2 → Keeps (W.contents output.old) (W.contents output.new)
        × SaysLines text.now Usage result (E.contents messages.old) (E.contents messages.new) }
    ensures unopened { status ≡ 8 → Keeps (W.contents output.old) (W.contents output.new)
        × SaysLines text.now DeviceFailed result (E.contents messages.old) (E.contents messages.new) }
    ensures unmade { status ≢ 0 → status ≢ 2 → status ≢ 8 → Keeps (W.contents output.old) (W.contents output.new)
        × SaysLines (codes "NO MEMORY\n") NoMemory result
        (E.contents messages.old) (E.contents messages.new) }
{
    match status {
        0 => put_text(text, 0, output, messages),
        2 => say(messages, text, Status::Usage),
        8 => say(messages, text, Status::DeviceFailed),
        _ => say(messages, NO_MEMORY, Status::NoMemory),
    }
}
