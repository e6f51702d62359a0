//! Writes the output of a run to its streams.
ghost use Rattle.std.specs.Prelude.{OnOk, IfErr};
ghost use Rattle.std.specs.Io.KnownBytes.{Appends};
ghost use Rattle.hep_run.specs.Delivery.{write_fault_text, Leaves, SaysLines, WritesMessages, SomeOf};
ghost use Rattle.hep_outcome.specs.Transcripts.{outcome_of};
ghost use Rattle.hep_run.specs.Transcripts.{LeavesMade};
ghost use Rattle.hep_run.specs.Files.{PutsText};

use crate::options::Run;
use crate::source::NO_MEMORY;
use hep_history::History;
use hep_outcome::{Status, Transcript};
use hep_output::{PutFault, put_all};
use itoa::Buffer;
use std::alloc::{AllocError, Global};
use std::io::Write;

/// Writes how many bytes a stream took before it failed.
///
/// # Errors
///
/// Where `messages` fails too. The fault has the number of bytes that it took of the line's part that failed.
pub fn put_write_fault<E: Write>(messages: &mut E, written: usize) -> Result<(), PutFault>
    ensures all { OnOk result (Appends (E.contents messages.old) (E.contents messages.new)
        (write_fault_text written)) }
    ensures some { IfErr result (λ _. SomeOf (E.contents messages.old) (E.contents messages.new)
        (write_fault_text written)) }
{
    put_all(messages, b"WRITE FAULT AFTER ")?;
    let mut buffer = Buffer::new();
    put_all(messages, buffer.format(written).as_bytes())?;
    put_all(messages, b"\n")?;
    Ok(())
}

/// Writes how many bytes a stream took before it failed; nothing for a pipe that no process reads any more.
fn say_broken<E: Write>(messages: &mut E, fault: &PutFault)
    ensures { SomeOf (E.contents messages.old) (E.contents messages.new) (write_fault_text fault.now.written) }
{
    if fault.is_closed_pipe() {
        return;
    }
    let _ = put_write_fault(messages, fault.written);
}

/// Writes lines to `messages` and returns the exit status of `status`.
///
/// Where that fails, it writes to `messages` how many bytes that took, unless it is a pipe that no process reads any
/// more, and returns the exit status of `DeviceFailed`. If this fails too, it writes no more.
pub fn say<E: Write>(messages: &mut E, lines: &[u8], status: Status) -> u8
    ensures { SaysLines lines.now status result (E.contents messages.old) (E.contents messages.new) }
{
    match put_all(messages, lines) {
        Ok(()) => status.code(),
        Err(fault) => {
            say_broken(messages, &fault);
            Status::DeviceFailed.code()
        }
    }
}

/// Writes the messages of a run with this history and this status, as `say` does.
pub fn write_messages<E: Write>(
    messages: &mut E,
    lines: &[u8],
    status: Status,
    history: History,
) -> Run
    ensures { WritesMessages lines.now status history.items result
        (E.contents messages.old) (E.contents messages.new) }
{
    Run {
        status: say(messages, lines, status),
        history,
    }
}

/// Writes a text to a stream and returns `code`.
///
/// Where the stream fails, it writes to `messages` how many bytes that took, unless it is a pipe that no process
/// reads any more, and returns the exit status of `DeviceFailed`. If this fails too, it writes no more.
pub fn put_text<W: Write, E: Write>(text: &[u8], code: u8, stream: &mut W, messages: &mut E) -> u8
    ensures { PutsText text.now code result (W.contents stream.old) (W.contents stream.new)
        (E.contents messages.old) (E.contents messages.new) }
{
    match put_all(stream, text) {
        Ok(()) => code,
        Err(fault) => {
            say_broken(messages, &fault);
            Status::DeviceFailed.code()
        }
    }
}

/// Writes a transcript, the records first.
///
/// Where a writer fails, it writes to `messages` how many bytes that stream took, unless it is a pipe that no process
/// reads any more, and the run has the status `DeviceFailed`. If this fails too, it writes no more.
pub fn deliver<W: Write, E: Write>(transcript: Transcript, output: &mut W, messages: &mut E) -> Run
    ensures { Leaves (outcome_of transcript) result (W.contents output.old) (W.contents output.new)
        (E.contents messages.old) (E.contents messages.new) }
{
    let Transcript {
        output: records,
        messages: lines,
        status,
        history,
    } = transcript;
    if let Err(fault) = put_all(output, &records) {
        say_broken(messages, &fault);
        return Run::new(Status::DeviceFailed, history);
    }
    write_messages(messages, lines.as_slice(), status, history)
}

/// Writes the transcript that was made, as `deliver` does, or the line that memory was refused for it.
pub fn deliver_made<W: Write, E: Write>(
    alloc: Global,
    made: Result<Transcript, AllocError>,
    output: &mut W,
    messages: &mut E,
) -> Run
    ensures { LeavesMade made result (W.contents output.old) (W.contents output.new)
        (E.contents messages.old) (E.contents messages.new) }
{
    let none = History::new(alloc);
    match made {
        Ok(transcript) => deliver(transcript, output, messages),
        Err(_) => write_messages(messages, NO_MEMORY, Status::NoMemory, none),
    }
}
