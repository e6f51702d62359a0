//! One write to a stream, and the error of a write that failed.
ghost use Rattle.std.specs.Prelude.{◌≡◌, ◌≤◌, ◌<◌, ◌+◌, drop, length, take, IfOk, IfErr, OnErr};
ghost use Rattle.std.specs.Io.KnownBytes.{Appends, Keeps};

use std::io::{self, ErrorKind, Write};
use thiserror::Error;

// The answer of a writer that takes no more.
#[derive(Clone, Copy, Debug, PartialEq, Eq)]
enum Answer {
    Failed,
    // The stream is a pipe or a socket that no process reads any more.
    Closed,
    TookNothing,
}

// The answer that an error of a writer means.
fn answer_of(fault: &io::Error) -> Answer {
    match fault.kind() {
        ErrorKind::BrokenPipe => Answer::Closed,
        _ => Answer::Failed,
    }
}

/// A write that failed. The writer has taken just the first `written` bytes.
///
/// Only `write_on` can make one, right after a writer's answer.
#[derive(Clone, Copy, Debug, PartialEq, Eq, Error)]
#[error("write fault after {written}")]
pub struct PutFault {
    /// The number of bytes that were taken.
    pub written: usize,
    answer: Answer,
}

impl PutFault {
    /// Whether the writer is a pipe or a socket that no process reads any more.
    pub fn is_closed_pipe(&self) -> bool {
        self.answer == Answer::Closed
    }
}

/// Writes the bytes after the first `written`, and returns how many further ones the writer takes, which is one at
/// least.
///
/// # Errors
///
/// Where the write fails, an interrupted one too, or takes nothing.
pub(crate) fn write_on<W: Write>(
    writer: &mut W,
    bytes: &[u8],
    written: usize,
) -> Result<usize, PutFault>
    requires { written < length bytes.now }
    ensures some { IfOk result (λ count. 1 ≤ count) }
    ensures within { IfOk result (λ count. written + count ≤ length bytes.now) }
    ensures taken { IfOk result (λ count.
        Appends (W.contents writer.old) (W.contents writer.new) (take count (drop written bytes.now))) }
    ensures told { IfErr result (λ fault. fault.written ≡ written) }
    ensures refused { OnErr result (Keeps (W.contents writer.old) (W.contents writer.new)) }
{
    match writer.write(&bytes[written..]) {
        Ok(0) => Err(PutFault {
            written,
            answer: Answer::TookNothing,
        }),
        Ok(count) => Ok(count),
        Err(fault) => Err(PutFault {
            written,
            answer: answer_of(&fault),
        }),
    }
}
