//! Reading a whole input.
ghost use Rattle.std.specs.Prelude.{◌+◌, ◌≤◌, length, IfOk, OnErr};
ghost use Rattle.hep_run.specs.Inputs.{HasLost};
ghost use Rattle.std.specs.Io.KnownBytes.{Consumes, IsAtEnd};

use std::alloc::{AllocError, AllocFailed, Global};
use std::io::{ErrorKind, Read};
use thiserror::Error;

/// The number of calls of `read` after which an input counts as broken.
pub const MOST_READS: u32 = 5_000_000;

/// Why an input couldn't be read.
#[derive(Clone, Copy, Debug, PartialEq, Eq, Error)]
pub enum ReadFault {
    /// Memory was refused.
    #[error("no memory")]
    NoMemory,
    /// A read failed, or there were too many.
    #[error("read fault")]
    Failed,
}

impl From<AllocError> for ReadFault {
    ghost use Rattle.std.specs.Prelude.{◌≡◌};
    ghost use Rattle.hep_run.specs.declared.input.ReadFault.TheVariants.{NoMemory};

    ghost from_gives = { λ _ e. e ≡ NoMemory };

    fn from(_refused: AllocError) -> ReadFault {
        ReadFault::NoMemory
    }
}

/// The bytes of an input to its end, or its first bytes, as soon as there are more than `most`; they are 4,096 more
/// at most.
///
/// An interrupted read is tried again.
///
/// # Errors
///
/// `Failed` where a read failed or 5,000,000 reads didn't reach the end; `NoMemory`. Then the reader has given its
/// first bytes, which are 4,096 more than `most` at most.
pub fn read_input<R: Read>(alloc: Global, reader: &mut R, most: usize) -> Result<Vec<u8>, ReadFault>
    ensures first { IfOk result (λ bytes.
        Consumes (R.remaining reader.old) (R.remaining reader.new) bytes.items) }
    ensures all { IfOk result (λ bytes.
        length bytes.items ≤ most → IsAtEnd (R.remaining reader.new)) }
    ensures stops { IfOk result (λ bytes. length bytes.items ≤ most + 4096) }
    ensures lost { OnErr result (HasLost most (R.remaining reader.old) (R.remaining reader.new)) }
{
    let mut bytes = Vec::new(alloc);
    let mut piece = [0u8; 4096];
    for call in 0..MOST_READS {
        match reader.read(&mut piece) {
            Ok(0) => return Ok(bytes),
            Ok(count) => {
                bytes.extend_from_slice(&piece[..count])?;
                if most < bytes.len() {
                    return Ok(bytes);
                }
            }
            Err(fault) => {
                if fault.kind() != ErrorKind::Interrupted {
                    return Err(ReadFault::Failed);
                }
            }
        }
    }
    Err(ReadFault::Failed)
}
