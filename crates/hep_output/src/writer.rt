//! Writing a whole output.
ghost use Rattle.std.specs.Prelude.{◌<◌, length, take, OnOk, IfErr};
ghost use Rattle.std.specs.Io.KnownBytes.{Appends};

use crate::attempt::{PutFault, write_on};
use std::io::Write;

/// Writes all bytes.
///
/// # Errors
///
/// Where a write failed, an interrupted one too, or took nothing. Then the writer has taken fewer bytes than these,
/// and isn't called any more.
pub fn put_all<W: Write>(writer: &mut W, bytes: &[u8]) -> Result<(), PutFault>
    ensures all { OnOk result (Appends (W.contents writer.old) (W.contents writer.new) bytes.now) }
    ensures fewer { IfErr result (λ fault. fault.written < length bytes.now) }
    ensures prefix { IfErr result (λ fault.
        Appends (W.contents writer.old) (W.contents writer.new) (take fault.written bytes.now)) }
{
    let mut written = 0;
    while written < bytes.len() {
        written += write_on(writer, bytes, written)?;
    }
    Ok(())
}
