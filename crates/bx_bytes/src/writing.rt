//! Writing bytes until a writer has all of them, or fails.

ghost use Rattle.std.specs.Prelude.{◌≤◌, IfErr, OnOk, length, take};
ghost use Rattle.std.specs.Io.KnownBytes.{Appends, WriteAppends};
ghost use Rattle.std.specs.Io.{WritesAtMost};
ghost use Rattle.bx_bytes.specs.Writing.{WritesFront};

use std::io::{ErrorKind, Write};
use thiserror::Error;

/// A write failed, or took no byte.
#[derive(Clone, Copy, Debug, Error)]
#[error("the write failed after {written} bytes")]
pub struct WriteFault {
    /// The number of bytes that were written before the failure.
    pub written: usize,
}

/// Writes once, and returns how many bytes the writer took: none if interrupted. A write that takes none is a fault.
fn write_once<W: Write>(writer: &mut W, bytes: &[u8]) -> Result<usize, WriteFault>
    ensures bound { WritesAtMost result bytes.now }
    ensures bytes { WriteAppends (W.contents writer.old) (W.contents writer.new) result bytes.now }
{
    match writer.write(bytes) {
        Ok(0) => Err(WriteFault { written: 0 }),
        Ok(count) => Ok(count),
        Err(error) if error.kind() == ErrorKind::Interrupted => Ok(0),
        Err(_) => Err(WriteFault { written: 0 }),
    }
}

/// Writes all bytes, in one write if the writer takes them at once. An interrupted write is tried again. Does not flush.
///
/// Errors: `WriteFault`: the first `written` bytes were written.
pub fn write_all<W: Write>(writer: &mut W, bytes: &[u8]) -> Result<(), WriteFault>
    ensures all { OnOk result (Appends (W.contents writer.old) (W.contents writer.new) bytes.now) }
    ensures front { WritesFront bytes.now (W.contents writer.old) (W.contents writer.new) }
    ensures count { IfErr result (λ fault. fault.written ≤ length bytes.now) }
    ensures part { IfErr result (λ fault. Appends (W.contents writer.old) (W.contents writer.new) (take fault.written bytes.now)) }
{
    let mut written = 0;
    // A proved loop needs a bound, and no writer takes that many calls.
    for _ in 0..u64::MAX {
        if written == bytes.len() {
            return Ok(());
        }
        let Ok(count) = write_once(writer, &bytes[written..]) else {
            return Err(WriteFault { written });
        };
        written += count;
    }
    Err(WriteFault { written })
}
