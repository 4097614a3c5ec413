//! Writes of printed bytes, many at a time.
ghost use Rattle.std.specs.Prelude.{◌≡◌, ℕ, List, OnErr, OnOk};
ghost use Rattle.std.specs.Io.KnownBytes.{Appends};
ghost use Rattle.bx_bytes.specs.Writing.{IsWritten, WritesFront};

use crate::error::PrintError;
use bx_bytes::write_all;
use std::io::Write;

/// The number of pending bytes at which they are written: so a long text takes few writes and little memory.
const FULL: usize = 65_536;

/// Writes the pending bytes, and clears them, once there are `FULL` of them.
///
/// Errors: `WriteFault`; a prefix of the bytes was written.
pub(crate) fn send_full<W: Write>(writer: &mut W, pending: &mut Vec<u8>) -> Result<(), PrintError>
    ensures sent { (written : List ℕ) × (rest : List ℕ)
        × IsWritten pending.old.items (W.contents writer.old) (W.contents writer.new) written rest
        × OnOk result (pending.new.items ≡ rest) }
    ensures fault { OnErr result (result ≡ Err PrintError.WriteFault) }
{
    if pending.len() < FULL {
        return Ok(());
    }
    write_all(writer, pending)?;
    pending.clear();
    Ok(())
}

/// Writes all pending bytes, and flushes.
///
/// Errors: `WriteFault`; a prefix of the bytes was written.
pub(crate) fn finish<W: Write>(writer: &mut W, pending: &[u8]) -> Result<(), PrintError>
    ensures all { OnOk result (Appends (W.contents writer.old) (W.contents writer.new) pending.now) }
    ensures front { WritesFront pending.now (W.contents writer.old) (W.contents writer.new) }
    ensures fault { OnErr result (result ≡ Err PrintError.WriteFault) }
{
    write_all(writer, pending)?;
    match writer.flush() {
        Ok(()) => Ok(()),
        Err(_) => Err(PrintError::WriteFault),
    }
}
