//! The check that a file's bytes can be opened.

ghost use Rattle.std.specs.Prelude.{◌≡◌, ◌≤◌, IfErr, IsUtf8, OnOk, length};
ghost use Rattle.bx_common.specs.Characters.{largest_text};
ghost use Rattle.bx_command.specs.Check.{Refuses, line_of};

use bx_common::LARGEST_TEXT;
use simdutf8::compat::from_utf8;
use thiserror::Error;

/// Why bytes cannot be opened.
#[derive(Clone, Copy, Debug, Error)]
pub enum TextFault {
    /// They are more than 16,777,216.
    #[error("file too long")]
    TooLong,
    /// This line has the first invalid byte. Lines count from 1 and end with LF.
    #[error("not UTF-8 in line {0}")]
    NotUtf8(usize),
}

/// The line, from 1, of the byte at an offset.
fn line_of(bytes: &[u8], offset: usize) -> usize
    requires inside { offset ≤ length bytes.now }
    requires short { length bytes.now ≤ largest_text }
    ensures { result ≡ line_of bytes.now offset }
{
    bytes[..offset].iter().filter(|b| **b == b'\n').count() + 1
}

/// Checks that bytes can be opened as a text. Of a file of more than 16,777,216 bytes the first 16,777,217 are enough, since it is
/// refused by its length.
///
/// Errors, in this order: `TooLong`; `NotUtf8`.
pub fn check_text(bytes: &[u8]) -> Result<(), TextFault>
    ensures short { OnOk result (length bytes.now ≤ largest_text) }
    ensures utf8 { OnOk result (IsUtf8 bytes.now) }
    ensures refused { IfErr result (Refuses bytes.now) }
{
    if bytes.len() > LARGEST_TEXT {
        return Err(TextFault::TooLong);
    }
    match from_utf8(bytes) {
        Ok(_) => Ok(()),
        Err(error) => Err(TextFault::NotUtf8(line_of(bytes, error.valid_up_to()))),
    }
}
