//! Strings: printable ASCII between OSC (ESC and `]`) and BEL, and the commands of all that begins with ESC.

ghost use Rattle.std.specs.Prelude.{◌≡◌, ◌≤◌, length, take, IfOk};
ghost use Rattle.bx_grid.specs.Tokens.{escape_command, is_base64, string_command, string_text};
ghost use Rattle.bx_terminal.specs.Capped.{capped};

use crate::token::command_in;
use base64::DecodeAllocError;
use base64::engine::general_purpose::STANDARD;
use bx_grid::Command;
use std::alloc::{AllocError, Global};

/// Number of bytes of a string's text, by the bytes after OSC.
fn string_len(body: &[u8]) -> usize
    ensures within { result ≤ length body.now }
    ensures text { take result body.now ≡ string_text body.now }
{
    let mut len = 0;
    for byte in body {
        if *byte < b' ' || b'~' < *byte {
            return len;
        }
        len += 1;
    }
    len
}

/// Whether a text is the base64 of some bytes.
fn is_base64(alloc: Global, text: &[u8]) -> Result<bool, AllocError>
    ensures { IfOk result (λ is. is ≡ is_base64 text.now) }
{
    match STANDARD.decode(alloc, text) {
        Ok(_bytes) => Ok(true),
        Err(DecodeAllocError::DecodeError(_)) => Ok(false),
        Err(DecodeAllocError::OutOfMemory) => Err(AllocError),
    }
}

/// The command of a string's text.
fn string_command(alloc: Global, text: &[u8]) -> Result<Command, AllocError>
    ensures { IfOk result (λ command. command ≡ capped (string_command text.now)) }
{
    let Some(base64) = text.strip_prefix(b"52;c;".as_slice()) else {
        return Ok(Command::Other);
    };
    if is_base64(alloc, base64)? {
        Ok(Command::Clip)
    } else {
        Ok(Command::Other)
    }
}

/// The command of a sequence or a string, by its bytes after ESC.
pub fn escape_command(alloc: Global, rest: &[u8]) -> Result<Command, AllocError>
    ensures { IfOk result (λ command. command ≡ capped (escape_command rest.now)) }
{
    match rest {
        [] => Ok(Command::Other),
        [kind, body @ ..] => {
            if *kind == b'[' {
                Ok(command_in(body))
            } else {
                string_command(alloc, &body[..string_len(body)])
            }
        }
    }
}
