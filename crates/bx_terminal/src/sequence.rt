//! The control sequences and texts that are whole in the bytes read, found so that they need not be read byte by byte.
//! Lengths count bytes.

ghost use Rattle.std.specs.Prelude.{◌≡◌, ◌∷◌, ◌≤◌, length, IfSome};
ghost use Rattle.bx_terminal.specs.Sequences.{BeginWithSequence};

use crate::token::{ESCAPE, command_of, first_digits, is_last, params_len};
use bx_grid::Command;

/// A control sequence of parameter bytes and a final byte: its command, and its length in bytes, with ESC and `[`.
#[derive(Clone, Copy)]
pub struct Sequence {
    /// What the sequence does.
    pub command: Command,
    /// Number of bytes.
    pub len: usize,
}

/// The move at the start of `body`, the bytes after CSI, if it gives both its numbers (`LINE;COLUMNH`); None for any other start.
/// Reads each number once.
fn move_in(body: &[u8]) -> Option<Sequence>
    ensures { IfSome result (λ s. BeginWithSequence (0x1B ∷ 0x5B ∷ body.now) s.command s.len) }
{
    let line = first_digits(body);
    if line.len == 0 || line.len == body.len() || body[line.len] != b';' {
        return None;
    }
    let rest = &body[line.len + 1..];
    let column = first_digits(rest);
    if column.len == 0 || column.len == rest.len() || rest[column.len] != b'H' {
        return None;
    }
    Some(Sequence {
        command: Command::Move(line.number, column.number),
        // ESC, `[`, `;` and `H`
        len: line.len + column.len + 4,
    })
}

/// The sequence that `body` begins with, after CSI, if its final byte is there.
fn sequence_in(body: &[u8]) -> Option<Sequence>
    ensures { IfSome result (λ s. BeginWithSequence (0x1B ∷ 0x5B ∷ body.now) s.command s.len) }
{
    let count = params_len(body);
    let (params, rest) = body.split_at(count);
    match rest {
        [last, ..] if is_last(*last) => Some(Sequence {
            command: command_of(params, *last),
            // ESC, `[` and the final byte
            len: count + 3,
        }),
        _ => None,
    }
}

/// The sequence that the bytes begin with, if all of it is there.
pub fn first_sequence(bytes: &[u8]) -> Option<Sequence>
    ensures { IfSome result (λ s. BeginWithSequence bytes.now s.command s.len) }
{
    match bytes {
        [ESCAPE, b'[', body @ ..] => match move_in(body) {
            Some(sequence) => Some(sequence),
            None => sequence_in(body),
        },
        _ => None,
    }
}

/// Number of bytes before the first escape.
pub fn text_len(bytes: &[u8]) -> usize
    ensures { result ≤ length bytes.now }
{
    let mut len = 0;
    for byte in bytes {
        if *byte == ESCAPE {
            return len;
        }
        len += 1;
    }
    len
}
