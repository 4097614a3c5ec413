//! Control strings, which terminals send as answers, by `specs/Strings.antt`.

ghost use Rattle.std.specs.Prelude.{◌≡◌};
ghost use Rattle.bx_input.specs.Strings as spec;

use crate::known::ESC;

/// The most bytes of a control string behind its ESC: the introducer and 4,096 more.
const MOST: usize = 4097;

/// The control byte BEL, which ends a control string.
const BEL: u8 = 0x07;

/// Whether the byte behind ESC begins a control string.
pub fn is_introducer(byte: u8) -> bool
    ensures { result ≡ spec.is_introducer byte }
{
    matches!(byte, b'P' | b'X' | b']' | b'^' | b'_')
}

/// Whether the last of these bytes is ESC.
fn ends_by_escape(held: &[u8]) -> bool
    ensures { result ≡ spec.ends_by_escape held.now }
{
    match held {
        [.., last] => *last == ESC,
        _ => false,
    }
}

/// Whether the byte ends the control string of these bytes.
pub fn ends_string(held: &[u8], byte: u8) -> bool
    ensures { result ≡ spec.ends_string held.now byte }
{
    byte == BEL || (byte == b'\\' && ends_by_escape(held))
}

/// Whether a control string with these bytes behind its ESC may go on.
pub fn is_short(held: &[u8]) -> bool
    ensures { result ≡ spec.is_short_string held.now }
{
    held.len() <= MOST || (held.len() <= MOST + 1 && ends_by_escape(held))
}
