//! Tokens: whether one more byte ends, continues or breaks a token, and the command of a control sequence. `body` is the
//! bytes of a sequence after CSI (ESC and `[`). `strings.rt` has the command of a string.

ghost use Rattle.std.specs.Prelude.{◌≡◌, ℕ, ◌+◌, ◌*◌, ◌<◌, ◌≤◌, Bool, true, false, ◌&&◌, ◌∷◌, [], ◌++◌, length, min, nat_le, option_map, take, drop, None};
ghost use Rattle.std.specs.List.{list_all};
ghost use Rattle.std.specs.Str.{all_ascii_digits};
ghost use Rattle.std.specs.Str.Parse.{digits_value};
ghost use Rattle.bx_grid.specs.Tokens.{is_param, is_intermediate, is_final, fate, escape_fate, final_fate, bell_fate, after_text, after_params, after_intermediates, number, command};
ghost use Rattle.bx_grid.specs.Tokens.{params, is_absent_or_zero, is_only, before_semicolon, after_semicolon, command_of};
ghost use Rattle.bx_terminal.specs.Capped.{capped};

use bx_bytes::{Fate, character_fate};
use bx_grid::Command;

/// The byte ESC.
pub const ESCAPE: u8 = 0x1B;

/// The byte BEL.
const BELL: u8 = 0x07;

/// Whether the byte is a parameter byte of a control sequence (ECMA-48, 5.4).
fn param(byte: u8) -> bool
    ensures { result ≡ is_param byte }
{
    0x30 <= byte && byte <= 0x3F
}

/// Whether the byte is an intermediate byte (ECMA-48, 5.4).
fn intermediate(byte: u8) -> bool
    ensures { result ≡ is_intermediate byte }
{
    0x20 <= byte && byte <= 0x2F
}

/// Whether the byte is a final byte (ECMA-48, 5.4).
pub fn is_last(byte: u8) -> bool
    ensures { result ≡ is_final byte }
{
    0x40 <= byte && byte <= 0x7E
}

/// Whether all bytes of an unfinished sequence are parameter bytes. Looks at the last one alone.
fn are_params(body: &[u8]) -> bool
    requires { after_intermediates (after_params body.now) ≡ [] }
    ensures { result ≡ list_all is_param body.now }
{
    match body {
        [] => true,
        [.., last] => param(*last),
    }
}

/// The state of a sequence after `body` and one more byte.
fn fate_in_sequence(body: &[u8], byte: u8) -> Fate
    requires { after_intermediates (after_params body.now) ≡ [] }
    ensures { result ≡ final_fate (after_intermediates (after_params (body.now ++ byte ∷ []))) }
{
    if is_last(byte) {
        Fate::Ends
    } else if intermediate(byte) {
        Fate::Waits
    } else if param(byte) && are_params(body) {
        Fate::Waits
    } else {
        Fate::Breaks
    }
}

/// The state after the half-read bytes and one more.
pub fn fate_of(half_read: &[u8], byte: u8) -> Fate
    requires { fate half_read.now ≡ Fate.Waits }
    ensures { result ≡ fate (half_read.now ++ byte ∷ []) }
{
    match half_read {
        [] => {
            if byte == ESCAPE {
                Fate::Waits
            } else {
                character_fate(&[], byte)
            }
        }
        [first, rest @ ..] => {
            if *first == ESCAPE {
                fate_after_escape(rest, byte)
            } else {
                character_fate(half_read, byte)
            }
        }
    }
}

/// The state of a string after one more byte (`bx_grid`, `specs/Tokens.antt`).
fn fate_in_string(byte: u8) -> Fate
    ensures { result ≡ bell_fate (after_text (byte ∷ [])) }
{
    if b' ' <= byte && byte <= b'~' {
        Fate::Waits
    } else if byte == BELL {
        Fate::Ends
    } else {
        Fate::Breaks
    }
}

/// The state after ESC, the bytes `rest` after it, and one more byte.
fn fate_after_escape(rest: &[u8], byte: u8) -> Fate
    requires { escape_fate rest.now ≡ Fate.Waits }
    ensures { result ≡ escape_fate (rest.now ++ byte ∷ []) }
{
    match rest {
        [] => {
            if byte == b'[' || byte == b']' {
                Fate::Waits
            } else {
                Fate::Breaks
            }
        }
        [kind, body @ ..] => {
            if *kind == b'[' {
                fate_in_sequence(body, byte)
            } else {
                fate_in_string(byte)
            }
        }
    }
}

/// Number of parameter bytes that `body` begins with.
pub fn params_len(body: &[u8]) -> usize
    ensures within { result ≤ length body.now }
    ensures front { take result body.now ≡ params body.now }
    ensures back { drop result body.now ≡ after_params body.now }
{
    let mut len = 0;
    for byte in body {
        if !param(*byte) {
            return len;
        }
        len += 1;
    }
    len
}

/// Number of bytes before the first semicolon, or of all.
fn semicolon(params: &[u8]) -> usize
    ensures within { result ≤ length params.now }
    ensures front { take result params.now ≡ before_semicolon params.now }
    ensures back { drop (result + 1) params.now ≡ after_semicolon params.now }
{
    let mut len = 0;
    for byte in params {
        if *byte == b';' {
            return len;
        }
        len += 1;
    }
    len
}

/// The leading digits of some bytes: their number, at most 1000 (past any window, so that it fits in 16 bits), and their
/// count.
#[derive(Clone, Copy)]
pub struct Digits {
    /// At most 1000.
    pub number: u16,
    /// How many digits they are.
    pub len: usize,
}

/// The digits that the bytes begin with.
pub fn first_digits(bytes: &[u8]) -> Digits
    ensures within { result.len ≤ length bytes.now }
    ensures digits { all_ascii_digits (take result.len bytes.now) ≡ true }
    ensures number { result.number ≡ min 1000 (digits_value 10 (take result.len bytes.now)) }
    ensures end { result.len < length bytes.now → number bytes.now ≡ None }
{
    let mut number = 0u16;
    let mut len = 0;
    for digit in bytes {
        if !digit.is_ascii_digit() {
            return Digits { number, len };
        }
        number = (number * 10 + u16::from(*digit - b'0')).min(1000);
        len += 1;
    }
    Digits { number, len }
}

/// The number that all these bytes are, at most 1000; 1 if there is no byte, None if a byte is not a digit.
fn number_of(bytes: &[u8]) -> Option<u16>
    ensures { result ≡ option_map (λ n. min 1000 n) (number bytes.now) }
{
    if bytes.is_empty() {
        return Some(1);
    }
    let digits = first_digits(bytes);
    if digits.len < bytes.len() {
        return None;
    }
    Some(digits.number)
}

/// The move of the parameters `LINE;COLUMN`.
fn move_of(params: &[u8]) -> Command
    ensures { result ≡ capped (command_of params.now 0x48) }
{
    let len = semicolon(params);
    let after = if len < params.len() {
        &params[len + 1..]
    } else {
        &params[len..]
    };
    match (number_of(&params[..len]), number_of(after)) {
        (Some(line), Some(column)) => Command::Move(line, column),
        _ => Command::Other,
    }
}

/// The command of parameters and a final byte.
pub fn command_of(params: &[u8], last: u8) -> Command
    ensures { result ≡ capped (command_of params.now last) }
{
    match last {
        b'H' => move_of(params),
        b'J' => match params {
            [b'2'] => Command::Clear,
            _ => Command::Other,
        },
        b'K' => match params {
            [] | [b'0'] => Command::Erase,
            _ => Command::Other,
        },
        b'm' => match params {
            [] | [b'0'] => Command::Render(false),
            [b'7'] => Command::Render(true),
            _ => Command::Other,
        },
        _ => Command::Other,
    }
}

/// The command of a sequence, by `body`.
pub fn command_in(body: &[u8]) -> Command
    ensures { result ≡ capped (command body.now) }
{
    let len = params_len(body);
    let (params, rest) = body.split_at(len);
    match rest {
        [last] => command_of(params, *last),
        _ => Command::Other,
    }
}
