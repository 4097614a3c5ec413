//! Texts without controls, read up to an escape and checked for UTF-8 and controls in one pass. The byte ranges are those of
//! UTF-8 (Unicode, table 3-7).

ghost use Rattle.std.specs.Prelude.{◌≡◌, ◌≤◌, [], ◌∷◌, true, length, take, IfSome};
ghost use Rattle.bx_terminal.specs.Printables.{is_second, IsPrintable, IsBeforeEscape};

use crate::token::ESCAPE;

/// Whether the byte is a character and no control: SPACE to TILDE.
#[inline(always)]
fn is_one(byte: u8) -> bool
    ensures { result ≡ true → IsPrintable (byte ∷ []) }
{
    if byte < b' ' {
        return false;
    }
    byte <= b'~'
}

/// Whether the two bytes are a character and no control: U+00A0 to U+07FF.
#[inline(always)]
fn is_two(lead: u8, last: u8) -> bool
    ensures { result ≡ true → IsPrintable (lead ∷ last ∷ []) }
{
    if lead < 0xC2 || 0xDF < lead || 0xBF < last {
        return false;
    }
    if lead == 0xC2 {
        return 0xA0 <= last;
    }
    0x80 <= last
}

/// Whether a second byte may follow the lead byte of a character of three bytes: refuses overlong forms and surrogates.
#[inline(always)]
fn is_second(lead: u8, second: u8) -> bool
    ensures { result ≡ is_second lead second }
{
    match lead {
        0xE0 => 0xA0 <= second && second <= 0xBF,
        0xED => 0x80 <= second && second <= 0x9F,
        _ => 0x80 <= second && second <= 0xBF,
    }
}

/// Whether the three bytes are a character outside U+2028 to U+203F, a range with two controls (U+2028 and U+2029).
#[inline(always)]
fn is_three(lead: u8, second: u8, last: u8) -> bool
    ensures { result ≡ true → IsPrintable (lead ∷ second ∷ last ∷ []) }
{
    if lead < 0xE0 || 0xEF < lead || last < 0x80 || 0xBF < last {
        return false;
    }
    if !is_second(lead, second) {
        return false;
    }
    if lead != 0xE2 || second != 0x80 {
        return true;
    }
    last < 0xA8
}

/// Length in bytes of the first character; 0 if it is a control, from U+2028 to U+203F, incomplete, or of four bytes.
#[inline(always)]
#[tactic(auto, using(crate::proofs::Printed::nil_printable))]
fn first_len(bytes: &[u8]) -> usize
    ensures within { result ≤ length bytes.now }
    ensures text { IsPrintable (take result bytes.now) }
{
    match bytes {
        [byte, ..] if is_one(*byte) => 1,
        [byte, ..] if *byte < 0xC2 => 0,
        [lead, last, ..] if is_two(*lead, *last) => 2,
        [lead, second, last, ..] if is_three(*lead, *second, *last) => 3,
        _ => 0,
    }
}

/// Length in bytes of the longest prefix of characters for which `first_len` is not 0.
#[inline(always)]
fn printable_len(bytes: &[u8]) -> usize
    ensures within { result ≤ length bytes.now }
    ensures text { IsPrintable (take result bytes.now) }
{
    let mut len = 0;
    while len < bytes.len() {
        let count = first_len(&bytes[len..]);
        if count == 0 {
            return len;
        }
        len += count;
    }
    len
}

/// The prefix of `printable_len` bytes, if it is not empty and an escape follows it.
#[inline(always)]
pub fn text_before_escape(bytes: &[u8]) -> Option<&str>
    ensures { IfSome result (λ t. IsBeforeEscape t.now bytes.now) }
{
    let len = printable_len(bytes);
    if len == 0 || len == bytes.len() || bytes[len] != ESCAPE {
        return None;
    }
    Some(unsafe { str::from_utf8_unchecked(&bytes[..len]) })
}
