//! Kinds of characters that several layers use.

ghost use Rattle.std.specs.Prelude.{◌≡◌};
ghost use Rattle.bx_common.specs.Characters.{are_ascii_printable, are_printable, is_ascii_printable, is_control, is_direction_mark};

/// Whether a character is a control of C0 or C1 (ECMA-48), DELETE, LINE SEPARATOR or PARAGRAPH SEPARATOR.
pub fn is_control(c: char) -> bool
    ensures { result ≡ is_control c }
{
    c <= '\u{1F}' || ('\u{7F}' <= c && c <= '\u{9F}') || ('\u{2028}' <= c && c <= '\u{2029}')
}

/// Whether a character is ARABIC LETTER MARK, LEFT-TO-RIGHT MARK or RIGHT-TO-LEFT MARK, the implicit directional marks of UAX #9.
#[inline(always)]
pub fn is_direction_mark(c: char) -> bool
    ensures { result ≡ is_direction_mark c }
{
    c == '\u{61c}' || c == '\u{200e}' || c == '\u{200f}'
}

/// Whether a byte is printable ASCII, SPACE to TILDE.
#[inline(always)]
pub fn is_ascii_printable(byte: u8) -> bool
    ensures { result ≡ is_ascii_printable byte }
{
    0x20 <= byte && byte <= 0x7E
}

/// Whether a text has only printable ASCII, SPACE to TILDE.
pub fn are_ascii_printable(text: &str) -> bool
    ensures { result ≡ are_ascii_printable text.now }
{
    text.as_bytes().iter().all(|b| is_ascii_printable(*b))
}

/// Whether a text has no control (`is_control`).
pub fn are_printable(text: &str) -> bool
    ensures { result ≡ are_printable text.now }
{
    text.chars().all(|c| !is_control(c))
}
