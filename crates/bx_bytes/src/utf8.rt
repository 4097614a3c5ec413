//! Characters in UTF-8, byte by byte (the Unicode Standard, table 3-7).

ghost use Rattle.std.specs.Prelude.{◌≡◌, ◌+◌, ◌-◌, ◌*◌, ◌^◌, ◌<◌, ◌∷◌, [], ◌++◌, true};
ghost use Rattle.std.specs.Str.{chars};
ghost use Rattle.bx_bytes.specs.Pattern.{fate_in, is_within};
ghost use Rattle.bx_bytes.specs.Utf8.{characters};

use crate::fate::Fate;

/// What the bytes `read` and then `byte` are to the grammar of characters; `read` is empty or begins a character.
pub fn character_fate(read: &[u8], byte: u8) -> Fate
    requires { fate_in characters read.now ≡ Fate.Waits }
    ensures { result ≡ fate_in characters (read.now ++ byte ∷ []) }
{
    match read {
        [] => fate_of_first(byte),
        [lead] => fate_of_second(*lead, byte),
        [lead, second] => fate_of_third(*lead, *second, byte),
        _ => {
            if is_trail(byte) {
                Fate::Ends
            } else {
                Fate::Breaks
            }
        }
    }
}

/// Whether a byte is 10xxxxxx in binary, as all after the first are.
fn is_trail(byte: u8) -> bool
    ensures { result ≡ is_within 0x80 0xBF byte }
{
    0x80 <= byte && byte <= 0xBF
}

/// What a first byte is to the grammar: C0, C1 and F5 to FF begin no character, and neither do the bytes 10xxxxxx.
fn fate_of_first(byte: u8) -> Fate
    ensures { result ≡ fate_in characters (byte ∷ []) }
{
    match byte {
        0x00..=0x7F => Fate::Ends,
        0xC2..=0xF4 => Fate::Waits,
        _ => Fate::Breaks,
    }
}

/// What a second byte makes of a first, `lead`. Refuses overlong forms (after E0 and F0), surrogates (after ED) and codes above
/// U+10FFFF (after F4). A second byte is the last after a lead below E0.
fn fate_of_second(lead: u8, byte: u8) -> Fate
    requires { fate_in characters (lead ∷ []) ≡ Fate.Waits }
    ensures { result ≡ fate_in characters (lead ∷ byte ∷ []) }
{
    let fits = match lead {
        0xE0 => 0xA0 <= byte && byte <= 0xBF,
        0xED => 0x80 <= byte && byte <= 0x9F,
        0xF0 => 0x90 <= byte && byte <= 0xBF,
        0xF4 => 0x80 <= byte && byte <= 0x8F,
        _ => is_trail(byte),
    };
    if !fits {
        Fate::Breaks
    } else if lead < 0xE0 {
        Fate::Ends
    } else {
        Fate::Waits
    }
}

/// What a third byte makes of two before it. It is the last after a lead below F0.
fn fate_of_third(lead: u8, second: u8, byte: u8) -> Fate
    requires { fate_in characters (lead ∷ second ∷ []) ≡ Fate.Waits }
    ensures { result ≡ fate_in characters (lead ∷ second ∷ byte ∷ []) }
{
    if !is_trail(byte) {
        Fate::Breaks
    } else if lead < 0xF0 {
        Fate::Ends
    } else {
        Fate::Waits
    }
}

/// The character whose last byte is `byte`, after the bytes of `read`. Its code has the bits of the lead but for the marker (C0, E0
/// or F0), and six bits (a factor of 64) of each later byte but for the marker 80.
pub fn character(read: &[u8], byte: u8) -> char
    requires { fate_in characters (read.now ++ byte ∷ []) ≡ Fate.Ends }
    ensures { chars (read.now ++ byte ∷ []) ≡ result ∷ [] }
{
    match read {
        [] => of_one(byte),
        [lead] => of_two(*lead, byte),
        [lead, second] => of_three(*lead, *second, byte),
        [lead, second, third, ..] => of_four(*lead, *second, *third, byte),
    }
}

/// The character of a single byte.
#[tactic(auto, using(crate::proofs::Codes::chars_of_one))]
fn of_one(byte: u8) -> char
    requires { fate_in characters (byte ∷ []) ≡ Fate.Ends }
    ensures { chars (byte ∷ []) ≡ result ∷ [] }
{
    char::from(byte)
}

/// The character of two bytes.
#[tactic(auto, using(crate::proofs::Codes::chars_of_two))]
fn of_two(lead: u8, last: u8) -> char
    requires { fate_in characters (lead ∷ last ∷ []) ≡ Fate.Ends }
    ensures { chars (lead ∷ last ∷ []) ≡ result ∷ [] }
{
    let code = u32::from(lead - 0xC0) * 64 + u32::from(last - 0x80);
    char::from_u32(code).unwrap()
}

/// The character of three bytes.
#[tactic(auto, using(crate::proofs::Codes::of_three))]
fn of_three(lead: u8, second: u8, last: u8) -> char
    requires { fate_in characters (lead ∷ second ∷ last ∷ []) ≡ Fate.Ends }
    ensures { chars (lead ∷ second ∷ last ∷ []) ≡ result ∷ [] }
{
    let code = u32::from(lead - 0xE0) * 64 + u32::from(second - 0x80);
    let code = code * 64 + u32::from(last - 0x80);
    char::from_u32(code).unwrap()
}

/// The character of four bytes.
#[tactic(auto, using(crate::proofs::Codes::of_four))]
fn of_four(lead: u8, second: u8, third: u8, last: u8) -> char
    requires { fate_in characters (lead ∷ second ∷ third ∷ last ∷ []) ≡ Fate.Ends }
    ensures { chars (lead ∷ second ∷ third ∷ last ∷ []) ≡ result ∷ [] }
{
    let code = u32::from(lead - 0xF0) * 64 + u32::from(second - 0x80);
    let code = code * 64 + u32::from(third - 0x80);
    let code = code * 64 + u32::from(last - 0x80);
    char::from_u32(code).unwrap()
}
