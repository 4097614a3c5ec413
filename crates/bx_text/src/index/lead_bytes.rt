//! The possible first bytes of paragraph separators in UTF-8, so that a scan skips all other bytes.

ghost use Rattle.std.specs.Prelude.{◌≡◌, ◌<◌, ℕ, true, false, length, get_or};
ghost use Rattle.std.specs.Char.{IsScalar};
ghost use Rattle.bx_text.specs.index.Paragraphs.{is_separator};
ghost use Rattle.bx_text.specs.index.LeadBytes.{lead_of, CoversSeparators};

use crate::index::scan::separates;
use bx_ucd::BidiData;

/// Which bytes may begin a paragraph separator in UTF-8.
#[derive(Drop)]
pub struct LeadBytes {
    /// A flag for each byte.
    pub may_separate: [bool; 256],
}

/// The first byte of a character in UTF-8: of one byte below 0x80, of two below 0x800, of three below 0x10000, else of four.
fn lead_byte(code: u32) -> u8
    requires { code < 0x110000 }
    ensures { result ≡ lead_of code }
{
    if code < 0x80 {
        code as u8
    } else if code < 0x800 {
        (0xC0 + code / 0x40) as u8
    } else if code < 0x10000 {
        (0xE0 + code / 0x1000) as u8
    } else {
        (0xF0 + code / 0x40000) as u8
    }
}

/// The code below which characters are looked up before a scan of `bytes` bytes: none, those of one and two bytes in UTF-8, or
/// those of up to three. The look-ups are fewer than the bytes, half of them at most.
fn asked_below(bytes: usize) -> u32
    ensures { result < 0x110000 }
{
    if bytes < 0x1000 {
        0
    } else if bytes < 0x100000 {
        0x800
    } else {
        0x10000
    }
}

/// Sets the flag of a character's first byte, if the character is a separator.
fn set_flag<D: BidiData>(flags: &mut [bool; 256], tables: &D, code: u32)
    requires { code < 0x110000 }
    ensures len { length flags.new ≡ 256 }
    ensures same { (byte : ℕ) → get_or flags.old byte false ≡ true → get_or flags.new byte false ≡ true }
    ensures marked { IsScalar code → is_separator ((D.data tables.now).class code) ≡ true → get_or flags.new (lead_of code) false ≡ true }
{
    if let Some(c) = char::from_u32(code) {
        if separates(tables, c) {
            flags[lead_byte(code) as usize] = true;
        }
    }
}

/// The possible first bytes of separators, for a scan of `bytes` bytes. The first bytes of characters that are not looked up
/// are all possible.
pub fn lead_bytes_of<D: BidiData>(tables: &D, bytes: usize) -> LeadBytes
    ensures { CoversSeparators (D.data tables.now) result.may_separate }
{
    let limit = asked_below(bytes);
    let mut may_separate = [false; 256];
    for code in 0..limit {
        set_flag(&mut may_separate, tables, code);
    }
    for byte in lead_byte(limit) as usize..256 {
        may_separate[byte] = true;
    }
    LeadBytes { may_separate }
}
