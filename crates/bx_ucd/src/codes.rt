//! Code points and ranges of them, as the files write them.

ghost use Rattle.std.specs.Prelude.{◌≡◌, ◌≤◌, length, Option, if◌then◌else◌, Some, None};
ghost use Rattle.std.specs.List.{list_all};
ghost use Rattle.std.specs.Char.{is_digit};
ghost use Rattle.std.specs.Str.Parse.{digits_value};
ghost use Rattle.bx_ucd.specs.Codes.{code_of, character_of, range_of};

use crate::error::Cause;
use crate::parts::{Parts, cut};

/// Unicode's last code point.
const LAST: u32 = 0x10FFFF;

/// Codes from `low` to `high`, both included.
#[derive(Clone, Copy)]
pub struct CodeRange {
    pub low: u32,
    pub high: u32,
}

/// The value of hexadecimal digits, or `None` where a byte is not a digit.
fn hex_value(digits: &[u8]) -> Option<u32>
    requires { length digits.now ≤ 6 }
    ensures { result ≡ (if list_all (λ b. is_digit b 16) digits.now then Some (digits_value 16 digits.now) else None) }
{
    let mut value = 0;
    for b in digits {
        let digit = char::from(*b).to_digit(16)?;
        value = value * 16 + digit;
    }
    Some(value)
}

/// Reads a code: four to six hexadecimal digits of either case.
fn code_of(field: &[u8]) -> Result<u32, Cause>
    ensures { result ≡ code_of field.now }
{
    if field.len() < 4 || field.len() > 6 {
        return Err(Cause::BadCode);
    }
    match hex_value(field) {
        Some(code) if code <= LAST => Ok(code),
        _ => Err(Cause::BadCode),
    }
}

/// Reads the code of a character; a surrogate is refused.
pub fn character_of(field: &[u8]) -> Result<char, Cause>
    ensures { result ≡ character_of field.now }
{
    char::from_u32(code_of(field)?).ok_or(Cause::BadCode)
}

/// Reads a range: `CODE` or `CODE..CODE`.
pub fn range_of(field: &[u8]) -> Result<CodeRange, Cause>
    ensures { result ≡ range_of field.now }
{
    match cut(field, b'.') {
        Parts::One(code) => {
            let code = code_of(code)?;
            Ok(CodeRange {
                low: code,
                high: code,
            })
        }
        Parts::Three(low, [], high) => {
            let low = code_of(low)?;
            let high = code_of(high)?;
            if high < low {
                return Err(Cause::BadRange);
            }
            Ok(CodeRange { low, high })
        }
        _ => Err(Cause::BadCode),
    }
}
