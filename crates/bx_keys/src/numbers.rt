//! Numbers in a control sequence.

ghost use Rattle.std.specs.Prelude.{◌≡◌, ℕ, ◌<◌, ◌-◌, ◌==◌, IfSome, SomeIff, position, true, if◌then◌else◌};
ghost use Rattle.std.specs.Char.{is_ascii_digit};
ghost use Rattle.std.specs.Str.Parse.{digits_value};
ghost use Rattle.bx_keys.specs.Keys.{is_number, is_side_in_digits};
ghost use Rattle.bx_keys.specs.Decoder.{IsSide};

use bx_common::is_side;

/// The index of the first semicolon; None without one.
pub fn first_semicolon(bytes: &[u8]) -> Option<usize>
    ensures { result ≡ position (λ b. b == 0x3B) bytes.now }
{
    bytes.iter().position(|b| *b == b';')
}

/// A window's side, from 1 to 500, in one to three digits.
pub fn side(digits: &[u8]) -> Option<u16>
    ensures value { result ≡ (if is_side_in_digits digits.now then Some (digits_value 10 digits.now) else None) }
    ensures fits { IfSome result IsSide }
{
    let side = number(digits)?;
    if is_side(side) { Some(side) } else { None }
}

/// The value of one to three digits; None of other bytes.
pub fn number(digits: &[u8]) -> Option<u16>
    ensures value { result ≡ (if is_number digits.now then Some (digits_value 10 digits.now) else None) }
{
    match digits {
        [a] => digit(*a),
        [a, b] => Some(digit(*a)? * 10 + digit(*b)?),
        [a, b, c] => Some((digit(*a)? * 10 + digit(*b)?) * 10 + digit(*c)?),
        _ => None,
    }
}

/// The value of a digit; None of any other byte.
fn digit(byte: u8) -> Option<u16>
    ensures value { SomeIff result (is_ascii_digit byte ≡ true) (byte - 0x30) }
    ensures small { (n : ℕ) → result ≡ Some n → n < 10 }
{
    match byte {
        b'0'..=b'9' => Some(u16::from(byte - b'0')),
        _ => None,
    }
}
