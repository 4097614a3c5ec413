//! The line and column numbers of a move. A window's have at most three digits, for which each part takes one append.

ghost use Rattle.std.specs.Prelude.{◌≡◌, ◌+◌, ◌<◌, ◌++◌, ◌∷◌, [], decimal, OnOk};

use crate::output::Output;
use itoa::Buffer;
use std::alloc::AllocError;

/// The ASCII digit of a number below 10.
fn digit(number: u16) -> u8
    requires { number < 10 }
    ensures { result ≡ 48 + number }
{
    b'0' + number as u8
}

/// Sends a number.
fn write_number(out: &mut Output, number: u16) -> Result<(), AllocError>
    ensures bytes { OnOk result (out.new.painting ≡ out.old.painting ++ decimal number) }
    ensures before { out.new.before ≡ out.old.before }
{
    let mut buffer = Buffer::new();
    out.append(buffer.format(number).as_bytes())
}

/// Sends the first part of a move: CSI, the line and a semicolon. With at most three digits it takes one append.
pub fn write_line_number(out: &mut Output, line: u16) -> Result<(), AllocError>
    ensures bytes { OnOk result (out.new.painting ≡ out.old.painting ++ 0x1B ∷ 0x5B ∷ (decimal line ++ 0x3B ∷ [])) }
    ensures before { out.new.before ≡ out.old.before }
{
    if line < 10 {
        return out.append(&[0x1B, b'[', digit(line), b';']);
    }
    if line < 100 {
        return out.append(&[0x1B, b'[', digit(line / 10), digit(line % 10), b';']);
    }
    if line < 1000 {
        return out.append(&[
            0x1B,
            b'[',
            digit(line / 100),
            digit(line / 10 % 10),
            digit(line % 10),
            b';',
        ]);
    }
    out.append(b"\x1b[")?;
    write_number(out, line)?;
    out.push(b';')
}

/// Sends the second part of a move: the column and H. With at most three digits it takes one append.
pub fn write_column_number(out: &mut Output, column: u16) -> Result<(), AllocError>
    ensures bytes { OnOk result (out.new.painting ≡ out.old.painting ++ (decimal column ++ 0x48 ∷ [])) }
    ensures before { out.new.before ≡ out.old.before }
{
    if column < 10 {
        return out.append(&[digit(column), b'H']);
    }
    if column < 100 {
        return out.append(&[digit(column / 10), digit(column % 10), b'H']);
    }
    if column < 1000 {
        return out.append(&[
            digit(column / 100),
            digit(column / 10 % 10),
            digit(column % 10),
            b'H',
        ]);
    }
    write_number(out, column)?;
    out.push(b'H')
}
