//! The letter of a key under another layout: layouts il, ara and ir of xkeyboard-config.
ghost use Rattle.std.specs.Prelude.{◌≡◌, ◌<◌, ◌+◌};
ghost use Rattle.bx_editor.specs.questions.KeyLetters.{answers_name, code_letter, key_letter, name_letter};

use crate::questions::codes::is_code_letter;
use crate::questions::line::digit_of;
use crate::questions::names::{asks_code, named};

/// The letter whose key gives a character in the Hebrew, the Arabic or the Persian layout.
fn key_letter(c: char) -> Option<char>
    ensures { result ≡ key_letter c }
{
    match c {
        '\u{5E7}' | '\u{62B}' => Some('e'),
        '\u{5DD}' | '\u{62E}' => Some('o'),
        '\u{5E4}' | '\u{62D}' => Some('p'),
        '\u{5DF}' | '\u{647}' => Some('i'),
        '\u{5DB}' | '\u{628}' => Some('f'),
        '\u{5DA}' | '\u{645}' => Some('l'),
        '\u{5E8}' | '\u{642}' => Some('r'),
        '\u{5E9}' | '\u{634}' => Some('a'),
        '\u{5DE}' | '\u{649}' | '\u{62F}' => Some('n'),
        '\u{5D7}' | '\u{62A}' => Some('j'),
        '\u{5D5}' | '\u{639}' => Some('u'),
        '\u{5E0}' | '\u{FEFB}' | '\u{630}' => Some('b'),
        '\u{5D1}' | '\u{624}' | '\u{632}' => Some('c'),
        '\u{5D2}' | '\u{64A}' | '\u{6CC}' => Some('d'),
        '\u{64F}' | '\u{64D}' => Some('E'),
        '\u{D7}' | ']' => Some('O'),
        '\u{F7}' | '\u{651}' => Some('I'),
        '\u{61B}' | '[' => Some('P'),
        _ => None,
    }
}

/// Whether a letter answers the question for a name: it names a character, or asks for a code.
fn answers_name(letter: char) -> bool
    ensures { result ≡ answers_name letter }
{
    named(letter).is_some() || asks_code(letter)
}

/// The letter that a character is as the answer to the question for a name: itself if it answers, else the one on its key if that
/// does.
pub fn name_letter(c: char) -> char
    ensures { result ≡ name_letter c }
{
    if answers_name(c) {
        return c;
    }
    match key_letter(c) {
        Some(letter) if answers_name(letter) => letter,
        _ => c,
    }
}

/// The digit of ASCII that has a number from 0 to 9.
fn ascii_digit(digit: usize) -> char
    requires { digit < 10 }
    ensures { result ≡ 0x30 + digit }
{
    char::from(b'0' + digit as u8)
}

/// The digit that a character is in a code: itself, or the digit of ASCII that has its number, or the letter on its key.
pub fn code_letter(c: char) -> char
    ensures { result ≡ code_letter c }
{
    if is_code_letter(c) {
        return c;
    }
    if let Some(digit) = digit_of(c) {
        return ascii_digit(digit);
    }
    match key_letter(c) {
        Some(letter) if is_code_letter(letter) => letter,
        _ => c,
    }
}
