//! What is told of a unit in the status row: its first four characters with their classes, and its level.
ghost use Rattle.std.specs.Prelude.{◌≡◌, ◌++◌, ◌∷◌, [], ◌<◌, IfOk, chars, drop, slice_get, string_bytes, Some, true};
ghost use Rattle.bx_common.specs.Characters.{are_ascii_printable};
ghost use Rattle.bx_editor.specs.questions.Told.{behind, character_text, code_text, digit_at, hex_digit, last_four, level_text, others_text, told_text};

use bx_common::first_char;
use bx_ucd::BidiData;
use bx_ucd::class::class_name;
use itoa::Buffer;
use std::alloc::AllocError;

/// A hexadecimal digit in upper case.
fn hex_digit(digit: u32) -> char
    requires { digit < 16 }
    ensures { result ≡ hex_digit digit }
{
    if digit < 10 {
        return char::from(b'0' + digit as u8);
    }
    char::from(b'A' + (digit - 10) as u8)
}

/// Writes the hexadecimal digit of a code at a power of 16.
fn push_digit(line: &mut String, code: u32, power: u32) -> Result<(), AllocError>
    requires { 0 < power }
    ensures { IfOk result (λ _. string_bytes line.new ≡ string_bytes line.old ++ digit_at code power ∷ []) }
{
    line.push(hex_digit(code / power % 16))?;
    Ok(())
}

/// Writes the last four digits of a code.
fn push_last_four(line: &mut String, code: u32) -> Result<(), AllocError>
    ensures { IfOk result (λ _. string_bytes line.new ≡ string_bytes line.old ++ last_four code) }
{
    push_digit(line, code, 0x1000)?;
    push_digit(line, code, 0x100)?;
    push_digit(line, code, 0x10)?;
    push_digit(line, code, 1)?;
    Ok(())
}

/// Writes a code with four to six digits, as many as it needs.
fn push_code(line: &mut String, code: u32) -> Result<(), AllocError>
    ensures { IfOk result (λ _. string_bytes line.new ≡ string_bytes line.old ++ code_text code) }
{
    if code < 0x1_0000 {
        push_last_four(line, code)?;
        return Ok(());
    }
    if code < 0x10_0000 {
        push_digit(line, code, 0x1_0000)?;
        push_last_four(line, code)?;
        return Ok(());
    }
    push_digit(line, code, 0x10_0000)?;
    push_digit(line, code, 0x1_0000)?;
    push_last_four(line, code)?;
    Ok(())
}

/// Writes a character's code and class.
fn push_character<D: BidiData>(line: &mut String, tables: &D, c: char) -> Result<(), AllocError>
    ensures { IfOk result (λ _. string_bytes line.new ≡ string_bytes line.old ++ character_text (D.data tables.now) c) }
{
    line.push_str("U+")?;
    push_code(line, u32::from(c))?;
    line.push_str(" ")?;
    line.push_str(class_name(tables.class(c)))?;
    Ok(())
}

/// Writes a blank and a character after it, if there is one.
fn push_behind<D: BidiData>(
    line: &mut String,
    tables: &D,
    c: Option<char>,
) -> Result<(), AllocError>
    ensures { IfOk result (λ _. string_bytes line.new ≡ string_bytes line.old ++ behind (D.data tables.now) c) }
{
    match c {
        None => Ok(()),
        Some(c) => {
            line.push_str(" ")?;
            push_character(line, tables, c)?;
            Ok(())
        }
    }
}

/// The first character of a text, if it has one, and the text after it.
fn next_char(text: &str) -> (Option<char>, &str)
    ensures first { result.0 ≡ slice_get (chars text.now) 0 }
    ensures others { chars result.1.now ≡ drop 1 (chars text.now) }
{
    match first_char(text) {
        None => (None, text),
        Some((c, rest)) => (Some(c), rest),
    }
}

/// Writes the rest of a unit after its first character: three more at most, and `...` if there are others.
fn push_others<D: BidiData>(line: &mut String, tables: &D, others: &str) -> Result<(), AllocError>
    ensures { IfOk result (λ _. string_bytes line.new ≡ string_bytes line.old ++ others_text (D.data tables.now) (chars others.now)) }
{
    let (second, rest) = next_char(others);
    let (third, rest) = next_char(rest);
    let (fourth, rest) = next_char(rest);
    let (fifth, _) = next_char(rest);
    push_behind(line, tables, second)?;
    push_behind(line, tables, third)?;
    push_behind(line, tables, fourth)?;
    if fifth.is_some() {
        line.push_str(" ...")?;
    }
    Ok(())
}

/// Writes a level.
fn push_some_level(line: &mut String, level: u8) -> Result<(), AllocError>
    ensures told { IfOk result (λ _. string_bytes line.new ≡ string_bytes line.old ++ level_text (Some level)) }
    ensures printable { IfOk result (λ _. are_ascii_printable (level_text (Some level)) ≡ true) }
{
    let mut buffer = Buffer::new();
    line.push_str(" level ")?;
    line.push_str(buffer.format(level))?;
    Ok(())
}

/// Writes a level, if there is one.
fn push_level(line: &mut String, level: Option<u8>) -> Result<(), AllocError>
    ensures told { IfOk result (λ _. string_bytes line.new ≡ string_bytes line.old ++ level_text level) }
    ensures printable { IfOk result (λ _. are_ascii_printable (level_text level) ≡ true) }
{
    match level {
        None => Ok(()),
        Some(level) => push_some_level(line, level),
    }
}

/// Writes what is told of a unit: each of its first four characters with its class, and its level, if it has one.
///
/// Errors: `AllocError`, and a part is written.
pub fn write_told<D: BidiData>(
    line: &mut String,
    tables: &D,
    unit: &str,
    level: Option<u8>,
) -> Result<(), AllocError>
    ensures told { IfOk result (λ _. string_bytes line.new ≡ string_bytes line.old ++ told_text (D.data tables.now) (chars unit.now) level) }
    ensures printable { IfOk result (λ _. are_ascii_printable (told_text (D.data tables.now) (chars unit.now) level) ≡ true) }
{
    match first_char(unit) {
        None => {
            push_level(line, level)?;
            Ok(())
        }
        Some((c, others)) => {
            push_character(line, tables, c)?;
            push_others(line, tables, others)?;
            push_level(line, level)?;
            Ok(())
        }
    }
}
