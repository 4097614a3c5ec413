//! Parsers for the words of a line.

use bx_common::{OutOfMemory, UnknownBase};
use bx_text::TextError;
use std::alloc::{AllocError, AllocFailed, Global};

/// Why a line is refused.
#[derive(Clone, Copy)]
pub enum WordFault {
    /// The text says what was expected.
    Bad(&'static str),
    OutOfMemory,
}

impl From<AllocError> for WordFault {
    fn from(_error: AllocError) -> Self {
        WordFault::OutOfMemory
    }
}

impl<T: Drop> From<AllocFailed<T>> for WordFault {
    fn from(_error: AllocFailed<T>) -> Self {
        WordFault::OutOfMemory
    }
}

impl From<OutOfMemory> for WordFault {
    fn from(_error: OutOfMemory) -> Self {
        WordFault::OutOfMemory
    }
}

impl From<TextError> for WordFault {
    fn from(error: TextError) -> Self {
        match error {
            TextError::NotABoundary | TextError::TooLong => WordFault::Bad(
                "a shorter text is wanted",
            ),
            TextError::OutOfMemory => WordFault::OutOfMemory,
        }
    }
}

impl From<UnknownBase> for WordFault {
    fn from(_error: UnknownBase) -> Self {
        WordFault::Bad("auto, ltr or rtl is wanted")
    }
}

/// A field of a line, by its number from 0 after the kind.
pub fn field<'a>(fields: &[&'a str], number: usize) -> Result<&'a str, WordFault> {
    match fields.get(number) {
        Some(field) => Ok(*field),
        None => Err(WordFault::Bad("a field is missing")),
    }
}

/// The value of a lower-case hexadecimal digit.
fn digit_of(byte: u8) -> Option<u8> {
    match byte {
        b'0'..=b'9' => Some(byte - b'0'),
        b'a'..=b'f' => Some(byte - b'a' + 10),
        _ => None,
    }
}

/// Parses a byte from a pair of digits.
pub fn byte_of(pair: &[u8]) -> Result<u8, WordFault> {
    let wanted = WordFault::Bad("pairs of hexadecimal digits are wanted");
    let [high, low] = pair else {
        return Err(wanted);
    };
    match (digit_of(*high), digit_of(*low)) {
        (Some(high), Some(low)) => Ok((high & 15) << 4 | low),
        _ => Err(wanted),
    }
}

/// Parses bytes from pairs of digits.
fn bytes_of_digits(alloc: Global, digits: &str) -> Result<Vec<u8>, WordFault> {
    let mut bytes = Vec::new(alloc);
    for pair in digits.as_bytes().chunks(2) {
        bytes.push(byte_of(pair)?)?;
    }
    Ok(bytes)
}

/// Appends the bytes of pairs of digits, repeated by the count after a `*`, or once.
fn add_part(alloc: Global, bytes: &mut Vec<u8>, part: &str) -> Result<(), WordFault> {
    let (digits, count) = part.split_once('*').unwrap_or((part, "1"));
    let once = bytes_of_digits(alloc, digits)?;
    for _ in 0..count_of(count)? {
        bytes.extend_from_slice(&once)?;
    }
    Ok(())
}

/// Parses bytes from parts joined by `+`; none for a hyphen.
pub fn bytes_of(alloc: Global, field: &str) -> Result<Vec<u8>, WordFault> {
    let mut bytes = Vec::new(alloc);
    if field != "-" {
        for part in field.split('+') {
            add_part(alloc, &mut bytes, part)?;
        }
    }
    Ok(bytes)
}

/// Parses a count.
pub fn count_of(word: &str) -> Result<usize, WordFault> {
    word.parse::<usize>()
        .map_err(|_| WordFault::Bad("a count is wanted"))
}

/// Parses a side of a window, even one out of range.
pub fn side_of(word: &str) -> Result<u16, WordFault> {
    word.parse::<u16>().map_err(|_| WordFault::Bad("a number of rows or columns is wanted"))
}

/// Parses two numbers with `between` between them.
pub fn two_of(word: &str, between: char) -> Result<(u16, u16), WordFault> {
    let (first, second) = word
        .split_once(between)
        .ok_or(WordFault::Bad("two numbers are wanted"))?;
    Ok((side_of(first)?, side_of(second)?))
}

/// Parses CALL, the number from 1 of the store's call that fails; none for a hyphen.
pub fn call_of(word: &str) -> Result<Option<u64>, WordFault> {
    if word == "-" {
        return Ok(None);
    }
    match word.parse::<u64>() {
        Ok(call) => Ok(Some(call)),
        Err(_) => Err(WordFault::Bad("the number of a call is wanted")),
    }
}
