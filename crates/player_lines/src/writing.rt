//! How the words of an answer are written.

use std::alloc::AllocError;

/// Appends bytes in hexadecimal; a hyphen for none.
pub fn add_bytes(line: &mut String, bytes: &[u8]) -> Result<(), AllocError> {
    if bytes.is_empty() {
        line.push('-')?;
    }
    for byte in bytes {
        for digit in [*byte >> 4, *byte & 15] {
            line.push(char::from_digit(u32::from(digit), 16).unwrap_or('?'))?;
        }
    }
    Ok(())
}

/// Appends a number.
pub fn add_number(line: &mut String, number: usize) -> Result<(), AllocError> {
    write!(line, "{number}")
}

/// Appends a blank, unless a field begins here.
pub fn add_blank(line: &mut String) -> Result<(), AllocError> {
    if !line.is_empty() && !line.as_str().ends_with('\t') {
        line.push(' ')?;
    }
    Ok(())
}

/// Appends a hyphen if a field is empty.
pub fn add_none(line: &mut String) -> Result<(), AllocError> {
    if line.is_empty() || line.as_str().ends_with('\t') {
        line.push('-')?;
    }
    Ok(())
}
