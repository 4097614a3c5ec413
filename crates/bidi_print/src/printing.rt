//! Printing of a file's bytes.

ghost use Rattle.std.specs.Prelude.{◌≡◌, IfErr, IfOk, OnOk, string_bytes};
ghost use Rattle.bidi_print.specs.Printing.{IsFirstFault, IsPage};

use crate::fault::ProgramFault;
use bx_command::UnicodeFiles;
use bx_common::LARGEST_TEXT;
use bx_print::{PrintError, Style, print};
use simdutf8::compat::from_utf8;
use std::alloc::{AllocError, Global};
use std::io::Write;

/// An owned copy of a text.
fn copy_of(alloc: Global, characters: &str) -> Result<String, AllocError>
    ensures { IfOk result (λ text. string_bytes text ≡ characters.now) }
{
    let mut text = String::with_capacity(alloc, characters.len())?;
    text.push_str(characters)?;
    Ok(text)
}

/// Reads Unicode's files, and prints a file's bytes.
///
/// Errors, in this order: `Tables`; `TooLong`; `NotUtf8`; `OutOfMemory` or `WriteFault`.
pub fn print_bytes<W: Write>(
    alloc: Global,
    writer: &mut W,
    bytes: &[u8],
    unicode: &UnicodeFiles<Vec<u8>>,
    style: Style,
) -> Result<(), ProgramFault<'static>>
    ensures printed { OnOk result (IsPage style unicode.now bytes.now (W.contents writer.old) (W.contents writer.new)) }
    ensures refused { IfErr result (IsFirstFault unicode.now bytes.now) }
{
    let tables = unicode.tables(alloc)?;
    // a file that is too long is cut off, maybe inside a character
    if bytes.len() > LARGEST_TEXT {
        return Err(PrintError::TooLong.into());
    }
    let text = match from_utf8(bytes) {
        Ok(characters) => copy_of(alloc, characters)?,
        Err(error) => return Err(ProgramFault::NotUtf8(error.valid_up_to())),
    };
    print(alloc, text, &tables, style, writer)?;
    Ok(())
}
