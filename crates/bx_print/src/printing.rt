//! Prints a text, paragraph by paragraph, without a view.
ghost use Rattle.std.specs.Prelude.{◌≡◌, ◌↔◌, ◌<◌, [], IsErrOf, OnOk, length, string_bytes};
ghost use Rattle.std.specs.Io.KnownBytes.{Appends};
ghost use Rattle.bx_text.specs.Edits.{largest_text};
ghost use Rattle.bx_view.specs.TextRef.{bytes};
ghost use Rattle.bx_print.specs.Page.{page};
ghost use Rattle.bx_bytes.specs.Writing.{WritesFront};

use crate::error::PrintError;
use crate::output::{finish, send_full};
use crate::paragraph::push_paragraph;
use crate::style::Style;
use bx_text::{Index, Text, TextError};
use bx_ucd::BidiData;
use bx_view::TextRef;
use std::alloc::Global;
use std::io::Write;

/// Prints the paragraphs of a text. Lines wait in `pending`, which is empty at first, until `send_full` writes them.
fn print_paragraphs<D: BidiData, W: Write>(
    pending: &mut Vec<u8>,
    text_ref: &TextRef<'_, D>,
    style: Style,
    writer: &mut W,
) -> Result<(), PrintError>
    requires empty { pending.old.items ≡ [] }
    ensures page { OnOk result (Appends (W.contents writer.old) (W.contents writer.new)
        (page (D.data text_ref.now.tables.now) style.placeholders style.base style.columns (bytes text_ref.now))) }
    ensures front { WritesFront
        (page (D.data text_ref.now.tables.now) style.placeholders style.base style.columns (bytes text_ref.now))
        (W.contents writer.old) (W.contents writer.new) }
    ensures cause { IsErrOf result PrintError.TooLong → ⊥ }
{
    let count = text_ref.index.count();
    push_paragraph(pending, text_ref, 0, style)?;
    // the first row has no line feed before it
    pending.remove(0);
    for number in 1..count {
        send_full(writer, pending)?;
        push_paragraph(pending, text_ref, number, style)?;
    }
    finish(writer, pending)
}

/// Writes the lines of a text's rows, separated by line feeds, and flushes.
///
/// Errors: `TooLong` above 16,777,216 bytes, and nothing was written; `WriteFault` or `OutOfMemory`, and a prefix of the
/// lines was written.
pub fn print<D: BidiData, W: Write>(
    alloc: Global,
    text: String,
    tables: &D,
    style: Style,
    writer: &mut W,
) -> Result<(), PrintError>
    ensures page { OnOk result (Appends (W.contents writer.old) (W.contents writer.new)
        (page (D.data tables.now) style.placeholders style.base style.columns (string_bytes text))) }
    ensures front { WritesFront
        (page (D.data tables.now) style.placeholders style.base style.columns (string_bytes text))
        (W.contents writer.old) (W.contents writer.new) }
    ensures too_long { IsErrOf result PrintError.TooLong ↔ (largest_text < length (string_bytes text)) }
    ensures unwritten { IsErrOf result PrintError.TooLong → W.contents writer.new ≡ W.contents writer.old }
{
    let text = match Text::open(alloc, text) {
        Ok(text) => text,
        Err(TextError::TooLong) => return Err(PrintError::TooLong),
        Err(_) => return Err(PrintError::OutOfMemory),
    };
    let index = Index::build(alloc, &text, tables)?;
    let mut pending = Vec::new(alloc);
    let text_ref = TextRef::of(&text, &index, tables);
    print_paragraphs(&mut pending, &text_ref, style, writer)
}
