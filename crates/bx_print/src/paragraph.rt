//! The printed lines of a paragraph, which is laid out for this alone, and not kept.
ghost use Rattle.std.specs.Prelude.{◌≡◌, ◌<◌, ◌++◌, OnErr, OnOk, length};
ghost use Rattle.bx_paragraph.specs.Layout.{IsLayoutBy};
ghost use Rattle.bx_view.specs.TextRef.{body_at, count};
ghost use Rattle.bx_print.specs.BodyLines.{body_lines};

use crate::error::PrintError;
use crate::line::push_line;
use crate::style::{Placeholders, Style};
use bx_paragraph::{LayoutRowRef, ParagraphLayout};
use bx_ucd::BidiData;
use bx_view::TextRef;

/// Appends the lines of a laid out paragraph, each after a line feed.
fn push_rows<D: BidiData>(
    page: &mut Vec<u8>,
    layout: &ParagraphLayout,
    tables: &D,
    placeholders: Placeholders,
) -> Result<(), PrintError>
    requires { IsLayoutBy (D.data tables.now) layout.now }
    ensures lines { OnOk result (page.new.items ≡ page.old.items
        ++ body_lines (D.data tables.now) placeholders layout.now.base layout.now.w layout.now.body) }
    ensures some { OnOk result (length page.old.items < length page.new.items) }
    ensures memory { OnErr result (result ≡ Err PrintError.OutOfMemory) }
{
    for row in 0..layout.row_count() {
        let lent = LayoutRowRef {
            paragraph: layout,
            tables,
            number: row,
            start: 0,
        };
        let picture = lent.picture()?;
        page.extend_from_slice(b"\n")?;
        push_line(page, &picture, placeholders)?;
    }
    Ok(())
}

/// Appends the lines of paragraph `number`, from 0, each after a line feed.
pub(crate) fn push_paragraph<D: BidiData>(
    page: &mut Vec<u8>,
    text_ref: &TextRef<'_, D>,
    number: usize,
    style: Style,
) -> Result<(), PrintError>
    requires number { number < count text_ref.now }
    ensures lines { OnOk result (page.new.items ≡ page.old.items
        ++ body_lines (D.data text_ref.now.tables.now)
        style.placeholders style.base style.columns (body_at text_ref.now number)) }
    ensures some { OnOk result (length page.old.items < length page.new.items) }
    ensures memory { OnErr result (result ≡ Err PrintError.OutOfMemory) }
{
    let span = text_ref.index.span(number);
    let body = text_ref.text.copy_range(span.start, span.stop)?;
    let alloc = *page.allocator();
    let layout = ParagraphLayout::of(alloc, body, text_ref.tables, style.columns, style.base)?;
    push_rows(page, &layout, text_ref.tables, style.placeholders)
}
