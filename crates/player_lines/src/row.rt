//! A row of a text in a window.
ghost use Rattle.std.specs.Prelude.{All};
ghost use Rattle.bx_rows.specs.cells.UnitFacts.{StandsIn};
ghost use Rattle.bx_paragraph.specs.Layout.{IsLayoutBy};

use crate::words::{WordFault, bytes_of, count_of, field, side_of};
use crate::writing::{add_blank, add_bytes, add_none};
use bx_common::{Base, is_side};
use bx_levels::{Levels, levels};
use bx_paragraph::{LayoutRowRef, ParagraphLayout};
use bx_rows::{Unit, units, visual};
use bx_rows_laws::{row_levels, wrap};
use bx_text::{Index, Text};
use bx_ucd::{BidiData, Tables};
use std::alloc::Global;

/// Appends the levels of a row's units, and their numbers in visual order.
fn add_levels(
    line: &mut String,
    alloc: Global,
    body: &str,
    units: &[Unit],
    levels: &Levels,
    tables: &Tables,
) -> Result<(), WordFault>
    requires { All (StandsIn body.now) units.now }
{
    let each = row_levels(alloc, body, units, levels, tables)?;
    for level in &each {
        add_blank(line)?;
        write!(line, "{level}")?;
    }
    add_none(line)?;
    line.push('\t')?;
    for number in &visual(alloc, &each)? {
        add_blank(line)?;
        write!(line, "{number}")?;
    }
    add_none(line)?;
    Ok(())
}

/// Appends the levels of the units of one row of a body, and the units' numbers in visual order. `number` is the row's number, from
/// 0; `w` is the window's width in columns.
fn add_units(
    line: &mut String,
    alloc: Global,
    body: &str,
    tables: &Tables,
    base: Base,
    w: u16,
    number: usize,
) -> Result<(), WordFault> {
    let found = units(alloc, body, tables, w)?;
    let rows = wrap(alloc, body, &found, tables, w)?;
    let levels = levels(alloc, body, tables, base)?;
    let mut left = number;
    for row in &rows {
        if left == 0 {
            return add_levels(
                line,
                alloc,
                body,
                &found[row.start..row.stop],
                &levels,
                tables,
            );
        }
        left = left.saturating_sub(1);
    }
    Ok(())
}

/// Appends the glyphs of a row, from left to right.
fn add_glyphs<D: BidiData>(
    line: &mut String,
    row: &LayoutRowRef<'_, '_, D>,
) -> Result<(), WordFault> {
    for glyph in &row.picture()?.glyphs {
        add_blank(line)?;
        add_bytes(line, glyph.text.as_str().as_bytes())?;
        let (columns, sign) = (glyph.columns, if glyph.negative { "n" } else { "" });
        write!(line, ":{columns}{sign}")?;
    }
    Ok(())
}

/// Appends the slots of a row, from left to right. The body begins at `start` of the text.
fn add_slots<D: BidiData>(
    line: &mut String,
    row: &LayoutRowRef<'_, '_, D>,
    start: usize,
) -> Result<(), WordFault> {
    for slot in &row.slots()? {
        let (place, column) = (start.saturating_add(slot.offset), slot.column);
        add_blank(line)?;
        write!(line, "{place}@{column}")?;
    }
    Ok(())
}

/// Appends the glyphs and the slots of a paragraph's row.
fn add_pictured<D: BidiData>(
    line: &mut String,
    layout: &ParagraphLayout,
    tables: &D,
    start: usize,
    number: usize,
) -> Result<(), WordFault>
    requires { IsLayoutBy (D.data tables.now) layout.now }
{
    if number >= layout.row_count() {
        return Ok(());
    }
    let row = LayoutRowRef {
        paragraph: layout,
        tables,
        number,
        start: 0,
    };
    add_glyphs(line, &row)?;
    line.push('\t')?;
    add_slots(line, &row, start)
}

/// Answers a `row` line.
pub fn row_line(alloc: Global, tables: &Tables, fields: &[&str]) -> Result<String, WordFault> {
    let text = String::from_utf8(bytes_of(alloc, field(fields, 0)?)?);
    let base: Base = field(fields, 1)?.parse()?;
    let w = side_of(field(fields, 2)?)?;
    let mut left = count_of(field(fields, 3)?)?;
    let Ok(text) = text else {
        return Err(WordFault::Bad("UTF-8 is wanted"));
    };
    if !is_side(w) {
        return Err(WordFault::Bad("no window has as many columns"));
    }
    let text = Text::open(alloc, text)?;
    let index = Index::build(alloc, &text, tables)?;
    let mut line = String::new(alloc);
    for paragraph in 0..index.count() {
        let span = index.span(paragraph);
        let body = text.copy_range(span.start, span.stop)?;
        let layout = ParagraphLayout::of(alloc, body, tables, w, base)?;
        if left < layout.row_count() {
            add_units(&mut line, alloc, layout.body(), tables, base, w, left)?;
            line.push('\t')?;
            add_pictured(&mut line, &layout, tables, span.start, left)?;
            return Ok(line);
        }
        left = left.saturating_sub(layout.row_count());
    }
    Err(WordFault::Bad("the text has no such row"))
}
