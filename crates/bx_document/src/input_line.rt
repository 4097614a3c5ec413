//! The input line of a prompt: a small text that is laid out by itself, in a view of its own. Its places count its bytes. Nothing is
//! kept of a layout.
ghost use Rattle.std.specs.Prelude.{◌≡◌, ◌==◌, ◌-◌, nat_le, [], All, IfOk, IsCharBoundary, None, Some, if◌then◌else◌, map};
ghost use Rattle.bx_common.specs.declared.base.Base.TheVariants.{Auto};
ghost use Rattle.bx_rows.specs.Shown.{glyph_of};
ghost use Rattle.bx_text.specs.index.Paragraphs.{lengths};
ghost use Rattle.bx_view.specs.Moved.{moved};
ghost use Rattle.bx_view.specs.Moves.{place_from};
ghost use Rattle.bx_view.specs.Places.{IsTextPlace};
ghost use Rattle.bx_view.specs.TextRef.{IsViewBy, Keeps, bytes, rows};
ghost use Rattle.bx_view.specs.TextRows.{cell_of, row_of};
ghost use Rattle.bx_document.specs.InputLine.{columns_taken, line_cell, line_glyphs, line_rows};
ghost use Rattle.bx_document.specs.Narrow.{IsWellDrawn};

use crate::document::Document;
use bx_common::{Base, OutOfMemory};
use bx_rows::{Drawn, RowPicture};
use bx_text::{Index, Text};
use bx_ucd::BidiData;
use bx_view::{Move, TextRef, View};
use std::alloc::Global;

/// An input line is laid out in as many columns as the widest window has (`largest_side`), whatever the window is.
const LINE_WIDTH: u16 = 500;

/// A text with its index. One that is longer than any text counts as too much for the memory.
pub(crate) fn text_of<D: BidiData>(
    alloc: Global,
    line: &str,
    tables: &D,
) -> Result<(Text, Index), OutOfMemory>
    ensures text { IfOk result (λ t. t.0.edited.text ≡ line.now) }
    ensures index { IfOk result (λ t. t.1.paragraphs ≡ lengths (D.data tables.now) line.now) }
{
    let line = String::from_str(alloc, line)?;
    let Ok(text) = Text::open(alloc, line) else {
        return Err(OutOfMemory);
    };
    let index = Index::build(alloc, &text, tables)?;
    Ok((text, index))
}

/// An empty view for an input line.
pub(crate) fn view_of(alloc: Global) -> View
    ensures { result ≡ record { base = Auto; w = 500; cache = [] } }
{
    View::of(alloc, LINE_WIDTH, Base::Auto)
}

/// The column of a place's cell in the whole row, if the place is in the first row.
fn cell_in_first_row<D: BidiData>(
    view: &mut View,
    text_ref: &TextRef<'_, D>,
    place: usize,
) -> Result<Option<u16>, OutOfMemory>
    requires data { IsViewBy text_ref.now view.old }
    ensures keeps { Keeps text_ref.now view.old view.new }
    ensures cell { IfOk result (λ c. c ≡ (if row_of (rows text_ref.now view.old) place == 0
        then Some (cell_of view.old.w (rows text_ref.now view.old) place)
        else None)) }
{
    let at = view.row_at(text_ref, place)?;
    if let Some(_) = view.row_before(text_ref, at)? {
        return Ok(None);
    }
    let cell = view.cell_of(text_ref, place)?;
    Ok(Some(cell))
}

/// The free columns of `room` that glyphs leave; none if they take more.
pub(crate) fn room_behind(glyphs: &[Drawn<'_>], room: u16) -> Option<u16>
    ensures { result ≡ (if nat_le (columns_taken (map glyph_of glyphs.now)) room
        then Some (room - columns_taken (map glyph_of glyphs.now))
        else None) }
{
    let mut left = room;
    for glyph in glyphs {
        if glyph.columns > left {
            return None;
        }
        left -= glyph.columns;
    }
    Some(left)
}

/// The first row of an input line: its glyphs, and the column of the cursor's cell, counted from 1 at the first glyph, if it is in
/// that row.
#[derive(Drop)]
pub(crate) struct LineRow<'a> {
    pub(crate) picture: RowPicture<'a>,
    pub(crate) cell: Option<u16>,
}

/// The first row of an input line, and in it the cell of a place.
pub(crate) fn first_row<'a, D: BidiData>(
    view: &'a mut View,
    text_ref: &TextRef<'_, D>,
    place: usize,
) -> Result<LineRow<'a>, OutOfMemory>
    requires data { IsViewBy text_ref.now view.old }
    requires base { view.old.base ≡ Auto }
    requires w { view.old.w ≡ 500 }
    ensures glyphs { IfOk result (λ r. map glyph_of r.picture.glyphs.items ≡ line_glyphs (D.data text_ref.now.tables.now) (bytes text_ref.now)) }
    ensures drawn { IfOk result (λ r. All IsWellDrawn r.picture.glyphs.items) }
    ensures cell { IfOk result (λ r. r.cell ≡ line_cell (D.data text_ref.now.tables.now) (bytes text_ref.now) place) }
{
    let cell = cell_in_first_row(view, text_ref, place)?;
    let at = view.row_at(text_ref, 0)?;
    let row = view.row(text_ref, at);
    let picture = row.own_glyphs()?;
    let free = if row.paragraph.level() % 2 == 0 {
        0
    } else {
        room_behind(&picture.glyphs, LINE_WIDTH).unwrap_or(0)
    };
    let cell = match cell {
        None => None,
        Some(cell) => Some(cell.saturating_sub(free)),
    };
    Ok(LineRow { picture, cell })
}

impl<D: BidiData + Drop> Document<D> {
    /// The first place of an input line at or after an offset; its end for an offset past that.
    pub fn place_in_line(&self, line: &str, offset: usize) -> Result<usize, OutOfMemory>
        ensures place { IfOk result (λ o. o ≡ place_from (line_rows (D.data self.now.tables) line.now) offset) }
        ensures text_place { IfOk result (IsTextPlace (D.data self.now.tables) line.now) }
        ensures boundary { IfOk result (λ o. IsCharBoundary line.now o) }
    {
        let tables = self.indexed.tables();
        let (text, index) = text_of(self.alloc, line, tables)?;
        let text_ref = TextRef::of(&text, &index, tables);
        let mut view = view_of(self.alloc);
        // The proof refers to the place by this name.
        let place = view.place_from(&text_ref, offset)?;
        Ok(place)
    }

    /// The place of an input line that the move `m` leads to from `place`.
    pub fn moved_in_line(&self, line: &str, m: Move, place: usize) -> Result<usize, OutOfMemory>
        ensures place { IfOk result (λ o. o ≡ moved (D.data self.now.tables) line.now 500 (line_rows (D.data self.now.tables) line.now) m place) }
        ensures text_place { IsTextPlace (D.data self.now.tables) line.now place → IfOk result (IsTextPlace (D.data self.now.tables) line.now) }
        ensures boundary { IsCharBoundary line.now place → IfOk result (λ o. IsCharBoundary line.now o) }
    {
        let tables = self.indexed.tables();
        let (text, index) = text_of(self.alloc, line, tables)?;
        let text_ref = TextRef::of(&text, &index, tables);
        let mut view = view_of(self.alloc);
        // The proof refers to the place by this name.
        let place = bx_view::moved(&mut view, &text_ref, m, place)?;
        Ok(place)
    }
}
