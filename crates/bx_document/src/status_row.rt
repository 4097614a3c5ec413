//! Draws the status row: a text, an input line behind it, and at the row's end a file's name and the direction of a paragraph.
ghost use Rattle.std.specs.Prelude.{◌≡◌, ◌+◌, ◌≤◌, ◌++◌, nat_le, true, if◌then◌else◌, All, IfOk, IfSome, None, OnOk, Some, drop, length, map, option_map, replicate, string_bytes, sum_by, take};
ghost use Rattle.bx_common.specs.Characters.{are_ascii_printable, is_side};
ghost use Rattle.bx_rows.specs.RowPicture.{blank, letter_glyphs};
ghost use Rattle.bx_rows.specs.Shown.{glyph_of};
ghost use Rattle.bx_document.specs.Drawing.{fitting, glyph_row};
ghost use Rattle.bx_document.specs.InputLine.{column_shown, glyphs_or, input_line, line_glyphs, shown_line, shown_with};
ghost use Rattle.bx_document.specs.StatusRow.{direction_text, name_glyphs, shown_name, with_end, with_some_end};
ghost use Rattle.bx_document.specs.Narrow.{IsWellDrawn};

use crate::document::Document;
use crate::drawing::draw_glyphs;
use crate::input_line::{LineRow, first_row, room_behind, text_of, view_of};
use bx_common::OutOfMemory;
use bx_grid::Grid;
use bx_rows::{Drawn, RowPicture};
use bx_ucd::BidiData;
use bx_view::TextRef;
use std::alloc::{AllocError, Global};
use std::borrow::CowStr;
use std::marker::Model;

/// The glyphs of a file's name, laid out once.
#[derive(Drop)]
pub struct DrawnName {
    pub(crate) glyphs: Vec<Drawn<'static>>,
}

impl Model for DrawnName {
    ghost use Rattle.std.specs.Prelude.{All, List, map};
    ghost use Rattle.bx_rows.specs.RowPicture.{Glyph};
    ghost use Rattle.bx_rows.specs.Shown.{glyph_of};
    ghost use Rattle.bx_document.specs.Narrow.{IsWellDrawn};

    ghost Value = { List Glyph };

    ghost view = { λ n. map glyph_of n.glyphs.items };

    ghost invariant = { λ n. All IsWellDrawn n.glyphs.items };
}

/// What stands at the row's end: a name, and whether a paragraph is read from right to left.
#[derive(Clone, Copy)]
pub struct RowEnd<'a> {
    pub name: &'a DrawnName,
    pub is_rtl: bool,
}

/// A status row, and the column of the cursor in it, from 1, if it is in an input line and has room.
#[derive(Drop)]
pub struct StatusRow {
    pub row: Grid,
    pub column: Option<u16>,
}

/// The number of leftmost glyphs that fit into `width` columns.
fn fit_count(glyphs: &[Drawn<'_>], width: u16) -> usize
    ensures within { result ≤ length glyphs.now }
    ensures fitting { map glyph_of (take result glyphs.now) ≡ fitting width (map glyph_of glyphs.now) }
    ensures room { sum_by (λ g. g.columns) (take result glyphs.now) ≤ width }
{
    let mut left = width;
    for (i, glyph) in glyphs.iter().enumerate() {
        if glyph.columns > left {
            return i;
        }
        left -= glyph.columns;
    }
    glyphs.len()
}

/// Draws the leftmost glyphs that fit into a row of `width` columns, and blanks on their right, as a grid of one row.
fn glyph_row(alloc: Global, glyphs: &[Drawn<'_>], width: u16) -> Result<Grid, OutOfMemory>
    requires side { is_side width ≡ true }
    requires glyphs { All IsWellDrawn glyphs.now }
    ensures row { IfOk result (λ row. row.columns ≡ glyph_row width (map glyph_of glyphs.now)) }
    ensures filled { IfOk result (λ row. length row.columns ≡ width) }
    ensures one { IfOk result (λ row. row.height ≡ 1) }
    ensures wide { IfOk result (λ row. row.width ≡ width) }
{
    let count = fit_count(glyphs, width);
    // The proof refers to the row by this name.
    let row = draw_glyphs(alloc, &glyphs[..count], width)?;
    Ok(row)
}

/// What a row shows of an input line: the number of glyphs that are left out at its left, and the column of the cursor in the row.
#[derive(Clone, Copy)]
struct Cut {
    left_out: usize,
    column: u16,
}

/// The column of a row in which a cell of an input line is, behind `before` columns; none if it is past the row's end.
fn column_at(before: usize, cell: u16, width: u16) -> Option<u16>
    ensures { result ≡ (if nat_le (before + cell) width then Some (before + cell) else None) }
{
    if before > usize::from(width) {
        return None;
    }
    let before = before as u16;
    if cell > width - before {
        return None;
    }
    Some(before + cell)
}

/// Leaves out the fewest glyphs at the left by which the cursor, in their column `cell`, is in the first `width` columns of a row in
/// which `before` columns stand before them; none if its own glyph would be left out.
fn cut_for(glyphs: &[Drawn<'_>], before: usize, cell: u16, width: u16) -> Option<Cut>
    requires some { 1 ≤ before }
    ensures within { IfSome result (λ c. c.left_out ≤ length glyphs.now) }
    ensures inside { IfSome result (λ c. (1 ≤ c.column) × (c.column ≤ width)) }
    ensures shown { shown_line width before (map glyph_of glyphs.now) cell
        ≡ option_map (λ c. record { glyphs = map glyph_of (drop c.left_out glyphs.now); column = c.column }) result }
{
    let mut cell = cell;
    for (i, glyph) in glyphs.iter().enumerate() {
        if let Some(column) = column_at(before, cell, width) {
            return Some(Cut {
                left_out: i,
                column,
            });
        }
        if glyph.columns >= cell {
            return None;
        }
        cell -= glyph.columns;
    }
    let column = column_at(before, cell, width)?;
    Some(Cut {
        left_out: glyphs.len(),
        column,
    })
}

/// What a row shows of an input line: the number of glyphs that are left out at its left, and the column of the cursor, if it has room.
#[derive(Clone, Copy)]
struct LinePart {
    left_out: usize,
    column: Option<u16>,
}

/// The part of an input line that a row shows, by the column of the cursor's cell among the glyphs.
fn part_for(glyphs: &[Drawn<'_>], before: usize, cell: Option<u16>, width: u16) -> LinePart
    requires some { 1 ≤ before }
    ensures within { result.left_out ≤ length glyphs.now }
    ensures shown { map glyph_of (drop result.left_out glyphs.now)
        ≡ glyphs_or (map glyph_of glyphs.now) (shown_with width before (map glyph_of glyphs.now) cell) }
    ensures column { result.column ≡ column_shown (shown_with width before (map glyph_of glyphs.now) cell) }
    ensures inside { IfSome result.column (λ c. (1 ≤ c) × (c ≤ width)) }
{
    let all = LinePart {
        left_out: 0,
        column: None,
    };
    let Some(cell) = cell else {
        return all;
    };
    match cut_for(glyphs, before, cell, width) {
        None => all,
        Some(cut) => LinePart {
            left_out: cut.left_out,
            column: Some(cut.column),
        },
    }
}

/// A glyph of a text that stays.
fn borrowed<'a>(glyph: &'a Drawn<'_>) -> Drawn<'a>
    ensures same { glyph_of result ≡ glyph_of glyph.now }
    ensures drawn { IsWellDrawn glyph.entry.now → IsWellDrawn result }
{
    Drawn {
        text: CowStr::Borrowed(glyph.text.as_str()),
        columns: glyph.columns,
        negative: glyph.negative,
    }
}

/// Appends glyphs.
fn push_glyphs<'a>(glyphs: &mut Vec<Drawn<'a>>, more: &'a [Drawn<'_>]) -> Result<(), AllocError>
    requires drawn { All IsWellDrawn more.now }
    ensures glyphs { OnOk result (map glyph_of glyphs.new.items ≡ map glyph_of glyphs.old.items ++ map glyph_of more.now) }
    ensures drawn { All IsWellDrawn glyphs.old.items → OnOk result (All IsWellDrawn glyphs.new.items) }
{
    for glyph in more {
        glyphs.push(borrowed(glyph))?;
    }
    Ok(())
}

/// Appends a text of characters from SPACE to TILDE.
fn push_letters<'a>(
    alloc: Global,
    glyphs: &mut Vec<Drawn<'a>>,
    text: &'static str,
) -> Result<(), OutOfMemory>
    requires printable { are_ascii_printable text.now ≡ true }
    ensures glyphs { OnOk result (map glyph_of glyphs.new.items ≡ map glyph_of glyphs.old.items ++ letter_glyphs text.now) }
    ensures drawn { All IsWellDrawn glyphs.old.items → OnOk result (All IsWellDrawn glyphs.new.items) }
{
    let mut picture = RowPicture::of_letters(alloc, text)?;
    glyphs.append(&mut picture.glyphs)?;
    Ok(())
}

/// Appends blanks.
fn push_blanks(glyphs: &mut Vec<Drawn<'_>>, count: u16) -> Result<(), AllocError>
    ensures glyphs { OnOk result (map glyph_of glyphs.new.items ≡ map glyph_of glyphs.old.items ++ replicate count blank) }
    ensures drawn { All IsWellDrawn glyphs.old.items → OnOk result (All IsWellDrawn glyphs.new.items) }
{
    for _ in 0..count {
        glyphs.push(Drawn {
            text: CowStr::Borrowed(" "),
            columns: 1,
            negative: false,
        })?;
    }
    Ok(())
}

/// A direction in letters.
fn direction_text(is_rtl: bool) -> &'static str
    ensures text { result.now ≡ direction_text is_rtl }
    ensures printable { are_ascii_printable result.now ≡ true }
{
    if is_rtl { "rtl" } else { "ltr" }
}

/// The columns of a direction, and the blanks before the row's end.
const DIRECTION_COLUMNS: u16 = 3;

const BLANKS_BEFORE_END: u16 = 2;

/// Appends blanks, a name and a direction up to the row's end, as far as they have room there: all, or the direction alone, or nothing.
fn push_end<'a>(
    alloc: Global,
    glyphs: &mut Vec<Drawn<'a>>,
    end: RowEnd<'a>,
    width: u16,
) -> Result<(), OutOfMemory>
    ensures glyphs { OnOk result (map glyph_of glyphs.new.items
        ≡ with_end width (map glyph_of glyphs.old.items) end.entry.name.now end.entry.is_rtl) }
    ensures drawn { All IsWellDrawn glyphs.old.items → OnOk result (All IsWellDrawn glyphs.new.items) }
{
    let Some(room) = room_behind(glyphs, width) else {
        return Ok(());
    };
    if room < BLANKS_BEFORE_END + DIRECTION_COLUMNS {
        return Ok(());
    }
    let free = room - DIRECTION_COLUMNS;
    let name: &'a DrawnName = end.name;
    match room_behind(&name.glyphs, free) {
        Some(left) if left > BLANKS_BEFORE_END && !name.glyphs.is_empty() => {
            push_blanks(glyphs, left - 1)?;
            push_glyphs(glyphs, &name.glyphs)?;
            push_blanks(glyphs, 1)?;
        }
        _ => push_blanks(glyphs, free)?,
    }
    push_letters(alloc, glyphs, direction_text(end.is_rtl))
}

/// Appends what stands at the row's end, if anything does.
fn push_some_end<'a>(
    alloc: Global,
    glyphs: &mut Vec<Drawn<'a>>,
    end: Option<RowEnd<'a>>,
    width: u16,
) -> Result<(), OutOfMemory>
    ensures glyphs { OnOk result (map glyph_of glyphs.new.items
        ≡ with_some_end width (map glyph_of glyphs.old.items) (option_map (λ e. (e.name.now, e.is_rtl)) end.entry)) }
    ensures drawn { All IsWellDrawn glyphs.old.items → OnOk result (All IsWellDrawn glyphs.new.items) }
{
    match end {
        None => Ok(()),
        Some(end) => push_end(alloc, glyphs, end, width),
    }
}

/// A glyph with a text of its own.
fn owned(alloc: Global, glyph: &Drawn<'_>) -> Result<Drawn<'static>, AllocError>
    ensures same { IfOk result (λ g. glyph_of g ≡ glyph_of glyph.now) }
    ensures drawn { IsWellDrawn glyph.now → IfOk result IsWellDrawn }
{
    let text = String::from_str(alloc, glyph.text.as_str())?;
    Ok(Drawn {
        text: CowStr::Owned(text),
        columns: glyph.columns,
        negative: glyph.negative,
    })
}

impl<D: BidiData + Drop> Document<D> {
    /// The characters of a name that are shown.
    fn shown_name(&self, name: &str) -> Result<String, OutOfMemory>
        ensures { IfOk result (λ n. string_bytes n ≡ shown_name (D.data self.now.tables) name.now) }
    {
        let mut shown = String::new(self.alloc);
        for c in name.chars() {
            if c != '\t' && !self.separates(c) {
                shown.push(c)?;
            }
        }
        Ok(shown)
    }

    /// The glyphs of a name, laid out as an input line, without tabs and characters that separate paragraphs.
    pub fn draw_name(&self, name: &str) -> Result<DrawnName, OutOfMemory>
        ensures { IfOk result (λ n. n ≡ name_glyphs (D.data self.now.tables) name.now) }
    {
        let tables = self.indexed.tables();
        let shown = self.shown_name(name)?;
        let (text, index) = text_of(self.alloc, shown.as_str(), tables)?;
        let text_ref = TextRef::of(&text, &index, tables);
        let mut view = view_of(self.alloc);
        let line = first_row(&mut view, &text_ref, 0)?;
        let mut glyphs = Vec::new(self.alloc);
        for glyph in &line.picture.glyphs {
            glyphs.push(owned(self.alloc, glyph)?)?;
        }
        Ok(DrawnName { glyphs })
    }

    /// Draws a text into a row of the window's width, as far as it fits, and what stands at the row's end. The text has only characters
    /// from SPACE to TILDE.
    pub fn draw_text(&self, text: &str, end: Option<RowEnd<'_>>) -> Result<Grid, OutOfMemory>
        requires printable { are_ascii_printable text.now ≡ true }
        ensures row { IfOk result (λ row. row.columns ≡ glyph_row self.now.document.w
            (with_some_end self.now.document.w (letter_glyphs text.now) (option_map (λ e. (e.name.now, e.is_rtl)) end.entry))) }
        ensures filled { IfOk result (λ row. length row.columns ≡ self.now.document.w) }
        ensures one { IfOk result (λ row. row.height ≡ 1) }
        ensures wide { IfOk result (λ row. row.width ≡ self.now.document.w) }
    {
        let mut picture = RowPicture::of_letters(self.alloc, text)?;
        let width = self.width();
        push_some_end(self.alloc, &mut picture.glyphs, end, width)?;
        // The proof refers to the row by this name.
        let row = glyph_row(self.alloc, &picture.glyphs, width)?;
        Ok(row)
    }

    /// Draws a text and an input line behind it into a row of the window's width, as far as they fit, and what stands at the row's end.
    /// The cursor is at `place` of the input line; for it glyphs are left out at the left of the line. The text has only characters from
    /// SPACE to TILDE.
    pub fn draw_input(
        &self,
        text: &str,
        line: &str,
        place: usize,
        end: Option<RowEnd<'_>>,
    ) -> Result<StatusRow, OutOfMemory>
        requires printable { are_ascii_printable text.now ≡ true }
        requires some { 1 ≤ length text.now }
        ensures row { IfOk result (λ r. r.row.columns ≡ glyph_row self.now.document.w (with_some_end self.now.document.w
            (letter_glyphs text.now ++ glyphs_or (line_glyphs (D.data self.now.tables) line.now)
            (input_line (D.data self.now.tables) self.now.document.w (length text.now) line.now place))
            (option_map (λ e. (e.name.now, e.is_rtl)) end.entry))) }
        ensures column { IfOk result (λ r. r.column
            ≡ column_shown (input_line (D.data self.now.tables) self.now.document.w (length text.now) line.now place)) }
        ensures inside { IfOk result (λ r. IfSome r.column (λ c. (1 ≤ c) × (c ≤ self.now.document.w))) }
        ensures filled { IfOk result (λ r. length r.row.columns ≡ self.now.document.w) }
        ensures one { IfOk result (λ r. r.row.height ≡ 1) }
        ensures wide { IfOk result (λ r. r.row.width ≡ self.now.document.w) }
    {
        let tables = self.indexed.tables();
        let (typed, index) = text_of(self.alloc, line, tables)?;
        let text_ref = TextRef::of(&typed, &index, tables);
        let mut view = view_of(self.alloc);
        let LineRow {
            picture: found,
            cell,
        } = first_row(&mut view, &text_ref, place)?;
        let width = self.width();
        let part = part_for(&found.glyphs, text.len(), cell, width);
        let mut picture = RowPicture::of_letters(self.alloc, text)?;
        push_glyphs(&mut picture.glyphs, &found.glyphs[part.left_out..])?;
        push_some_end(self.alloc, &mut picture.glyphs, end, width)?;
        let row = glyph_row(self.alloc, &picture.glyphs, width)?;
        Ok(StatusRow {
            row,
            column: part.column,
        })
    }
}
