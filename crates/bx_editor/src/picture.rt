//! The picture of an editor.
ghost use Rattle.std.specs.Prelude.{◌≡◌, ◌*◌, ◌≤◌, ◌++◌, false, true, None, IfOk, IfSome, OnOk, length, take};
ghost use Rattle.bx_common.specs.Characters.{is_side};
ghost use Rattle.bx_view.specs.Position.{IsPosition};
ghost use Rattle.bx_editor.specs.Editor.{rows, text_height};
ghost use Rattle.bx_editor.specs.Picture.{StandsOnItsCell, picture, top_behind};
ghost use Rattle.bx_editor.specs.Status.{input_column, status_columns};

use crate::editor::Editor;
use crate::scrolling::Scroll;
use crate::status::status_line;
use bx_common::OutOfMemory;
use bx_grid::{Cell, Grid, Picture};
use bx_ucd::BidiData;
use bx_view::Position;
use std::alloc::Global;

/// The number of a window's text rows: all but the status row, which is the last. A window of one row has no status row.
pub(crate) fn text_height(height: u16) -> u16
    requires { is_side height ≡ true }
    ensures rows { result ≡ text_height height }
    ensures some { 1 ≤ result }
    ensures inside { result ≤ height }
{
    if height >= 2 { height - 1 } else { 1 }
}

/// The cursor's cell: in the last row, at a column of an input line, if there is one; else in the text.
fn cursor_cell(typed: Option<u16>, height: u16, in_text: Cell) -> Cell
    ensures typed { IfSome typed (λ column. (result.line ≡ height) × (result.column ≡ column)) }
    ensures text { typed ≡ None → (result.line ≡ in_text.line) × (result.column ≡ in_text.column) }
{
    match typed {
        Some(column) => Cell {
            line: height,
            column,
        },
        None => in_text,
    }
}

impl<D: BidiData + Drop> Editor<D> {
    /// Draws the status row below the text rows, with the prompt of a question or of a search. A window of a single row has none.
    /// Returns the column of the cursor in it, if it is in an input line and has room.
    fn put_status(
        &mut self,
        alloc: Global,
        page: &mut Grid,
        position: Position,
    ) -> Result<Option<u16>, OutOfMemory>
        requires height { page.old.height ≡ self.old.editor.height }
        requires width { page.old.width ≡ self.old.editor.width }
        requires position { IsPosition (D.data self.old.tables) self.old.editor.width self.old.editor.content.text
            (rows (D.data self.old.tables) self.old.editor) self.old.editor.place position }
        ensures same { self.new ≡ self.old }
        ensures status { OnOk result (page.new ≡ record page.old {
          columns = take (text_height self.old.editor.height * self.old.editor.width) page.old.columns
              ++ status_columns (D.data self.old.tables) self.old.editor;
        }) }
        ensures column { IfOk result (λ column. column ≡ input_column (D.data self.old.tables) self.old.editor) }
        ensures inside { IfOk result (λ column. IfSome column (λ c. (1 ≤ c) × (c ≤ self.old.editor.width))) }
        ensures sized { length page.old.columns ≡ page.old.height * page.old.width }
    {
        let height = page.height();
        if height < 2 {
            return Ok(None);
        }
        let mut line = status_line(alloc, self.past.changed, position.paragraph, position.unit)?;
        self.write_message(&mut line)?;
        let status = self.draw_status(line, position.is_rtl)?;
        page.put_row(height - 1, &status.row)?;
        Ok(status.column)
    }

    /// Scrolls from the offset `top` as a key asks for it, then to the cursor, and draws the window, with the region, or the match that
    /// is shown, in the other rendition. Returns the offset of the new top row, and the picture. It is drawn on `page`, a grid of the window's size. Rows
    /// that `page` shows already are not written again. Once the editor has ended all is blank, with the cursor in the first cell.
    pub fn picture(
        &mut self,
        alloc: Global,
        page: Grid,
        top: usize,
        scroll: Scroll,
    ) -> Result<(usize, Picture), OutOfMemory>
        requires height { page.height ≡ self.old.editor.height }
        requires width { page.width ≡ self.old.editor.width }
        ensures same { self.new ≡ self.old }
        ensures top { IfOk result (λ shown. shown.0 ≡ top_behind (D.data self.old.tables) self.old.editor top scroll) }
        ensures picture { IfOk result (λ shown. shown.1 ≡ picture (D.data self.old.tables) self.old.editor shown.0) }
        ensures cursor { self.old.editor.ended ≡ false → input_column (D.data self.old.tables) self.old.editor ≡ None
            → IfOk result (λ shown. StandsOnItsCell (D.data self.old.tables) self.old.editor shown.0 shown.1) }
    {
        let mut page = page;
        let height = page.height();
        if self.ended {
            page.blank_rows(0, height);
            let cursor = Cell { line: 1, column: 1 };
            return Ok((top, Picture::new(page, cursor)));
        }
        let count = text_height(self.height);
        let top = self.moved_top(top, scroll)?;
        let region = self.seen()?;
        let shown = self
            .document
            .show(&mut page, top, self.cursor.place, count, region)?;
        let typed = self.put_status(alloc, &mut page, shown.position)?;
        let in_text = Cell {
            line: shown.row + 1,
            column: shown.position.column,
        };
        let cursor = cursor_cell(typed, height, in_text);
        Ok((shown.top, Picture::new(page, cursor)))
    }
}
