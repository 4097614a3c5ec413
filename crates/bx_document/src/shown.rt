//! Draws the visible rows, and tells the cursor's position among them.
ghost use Rattle.std.specs.Prelude.{◌≡◌, ◌<◌, ◌≤◌, ◌++◌, ◌*◌, IfOk, IsUtf8, drop};
ghost use Rattle.bx_view.specs.Position.{IsPosition};
ghost use Rattle.bx_view.specs.Top.{follow};
ghost use Rattle.bx_document.specs.Document.{rows};
ghost use Rattle.bx_document.specs.Drawing.{IsAmong};
ghost use Rattle.bx_document.specs.Shown.{rows_above, shown_columns};

use crate::document::Document;
use crate::drawn_rows::{Page, draw_rows};
use bx_common::{OutOfMemory, Range};
use bx_grid::Grid;
use bx_ucd::BidiData;
use bx_view::Position;

/// Which rows are visible, and where a place is among them.
#[derive(Clone, Copy)]
pub struct Shown {
    /// The offset, in bytes, at which the first visible row begins.
    pub top: usize,
    /// The number of visible rows above the place's row.
    pub row: u16,
    /// The column and the numbers of the place.
    pub position: Position,
}

impl<D: BidiData + Drop> Document<D> {
    /// The offset at which the first visible row begins: the row of the offset `top`, scrolled by the fewest rows that make the row of
    /// `place` one of `count` visible rows.
    pub fn follow(&mut self, top: usize, place: usize, count: u16) -> Result<usize, OutOfMemory>
        requires some { 0 < count }
        ensures same { self.new ≡ self.old }
        ensures top { IfOk result (λ o. o ≡ follow (rows (D.data self.old.tables) self.old.document) top place count) }
    {
        let text_ref = self.indexed.text_ref();
        let located = self.view.locate(&text_ref, top, place, usize::from(count))?;
        let first = self.view.first_in(&text_ref, located.top);
        Ok(first)
    }

    /// Draws the first `count` rows of a grid. They show the rows of the text from the row of the offset `top` on, scrolled by
    /// the fewest rows that make the row of `place` visible. The region is a range of the text's bytes; the columns of units that
    /// begin in it are turned to the other rendition.
    ///
    /// Errors: `OutOfMemory`; some of the rows may be drawn.
    pub fn show(
        &mut self,
        grid: &mut Grid,
        top: usize,
        place: usize,
        count: u16,
        region: Range,
    ) -> Result<Shown, OutOfMemory>
        requires width { grid.old.width ≡ self.old.document.w }
        requires inside { count ≤ grid.old.height }
        requires some { 0 < count }
        ensures same { self.new ≡ self.old }
        ensures top { IfOk result (λ s. s.top ≡ follow (rows (D.data self.old.tables) self.old.document) top place count) }
        ensures among { IfOk result (λ s. IsAmong (rows (D.data self.old.tables) self.old.document) s.top place count) }
        ensures drawn { IfOk result (λ s. grid.new ≡ record grid.old {
          columns = shown_columns (D.data self.old.tables) self.old.document s.top (region.start, region.stop) count
              ++ drop (count * grid.old.width) grid.old.columns;
        }) }
        ensures row { IfOk result (λ s. s.row ≡ rows_above (D.data self.old.tables) self.old.document s.top place) }
        ensures few { IfOk result (λ s. s.row < count) }
        ensures position { IfOk result (λ s. IsPosition (D.data self.old.tables) self.old.document.w self.old.document.content.text
            (rows (D.data self.old.tables) self.old.document) place s.position) }
        ensures inside { IfOk result (λ s. (1 ≤ s.position.column) × (s.position.column ≤ self.old.document.w)) }
        ensures utf8 { IsUtf8 self.old.document.content.text }
    {
        let text_ref = self.indexed.text_ref();
        let located = self.view.locate(&text_ref, top, place, usize::from(count))?;
        let first = self.view.first_in(&text_ref, located.top);
        draw_rows(
            &mut self.view,
            &text_ref,
            located.top,
            grid,
            Page { count, region },
            &mut self.row_cache,
        )?;
        Ok(Shown {
            top: first,
            row: located.above as u16,
            position: located.position,
        })
    }
}
