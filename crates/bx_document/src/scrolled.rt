//! Top rows to which keys move the view, and a place that keeps to the visible rows.
ghost use Rattle.std.specs.Prelude.{◌≡◌, ◌<◌, IfOk, IsCharBoundary};
ghost use Rattle.bx_view.specs.Places.{IsTextPlace};
ghost use Rattle.bx_view.specs.Top.{centred, filled, is_shown, to_shown, top_away};
ghost use Rattle.bx_document.specs.Document.{rows};

use crate::document::Document;
use bx_common::OutOfMemory;
use bx_ucd::BidiData;
use bx_view::{Goal, Vertical};

impl<D: BidiData + Drop> Document<D> {
    /// Whether the row of a place is one of the `count` visible rows, which begin with the row of the offset `top`.
    pub fn is_shown(&mut self, top: usize, place: usize, count: u16) -> Result<bool, OutOfMemory>
        requires some { 0 < count }
        ensures same { self.new ≡ self.old }
        ensures shown { IfOk result (λ b. b ≡ is_shown (rows (D.data self.old.tables) self.old.document) top place count) }
    {
        let text_ref = self.indexed.text_ref();
        // The proof refers to the answer by this name.
        let shown = self
            .view
            .is_shown(&text_ref, top, place, usize::from(count))?;
        Ok(shown)
    }

    /// The offset of the top row that shows the row of a place: `top`'s own if that row is one of its `count` rows; else the one that
    /// puts that row in the middle of the window, or as near to it as the text's ends allow.
    pub fn centred(&mut self, top: usize, place: usize, count: u16) -> Result<usize, OutOfMemory>
        requires some { 0 < count }
        ensures same { self.new ≡ self.old }
        ensures top { IfOk result (λ o. o ≡ centred (rows (D.data self.old.tables) self.old.document) top place count) }
    {
        let text_ref = self.indexed.text_ref();
        // The proof refers to the top row by this name.
        let top = self
            .view
            .centred(&text_ref, top, place, usize::from(count))?;
        Ok(top)
    }

    /// The offset of the top row after a window of `count` rows at the offset `top` moves by `n` rows. It moves down only as long as the
    /// text fills the window.
    pub fn top_away(
        &mut self,
        top: usize,
        way: Vertical,
        n: usize,
        count: u16,
    ) -> Result<usize, OutOfMemory>
        requires some { 0 < count }
        ensures same { self.new ≡ self.old }
        ensures top { IfOk result (λ o. o ≡ top_away (rows (D.data self.old.tables) self.old.document) way n top count) }
    {
        let text_ref = self.indexed.text_ref();
        // The proof refers to the top row by this name.
        let top = self
            .view
            .top_away(&text_ref, way, n, top, usize::from(count))?;
        Ok(top)
    }

    /// The offset of the top row of a window of `count` rows that the text fills: that of the row at the offset `top`, or of the last
    /// row that has `count` rows from it to the text's end, whichever is above. A shorter text begins at its first row.
    pub fn filled(&mut self, top: usize, count: u16) -> Result<usize, OutOfMemory>
        requires some { 0 < count }
        ensures same { self.new ≡ self.old }
        ensures top { IfOk result (λ o. o ≡ filled (rows (D.data self.old.tables) self.old.document) top count) }
    {
        let text_ref = self.indexed.text_ref();
        // The proof refers to the top row by this name.
        let top = self.view.filled(&text_ref, top, usize::from(count))?;
        Ok(top)
    }

    /// The place itself, if its row is one of the `count` visible rows that begin with the row of the offset `top`; else the place of
    /// the nearest visible row, which is entered by a goal.
    pub fn to_shown(
        &mut self,
        top: usize,
        count: u16,
        goal: Goal,
        place: usize,
    ) -> Result<usize, OutOfMemory>
        requires some { 0 < count }
        ensures same { self.new ≡ self.old }
        ensures place { IfOk result (λ o. o ≡ to_shown self.old.document.w (rows (D.data self.old.tables) self.old.document) top count goal place) }
        ensures text_place { IsTextPlace (D.data self.old.tables) self.old.document.content.text place
            → IfOk result (IsTextPlace (D.data self.old.tables) self.old.document.content.text) }
        ensures boundary { IsCharBoundary self.old.document.content.text place
            → IfOk result (λ o. IsCharBoundary self.old.document.content.text o) }
    {
        let text_ref = self.indexed.text_ref();
        // The proof refers to the place by this name.
        let place = bx_view::to_shown(
            &mut self.view,
            &text_ref,
            top,
            usize::from(count),
            goal,
            place,
        )?;
        Ok(place)
    }
}
