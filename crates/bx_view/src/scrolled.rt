//! Top rows to which keys move the view: the middle of the window for a place that is led to from afar, pages, scrolling, and a
//! window that is filled.
ghost use Rattle.std.specs.Prelude.{◌≡◌, ℕ, ◌-◌, ◌≤◌, ◌<◌, Bool, IfOk, length, min};
ghost use Rattle.bx_view.specs.TextRef.{IsViewBy, Keeps, Stands, StandsOn, rows};
ghost use Rattle.bx_view.specs.Top.{centred, filled, is_shown, last_top, top_away};

use crate::in_row::RowAt;
use crate::moves::{Vertical, rows_down, rows_up};
use crate::text_ref::TextRef;
use crate::view::View;
use bx_common::OutOfMemory;
use bx_ucd::BidiData;

impl View {
    /// The row `at`, or the last row that has `t` rows from it to the text's end, whichever is above; the first row of a shorter text.
    fn row_to_fill<D: BidiData>(
        &mut self,
        text_ref: &TextRef<'_, D>,
        at: RowAt,
        t: usize,
    ) -> Result<RowAt, OutOfMemory>
        requires row { Stands text_ref.now self.old at }
        requires some { 0 < t }
        ensures keeps { Keeps text_ref.now self.old self.new }
        ensures row { (n : ℕ) → StandsOn text_ref.now self.old at n
            → IfOk result (λ b. StandsOn text_ref.now self.new b (min n (last_top (length (rows text_ref.now self.old)) t))) }
    {
        let last = rows_down(self, text_ref, at, t - 1)?;
        // The proof refers to the row by this name.
        let there = rows_up(self, text_ref, last, t - 1)?;
        Ok(there)
    }

    /// The offset of the top row of a window of `t` rows that the text fills: that of the row at the offset `top`, or of the last row
    /// that has `t` rows from it to the text's end, whichever is above. A shorter text begins at its first row.
    pub fn filled<D: BidiData>(
        &mut self,
        text_ref: &TextRef<'_, D>,
        top: usize,
        t: usize,
    ) -> Result<usize, OutOfMemory>
        requires data { IsViewBy text_ref.now self.old }
        requires some { 0 < t }
        ensures keeps { Keeps text_ref.now self.old self.new }
        ensures top { IfOk result (λ o. o ≡ filled (rows text_ref.now self.old) top t) }
    {
        let at = self.row_at(text_ref, top)?;
        let there = self.row_to_fill(text_ref, at, t)?;
        Ok(self.first_in(text_ref, there))
    }

    /// The offset of the top row after a window of `t` rows at the offset `top` moves by `n` rows. It moves down only as long as the text
    /// fills the window.
    pub fn top_away<D: BidiData>(
        &mut self,
        text_ref: &TextRef<'_, D>,
        way: Vertical,
        n: usize,
        top: usize,
        t: usize,
    ) -> Result<usize, OutOfMemory>
        requires data { IsViewBy text_ref.now self.old }
        requires some { 0 < t }
        ensures keeps { Keeps text_ref.now self.old self.new }
        ensures top { IfOk result (λ o. o ≡ top_away (rows text_ref.now self.old) way n top t) }
    {
        let at = self.row_at(text_ref, top)?;
        let own = self.first_in(text_ref, at);
        match way {
            Vertical::Up => {
                let there = rows_up(self, text_ref, at, n)?;
                Ok(self.first_in(text_ref, there))
            }
            Vertical::Down => {
                let below = rows_down(self, text_ref, at, n)?;
                let there = self.row_to_fill(text_ref, below, t)?;
                // Rows further down begin at greater offsets.
                Ok(own.max(self.first_in(text_ref, there)))
            }
        }
    }

    /// Whether the row of a place is one of the `t` rows from the row of the offset `top` on.
    pub fn is_shown<D: BidiData>(
        &mut self,
        text_ref: &TextRef<'_, D>,
        top: usize,
        place: usize,
        t: usize,
    ) -> Result<bool, OutOfMemory>
        requires data { IsViewBy text_ref.now self.old }
        requires some { 0 < t }
        ensures keeps { Keeps text_ref.now self.old self.new }
        ensures shown { IfOk result (λ b. b ≡ is_shown (rows text_ref.now self.old) top place t) }
    {
        let shown = self.row_at(text_ref, top)?;
        let old = self.first_in(text_ref, shown);
        let own = self.row_near(text_ref, shown, place)?;
        let (nearest, _) = self.top_above(text_ref, own, old, t)?;
        Ok(self.first_in(text_ref, nearest) == old)
    }

    /// The offset of the top row that shows the row of a place: `top`'s own if that row is one of its `t` rows; else the one that puts
    /// that row in the middle of the window, or as near to it as the text's ends allow.
    pub fn centred<D: BidiData>(
        &mut self,
        text_ref: &TextRef<'_, D>,
        top: usize,
        place: usize,
        t: usize,
    ) -> Result<usize, OutOfMemory>
        requires data { IsViewBy text_ref.now self.old }
        requires some { 0 < t }
        ensures keeps { Keeps text_ref.now self.old self.new }
        ensures top { IfOk result (λ o. o ≡ centred (rows text_ref.now self.old) top place t) }
    {
        if self.is_shown(text_ref, top, place, t)? {
            let at = self.row_at(text_ref, top)?;
            return Ok(self.first_in(text_ref, at));
        }
        let own = self.row_at(text_ref, place)?;
        let above = rows_up(self, text_ref, own, t / 2)?;
        let there = self.row_to_fill(text_ref, above, t)?;
        Ok(self.first_in(text_ref, there))
    }
}
