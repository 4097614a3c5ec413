//! The top visible row, and a place among the visible rows.
ghost use Rattle.std.specs.Prelude.{◌≡◌, ℕ, ◌+◌, ◌<◌, ◌≤◌, IfOk};
ghost use Rattle.bx_view.specs.Position.{IsPosition};
ghost use Rattle.bx_view.specs.TextRef.{BeginsAt, IsViewBy, Keeps, Stands, StandsOn, bytes, rows};
ghost use Rattle.bx_view.specs.TextRows.{row_of};
ghost use Rattle.bx_view.specs.Top.{nearest_top};

use crate::in_row::RowAt;
use crate::position::Position;
use crate::text_ref::TextRef;
use crate::view::View;
use bx_common::OutOfMemory;
use bx_ucd::BidiData;

/// A place among the visible rows.
#[derive(Clone, Copy)]
pub struct Located {
    /// The first visible row. It is valid until the view searches for another row.
    pub top: RowAt,
    /// The number of visible rows above the place's row.
    pub above: usize,
    /// The column and the numbers of the place.
    pub position: Position,
}

impl View {
    /// The top row, nearest to the one that begins at the offset `old`, from which `t` rows include the row `at`; and the number
    /// of rows from it down to `at`.
    pub(crate) fn top_above<D: BidiData>(
        &mut self,
        text_ref: &TextRef<'_, D>,
        at: RowAt,
        old: usize,
        t: usize,
    ) -> Result<(RowAt, usize), OutOfMemory>
        requires row { Stands text_ref.now self.old at }
        requires some { 0 < t }
        ensures keeps { Keeps text_ref.now self.old self.new }
        ensures top { (n k : ℕ) → StandsOn text_ref.now self.old at n → BeginsAt text_ref.now self.old k old
            → IfOk result (λ r. StandsOn text_ref.now self.new r.0 (nearest_top k n t)) }
        ensures above { (n k : ℕ) → StandsOn text_ref.now self.old at n → BeginsAt text_ref.now self.old k old
            → IfOk result (λ r. nearest_top k n t + r.1 ≡ n) }
        ensures few { IfOk result (λ r. r.1 < t) }
    {
        let mut walk = self.walk_from(text_ref, at);
        let mut here = at;
        let mut above = 0;
        while above + 1 < t {
            if self.first_in(text_ref, here) <= old {
                return Ok((here, above));
            }
            let Some(before) = self.row_before_along(text_ref, &mut walk, here)? else {
                return Ok((here, above));
            };
            here = before;
            above += 1;
        }
        Ok((here, above))
    }

    /// Locates a place among `t` visible rows: those from the row of the offset `top` on, scrolled by the fewest rows that
    /// make the place's row visible.
    pub fn locate<D: BidiData>(
        &mut self,
        text_ref: &TextRef<'_, D>,
        top: usize,
        place: usize,
        t: usize,
    ) -> Result<Located, OutOfMemory>
        requires data { IsViewBy text_ref.now self.old }
        requires some { 0 < t }
        ensures keeps { Keeps text_ref.now self.old self.new }
        ensures top { IfOk result (λ l. StandsOn text_ref.now self.new l.top
            (nearest_top (row_of (rows text_ref.now self.old) top) (row_of (rows text_ref.now self.old) place) t)) }
        ensures above { IfOk result (λ l. nearest_top (row_of (rows text_ref.now self.old) top) (row_of (rows text_ref.now self.old) place) t + l.above
            ≡ row_of (rows text_ref.now self.old) place) }
        ensures few { IfOk result (λ l. l.above < t) }
        ensures position { IfOk result (λ l.
            IsPosition (D.data text_ref.now.tables.now) self.old.w (bytes text_ref.now) (rows text_ref.now self.old) place l.position) }
        ensures inside { IfOk result (λ l. (1 ≤ l.position.column) × (l.position.column ≤ self.old.w)) }
    {
        let shown = self.row_at(text_ref, top)?;
        let old = self.first_in(text_ref, shown);
        let own = self.row_near(text_ref, shown, place)?;
        let position = self.position(text_ref, own, place)?;
        let (top, above) = self.top_above(text_ref, own, old, t)?;
        Ok(Located {
            top,
            above,
            position,
        })
    }
}
