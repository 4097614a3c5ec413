//! The first place at or after an offset, and the last one at or before it.
ghost use Rattle.std.specs.Prelude.{◌≡◌, true, IfOk, OnOk};
ghost use Rattle.std.specs.Str.{IsCharBoundary};
ghost use Rattle.bx_common.specs.Characters.{is_side};
ghost use Rattle.bx_view.specs.Moves.{place_at, place_from};
ghost use Rattle.bx_view.specs.Places.{IsTextPlace};
ghost use Rattle.bx_view.specs.TextRef.{IsViewBy, Keeps, bytes, rows};

use crate::placed::{first_place_from, last_place, last_place_at};
use crate::text_ref::TextRef;
use crate::view::View;
use bx_common::OutOfMemory;
use bx_ucd::BidiData;

impl View {
    /// The first place at or after an offset; the text's last place, if there is none.
    pub fn place_from<D: BidiData>(
        &mut self,
        text_ref: &TextRef<'_, D>,
        offset: usize,
    ) -> Result<usize, OutOfMemory>
        requires data { IsViewBy text_ref.now self.old }
        ensures keeps { Keeps text_ref.now self.old self.new }
        ensures place { IfOk result (λ o. o ≡ place_from (rows text_ref.now self.old) offset) }
        ensures text_place { IfOk result (IsTextPlace (D.data text_ref.now.tables.now) (bytes text_ref.now)) }
        ensures side { OnOk result (is_side self.old.w ≡ true) }
        ensures boundary { IfOk result (λ o. IsCharBoundary (bytes text_ref.now) o) }
    {
        let at = self.row_at(text_ref, offset)?;
        if let Some(place) = first_place_from(&self.row(text_ref, at), offset)? {
            return Ok(place);
        }
        let Some(next) = self.next_row(text_ref, at)? else {
            // The proof refers to the place by this name.
            let last = last_place(&self.row(text_ref, at))?;
            return Ok(last);
        };
        Ok(self.first_in(text_ref, next))
    }

    /// The place of an offset: the last place at or before it.
    pub fn place_at<D: BidiData>(
        &mut self,
        text_ref: &TextRef<'_, D>,
        offset: usize,
    ) -> Result<usize, OutOfMemory>
        requires data { IsViewBy text_ref.now self.old }
        ensures keeps { Keeps text_ref.now self.old self.new }
        ensures place { IfOk result (λ o. o ≡ place_at (rows text_ref.now self.old) offset) }
        ensures text_place { IfOk result (IsTextPlace (D.data text_ref.now.tables.now) (bytes text_ref.now)) }
        ensures side { OnOk result (is_side self.old.w ≡ true) }
        ensures boundary { IfOk result (λ o. IsCharBoundary (bytes text_ref.now) o) }
    {
        let at = self.row_at(text_ref, offset)?;
        // A row begins at a place, so there is one.
        let place = last_place_at(&self.row(text_ref, at), offset)?;
        Ok(place.unwrap_or(0))
    }
}
