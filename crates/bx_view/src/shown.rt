//! The glyphs of a row, and its body.
ghost use Rattle.std.specs.Prelude.{◌≡◌, ℕ, true, All, IfOk, map, sum_by};
ghost use Rattle.std.specs.Cow.{cow_str_bytes};
ghost use Rattle.bx_common.specs.Glyphs.{is_one_glyph, run_width};
ghost use Rattle.bx_paragraph.specs.BodyRows.{row_at as row_at_body};
ghost use Rattle.bx_rows.specs.Shown.{glyph_of};
ghost use Rattle.bx_view.specs.TextRef.{OfRow, Stands, rows_of_body};
ghost use Rattle.bx_view.specs.TextRows.{text_row_glyphs};

use crate::in_row::RowAt;
use crate::text_ref::TextRef;
use crate::view::View;
use bx_common::OutOfMemory;
use bx_rows::RowPicture;
use bx_ucd::BidiData;

impl View {
    /// The glyphs of a row from left to right, blanks included.
    pub fn picture<D: BidiData>(
        &self,
        text_ref: &TextRef<'_, D>,
        at: RowAt,
    ) -> Result<RowPicture<'_>, OutOfMemory>
        requires row { Stands text_ref.now self.now at }
        ensures picture { OfRow text_ref.now self.now at (λ r. IfOk result
            (λ p. map glyph_of p.glyphs.items ≡ text_row_glyphs (D.data text_ref.now.tables.now) self.now.w r)) }
        ensures glyphs { IfOk result (λ p. All (λ g. is_one_glyph (cow_str_bytes g.text) ≡ true) p.glyphs.items) }
        ensures widths { IfOk result (λ p. All (λ g. run_width (cow_str_bytes g.text) ≡ g.columns) p.glyphs.items) }
        ensures columns { IfOk result (λ p. sum_by (λ g. g.columns) p.glyphs.items ≡ self.now.w) }
    {
        // The proof refers to the picture by this name.
        let picture = self.row(text_ref, at).picture()?;
        Ok(picture)
    }

    /// The body of a row's paragraph, and the row's number in it, from 0.
    pub fn row_in_body<D: BidiData>(&self, text_ref: &TextRef<'_, D>, at: RowAt) -> (&str, usize)
        requires row { Stands text_ref.now self.now at }
        ensures { OfRow text_ref.now self.now at (λ r. r.row ≡ row_at_body (rows_of_body text_ref.now self.now result.0.now) result.1) }
    {
        let paragraph = self.paragraph(text_ref, at.paragraph, at.cached);
        (paragraph.body(), at.row)
    }
}
