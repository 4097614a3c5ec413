//! What is read of a row of a layout: the row laid out, its slots and its glyphs.
ghost use Rattle.std.specs.Prelude.{◌≡◌, ◌+◌, ◌==◌, All, IfOk, IsPermutation, length, map, sum_by, true};
ghost use Rattle.std.specs.Cow.{cow_str_bytes};
ghost use Rattle.bx_common.specs.Glyphs.{is_one_glyph, run_width};
ghost use Rattle.bx_common.specs.Characters.{is_side};
ghost use Rattle.bx_rows.specs.Shown.{glyph_of};
ghost use Rattle.bx_paragraph.specs.BodyRows.{offsets_of, row_glyphs, row_own_glyphs};
ghost use Rattle.bx_paragraph.specs.RowLayouts.{body_row};
ghost use Rattle.bx_paragraph.specs.LayoutRowRef.{row};
ghost use Rattle.bx_paragraph.specs.Slots.{row_slots};

use crate::layout_row_ref::LayoutRowRef;
use crate::slots::{Slot, row_slots};
use bx_common::OutOfMemory;
use bx_rows::{RowLayout, RowPicture};
use bx_ucd::BidiData;

impl<'a, 't, D: BidiData> LayoutRowRef<'a, 't, D> {
    /// Whether this is the paragraph's last row.
    pub(crate) fn is_last(&self) -> bool
        ensures { result ≡ (self.now.number + 1 == length self.now.paragraph.now.starts) }
    {
        let count = self.paragraph.row_count();
        self.number + 1 == count
    }

    /// The row laid out.
    fn laid(&self) -> Result<RowLayout<'a, 't, D>, OutOfMemory>
        ensures row { IfOk result (λ r. body_row r (self.now.number + 1 == length self.now.paragraph.now.starts) ≡ row self.now) }
        ensures w { IfOk result (λ r. r.lines.w ≡ self.now.paragraph.now.w) }
        ensures side { IfOk result (λ r. is_side r.lines.w ≡ true) }
    {
        let lines = self.paragraph.lines(self.tables);
        // The proof compares the row, so it has a name.
        let row = lines.row(self.paragraph.allocator(), self.number)?;
        Ok(row)
    }

    /// The row laid out, and its slots from left to right.
    pub(crate) fn laid_slots(&self) -> Result<(RowLayout<'a, 't, D>, Vec<Slot>), OutOfMemory>
        ensures row { IfOk result (λ r. body_row r.0 (self.now.number + 1 == length self.now.paragraph.now.starts) ≡ row self.now) }
        ensures slots { IfOk result (λ r. r.1.items ≡ row_slots self.now.paragraph.now.w (row self.now)) }
        ensures once { IfOk result (λ r. IsPermutation (offsets_of (row self.now)) (map (λ s. s.offset) r.1.items)) }
    {
        let row = self.laid()?;
        let slots = row_slots(self.paragraph.allocator(), &row, self.is_last())?;
        Ok((row, slots))
    }

    /// The row's slots from left to right, each with its columns: one for each place of the row.
    pub fn slots(&self) -> Result<Vec<Slot>, OutOfMemory>
        ensures slots { IfOk result (λ v. v.items ≡ row_slots self.now.paragraph.now.w (row self.now)) }
        ensures once { IfOk result (λ v. IsPermutation (offsets_of (row self.now)) (map (λ s. s.offset) v.items)) }
    {
        let (_, slots) = self.laid_slots()?;
        Ok(slots)
    }

    /// The row's glyphs from left to right, blanks included.
    #[tactic(auto, using(crate::proofs::LayoutRowRefs::lent_glyphs))]
    pub fn picture(&self) -> Result<RowPicture<'a>, OutOfMemory>
        ensures picture { IfOk result (λ p. map glyph_of p.glyphs.items ≡ row_glyphs (D.data self.now.tables.now) self.now.paragraph.now.w (row self.now)) }
        ensures glyphs { IfOk result (λ p. All (λ g. is_one_glyph (cow_str_bytes g.text) ≡ true) p.glyphs.items) }
        ensures widths { IfOk result (λ p. All (λ g. run_width (cow_str_bytes g.text) ≡ g.columns) p.glyphs.items) }
        ensures columns { IfOk result (λ p. sum_by (λ g. g.columns) p.glyphs.items ≡ self.now.paragraph.now.w) }
    {
        let alloc = self.paragraph.allocator();
        // The proof compares the picture, so it has a name.
        let picture = self
            .paragraph
            .lines(self.tables)
            .picture(alloc, self.number)?;
        Ok(picture)
    }

    /// The glyphs of the row's units from left to right, without the row's blanks.
    #[tactic(auto, using(crate::proofs::LentGlyphs::lent_own_glyphs))]
    pub fn own_glyphs(&self) -> Result<RowPicture<'a>, OutOfMemory>
        ensures picture { IfOk result (λ p. map glyph_of p.glyphs.items ≡ row_own_glyphs (D.data self.now.tables.now) self.now.paragraph.now.w (row self.now)) }
        ensures glyphs { IfOk result (λ p. All (λ g. is_one_glyph (cow_str_bytes g.text) ≡ true) p.glyphs.items) }
        ensures widths { IfOk result (λ p. All (λ g. run_width (cow_str_bytes g.text) ≡ g.columns) p.glyphs.items) }
    {
        let alloc = self.paragraph.allocator();
        // The proof compares the picture, so it has a name.
        let picture = self
            .paragraph
            .lines(self.tables)
            .own_glyphs(alloc, self.number)?;
        Ok(picture)
    }
}
