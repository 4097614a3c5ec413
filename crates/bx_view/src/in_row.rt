//! Rows of the text, and the handles by which a view finds them.
ghost use Rattle.std.specs.Prelude.{◌≡◌};
ghost use Rattle.bx_view.specs.Placed.{columns, placed};
ghost use Rattle.bx_view.specs.TextRef.{IsOfText, OfRow, Stands};
ghost use Rattle.bx_view.specs.TextRows.{first};

use crate::text_ref::TextRef;
use crate::view::View;
use bx_paragraph::LayoutRowRef;
use bx_ucd::BidiData;

/// A row of a text, found by a view. It is valid until that view searches for another row.
#[derive(Clone, Copy)]
pub struct RowAt {
    /// The number of the row's paragraph, from 0.
    pub paragraph: usize,
    /// The offset, in bytes of the text, at which that paragraph's body begins.
    pub start: usize,
    /// The row's number in the paragraph, from 0.
    pub row: usize,
    /// The index of the cached paragraph.
    pub cached: usize,
}

impl View {
    /// Lends a row with its paragraph and tables.
    pub fn row<'t, D: BidiData>(
        &self,
        text_ref: &TextRef<'t, D>,
        at: RowAt,
    ) -> LayoutRowRef<'_, 't, D>
        requires row { Stands text_ref.now self.now at }
        ensures start { result.start ≡ at.start }
        ensures columns { columns result ≡ self.now.w }
        ensures number { result.number ≡ at.row }
        ensures tables { result.tables.now ≡ text_ref.now.tables.now }
        ensures paragraph { IsOfText text_ref.now self.now at.paragraph result.paragraph.now }
        ensures row { OfRow text_ref.now self.now at (λ r. placed result ≡ r) }
    {
        let paragraph = self.paragraph(text_ref, at.paragraph, at.cached);
        LayoutRowRef {
            paragraph,
            tables: text_ref.tables,
            number: at.row,
            start: at.start,
        }
    }

    /// The offset at which a row begins, in bytes of the text.
    pub fn first_in<D: BidiData>(&self, text_ref: &TextRef<'_, D>, at: RowAt) -> usize
        requires row { Stands text_ref.now self.now at }
        ensures { OfRow text_ref.now self.now at (λ r. result ≡ first r) }
    {
        let paragraph = self.paragraph(text_ref, at.paragraph, at.cached);
        at.start + paragraph.first(at.row)
    }
}
