//! The position of a place in its row and its paragraph.
ghost use Rattle.std.specs.Prelude.{◌≡◌, ◌-◌, ◌≤◌, IfOk};
ghost use Rattle.bx_text.specs.index.Paragraphs.{lengths, paragraph_of};
ghost use Rattle.bx_view.specs.Numbers.{unit_number};
ghost use Rattle.bx_view.specs.Position.{IsPosition};
ghost use Rattle.bx_view.specs.TextRef.{IsViewBy, Keeps, StandsOn, bytes, rows};
ghost use Rattle.bx_view.specs.TextRows.{cell_of, row_of};

use crate::in_row::RowAt;
use crate::moves::reads_on;
use crate::text_ref::TextRef;
use crate::view::View;
use bx_common::OutOfMemory;
use bx_paragraph::Visual;
use bx_ucd::BidiData;

/// The position of a place. Its numbers count from 1.
#[derive(Clone, Copy)]
pub struct Position {
    /// The column of the place's cell.
    pub column: u16,
    /// The number of the place's paragraph.
    pub paragraph: usize,
    /// The number of the place's unit in the paragraph.
    pub unit: usize,
    /// Whether the paragraph is read from right to left.
    pub is_rtl: bool,
}

impl View {
    /// The position of a place in its row, `at`.
    pub(crate) fn position<D: BidiData>(
        &self,
        text_ref: &TextRef<'_, D>,
        at: RowAt,
        place: usize,
    ) -> Result<Position, OutOfMemory>
        requires row { StandsOn text_ref.now self.now at (row_of (rows text_ref.now self.now) place) }
        requires paragraph { at.paragraph ≡ paragraph_of (lengths (D.data text_ref.now.tables.now) (bytes text_ref.now)) place }
        requires order { at.start ≤ place }
        ensures { IfOk result (IsPosition (D.data text_ref.now.tables.now) self.now.w (bytes text_ref.now) (rows text_ref.now self.now) place) }
    {
        // `count` promises that the number of paragraphs is a `usize`.
        let _count = text_ref.index.count();
        let row = self.row(text_ref, at);
        let standing = row.standing(place - at.start)?;
        let is_rtl = reads_on(&row, Visual::Left);
        Ok(Position {
            column: standing.column,
            paragraph: at.paragraph + 1,
            unit: row.paragraph.units_ahead(at.row) + standing.units_before + 1,
            is_rtl,
        })
    }

    /// How many units of its paragraph stand before a place.
    pub fn units_in_line<D: BidiData>(
        &mut self,
        text_ref: &TextRef<'_, D>,
        place: usize,
    ) -> Result<usize, OutOfMemory>
        requires data { IsViewBy text_ref.now self.old }
        ensures keeps { Keeps text_ref.now self.old self.new }
        ensures units { IfOk result (λ n. n ≡ unit_number (D.data text_ref.now.tables.now) (bytes text_ref.now) place - 1) }
    {
        let at = self.row_at(text_ref, place)?;
        let position = self.position(text_ref, at, place)?;
        Ok(position.unit - 1)
    }

    /// The column, from 1, of the cell of a place.
    pub fn cell_of<D: BidiData>(
        &mut self,
        text_ref: &TextRef<'_, D>,
        place: usize,
    ) -> Result<u16, OutOfMemory>
        requires data { IsViewBy text_ref.now self.old }
        ensures keeps { Keeps text_ref.now self.old self.new }
        ensures cell { IfOk result (λ column. column ≡ cell_of self.old.w (rows text_ref.now self.old) place) }
        ensures inside { IfOk result (λ column. (1 ≤ column) × (column ≤ self.old.w)) }
    {
        let at = self.row_at(text_ref, place)?;
        let position = self.position(text_ref, at, place)?;
        Ok(position.column)
    }
}
