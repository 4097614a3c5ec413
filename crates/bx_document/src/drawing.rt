//! Draws one row of text, or glyphs, as a grid of one row.
ghost use Rattle.std.specs.Prelude.{◌≡◌, ◌≤◌, ◌++◌, ◌-◌, true, All, IfOk, length, map, replicate, sum_by};
ghost use Rattle.std.specs.Cow.{cow_str_bytes};
ghost use Rattle.bx_common.specs.Glyphs.{is_one_glyph, run_width};
ghost use Rattle.bx_common.specs.Characters.{is_side};
ghost use Rattle.bx_grid.specs.Columns.{blank};
ghost use Rattle.bx_rows.specs.Shown.{glyph_of};
ghost use Rattle.bx_view.specs.TextRef.{OfRow, Stands};
ghost use Rattle.bx_document.specs.Drawing.{row_columns, side_by_side};

use bx_common::OutOfMemory;
use bx_grid::{Cell, Grid};
use bx_rows::Drawn;
use bx_ucd::BidiData;
use bx_view::{RowAt, TextRef, View};
use std::alloc::Global;

/// Draws glyphs into the only row of a grid of `width` columns, from its left end, and fills the row with blanks. The glyphs
/// must fit.
pub(crate) fn draw_glyphs(
    alloc: Global,
    glyphs: &[Drawn<'_>],
    width: u16,
) -> Result<Grid, OutOfMemory>
    requires side { is_side width ≡ true }
    requires glyphs { All (λ g. is_one_glyph (cow_str_bytes g.text) ≡ true) glyphs.now }
    requires widths { All (λ g. run_width (cow_str_bytes g.text) ≡ g.columns) glyphs.now }
    requires room { sum_by (λ g. g.columns) glyphs.now ≤ width }
    ensures row { IfOk result (λ row. row.columns ≡ side_by_side (map glyph_of glyphs.now)
        ++ replicate (width - sum_by (λ g. g.columns) glyphs.now) blank) }
    ensures full { sum_by (λ g. g.columns) glyphs.now ≡ width → IfOk result (λ row. row.columns ≡ side_by_side (map glyph_of glyphs.now)) }
    ensures one { IfOk result (λ row. row.height ≡ 1) }
    ensures wide { IfOk result (λ row. row.width ≡ width) }
{
    let Ok(mut grid) = Grid::blank(alloc, 1, width) else {
        return Err(OutOfMemory);
    };
    let mut column: u16 = 1;
    for glyph in glyphs {
        let cell = Cell { line: 1, column };
        let count = glyph.columns as usize;
        grid.put_counted(cell, glyph.text.as_str(), count, glyph.negative)?;
        column += glyph.columns;
    }
    Ok(grid)
}

/// Draws a row of the text, as a grid of one row.
pub(crate) fn draw_row<D: BidiData>(
    alloc: Global,
    view: &View,
    text_ref: &TextRef<'_, D>,
    at: RowAt,
) -> Result<Grid, OutOfMemory>
    requires row { Stands text_ref.now view.now at }
    ensures drawn { OfRow text_ref.now view.now at (λ r. IfOk result (λ row. row.columns ≡ row_columns (D.data text_ref.now.tables.now) view.now.w r)) }
    ensures filled { IfOk result (λ row. length row.columns ≡ view.now.w) }
    ensures one { IfOk result (λ row. row.height ≡ 1) }
    ensures wide { IfOk result (λ row. row.width ≡ view.now.w) }
{
    let picture = view.picture(text_ref, at)?;
    draw_glyphs(alloc, &picture.glyphs, view.width())
}
