//! The picture of a row laid out: the way of any row that `plain_picture` does not serve.
ghost use Rattle.std.specs.Prelude.{◌≡◌, ◌≤◌, ◌<◌, ◌++◌, [], All, IfOk, OnOk, length, map, flat_map, slice_index_or, sum_by, true};
ghost use Rattle.std.specs.Cow.{cow_str_bytes};
ghost use Rattle.bx_common.specs.Glyphs.{is_one_glyph, run_width};
ghost use Rattle.bx_rows.specs.Lines.{glyphs_at, own_glyphs_at};
ghost use Rattle.bx_rows.specs.RowPicture.{columns_used, draw, own_glyphs, unit_columns, unit_glyphs};
ghost use Rattle.bx_rows.specs.Shown.{glyph_of};

use crate::cells::Unit;
use crate::drawn::{Drawn, RowPicture};
use crate::glyphs::{push_unit, with_blanks};
use crate::place::moved;
use crate::row_layout::RowLayout;
use crate::visual_order::visual;
use crate::wrapping::columns_at;
use bx_common::OutOfMemory;
use bx_ucd::BidiData;
use std::alloc::{AllocError, Global};

/// The columns of each unit of a row in a window of `w` columns, and their sum.
pub fn unit_columns(alloc: Global, units: &[Unit], w: u16) -> Result<(Vec<u16>, u16), AllocError>
    requires { columns_used w units.now ≤ w }
    ensures columns { IfOk result (λ r. r.0.items ≡ unit_columns w 0 units.now) }
    ensures count { IfOk result (λ r. length r.0.items ≡ length units.now) }
    ensures used { IfOk result (λ r. r.1 ≡ columns_used w units.now) }
{
    let mut columns = Vec::with_capacity(alloc, units.len())?;
    let mut c = 0;
    for unit in units {
        let own = columns_at(w, c, unit.face);
        columns.push(own)?;
        c += own;
    }
    Ok((columns, c))
}

/// Appends the glyphs of a row's units in the given order of their numbers. `columns`: those of each unit, in text order.
fn push_units<'a, D: BidiData>(
    glyphs: &mut Vec<Drawn<'a>>,
    alloc: Global,
    row: &RowLayout<'a, '_, D>,
    columns: &[u16],
    order: &[usize],
) -> Result<(), AllocError>
    requires columns { length columns.now ≡ length row.now.units.items }
    requires order { All (λ k. k < length row.now.units.items) order.now }
    ensures { OnOk result (map glyph_of glyphs.new.items ≡ map glyph_of glyphs.old.items
        ++ flat_map (λ k. slice_index_or (unit_glyphs (D.data row.now.lines.tables.now) row.now.lines.w row.now.lines.body.now
        row.now.lines.levels.now.each.items row.now.units.items columns.now row.now.levels.items) k []) order.now) }
{
    let units = row.units.as_slice();
    let first = row.lines.start(row.number);
    // The characters before each unit are counted from the unit before it in this order, which is mostly its neighbour.
    let mut near = row.lines.place(first);
    for number in order {
        near = moved(near, units[*number].start);
        push_unit(glyphs, alloc, row, columns, *number, near)?;
    }
    Ok(())
}

/// The glyphs of a row's units in visual order, and the number of their columns.
fn unit_row<'a, D: BidiData>(
    alloc: Global,
    row: &RowLayout<'a, '_, D>,
) -> Result<(Vec<Drawn<'a>>, u16), OutOfMemory>
    ensures glyphs { IfOk result (λ r. map glyph_of r.0.items ≡ own_glyphs (D.data row.now.lines.tables.now) row.now.lines.w
        row.now.lines.body.now row.now.lines.levels.now.each.items row.now.units.items row.now.levels.items) }
    ensures used { IfOk result (λ r. r.1 ≡ columns_used row.now.lines.w row.now.units.items) }
{
    let w = row.lines.w;
    let (columns, used) = unit_columns(alloc, &row.units, w)?;
    let order = visual(alloc, &row.levels)?;
    let mut glyphs = Vec::with_capacity(alloc, w as usize)?;
    push_units(&mut glyphs, alloc, row, &columns, &order)?;
    Ok((glyphs, used))
}

/// The glyphs of a row's units in visual order, and its blanks: at the right in a paragraph of even level, else at the left.
fn row_glyphs<'a, D: BidiData>(
    alloc: Global,
    row: &RowLayout<'a, '_, D>,
) -> Result<Vec<Drawn<'a>>, OutOfMemory>
    ensures { IfOk result (λ v. map glyph_of v.items ≡ draw (D.data row.now.lines.tables.now) row.now.lines.w
        row.now.lines.body.now row.now.lines.levels.now.paragraph row.now.lines.levels.now.each.items row.now.units.items
        row.now.levels.items) }
{
    let (glyphs, used) = unit_row(alloc, row)?;
    let blanks = row.lines.w - used;
    Ok(with_blanks(alloc, glyphs, blanks, row.lines.levels.paragraph)?)
}

impl<'a, 't, D: BidiData> RowLayout<'a, 't, D> {
    /// The row's glyphs from left to right, blanks included.
    pub fn picture(&self, alloc: Global) -> Result<RowPicture<'a>, OutOfMemory>
        ensures picture { IfOk result (λ p. map glyph_of p.glyphs.items ≡ glyphs_at self.now.lines self.now.number) }
        ensures glyphs { IfOk result (λ p. All (λ g. is_one_glyph (cow_str_bytes g.text) ≡ true) p.glyphs.items) }
        ensures widths { IfOk result (λ p. All (λ g. run_width (cow_str_bytes g.text) ≡ g.columns) p.glyphs.items) }
        ensures columns { IfOk result (λ p. sum_by (λ g. g.columns) p.glyphs.items ≡ self.now.lines.w) }
    {
        let glyphs = row_glyphs(alloc, self)?;
        Ok(RowPicture { glyphs })
    }

    /// The glyphs of the row's units from left to right, without the row's blanks.
    pub fn own_glyphs(&self, alloc: Global) -> Result<RowPicture<'a>, OutOfMemory>
        ensures picture { IfOk result (λ p. map glyph_of p.glyphs.items ≡ own_glyphs_at self.now.lines self.now.number) }
        ensures glyphs { IfOk result (λ p. All (λ g. is_one_glyph (cow_str_bytes g.text) ≡ true) p.glyphs.items) }
        ensures widths { IfOk result (λ p. All (λ g. run_width (cow_str_bytes g.text) ≡ g.columns) p.glyphs.items) }
    {
        let (glyphs, _) = unit_row(alloc, self)?;
        Ok(RowPicture { glyphs })
    }
}
