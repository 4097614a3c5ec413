//! The levels and the picture of one row, by its number in the body.
ghost use Rattle.std.specs.Prelude.{◌≡◌, ◌<◌, All, IfOk, length, map, sum_by, true};
ghost use Rattle.std.specs.Cow.{cow_str_bytes};
ghost use Rattle.bx_common.specs.Glyphs.{is_one_glyph, run_width};
ghost use Rattle.bx_rows.specs.cells.UnitFacts.{StandsIn};
ghost use Rattle.bx_rows.specs.Lines.{glyphs_at, levels_of, own_glyphs_at, units_at};
ghost use Rattle.bx_rows.specs.Shown.{glyph_of};

use crate::cells::Unit;
use crate::drawn::RowPicture;
use crate::lines::Lines;
use crate::row_layout::RowLayout;
use crate::unit_levels::each_level;
use bx_common::OutOfMemory;
use bx_ucd::BidiData;
use std::alloc::Global;

impl<'a, 't, D: BidiData> Lines<'a, 't, D> {
    /// The levels of the units of row `number`, from 0, by L1. `units`: the row's, as `units` returns them.
    #[tactic(auto, using(crate::proofs::Resets::one_each))]
    pub fn levels(
        &self,
        alloc: Global,
        number: usize,
        units: &[Unit],
    ) -> Result<Vec<u8>, OutOfMemory>
        requires number { number < length self.now.starts.now }
        requires stand { All (StandsIn self.now.body.now) units.now }
        requires units { units.now ≡ units_at self.now number }
        ensures levels { IfOk result (λ v. v.items ≡ levels_of self.now units.now) }
        ensures one_each { IfOk result (λ v. length v.items ≡ length units.now) }
    {
        let chars = self.starts[number].chars;
        Ok(each_level(alloc, self.body, units, chars, self.levels, self.tables)?)
    }

    /// Row `number`, from 0, laid out. Reads no other row.
    pub fn row(&self, alloc: Global, number: usize) -> Result<RowLayout<'a, 't, D>, OutOfMemory>
        requires { number < length self.now.starts.now }
        ensures lines { IfOk result (λ r. r.lines ≡ self.now) }
        ensures number { IfOk result (λ r. r.number ≡ number) }
    {
        let units = self.units(alloc, number)?;
        let levels = self.levels(alloc, number, &units)?;
        Ok(RowLayout {
            lines: *self,
            number,
            units,
            levels,
        })
    }

    /// The glyphs of row `number`, from 0, from left to right, blanks included. Reads no other row.
    pub fn picture(&self, alloc: Global, number: usize) -> Result<RowPicture<'a>, OutOfMemory>
        requires { number < length self.now.starts.now }
        ensures picture { IfOk result (λ p. map glyph_of p.glyphs.items ≡ glyphs_at self.now number) }
        ensures glyphs { IfOk result (λ p. All (λ g. is_one_glyph (cow_str_bytes g.text) ≡ true) p.glyphs.items) }
        ensures widths { IfOk result (λ p. All (λ g. run_width (cow_str_bytes g.text) ≡ g.columns) p.glyphs.items) }
        ensures columns { IfOk result (λ p. sum_by (λ g. g.columns) p.glyphs.items ≡ self.now.w) }
    {
        if let Some(found) = self.plain_picture(alloc, number)? {
            return Ok(found);
        }
        let row = self.row(alloc, number)?;
        row.picture(alloc)
    }

    /// The glyphs of the units of row `number`, from 0, from left to right, without the row's blanks. Reads no other row.
    pub fn own_glyphs(&self, alloc: Global, number: usize) -> Result<RowPicture<'a>, OutOfMemory>
        requires { number < length self.now.starts.now }
        ensures picture { IfOk result (λ p. map glyph_of p.glyphs.items ≡ own_glyphs_at self.now number) }
        ensures glyphs { IfOk result (λ p. All (λ g. is_one_glyph (cow_str_bytes g.text) ≡ true) p.glyphs.items) }
        ensures widths { IfOk result (λ p. All (λ g. run_width (cow_str_bytes g.text) ≡ g.columns) p.glyphs.items) }
    {
        let row = self.row(alloc, number)?;
        row.own_glyphs(alloc)
    }
}
