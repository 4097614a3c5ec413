//! The picture of a plain row, in which each unit is one character of one column: the fast way of most rows.
ghost use Rattle.std.specs.Prelude.{◌≡◌, ◌≤◌, ◌<◌, ◌-◌, ◌++◌, All, IfOk, IfSome, List, OnOk, ℕ, drop, encode_utf8_all, length, map, slice_index_or, sum_by, true};
ghost use Rattle.std.specs.Cow.{cow_str_bytes};
ghost use Rattle.bx_common.specs.Glyphs.{is_one_glyph, run_width};
ghost use Rattle.bx_rows.specs.Lines.{glyphs_at};
ghost use Rattle.bx_rows.specs.PlainRows.{char_forms, leveled_glyphs, single_glyph};
ghost use Rattle.bx_rows.specs.RowPicture.{blank};
ghost use Rattle.bx_rows.specs.RowStarts.{StartsRow};
ghost use Rattle.bx_rows.specs.Shown.{glyph_of};
ghost use Rattle.bx_rows.specs.RowLevels.{visual};

use crate::drawn::{Drawn, RowPicture};
use crate::glyphs::with_blanks;
use crate::joined_text::join_odd;
use crate::lines::Lines;
use crate::mirrors::mirror_and_may_join;
use crate::row_part::{most_units, start_of};
use crate::start_search::RowStart;
use crate::visual_order::reorder;
use bx_common::OutOfMemory;
use bx_ucd::BidiData;
use std::alloc::{AllocError, Global};

/// Mirrors and joins the glyphs at odd levels, each of a single letter of the row that starts at `start`.
fn show_levels<D: BidiData>(
    glyphs: &mut [Drawn<'_>],
    alloc: Global,
    levels: &[u8],
    start: RowStart,
    lines: &Lines<'_, '_, D>,
) -> Result<(), AllocError>
    requires count { length glyphs.old ≡ length levels.now }
    requires start { StartsRow lines.now.body.now start }
    ensures count { length glyphs.new ≡ length glyphs.old }
    ensures shown { (cs rest : List ℕ) → drop start.offset lines.now.body.now ≡ encode_utf8_all cs ++ rest
        → map glyph_of glyphs.old ≡ map single_glyph cs → OnOk result (map glyph_of glyphs.new
        ≡ leveled_glyphs (D.data lines.now.tables.now) lines.now.w cs levels.now
        (char_forms (D.data lines.now.tables.now) lines.now.body.now lines.now.levels.now.each.items start.chars cs)) }
{
    if !mirror_and_may_join(glyphs, alloc, levels, lines.tables, lines.w)? {
        return Ok(());
    }
    join_odd(glyphs, alloc, levels, start, lines)
}

/// The glyphs of the plain row that starts at `start` in visual order, mirrored and joined at odd levels.
fn arranged<'a, D: BidiData>(
    alloc: Global,
    glyphs: Vec<Drawn<'a>>,
    levels: &[u8],
    start: RowStart,
    lines: &Lines<'_, '_, D>,
) -> Result<Vec<Drawn<'a>>, AllocError>
    requires levels { length levels.now ≡ length glyphs.items }
    requires start { StartsRow lines.now.body.now start }
    ensures count { IfOk result (λ v. length v.items ≡ length glyphs.entry.items) }
    ensures order { (cs rest : List ℕ) → drop start.offset lines.now.body.now ≡ encode_utf8_all cs ++ rest
        → map glyph_of glyphs.entry.items ≡ map single_glyph cs → IfOk result (λ v. map glyph_of v.items
        ≡ map (λ k. slice_index_or (leveled_glyphs (D.data lines.now.tables.now) lines.now.w cs levels.now
        (char_forms (D.data lines.now.tables.now) lines.now.body.now lines.now.levels.now.each.items start.chars cs)) k blank)
        (visual levels.now)) }
{
    let mut glyphs = glyphs;
    show_levels(&mut glyphs, alloc, levels, start, lines)?;
    reorder(&mut glyphs, levels);
    Ok(glyphs)
}

/// The columns of a window that `count` glyphs of one column each leave free.
fn columns_left(w: u16, count: usize) -> u16
    requires { count ≤ w }
    ensures { result ≡ w - count }
{
    w - count as u16
}

impl<'a, 't, D: BidiData> Lines<'a, 't, D> {
    /// The picture of row `number`, from 0, if each of its units is one character of one column; None for other rows.
    pub(crate) fn plain_picture(
        &self,
        alloc: Global,
        number: usize,
    ) -> Result<Option<RowPicture<'a>>, OutOfMemory>
        requires { number < length self.now.starts.now }
        ensures picture { IfOk result (λ o. IfSome o (λ p. map glyph_of p.glyphs.items ≡ glyphs_at self.now number)) }
        ensures glyphs { IfOk result (λ o. IfSome o (λ p. All (λ g. is_one_glyph (cow_str_bytes g.text) ≡ true) p.glyphs.items)) }
        ensures widths { IfOk result (λ o. IfSome o (λ p. All (λ g. run_width (cow_str_bytes g.text) ≡ g.columns) p.glyphs.items)) }
        ensures columns { IfOk result (λ o. IfSome o (λ p. sum_by (λ g. g.columns) p.glyphs.items ≡ self.now.w)) }
    {
        let w = self.w;
        let start = self.starts[number];
        let count = most_units(start, start_of(self.starts, number + 1), self.body, w);
        let Some((found, levels)) = self.plain_row(alloc, start, count)? else {
            return Ok(None);
        };
        let glyphs = arranged(alloc, found, &levels, start, self)?;
        let blanks = columns_left(w, glyphs.len());
        let glyphs = with_blanks(alloc, glyphs, blanks, self.levels.paragraph)?;
        Ok(Some(RowPicture { glyphs }))
    }
}
