//! Lists of columns: filling them, and putting glyphs over them, for grids and for the terminal's model. Indices count
//! columns from 0.

ghost use Rattle.std.specs.Prelude.{◌≡◌, ◌+◌, ◌≤◌, length, replicate, ◌-◌, ◌*◌, ◌<◌};
ghost use Rattle.std.specs.Prelude.{true, ◌&&◌, false, IfOk, IsOk, OnOk, OnErr, IsTrue};
ghost use Rattle.std.specs.Prelude.{◌↔◌};
ghost use Rattle.std.specs.List.{list_all};
ghost use Rattle.bx_grid.specs.Columns.{are_ascii_printable, blank, is_blank, put};
ghost use Rattle.bx_grid.specs.Grid.{AreBlank, AreSameAround, paste};
ghost use Rattle.bx_grid.specs.Columns.{glyph_columns, plain_columns, run_columns};
ghost use Rattle.bx_grid.specs.Seen.{seen, all_seen};

use crate::column::Column;
use crate::glyph_run::GlyphRun;
use crate::glyph_text::{GlyphText, SHORT};
use bx_common::are_ascii_printable;
use std::alloc::{AllocError, Global};

/// A blank.
fn blank_column() -> Column
    ensures { seen result ≡ blank }
{
    Column::of_byte(b' ', false)
}

/// `count` blanks.
pub(crate) fn blank_columns(alloc: Global, count: usize) -> Result<Vec<Column>, AllocError>
    ensures { IfOk result (λ columns. all_seen columns.items ≡ replicate count blank) }
{
    let mut columns = Vec::with_capacity(alloc, count)?;
    for _ in 0..count {
        columns.push_reserved(blank_column());
    }
    Ok(columns)
}

/// Fills the columns from the index `from` up to `to`, without it, with blanks.
pub fn fill_blank(columns: &mut [Column], from: usize, to: usize)
    requires order { from ≤ to }
    requires inside { to ≤ length columns.old }
    ensures { all_seen columns.new ≡ paste (all_seen columns.old) from (replicate (to - from) blank) }
{
    for index in from..to {
        columns[index] = blank_column();
    }
}

/// Puts a run of characters from SPACE to TILDE, each a glyph, from the index `from` on.
fn put_run(columns: &mut [Column], from: usize, run: &[u8], negative: bool)
    requires inside { from + length run.now ≤ length columns.old }
    requires printable { are_ascii_printable run.now ≡ true }
    ensures { all_seen columns.new ≡ paste (all_seen columns.old) from (plain_columns negative run.now) }
{
    for (i, byte) in run.iter().enumerate() {
        columns[from + i] = Column::of_byte(*byte, negative);
    }
}

/// Puts a run that is one glyph. If memory runs out, part of the glyph is written, and nothing else.
fn put_glyph(
    alloc: Global,
    columns: &mut [Column],
    from: usize,
    glyph: GlyphRun<'_>,
) -> Result<(), AllocError>
    requires inside { from + glyph.width ≤ length columns.old }
    ensures ok { OnOk result (all_seen columns.new ≡ paste (all_seen columns.old) from (glyph_columns glyph.entry.text.now glyph.entry.width glyph.entry.negative)) }
    ensures short { length glyph.entry.text.now ≤ 7 → IsOk result }
    ensures err { OnErr result (AreSameAround from glyph.entry.width (all_seen columns.old) (all_seen columns.new)) }
{
    let (text, count, negative) = (glyph.text, glyph.width, glyph.negative);
    for offset in 0..count {
        columns[from + offset as usize] = Column::Glyph {
            text: GlyphText::from_str(alloc, text)?,
            columns: count,
            offset,
            negative,
        };
    }
    Ok(())
}

/// Puts a run. If memory runs out, part of the run is written, and nothing else.
#[inline(always)]
pub fn put_glyphs(
    alloc: Global,
    columns: &mut [Column],
    from: usize,
    run: GlyphRun<'_>,
) -> Result<(), AllocError>
    requires inside { from + run.width ≤ length columns.old }
    ensures ok { OnOk result (all_seen columns.new ≡ paste (all_seen columns.old) from (run_columns run.entry.negative run.entry.text.now)) }
    ensures short { length run.entry.text.now ≤ 7 → IsOk result }
    ensures err { OnErr result (AreSameAround from run.entry.width (all_seen columns.old) (all_seen columns.new)) }
{
    if run.width == 1 && run.text.len() <= SHORT {
        columns[from] = Column::narrow(run.text, run.negative);
        return Ok(());
    }
    if are_ascii_printable(run.text) {
        put_run(columns, from, run.text.as_bytes(), run.negative);
        return Ok(());
    }
    put_glyph(alloc, columns, from, run)
}

/// Whether all columns are blanks.
#[tactic(auto, using(crate::proofs::Blanks::blanks_told))]
pub(crate) fn are_blank(columns: &[Column]) -> bool
    ensures { IsTrue result ↔ (all_seen columns.now ≡ replicate (length columns.now) blank) }
{
    all_blank(columns)
}

/// Whether all columns are blanks: the loop of `are_blank`.
fn all_blank(columns: &[Column]) -> bool
    ensures { result ≡ list_all is_blank (all_seen columns.now) }
{
    for column in columns {
        if !column.is_blank() {
            return false;
        }
    }
    true
}

/// Puts a run over blanks, from the index `from` on. If memory runs out, its columns are blanks again.
pub(crate) fn put_over_blanks(
    alloc: Global,
    columns: &mut [Column],
    from: usize,
    run: GlyphRun<'_>,
) -> Result<(), AllocError>
    requires inside { from + run.width ≤ length columns.old }
    requires blank { AreBlank from run.width (all_seen columns.old) }
    ensures ok { OnOk result (all_seen columns.new ≡ paste (all_seen columns.old) from (run_columns run.entry.negative run.entry.text.now)) }
    ensures short { length run.entry.text.now ≤ 7 → IsOk result }
    ensures err { OnErr result (all_seen columns.new ≡ all_seen columns.old) }
{
    let put = put_glyphs(alloc, columns, from, run);
    if put.is_err() {
        fill_blank(columns, from, from + run.width as usize);
    }
    put
}
