//! Lists of columns, some of them unknown, as the terminal (`Live`) changes them: filling them, putting glyphs, and
//! forgetting the rest of an overwritten glyph. Indices count columns from 0.

ghost use Rattle.std.specs.Prelude.{◌≡◌, ◌+◌, ◌≤◌, length, take, drop, replicate, ◌-◌, ◌*◌, ◌<◌};
ghost use Rattle.std.specs.Prelude.{◌&&◌, IfOk, OnOk, OnErr};
ghost use Rattle.bx_grid.specs.Columns.{blank, put, put_in_row, cut_before};
ghost use Rattle.bx_grid.specs.Columns.{cut_after, columns_after, columns_before, run_columns};
ghost use Rattle.bx_grid.specs.Columns as spec;
ghost use Rattle.bx_grid.specs.Seen.{seen, all_seen};
ghost use Rattle.bx_terminal.specs.Uncut.{AreUncut};
ghost use Rattle.bx_common.specs.Characters.{largest_side};

use bx_grid::{Column, GlyphRun, fill_blank, put_glyphs};
use std::alloc::{AllocError, Global};

/// `count` unknown columns.
pub(crate) fn unknown_columns(alloc: Global, count: usize) -> Result<Vec<Column>, AllocError>
    ensures { IfOk result (λ columns. all_seen columns.items ≡ replicate count spec.Unknown) }
{
    let mut columns = Vec::with_capacity(alloc, count)?;
    for _ in 0..count {
        columns.push_reserved(Column::Unknown);
    }
    Ok(columns)
}

/// Makes all columns unknown.
pub(crate) fn fill_unknown(columns: &mut [Column])
    ensures { all_seen columns.new ≡ replicate (length columns.old) spec.Unknown }
{
    for column in columns.iter_mut() {
        *column = Column::Unknown;
    }
}

/// The number of columns that the column's glyph has after this one; 0 if the column is unknown.
fn columns_after(column: &Column) -> u16
    ensures { result ≡ columns_after (seen column.now) }
{
    match column {
        Column::Unknown => 0,
        Column::Glyph {
            columns,
            offset,
            ..
        } => columns.saturating_sub(*offset).saturating_sub(1),
    }
}

/// The number of columns that the column's glyph has before this one; 0 if the column is unknown.
fn columns_before(column: &Column) -> u16
    ensures { result ≡ columns_before (seen column.now) }
{
    match column {
        Column::Unknown => 0,
        Column::Glyph { offset, .. } => *offset,
    }
}

/// Makes the column unknown.
fn forget(column: &mut Column)
    ensures { seen column.new ≡ spec.Unknown }
{
    *column = Column::Unknown;
}

/// Makes a glyph that reaches past these columns, the part of a row before a run, unknown. Reads only its columns and the
/// one before them.
fn forget_left(row: &mut [Column])
    requires { AreUncut (all_seen row.old) }
    ensures { all_seen row.new ≡ cut_before (all_seen row.old) }
{
    let count = row.len();
    let mut first = count;
    while first > 0 && (columns_after(&row[first - 1]) as usize) > count - first {
        first -= 1;
        forget(&mut row[first]);
    }
}

/// Makes a glyph that began before these columns, the part of a row after a run, unknown. Reads only its columns and the one
/// after them.
fn forget_right(row: &mut [Column])
    requires { AreUncut (all_seen row.old) }
    ensures { all_seen row.new ≡ cut_after 0 (all_seen row.old) }
{
    let mut next = 0;
    while next < row.len() && (columns_before(&row[next]) as usize) > next {
        forget(&mut row[next]);
        next += 1;
    }
}

/// Puts a run in a row, from the column `from` on. If memory runs out, part of it is written.
fn show_in_row(
    alloc: Global,
    row: &mut [Column],
    from: usize,
    run: GlyphRun<'_>,
) -> Result<(), AllocError>
    requires uncut { AreUncut (all_seen row.old) }
    requires inside { from + run.width ≤ length row.old }
    ensures { OnOk result (all_seen row.new ≡ put_in_row (all_seen row.old) from (run_columns run.entry.negative run.entry.text.now)) }
{
    forget_left(&mut row[..from]);
    forget_right(&mut row[from + run.width as usize..]);
    put_glyphs(alloc, row, from, run)
}

/// Blanks a row from the column `from` on.
pub(crate) fn erase_in_row(row: &mut [Column], from: usize)
    requires uncut { AreUncut (all_seen row.old) }
    requires inside { from ≤ length row.old }
    ensures { all_seen row.new ≡ put_in_row (all_seen row.old) from (replicate (length row.old - from) blank) }
{
    forget_left(&mut row[..from]);
    let count = row.len();
    fill_blank(row, from, count);
}

/// Puts a run in one row, counted from 0, of a grid's columns, `width` of them in a row. If memory runs out, all columns
/// become unknown.
pub(crate) fn show_at(
    alloc: Global,
    columns: &mut [Column],
    width: usize,
    row: usize,
    from: usize,
    run: GlyphRun<'_>,
) -> Result<(), AllocError>
    requires small { (row < largest_side) × (width ≤ largest_side) }
    requires rows { row * width + width ≤ length columns.old }
    requires uncut { AreUncut (take width (drop (row * width) (all_seen columns.old))) }
    requires inside { from + run.width ≤ width }
    ensures ok { OnOk result (all_seen columns.new ≡ put width (all_seen columns.old) row from (run_columns run.entry.negative run.entry.text.now)) }
    ensures err { OnErr result (all_seen columns.new ≡ replicate (length columns.old) spec.Unknown) }
{
    let start = row * width;
    let shown = show_in_row(alloc, &mut columns[start..start + width], from, run);
    if shown.is_err() {
        fill_unknown(columns);
    }
    shown
}

/// Blanks one row, counted from 0, from the column `from` on.
pub(crate) fn erase_at(columns: &mut [Column], width: usize, row: usize, from: usize)
    requires small { (row < largest_side) × (width ≤ largest_side) }
    requires rows { row * width + width ≤ length columns.old }
    requires uncut { AreUncut (take width (drop (row * width) (all_seen columns.old))) }
    requires inside { from ≤ width }
    ensures { all_seen columns.new ≡ put width (all_seen columns.old) row from (replicate (width - from) blank) }
{
    let start = row * width;
    erase_in_row(&mut columns[start..start + width], from);
}
