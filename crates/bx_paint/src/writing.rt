//! Writes the bytes of a painting: what of two grids differs. Rows and columns count from 0, and are below 65535, so that
//! the numbers of a move, counted from 1, fit in 16 bits. `negative` and `pen` are the state before; a returned bool is the
//! rendition after, a returned `Pen` the state after.

ghost use Rattle.std.specs.Prelude.{◌≡◌, ℕ, ◌+◌, ◌*◌, ◌<◌, ◌≤◌, ◌^◌, [], ◌∷◌, ◌++◌, length, true};
ghost use Rattle.std.specs.Prelude.{false, IfOk, OnOk, OnErr, string_bytes, take, drop, replicate};
ghost use Rattle.bx_grid.specs.Columns.{blank, are_equal};
ghost use Rattle.bx_grid.specs.Seen.{seen, all_seen};
ghost use Rattle.bx_paint.specs.Painting as spec;
ghost use Rattle.bx_paint.specs.Painting.{move_bytes, render_change, glyph_bytes, before_tail, leading_blanks, column_sent, columns_sent, tail_sent, row_sent};
ghost use Rattle.bx_paint.specs.Painting.{rows_sent};

use crate::numbers::{write_column_number, write_line_number};
use crate::output::Output;
use bx_grid::{Column, GlyphText, Grid, GridRowRef};
use std::alloc::AllocError;

/// Moves the cursor to a row and a column, from 0.
pub fn write_move(out: &mut Output, row: u16, column: u16) -> Result<(), AllocError>
    requires small { (row < 65535) × (column < 65535) }
    ensures bytes { OnOk result (out.new.painting ≡ out.old.painting ++ move_bytes row column) }
    ensures before { out.new.before ≡ out.old.before }
{
    write_line_number(out, row + 1)?;
    write_column_number(out, column + 1)
}

/// Changes the rendition from one to the other, if they differ; true is negative.
pub fn write_rendition(out: &mut Output, from: bool, to: bool) -> Result<(), AllocError>
    ensures bytes { OnOk result (out.new.painting ≡ out.old.painting ++ render_change from to) }
    ensures before { out.new.before ≡ out.old.before }
{
    if from == to {
        return Ok(());
    }
    if to {
        out.append(b"\x1b[7m")
    } else {
        out.append(b"\x1b[0m")
    }
}

/// The state between two glyphs of a row.
#[derive(Clone, Copy)]
struct Pen {
    /// A character from SPACE to TILDE was sent for the column before, so that another such character needs no move.
    near: bool,
    /// The rendition.
    negative: bool,
}

/// Sends a glyph whose rendition is `negative`.
fn write_glyph(
    out: &mut Output,
    row: u16,
    column: u16,
    pen: Pen,
    text: &GlyphText,
    negative: bool,
) -> Result<(), AllocError>
    requires small { (row < 65535) × (column < 65535) }
    ensures bytes { OnOk result (out.new.painting ≡ out.old.painting ++ glyph_bytes row column pen.near pen.negative text.now negative) }
    ensures before { out.new.before ≡ out.old.before }
{
    if !(pen.near && text.is_ascii_glyph()) {
        write_move(out, row, column)?;
    }
    write_rendition(out, pen.negative, negative)?;
    out.append(text.as_bytes())
}

/// Whether the first `count` columns of both are the same, or all if there are fewer. Codes alone often tell that they differ.
fn is_same_front(old: &GridRowRef<'_>, new: &GridRowRef<'_>, count: u16) -> bool
    ensures { result ≡ are_equal (take count old.now) (take count new.now) }
{
    let count = count as usize;
    if count > 0 && old.begins_otherwise(new) {
        return false;
    }
    old.front(count).is_same(&new.front(count))
}

/// Whether the new columns begin with a glyph that differs in some column from the old ones.
fn is_sent(old: &GridRowRef<'_>, new: &GridRowRef<'_>) -> bool
    ensures { result ≡ spec.is_sent old.now new.now }
{
    match new.columns().first() {
        None | Some(Column::Unknown) => false,
        Some(
            Column::Glyph {
                columns,
                offset,
                ..
            },
        ) => *offset == 0 && !is_same_front(old, new, *columns),
    }
}

/// Sends the glyph that begins with the first column, if a column of it differs.
fn write_column(
    out: &mut Output,
    row: u16,
    column: u16,
    pen: Pen,
    old: &GridRowRef<'_>,
    new: &GridRowRef<'_>,
) -> Result<Pen, AllocError>
    requires small { (row < 65535) × (column < 65535) }
    ensures bytes { OnOk result (out.new.painting ≡ out.old.painting ++ (column_sent row column pen.near pen.negative old.now new.now).bytes) }
    ensures before { out.new.before ≡ out.old.before }
    ensures near { IfOk result (λ after. after.near ≡ (column_sent row column pen.near pen.negative old.now new.now).near) }
    ensures rendition { IfOk result (λ after. after.negative ≡ (column_sent row column pen.near pen.negative old.now new.now).negative) }
{
    let sent = is_sent(old, new);
    match new.columns().first() {
        Some(Column::Glyph { text, negative, .. }) if sent => {
            write_glyph(out, row, column, pen, text, *negative)?;
            Ok(Pen {
                near: text.is_ascii_glyph(),
                negative: *negative,
            })
        }
        _ => Ok(Pen {
            near: false,
            negative: pen.negative,
        }),
    }
}

/// Sends the glyph that begins at an index of a row, if a column of it differs.
fn write_at(
    out: &mut Output,
    row: u16,
    index: usize,
    pen: Pen,
    old: &GridRowRef<'_>,
    new: &GridRowRef<'_>,
) -> Result<Pen, AllocError>
    requires small { (row < 65535) × (length new.now < 65535) }
    requires same { length old.now ≡ length new.now }
    requires inside { index < length new.now }
    ensures bytes { OnOk result (out.new.painting ≡ out.old.painting
        ++ (column_sent row index pen.near pen.negative (drop index old.now) (drop index new.now)).bytes) }
    ensures before { out.new.before ≡ out.old.before }
    ensures near { IfOk result (λ after. after.near ≡ (column_sent row index pen.near pen.negative (drop index old.now) (drop index new.now)).near) }
    ensures rendition { IfOk result (λ after. after.negative
        ≡ (column_sent row index pen.near pen.negative (drop index old.now) (drop index new.now)).negative) }
{
    if old.begins_alike(new, index) {
        return Ok(Pen {
            near: false,
            negative: pen.negative,
        });
    }
    write_column(
        out,
        row,
        index as u16,
        pen,
        &old.rest(index),
        &new.rest(index),
    )
}

/// Sends the changed glyphs of a row before its tail. Returns the rendition after them.
fn write_columns(
    out: &mut Output,
    row: u16,
    negative: bool,
    old: &GridRowRef<'_>,
    new: &GridRowRef<'_>,
) -> Result<bool, AllocError>
    requires small { (row < 65535) × (length new.now < 65535) }
    requires same { length old.now ≡ length new.now }
    ensures bytes { OnOk result (out.new.painting ≡ out.old.painting ++ (columns_sent row 0 false negative old.now new.now).bytes) }
    ensures before { out.new.before ≡ out.old.before }
    ensures rendition { IfOk result (λ after. after ≡ (columns_sent row 0 false negative old.now new.now).negative) }
{
    let mut pen = Pen {
        near: false,
        negative,
    };
    let count = new.columns().len();
    for i in 0..count {
        pen = write_at(out, row, i, pen, old, new)?;
    }
    Ok(pen.negative)
}

/// Number of columns before a row's tail, the longest run of blanks at its end.
fn front_len(columns: &[Column]) -> usize
    ensures within { result ≤ length columns.now }
    ensures front { all_seen (take result columns.now) ≡ before_tail (all_seen columns.now) }
{
    let mut len = columns.len();
    while len > 0 && columns[len - 1].is_blank() {
        len -= 1;
    }
    len
}

/// Number of blanks at the front.
fn blanks_len(columns: &[Column]) -> usize
    ensures within { result ≤ length columns.now }
    ensures blanks { result ≡ leading_blanks (all_seen columns.now) }
{
    let mut len = 0;
    for column in columns {
        if !column.is_blank() {
            return len;
        }
        len += 1;
    }
    len
}

/// Erases a row's tail, which begins at `column`, from the first of its old columns that is not blank; sends nothing if all are
/// blank.
fn write_tail(
    out: &mut Output,
    row: u16,
    column: u16,
    negative: bool,
    old: &[Column],
) -> Result<bool, AllocError>
    requires small { (row < 65535) × (column + length old.now < 65535) }
    ensures bytes { OnOk result (out.new.painting ≡ out.old.painting ++ (tail_sent row column negative (all_seen old.now)).bytes) }
    ensures before { out.new.before ≡ out.old.before }
    ensures rendition { IfOk result (λ after. after ≡ (tail_sent row column negative (all_seen old.now)).negative) }
{
    let blanks = blanks_len(old);
    if blanks == old.len() {
        return Ok(negative);
    }
    write_move(out, row, column + blanks as u16)?;
    write_rendition(out, negative, false)?;
    out.append(b"\x1b[0K")?;
    Ok(false)
}

/// Sends the changes of a row, before its tail and in it.
fn write_row(
    out: &mut Output,
    row: u16,
    negative: bool,
    old: &GridRowRef<'_>,
    new: &GridRowRef<'_>,
) -> Result<bool, AllocError>
    requires small { (row < 65535) × (length new.now < 65535) }
    requires same { length old.now ≡ length new.now }
    ensures bytes { OnOk result (out.new.painting ≡ out.old.painting ++ (row_sent row negative old.now new.now).bytes) }
    ensures before { out.new.before ≡ out.old.before }
    ensures rendition { IfOk result (λ after. after ≡ (row_sent row negative old.now new.now).negative) }
{
    if old.is_same(new) {
        return Ok(negative);
    }
    let front = front_len(new.columns());
    let negative = write_columns(out, row, negative, &old.front(front), &new.front(front))?;
    write_tail(out, row, front as u16, negative, old.rest(front).columns())
}

/// Sends the changes of all rows between two grids of one size.
pub fn write_rows(out: &mut Output, old: &Grid, new: &Grid) -> Result<bool, AllocError>
    requires height { old.now.height ≡ new.now.height }
    requires width { old.now.width ≡ new.now.width }
    ensures bytes { OnOk result (out.new.painting ≡ out.old.painting
        ++ (rows_sent new.now.height 0 new.now.width false old.now.columns new.now.columns).bytes) }
    ensures before { out.new.before ≡ out.old.before }
    ensures rendition { IfOk result (λ after. after ≡ (rows_sent new.now.height 0 new.now.width false old.now.columns new.now.columns).negative) }
{
    let mut negative = false;
    for row in 0..new.height() {
        negative = write_row(out, row, negative, &old.row(row), &new.row(row))?;
    }
    Ok(negative)
}

/// Sends all rows of a grid over blanks. `blanks` is one row of them.
pub fn write_over_blanks(
    out: &mut Output,
    blanks: &GridRowRef<'_>,
    new: &Grid,
) -> Result<bool, AllocError>
    requires { blanks.now ≡ replicate new.now.width blank }
    ensures bytes { OnOk result (out.new.painting ≡ out.old.painting
        ++ (rows_sent new.now.height 0 new.now.width false (replicate (new.now.height * new.now.width) blank) new.now.columns).bytes) }
    ensures before { out.new.before ≡ out.old.before }
    ensures rendition { IfOk result (λ after. after
        ≡ (rows_sent new.now.height 0 new.now.width false (replicate (new.now.height * new.now.width) blank) new.now.columns).negative) }
{
    let mut negative = false;
    for row in 0..new.height() {
        negative = write_row(out, row, negative, blanks, &new.row(row))?;
    }
    Ok(negative)
}
