//! Paintings of a picture: all of it, or its changes from the one before.

ghost use Rattle.std.specs.Prelude.{◌≡◌, ◌+◌, ◌-◌, ◌≤◌, ◌<◌, ◌++◌, [], length, false, IfOk, OnOk, OnErr};
ghost use Rattle.bx_grid.specs.Effects.{effects};
ghost use Rattle.bx_grid.specs.Picture.{IsIdle, PictureState, Shows};
ghost use Rattle.bx_grid.specs.Grid.{AreWholeTokens, IsGrid, IsPicture};
ghost use Rattle.bx_grid.specs.Terminal.{Terminal, reads};
ghost use Rattle.bx_common.specs.Characters.{largest_side};
ghost use Rattle.bx_paint.specs.Changed.{changed, differing};
ghost use Rattle.bx_paint.specs.Painting.{whole_bytes, changes_bytes, columns_changed, ended, render_change, move_bytes};

use crate::output::Output;
use crate::writing::{write_move, write_over_blanks, write_rendition, write_rows};
use bx_common::OutOfMemory;
use bx_grid::{Cell, Grid, Picture};
use std::alloc::{AllocError, Global};
use std::mem;

/// Initial capacity in bytes, enough for a few glyphs and moves.
const ROOM: usize = 64;

/// Sends normal rendition, and moves to the cursor. `negative` is the rendition before.
fn write_end(out: &mut Output, negative: bool, cursor: Cell) -> Result<(), AllocError>
    requires line { (1 ≤ cursor.line) × (cursor.line ≤ largest_side) }
    requires column { (1 ≤ cursor.column) × (cursor.column ≤ largest_side) }
    ensures bytes { OnOk result (out.new.painting ≡ out.old.painting ++ (render_change negative false ++ move_bytes (cursor.line - 1) (cursor.column - 1))) }
    ensures before { out.new.before ≡ out.old.before }
{
    write_rendition(out, negative, false)?;
    write_move(out, cursor.line - 1, cursor.column - 1)
}

/// Sends a whole picture.
fn write_whole(alloc: Global, out: &mut Output, picture: &Picture) -> Result<(), AllocError>
    requires { out.old.painting ≡ [] }
    ensures bytes { OnOk result (out.new.painting ≡ whole_bytes picture.now) }
    ensures before { out.new.before ≡ out.old.before }
    ensures picture { IsPicture picture.now }
{
    let grid = picture.grid();
    let cursor = picture.cursor();
    let Ok(blanks) = Grid::blank(alloc, 1, grid.width()) else {
        return Err(AllocError);
    };
    out.append(b"\x1b[0m\x1b[2J")?;
    let negative = write_over_blanks(out, &blanks.row(0), grid)?;
    write_end(out, negative, cursor)
}

/// Sends the changes between two pictures of one size.
fn write_changes(out: &mut Output, old: &Picture, new: &Picture) -> Result<(), AllocError>
    requires empty { out.old.painting ≡ [] }
    requires height { old.now.height ≡ new.now.height }
    requires width { old.now.width ≡ new.now.width }
    ensures bytes { OnOk result (out.new.painting ≡ changes_bytes old.now new.now) }
    ensures before { out.new.before ≡ out.old.before }
    ensures old { IsGrid old.now.height old.now.width old.now.columns }
    ensures new { IsPicture new.now }
{
    let cursor = new.cursor();
    let negative = write_rows(out, old.grid(), new.grid())?;
    if out.is_empty() && old.cursor() == cursor {
        return Ok(());
    }
    write_end(out, negative, cursor)
}

/// Appends the bytes that paint a whole picture (ECMA-48: SGR, ED, CUP and the characters). A terminal of the picture's
/// size with nothing half read then shows it, whatever else its state is.
///
/// Errors: `OutOfMemory`, and nothing is appended.
pub fn whole_into(out: &mut Vec<u8>, picture: &Picture) -> Result<(), OutOfMemory>
    ensures bytes { OnOk result (out.new.items ≡ out.old.items ++ whole_bytes picture.now) }
    ensures err { OnErr result (out.new.items ≡ out.old.items) }
    ensures shows { (t : Terminal) → IsIdle t → t.height ≡ picture.now.height → t.width ≡ picture.now.width
        → Shows (reads t (whole_bytes picture.now)) picture.now }
    ensures tokens { AreWholeTokens (whole_bytes picture.now) }
    ensures picture { IsPicture picture.now }
{
    let alloc = *out.allocator();
    let mut output = Output::behind(mem::replace(out, Vec::new(alloc)));
    match write_whole(alloc, &mut output, picture) {
        Ok(()) => {
            *out = output.into_bytes();
            Ok(())
        }
        Err(_) => {
            *out = output.into_before();
            Err(OutOfMemory)
        }
    }
}

/// Appends the bytes that change one picture into another of its size (ECMA-48: CUP, SGR, EL and the characters). A
/// terminal that shows the old picture then shows the new one.
///
/// Sends a glyph before its row's blank tail once if one of its columns differs, else never. Erases a
/// row to its end once if a column of its tail differs, else never. Appends nothing if grids and
/// cursors are equal.
///
/// Errors: `OutOfMemory`, and nothing is appended.
pub fn changes_into(out: &mut Vec<u8>, old: &Picture, new: &Picture) -> Result<(), OutOfMemory>
    requires height { old.now.height ≡ new.now.height }
    requires width { old.now.width ≡ new.now.width }
    ensures bytes { OnOk result (out.new.items ≡ out.old.items ++ changes_bytes old.now new.now) }
    ensures err { OnErr result (out.new.items ≡ out.old.items) }
    ensures shows { (t : Terminal) → Shows t old.now → Shows (reads t (changes_bytes old.now new.now)) new.now }
    ensures tokens { AreWholeTokens (changes_bytes old.now new.now) }
    ensures sends { (t : Terminal) → Shows t old.now → effects t (changes_bytes old.now new.now) ≡ changed old.now new.now }
    ensures few { length (changed old.now new.now) ≤ differing old.now.columns new.now.columns }
    ensures nothing { old.now ≡ new.now → changes_bytes old.now new.now ≡ [] }
    ensures new { IsPicture new.now }
{
    let alloc = *out.allocator();
    let mut output = Output::behind(mem::replace(out, Vec::new(alloc)));
    match write_changes(&mut output, old, new) {
        Ok(()) => {
            *out = output.into_bytes();
            Ok(())
        }
        Err(_) => {
            *out = output.into_before();
            Err(OutOfMemory)
        }
    }
}

/// The bytes that `whole_into` appends.
pub fn whole(alloc: Global, picture: &Picture) -> Result<Vec<u8>, OutOfMemory>
    ensures bytes { IfOk result (λ out. out.items ≡ whole_bytes picture.now) }
    ensures shows { IfOk result (λ out. (t : Terminal) → IsIdle t → t.height ≡ picture.now.height → t.width ≡ picture.now.width
        → Shows (reads t out.items) picture.now) }
{
    let mut out = Vec::new(alloc);
    whole_into(&mut out, picture)?;
    Ok(out)
}

/// The bytes that `changes_into` appends.
pub fn changes(alloc: Global, old: &Picture, new: &Picture) -> Result<Vec<u8>, OutOfMemory>
    requires height { old.now.height ≡ new.now.height }
    requires width { old.now.width ≡ new.now.width }
    ensures bytes { IfOk result (λ out. out.items ≡ changes_bytes old.now new.now) }
    ensures shows { IfOk result (λ out. (t : Terminal) → Shows t old.now → Shows (reads t out.items) new.now) }
    ensures sends { IfOk result (λ out. (t : Terminal) → Shows t old.now → effects t out.items ≡ changed old.now new.now) }
    ensures few { OnOk result (length (changed old.now new.now) ≤ differing old.now.columns new.now.columns) }
    ensures nothing { IfOk result (λ out. old.now ≡ new.now → out.items ≡ []) }
{
    let mut out = Vec::with_capacity(alloc, ROOM)?;
    changes_into(&mut out, old, new)?;
    Ok(out)
}
