//! Makes a picture of the rows that a line of `player` gives by `rows=`: a scene compares it with the terminal, and `paint` paints it.
//! The head of its `main.rt` describes the notation.

ghost use Rattle.std.specs.Prelude.{IsTrue};
ghost use Rattle.bx_grid.specs.Grid.{IsWithin};

use bx_common::{OutOfMemory, is_glyph, run_width};
use bx_grid::{Cell, Grid, GridError, Picture};
use std::alloc::Global;

/// Errors of building a picture from rows.
pub enum RowFault {
    /// The rows or the cursor do not fit in the window, or a character is no glyph.
    NoPicture,
    OutOfMemory,
}

impl From<GridError> for RowFault {
    fn from(error: GridError) -> Self {
        match error {
            GridError::SizeOutOfRange => RowFault::NoPicture,
            GridError::OutOfMemory => RowFault::OutOfMemory,
        }
    }
}

impl From<OutOfMemory> for RowFault {
    fn from(_error: OutOfMemory) -> Self {
        RowFault::OutOfMemory
    }
}

/// Whether a cell is in a grid.
fn is_inside(grid: &Grid, cell: Cell) -> bool
    ensures { IsTrue result → IsWithin grid.now.height grid.now.width cell.line cell.column }
{
    1 <= cell.line && cell.line <= grid.height() && 1 <= cell.column && cell.column <= grid.width()
}

/// Puts a glyph at a cell.
fn put(grid: &mut Grid, cell: Cell, text: &str, negative: bool) -> Result<(), RowFault> {
    if !is_glyph(text) || !is_inside(grid, cell) || !grid.has_room(cell, run_width(text)) {
        return Err(RowFault::NoPicture);
    }
    grid.put(cell, text, negative)?;
    Ok(())
}

/// The cell of the next glyph in a row, and whether it is negative.
#[derive(Drop)]
struct Pen {
    cell: Cell,
    negative: bool,
}

/// Puts a glyph, `_` for a blank, and moves the pen past it.
fn put_glyph(grid: &mut Grid, pen: &mut Pen, glyph: &str) -> Result<(), RowFault> {
    let text = if glyph == "_" { " " } else { glyph };
    // no row has more columns
    let columns = run_width(text).min(500) as u16;
    if pen.negative || text != " " {
        put(grid, pen.cell, text, pen.negative)?;
    }
    pen.cell.column = pen.cell.column.saturating_add(columns);
    pen.negative = false;
    Ok(())
}

/// Puts the glyphs of a row: a character each, or several characters in braces. One after a backquote is negative.
fn put_row(grid: &mut Grid, line: u16, row: &str) -> Result<(), RowFault> {
    let cell = Cell { line, column: 1 };
    let mut pen = Pen {
        cell,
        negative: false,
    };
    let mut opened: Option<usize> = None;
    for (at, c) in row.char_indices() {
        match (c, opened) {
            ('`', None) => pen.negative = true,
            ('{', None) => opened = Some(at.saturating_add(1)),
            ('}', Some(start)) => {
                let Some(glyph) = row.get(start..at) else {
                    return Err(RowFault::NoPicture);
                };
                put_glyph(grid, &mut pen, glyph)?;
                opened = None;
            }
            (_, None) => {
                let mut buffer = [0; 4];
                put_glyph(grid, &mut pen, c.encode_utf8(&mut buffer))?;
            }
            (_, Some(_)) => {}
        }
    }
    Ok(())
}

/// The grid of rows separated by bars.
fn grid_of(alloc: Global, height: u16, width: u16, rows: &str) -> Result<Grid, RowFault> {
    let mut grid = Grid::blank(alloc, height, width)?;
    let mut line: u16 = 1;
    for row in rows.split('|') {
        put_row(&mut grid, line, row)?;
        line = line.saturating_add(1);
    }
    Ok(grid)
}

/// The picture of rows separated by bars, with the cursor at a cell.
pub fn picture_of(
    alloc: Global,
    height: u16,
    width: u16,
    rows: &str,
    cursor: Cell,
) -> Result<Picture, RowFault> {
    let grid = grid_of(alloc, height, width, rows)?;
    if !is_inside(&grid, cursor) {
        return Err(RowFault::NoPicture);
    }
    Ok(Picture::new(grid, cursor))
}
