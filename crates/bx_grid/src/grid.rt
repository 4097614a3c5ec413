//! A grid of columns, all of them known: what the editor draws on.

ghost use Rattle.std.specs.Prelude.{◌≡◌, ℕ, ◌*◌, ◌+◌, ◌-◌, ◌<◌, ◌≤◌, ◌↔◌, List, ◌++◌, length, replicate, take, drop, IfOk, OnOk, OnErr, IfErr, IsErrOf, IsOk};
ghost use Rattle.std.specs.Prelude.{IsTrue, true, false};
ghost use Rattle.bx_grid.specs.Columns.{blank, run_columns};
ghost use Rattle.bx_common.specs.Glyphs.{is_one_glyph, run_width};
ghost use Rattle.bx_grid.specs.Grid.{GridState, HasRoom, IsGrid, IsWithin, paste};
ghost use Rattle.bx_grid.specs.Seen.{seen, all_seen};
ghost use Rattle.bx_grid.specs.Picture.{is_size};
ghost use Rattle.bx_common.specs.Characters.{largest_side};

use crate::codes::{blank_codes, note_codes, set_column};
use crate::column::Column;
use crate::columns::{are_blank, blank_columns, put_over_blanks};
use crate::error::GridError;
use crate::glyph_run::GlyphRun;
use crate::glyph_text::SHORT;
use crate::grid_row_ref::GridRowRef;
use bx_common::{OutOfMemory, is_side, run_width};
use std::alloc::{AllocError, Global};
use std::marker::Model;

/// A cell of a grid: its line and its column.
#[derive(Clone, Copy, PartialEq, Eq)]
pub struct Cell {
    /// The row, from 1 at the top.
    pub line: u16,
    /// The column, from 1 at the left.
    pub column: u16,
}

/// A grid of columns, row by row. Each row consists of whole glyphs.
#[derive(Drop)]
pub struct Grid {
    /// Number of rows, from 1 to 500.
    pub(crate) height: u16,
    /// Number of columns of a row, from 1 to 500.
    pub(crate) width: u16,
    /// Row by row.
    pub(crate) columns: Vec<Column>,
    /// The code of each column.
    pub(crate) codes: Vec<u64>,
}

impl Model for Grid {
    ghost use Rattle.std.specs.Prelude.{◌≡◌, ◌*◌, ◌≤◌, length};
    ghost use Rattle.bx_grid.specs.Grid.{GridState, IsGrid};
    ghost use Rattle.bx_grid.specs.Codes.{codes_of};
    ghost use Rattle.bx_grid.specs.Seen.{all_seen};

    ghost Value = { GridState };

    ghost view = { λ g. record { height = g.height; width = g.width; columns = all_seen g.columns.items } };

    ghost invariant = { λ g. IsGrid g.height g.width (all_seen g.columns.items) × (g.codes.items ≡ codes_of (all_seen g.columns.items)) };
}

impl Grid {
    /// A grid of blanks, of this many rows and columns.
    ///
    /// Errors: `SizeOutOfRange` where a side is not from 1 to 500; `OutOfMemory`.
    pub fn blank(alloc: Global, height: u16, width: u16) -> Result<Grid, GridError>
        ensures ok { IfOk result (λ g. g ≡ record { height = height; width = width; columns = replicate (height * width) blank }) }
        ensures sized { OnOk result (is_size height width ≡ true) }
        ensures refused { IsErrOf result GridError.SizeOutOfRange ↔ (is_size height width ≡ false) }
    {
        if !is_side(height) || !is_side(width) {
            return Err(GridError::SizeOutOfRange);
        }
        let count = height as usize * width as usize;
        let columns = blank_columns(alloc, count)?;
        let codes = blank_codes(alloc, count)?;
        Ok(Grid {
            height,
            width,
            columns,
            codes,
        })
    }

    /// Puts a glyph at a cell, over blanks. A glyph is one character from SPACE to TILDE, which takes one column, or other
    /// text that a terminal shows as one piece: characters that are not controls and that take a column or more together
    /// (`run_width`), not all of them from SPACE to TILDE. A glyph of at most seven bytes needs no allocation.
    ///
    /// Errors: `OutOfMemory`, and nothing has changed.
    pub fn put(&mut self, cell: Cell, text: &str, negative: bool) -> Result<(), OutOfMemory>
        requires inside { IsWithin self.old.height self.old.width cell.line cell.column }
        requires glyph { is_one_glyph text.now ≡ true }
        requires room { HasRoom self.old cell.line cell.column (run_width text.now) }
        ensures ok { OnOk result (self.new ≡ record self.old {
          columns = paste self.old.columns ((cell.line - 1) * self.old.width + (cell.column - 1)) (run_columns negative text.now);
        }) }
        ensures err { OnErr result (self.new ≡ self.old) }
        ensures short { length text.now ≤ 7 → IsOk result }
    {
        let count = run_width(text);
        self.put_counted(cell, text, count, negative)
    }

    /// `put` for a glyph of known width.
    ///
    /// Errors: `OutOfMemory`, and nothing has changed.
    pub fn put_counted(
        &mut self,
        cell: Cell,
        text: &str,
        count: usize,
        negative: bool,
    ) -> Result<(), OutOfMemory>
        requires inside { IsWithin self.old.height self.old.width cell.line cell.column }
        requires glyph { is_one_glyph text.now ≡ true }
        requires counted { count ≡ run_width text.now }
        requires room { HasRoom self.old cell.line cell.column (run_width text.now) }
        ensures ok { OnOk result (self.new ≡ record self.old {
          columns = paste self.old.columns ((cell.line - 1) * self.old.width + (cell.column - 1)) (run_columns negative text.now);
        }) }
        ensures err { OnErr result (self.new ≡ self.old) }
        ensures short { length text.now ≤ 7 → IsOk result }
    {
        let index = (cell.line - 1) as usize * self.width as usize + (cell.column - 1) as usize;
        if count == 1 && text.len() <= SHORT {
            let column = Column::narrow(text, negative);
            set_column(&mut self.columns, &mut self.codes, index, column);
            return Ok(());
        }
        let alloc = *self.columns.allocator();
        let run = GlyphRun {
            text,
            width: count as u16,
            negative,
        };
        put_over_blanks(alloc, self.columns.as_mut_slice(), index, run)?;
        note_codes(
            self.codes.as_mut_slice(),
            &self.columns,
            index,
            index + count,
        );
        Ok(())
    }

    /// Whether a glyph of `count` columns may be put at a cell: it fits in the row, and covers blanks alone.
    pub fn has_room(&self, cell: Cell, count: usize) -> bool
        requires inside { IsWithin self.now.height self.now.width cell.line cell.column }
        ensures { IsTrue result ↔ HasRoom self.now cell.line cell.column count }
    {
        let column = (cell.column - 1) as usize;
        let width = self.width as usize;
        if count > width - column {
            return false;
        }
        let index = (cell.line - 1) as usize * width + column;
        are_blank(&self.columns[index..index + count])
    }

    /// The columns, row by row.
    pub fn columns(&self) -> &[Column]
        ensures columns { all_seen result.now ≡ self.now.columns }
        ensures size { length result.now ≡ self.now.height * self.now.width }
        ensures grid { IsGrid self.now.height self.now.width self.now.columns }
    {
        self.columns.as_slice()
    }

    /// A row, from 0.
    pub fn row(&self, row: u16) -> GridRowRef<'_>
        requires { row < self.now.height }
        ensures row { result ≡ take self.now.width (drop (row * self.now.width) self.now.columns) }
        ensures width { length result ≡ self.now.width }
        ensures wide { length result ≤ largest_side }
        ensures sized { length self.now.columns ≡ self.now.height * self.now.width }
    {
        let start = row as usize * self.width as usize;
        let stop = start + self.width as usize;
        GridRowRef::new(&self.columns[start..stop], &self.codes[start..stop])
    }

    /// Number of rows, from 1 to 500.
    pub fn height(&self) -> u16
        ensures height { result ≡ self.now.height }
        ensures low { 1 ≤ result }
        ensures high { result ≤ largest_side }
        ensures sized { length self.now.columns ≡ self.now.height * self.now.width }
    {
        self.height
    }

    /// Number of columns of a row, from 1 to 500.
    pub fn width(&self) -> u16
        ensures width { result ≡ self.now.width }
        ensures low { 1 ≤ result }
        ensures high { result ≤ largest_side }
    {
        self.width
    }
}
