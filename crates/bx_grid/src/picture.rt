//! A picture: a grid and a cursor in it, which the painter shows.

ghost use Rattle.std.specs.Prelude.{◌≡◌, ◌+◌, ◌-◌, ◌*◌, ◌≤◌, ◌<◌, length};
ghost use Rattle.bx_grid.specs.Picture.{PictureState};
ghost use Rattle.bx_grid.specs.Grid.{GridState, IsPicture, IsWithin};

use crate::grid::{Cell, Grid};
use std::marker::Model;

/// A grid and the cell of the cursor.
#[derive(Drop)]
pub struct Picture {
    /// What is shown.
    grid: Grid,
    /// Where the cursor is, inside the grid.
    cursor: Cell,
}

impl Model for Picture {
    ghost use Rattle.std.specs.Prelude.{◌-◌, ◌≤◌};
    ghost use Rattle.bx_grid.specs.Picture.{PictureState};
    ghost use Rattle.bx_grid.specs.Grid.{IsWithin};

    ghost Value = { PictureState };

    ghost view = { λ p. record {
      height = p.grid.height;
      width = p.grid.width;
      columns = p.grid.columns;
      row = p.cursor.line - 1;
      column = p.cursor.column - 1;
    } };

    ghost invariant = { λ p. IsWithin p.grid.height p.grid.width p.cursor.line p.cursor.column };
}

impl Picture {
    /// A picture of a grid and a cursor inside it.
    pub fn new(grid: Grid, cursor: Cell) -> Picture
        requires { IsWithin grid.height grid.width cursor.line cursor.column }
        ensures { result ≡ record { height = grid.height; width = grid.width; columns = grid.columns; row = cursor.line - 1; column = cursor.column - 1 } }
    {
        Picture { grid, cursor }
    }

    /// The grid without the cursor, borrowed.
    pub fn grid(&self) -> &Grid
        ensures grid { result.now ≡ record { height = self.now.height; width = self.now.width; columns = self.now.columns } }
        ensures picture { IsPicture self.now }
    {
        // `columns` promises what always holds of a grid.
        let _columns = self.grid.columns();
        &self.grid
    }

    /// The grid without the cursor. Allocates nothing.
    pub fn into_grid(self) -> Grid
        ensures { result ≡ record { height = self.height; width = self.width; columns = self.columns } }
    {
        self.grid
    }

    /// The cell of the cursor.
    pub fn cursor(&self) -> Cell
        ensures line { result.line ≡ self.now.row + 1 }
        ensures column { result.column ≡ self.now.column + 1 }
        ensures inside { (self.now.row < self.now.height) × (self.now.column < self.now.width) }
    {
        self.cursor
    }
}
