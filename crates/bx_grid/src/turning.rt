//! Turns columns of a grid to the other rendition, for the region or a shown match.

ghost use Rattle.std.specs.Prelude.{◌≡◌, ◌+◌, ◌-◌, ◌*◌, ◌≤◌, ◌<◌, length, map, take, drop};
ghost use Rattle.bx_grid.specs.Columns.{turned};
ghost use Rattle.bx_grid.specs.Grid.{IsBorder, paste, turned_in};
ghost use Rattle.bx_grid.specs.Seen.{all_seen};

use crate::codes::note_codes;
use crate::column::Column;
use crate::grid::Grid;

/// Turns all columns to the other rendition.
fn turn_all(columns: &mut [Column])
    ensures { all_seen columns.new ≡ map turned (all_seen columns.old) }
{
    for column in columns.iter_mut() {
        column.turn();
    }
}

/// Turns the columns from the index `from` up to `to`, without it, to the other rendition.
fn turn_columns(columns: &mut [Column], from: usize, to: usize)
    requires order { from ≤ to }
    requires inside { to ≤ length columns.old }
    ensures { all_seen columns.new ≡ turned_in (all_seen columns.old) from (to - from) }
{
    turn_all(&mut columns[from..to]);
}

impl Grid {
    /// Turns `count` columns of a row, from a column on, to the other rendition: negative if they were normal, normal if they
    /// were negative. Row and column count from 0. The columns must cover whole glyphs. Allocates nothing.
    pub fn turn(&mut self, row: u16, column: u16, count: u16)
        requires inside { row < self.old.height }
        requires fits { column + count ≤ self.old.width }
        requires begins { IsBorder (take self.old.width (drop (row * self.old.width) self.old.columns)) column }
        requires ends { IsBorder (take self.old.width (drop (row * self.old.width) self.old.columns)) (column + count) }
        ensures turned { self.new ≡ record self.old {
          columns = paste self.old.columns (row * self.old.width)
              (turned_in (take self.old.width (drop (row * self.old.width) self.old.columns)) column count);
        } }
        ensures sized { length self.old.columns ≡ self.old.height * self.old.width }
    {
        let start = row as usize * self.width as usize + column as usize;
        let stop = start + count as usize;
        turn_columns(self.columns.as_mut_slice(), start, stop);
        note_codes(self.codes.as_mut_slice(), &self.columns, start, stop);
    }
}
